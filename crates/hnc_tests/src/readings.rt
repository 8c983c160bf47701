// Bodies in many forms, each read in two ways: as it is, and as serde_json prints it, with its members in order and each of them once.
ghost use Rattle.std.specs.Prelude.{IfOk};
ghost use Rattle.hx_object.specs.Faults.{IsLegal};

use hx_json::{BodyReader, JsonFault, Read, write_object};
use hx_object::{Kind, NoMemory, Object, ObjectFault, Text};
use serde_json::{Map, Value, put};
use std::alloc::Global;
use std::test::Fail;

/// Kinds that are read in ways of their own.
const KINDS: [Kind; 4] = [
    Kind::ConfigMap,
    Kind::Secret,
    Kind::HierarchyConfiguration,
    Kind::HncConfiguration,
];

/// In how many places of a body a row stands.
const PLACES: usize = 6;

/// Members that stand in each place of a body of each kind.
const ROWS: [&str; 112] = [
    // labels, annotations and what else is read of the metadata
    r#""labels":{"b":"2","a":"1"}"#,
    r#""labels":{"b":"2","a":"1","b":"3"}"#,
    r#""labels":{"a":"1"},"labels":{"c":"3","b":""}"#,
    r#""labels":{"a":1},"labels":null"#,
    r#""labels":{"a":1}"#,
    r#""labels":{"a":1,"a":"1"}"#,
    r#""labels":{"a":null}"#,
    r#""labels":{}"#,
    r#""labels":[]"#,
    r#""annotations":{"b":"\n\u0000","a":"\ud83d\ude00"},"labels":{}"#,
    r#""annotations":{"\u0061":"1","a":"2"}"#,
    r#""annotations":{"a/b":"\/","a\/b":"\\/"}"#,
    r#""annotations":null,"labels":{"\u0062":"","a":""}"#,
    r#""annotations":{"A.B/c":"x","a.b/c":"y"}"#,
    r#""labels":{"A.B/c":"x"}"#,
    r#""labels":{"-":"x"}"#,
    r#""name":"y""#,
    r#""name":1"#,
    r#""name":null"#,
    r#""nam\u0065":"\u0078""#,
    r#""namespace":"a","name":"y""#,
    r#""namespace":"b","namespace":"a""#,
    r#""namespace":"b""#,
    r#""namespace":1,"namespace":"\u0061""#,
    r#""resourceVersion":"7","resourceVersion":"x""#,
    r#""resourceVersion":7"#,
    r#""managedFields":[{"b":0,"a":[]}],"uid":"","\u006ca\u0062els":{"a":"1"}"#,
    r#""managedFields":1.5,"managedFields":1"#,
    // members out of order, and twice, at some depths
    r#""data":{}"#,
    r#""data":{},"data":[]"#,
    r#""z":1,"a":2,"l":3"#,
    r#""z":1,"a":2,"z":3,"a":4"#,
    r#""data":{"b":{"d":1,"c":2},"a":{"f":3,"e":4}}"#,
    r#""data":{"b":{"d":1,"c":2,"d":3},"a":[{"f":3,"e":4,"f":5}],"b":{"h":1,"g":2}}"#,
    r#""a":[[],{},[{}],{"x":[]}],"b":null,"c":[true,false,null]"#,
    r#""status":{"b":1,"a":2},"spec":{"b":1,"a":2}"#,
    r#""apiVersio":1,"apiVersion ":2,"apiVersioo":3,"kine":4,"kinc":5,"metadatb":6,"metadat":7"#,
    // escapes
    r#""b":"","a":" ","":"x","\u0000":"""#,
    r#""\u0061":1,"a":2,"\u0061":3"#,
    r#""\u00e9":1,"é":2,"\ud83d\ude00":3,"😀":4"#,
    r#""\uffff":1,"\ud800\udc00":2,"\u007f":3,"\u0080":4"#,
    r#""a\/b":1,"a/b":2,"a\"b":3,"a\\b":4"#,
    r#""a":"\"\\\/\b\f\n\r\t","b":"\u0022\u005c\u002f\u0008\u000c\u000a\u000d\u0009""#,
    r#""a":"\u001f\u007f\u0080\u2028\uffff","b":"\u001F\u007F\u00aB""#,
    r#""a":"\ud83d\ude00\uD83D\uDE00😀""#,
    r#""a":"\ud83d""#,
    r#""a":"\ude00\ud83d""#,
    r#""a":"\ud83dx""#,
    r#""a":"\u12""#,
    r#""a":"\x""#,
    "\"a\":\"\t\"",
    "\"a\":\"\u{7f}\u{80}\"",
    // the members by which a body is known
    r#""kin\u0064":"ConfigMap","k":1"#,
    r#""kin\u0064":"Secret""#,
    r#""kind":"Secret","kind":"ConfigMap""#,
    r#""kind":null"#,
    r#""apiVersion":1,"apiVersio\u006e":"v1","d":1"#,
    r#""metadata":1,"metadat\u0061":{"name":"x"}"#,
    r#""metadata":{"name":"y","labels":{"a":"1"}},"metadata":{"name":"x"}"#,
    r#""metadat\u0061":{}"#,
    r#""type":"kubernetes.io/service-account-token""#,
    r#""type":"kubernetes.io\/service-account-token","type":"Opaque""#,
    r#""type":1"#,
    r#""type":null"#,
    // numbers
    r#""a":0,"b":-1,"c":9223372036854775807,"d":-9223372036854775808,"e":18446744073709551615"#,
    r#""a":-0"#,
    r#""a":-0,"a":0"#,
    r#""a":1e2"#,
    r#""a":1E+2,"a":100"#,
    r#""a":1.0"#,
    r#""a":[1.0],"a":[1]"#,
    r#""a":{"b":0.5,"b":5}"#,
    r#""a":{"b":5,"b":0.5}"#,
    r#""a":9223372036854775808"#,
    r#""a":18446744073709551616"#,
    r#""a":-9223372036854775809"#,
    r#""a":1e400"#,
    r#""a":1e400,"a":1"#,
    r#""a":00"#,
    r#""a":01"#,
    r#""a":-"#,
    r#""a":1."#,
    r#""a":.5"#,
    r#""a":+1"#,
    // what is no JSON, and blanks
    r#""a":NaN"#,
    r#""a":tru"#,
    r#""a":[1,]"#,
    r#""a":{"b":1,}"#,
    r#""a":{b:1}"#,
    "\n\"a\"\t:\r[ 1 ,\n{ } , [ ] ] , \"b\" : { \"c\" : null }",
    // what is read of the spec of a HierarchyConfiguration
    r#""spec":{"parent":"p"},"spec":{"allowCascadingDeletion":true}"#,
    r#""spec":null"#,
    r#""spec":[]"#,
    r#""spec":1,"spe\u0063":{}"#,
    r#""parent":"p","parent":"q""#,
    r#""parent":1,"parent":"q""#,
    r#""parent":"p","parent":null"#,
    r#""paren\u0074":"\u0070""#,
    r#""allowCascadingDeletion":true,"parent":"p","allowCascadingDeletion":false"#,
    r#""allowCascadingDeletion":1,"parent":1"#,
    r#""z":{"parent":"q"},"parent":"p","a":[{"parent":"r"}]"#,
    // and of that of an HNCConfiguration
    r#""resources":[]"#,
    r#""resources":{}"#,
    r#""resources":[{"resource":"r","mode":"Ignore","group":"g"}]"#,
    r#""resources":[{"mode":"Remove","resource":"r","mode":"Ignore","resource":"s"}]"#,
    r#""resources":[{"resource":"r"}],"resources":[{"resource":"s"},{"resource":"t","mode":""}]"#,
    r#""resources":[{"resource":"r","mode":"Other"},{"resource":1}]"#,
    r#""resources":[{"resource":"r","group":1},{}]"#,
    r#""resources":[{"resource":"r","group":null,"mode":null}]"#,
    r#""resources":[1]"#,
    r#""resources":[{"\u0072esource":"r","z":{"resource":"x"}}]"#,
    r#""resources":1,"resources":[{"z":1.5,"z":0,"resource":"r"}]"#,
];

/// The body of an object of a kind, with a row's members in one of the places.
fn body(alloc: Global, kind: Kind, row: &str, place: usize) -> Result<String, NoMemory> {
    let version = kind.api_version();
    let kind = kind.name();
    Ok(match place {
        0 => format!(in alloc;
            "{{{row},\"apiVersion\":\"{version}\",\"kind\":\"{kind}\",\"metadata\":{{\"name\":\"x\"}}}}"
        )?,
        1 => format!(in alloc;
            "{{\"metadata\":{{\"name\":\"x\"}},{row},\"kind\":\"{kind}\",\"apiVersion\":\"{version}\"}}"
        )?,
        2 => format!(in alloc;
            "{{\"kind\":\"{kind}\",\"metadata\":{{\"name\":\"x\"}},\"apiVersion\":\"{version}\",{row}}}"
        )?,
        3 => format!(in alloc;
            "{{\"metadata\":{{{row},\"name\":\"x\"}},\"kind\":\"{kind}\",\"apiVersion\":\"{version}\"}}"
        )?,
        4 => format!(in alloc;
            "{{\"apiVersion\":\"{version}\",\"kind\":\"{kind}\",\"metadata\":{{\"name\":\"x\",{row}}}}}"
        )?,
        _ => format!(in alloc;
            "{{\"spec\":{{{row}}},\"apiVersion\":\"{version}\",\"metadata\":{{\"name\":\"x\"}},\"kind\":\"{kind}\"}}"
        )?,
    })
}

/// How a body of a POST is read. A kind that isn't among those above is read as a ConfigMap.
fn read(alloc: Global, reader: &mut BodyReader, kind: Kind, body: &str) -> Result<Read, JsonFault>
    ensures { IfOk result (λ r. IsLegal r.object) }
{
    let body = body.as_bytes();
    let nowhere = Text::of(alloc, "")?;
    let ns = Text::of(alloc, "a")?;
    match kind {
        Kind::HncConfiguration => reader.read_object(body, Kind::HncConfiguration, &nowhere, None),
        Kind::HierarchyConfiguration => {
            reader.read_object(body, Kind::HierarchyConfiguration, &ns, None)
        }
        Kind::Secret => reader.read_object(body, Kind::Secret, &ns, None),
        _ => reader.read_object(body, Kind::ConfigMap, &ns, None),
    }
}

/// A word for each fault, and the member that it names.
fn told(fault: &JsonFault) -> (&str, &str) {
    match fault {
        JsonFault::NotJson => ("not json", ""),
        JsonFault::NotWhole => ("not whole", ""),
        JsonFault::WrongKind => ("wrong kind", ""),
        JsonFault::MissingMember(member) => ("missing", member.as_str()),
        JsonFault::WrongType(member) => ("wrong type", member.as_str()),
        JsonFault::BadQuantity(member) => ("bad quantity", member.as_str()),
        JsonFault::WrongPlace => ("wrong place", ""),
        JsonFault::Object(ObjectFault::BadName) => ("bad name", ""),
        JsonFault::Object(ObjectFault::BadLabel) => ("bad label", ""),
        JsonFault::Object(ObjectFault::TooManyLabels) => ("too many labels", ""),
        JsonFault::Object(ObjectFault::TooLarge) => ("too large", ""),
        JsonFault::NoMemory => ("no memory", ""),
    }
}

/// Whether the two are one object and one expected version, or one fault.
fn are_same(one: &Result<Read, JsonFault>, other: &Result<Read, JsonFault>) -> bool {
    match (one, other) {
        (Ok(one), Ok(other)) => {
            one.object.is_same(&other.object) && one.expected == other.expected
        }
        (Err(one), Err(other)) => told(one) == told(other),
        _ => false,
    }
}

/// Whether a member of the metadata that is given is kept.
fn is_kept(member: &Value) -> bool {
    match member {
        Value::Object(pairs) => !pairs.is_empty(),
        _ => member.is_string(),
    }
}

/// The metadata of an object in the namespace `a`, by that which its body gives.
fn metadata(alloc: Global, given: Option<&Value>) -> Result<Map<String, Value>, NoMemory> {
    let mut map = Map::new(alloc);
    put(
        &mut map,
        alloc,
        "namespace",
        Value::try_from_str(alloc, "a")?,
    )?;
    let version = Value::try_from_str(alloc, "0")?;
    put(&mut map, alloc, "resourceVersion", version)?;
    for name in ["annotations", "labels", "name"] {
        let member = given.and_then(|metadata| metadata.get(name));
        if let Some(member) = member
            && is_kept(member)
        {
            put(&mut map, alloc, name, member.clone()?)?;
        }
    }
    Ok(map)
}

/// The text of the object that a body of a ConfigMap or a Secret says, as serde_json prints its value.
fn printed(alloc: Global, body: &str) -> Result<String, NoMemory> {
    let Ok(Value::Object(mut members)) = Value::from_str(alloc, body) else {
        return Ok(String::new(alloc));
    };
    let metadata = metadata(alloc, members.get("metadata"))?;
    put(&mut members, alloc, "metadata", Value::Object(metadata))?;
    Ok(Value::Object(members).to_string(alloc)?)
}

/// Whether an object that a body says has the text that serde_json prints.
fn is_printed(alloc: Global, object: &Object, body: &str) -> Result<bool, NoMemory>
    requires { IsLegal object.now }
{
    let written = write_object(alloc, object)?;
    let printed = printed(alloc, body)?;
    Ok(written.as_str() == printed.as_str())
}

/// The same where a body says an object of a kind that keeps its members as they came. Of others nothing is asked.
fn is_written(
    alloc: Global,
    reader: &mut BodyReader,
    kind: Kind,
    body: &str,
) -> Result<bool, NoMemory> {
    if !matches!(kind, Kind::ConfigMap | Kind::Secret) {
        return Ok(true);
    }
    match read(alloc, reader, kind, body) {
        Ok(read) => is_printed(alloc, &read.object, body),
        Err(_) => Ok(true),
    }
}

/// A body as serde_json prints it again, or nothing where it isn't JSON.
fn reprinted(alloc: Global, body: &str) -> Result<Option<String>, NoMemory> {
    match Value::from_str(alloc, body) {
        Ok(value) => Ok(Some(value.to_string(alloc)?)),
        Err(_) => Ok(None),
    }
}

/// Whether a body is read as its print is.
fn is_read(
    alloc: Global,
    reader: &mut BodyReader,
    kind: Kind,
    body: &str,
    print: &Option<String>,
) -> bool {
    let found = read(alloc, reader, kind, body);
    match print {
        Some(print) => are_same(&found, &read(alloc, reader, kind, print.as_str())),
        None => matches!(&found, Err(JsonFault::NotJson)),
    }
}

/// Whether a body is read as serde_json's print of it is, and what it says is written as serde_json prints it.
fn is_alike(
    alloc: Global,
    reader: &mut BodyReader,
    kind: Kind,
    body: &str,
) -> Result<bool, NoMemory> {
    let print = reprinted(alloc, body)?;
    Ok(is_read(alloc, reader, kind, body, &print) && is_written(alloc, reader, kind, body)?)
}

/// The first place in which a row isn't read alike, or how many there are.
fn first_unlike(
    alloc: Global,
    reader: &mut BodyReader,
    kind: Kind,
    row: &str,
) -> Result<usize, NoMemory> {
    for place in 0..PLACES {
        let body = body(alloc, kind, row, place)?;
        if !is_alike(alloc, reader, kind, body.as_str())? {
            return Ok(place);
        }
    }
    Ok(PLACES)
}

#[test]
fn rows_are_read_alike(rt: HostRuntime) -> Result<(), Fail> {
    let mut reader = BodyReader::new(rt.alloc());
    for kind in KINDS {
        for row in ROWS {
            let place = first_unlike(rt.alloc(), &mut reader, kind, row)?;
            assert_eq!(rt; place, PLACES, "{row}");
        }
    }
    Ok(())
}

/// Members of a ConfigMap that stand in each order.
const MOVED: [&str; 6] = [
    r#""apiVersion":"v1""#,
    r#""kind":"ConfigMap""#,
    r#""metadata":{"name":"x","labels":{"b":"2","a":"1"}}"#,
    r#""z":{},"a":[{"c":1,"b":2}]"#,
    r#""data":{"l":"","k":"v"}"#,
    r#""l":0"#,
];

/// How many orders they have.
const ORDERS: usize = 720;

/// The body with the members in an order, of which the last stands at the beginning, too, where it is told so.
fn ordered(alloc: Global, order: usize, twice: bool) -> Result<String, NoMemory> {
    let mut left = Vec::from_slice(alloc, MOVED.as_slice())?;
    let mut order = order;
    let mut text = String::new(alloc);
    for _ in 0..MOVED.len() {
        if left.is_empty() {
            break;
        }
        let member = left.remove(order % left.len());
        order /= left.len() + 1;
        if twice && left.is_empty() {
            let whole = format!(in alloc; "{member},{}", text.as_str())?;
            text = whole;
        }
        text.push_str(member)?;
        text.push(',')?;
    }
    let members = text.as_str().trim_end_matches(',');
    Ok(format!(in alloc; "{{{members}}}")?)
}

#[test]
fn orders_are_read_alike(rt: HostRuntime) -> Result<(), Fail> {
    let mut reader = BodyReader::new(rt.alloc());
    for order in 0..ORDERS {
        for twice in [false, true] {
            let body = ordered(rt.alloc(), order, twice)?;
            let is_alike = is_alike(rt.alloc(), &mut reader, Kind::ConfigMap, body.as_str())?;
            assert!(rt; is_alike, "order {order}");
        }
    }
    Ok(())
}

/// A body in which so many lists nest in a member.
fn nested(alloc: Global, depth: usize) -> Result<String, NoMemory> {
    let open = vec![in alloc; b'['; depth]?;
    let close = vec![in alloc; b']'; depth]?;
    let open = String::from_utf8_lossy(alloc, open.as_slice())?;
    let close = String::from_utf8_lossy(alloc, close.as_slice())?;
    let row = format!(in alloc; "\"data\":{}{}", open.as_str(), close.as_str())?;
    body(alloc, Kind::ConfigMap, row.as_str(), 0)
}

#[test]
fn depths_are_read_alike(rt: HostRuntime) -> Result<(), Fail> {
    let mut reader = BodyReader::new(rt.alloc());
    // the body itself is the first of at most 127
    for (lists, is_read) in [
        (1, true),
        (125, true),
        (126, true),
        (127, false),
        (128, false),
    ] {
        let body = nested(rt.alloc(), lists)?;
        let found = read(rt.alloc(), &mut reader, Kind::ConfigMap, body.as_str());
        assert_eq!(rt; found.is_ok(), is_read, "{lists} lists");
        let is_alike = is_alike(rt.alloc(), &mut reader, Kind::ConfigMap, body.as_str())?;
        assert!(rt; is_alike, "{lists} lists");
    }
    Ok(())
}
