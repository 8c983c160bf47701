// A body that is read and written again, with ample memory. The faults of bodies and the texts of all answers stand in the table of requests.
ghost use Rattle.std.specs.Prelude.{IfOk};
ghost use Rattle.hx_object.specs.Faults.{IsLegal};

use hx_json::{BodyReader, JsonFault, Read, law_of_texts, write_object};
use hx_object::{Kind, Object, Text};
use std::alloc::Global;

/// What a PUT of the ConfigMap `a/x` says.
const SAID: &str =
    r#"{"metadata":{"name":"x","resourceVersion":"7"},"kind":"ConfigMap","data":1,"apiVersion":"v1"}"#;

/// What reading it gives.
pub fn read(alloc: Global) -> Result<Read, JsonFault>
    ensures { IfOk result (λ r. IsLegal r.object) }
{
    let ns = Text::of(alloc, "a")?;
    let name = Text::of(alloc, "x")?;
    BodyReader::new(alloc).read_object(SAID.as_bytes(), Kind::ConfigMap, &ns, Some(&name))
}

/// Whether the two are one object. Where their texts are the same, a theorem says so.
fn are_same(one: &Object, other: &Object) -> bool
    requires one { IsLegal one.now }
    requires other { IsLegal other.now }
{
    law_of_texts(one, other);
    one.is_same(other)
}

/// How many bytes the text has of the object that the body says.
fn written(alloc: Global) -> Result<usize, JsonFault> {
    let read = read(alloc)?;
    let text = write_object(alloc, &read.object)?;
    Ok(if are_same(&read.object, &read.object) {
        text.as_str().len()
    } else {
        0
    })
}

#[test]
fn a_body_is_read_and_written(rt: HostRuntime) {
    // {"apiVersion":"v1","data":1,"kind":"ConfigMap","metadata":{"name":"x","namespace":"a","resourceVersion":"0"}}
    assert!(rt; matches!(written(rt.alloc()), Ok(109)));
}
