// Bodies of requests as asks.
ghost use Rattle.std.specs.Prelude.{◌≡◌, ◌⊎◌, [], None, Some, Ok, Err, true, IfOk, IfErr};
ghost use Rattle.hx_object.specs.Kinds.{is_in_cluster};
ghost use Rattle.hx_json.specs.Reading.{target_at};
ghost use Rattle.hx_model.specs.Serving.{IsServedAsk};
ghost use Rattle.hx_api.specs.Asks.{created, replaced};
ghost use Rattle.hx_api.specs.Bodies.{object_refusal, read_body, refusal_of};

use hx_json::{BodyReader, JsonFault};
use hx_model::{Ask, Refusal};
use hx_object::{Id, Kind, ObjectFault, Text};

fn object_refusal(fault: ObjectFault) -> Refusal
    ensures { result ≡ object_refusal fault }
{
    match fault {
        ObjectFault::BadName => Refusal::BadName,
        ObjectFault::BadLabel => Refusal::BadLabel,
        ObjectFault::TooManyLabels => Refusal::TooManyLabels,
        ObjectFault::TooLarge => Refusal::TooLarge,
    }
}

/// The refusal of a fault, at a path of a kind.
fn refusal_of(kind: Kind, fault: JsonFault) -> Refusal
    ensures { result ≡ refusal_of kind fault }
{
    match fault {
        JsonFault::NotJson => Refusal::NotJson,
        JsonFault::NotWhole => Refusal::NotWhole,
        JsonFault::WrongKind => Refusal::NotKind { kind },
        JsonFault::MissingMember(member) => Refusal::Missing { member },
        JsonFault::WrongType(member) => Refusal::WrongType { member },
        JsonFault::BadQuantity(member) => Refusal::NoQuantity { member },
        JsonFault::WrongPlace => Refusal::OtherPlace,
        JsonFault::Object(fault) => object_refusal(fault),
        JsonFault::NoMemory => Refusal::NoMemory,
    }
}

/// To store the object that a body says.
pub fn create(
    reader: &mut BodyReader,
    kind: Kind,
    ns: &Text,
    skip: bool,
    body: &[u8],
) -> Result<Ask, Refusal>
    requires namespace { is_in_cluster kind ≡ true → ns.now ≡ [] }
    ensures ok { IfOk result (λ ask. created kind skip (read_body (target_at kind ns.now None) body.now) ≡ Ok ask) }
    ensures refused { IfErr result (λ refusal. (refusal ≡ Refusal.NoMemory) ⊎ (created kind skip (read_body (target_at kind ns.now None) body.now) ≡ Err refusal)) }
    ensures served { IfOk result IsServedAsk }
{
    match reader.read_object(body, kind, ns, None) {
        Ok(read) => Ok(Ask::Create {
            object: read.object,
            skip,
        }),
        Err(fault) => Err(refusal_of(kind, fault)),
    }
}

/// To store the object that a body says in place of the one that is there.
pub fn replace(reader: &mut BodyReader, id: &Id, skip: bool, body: &[u8]) -> Result<Ask, Refusal>
    requires namespace { is_in_cluster id.now.kind ≡ true → id.now.ns ≡ [] }
    ensures ok { IfOk result (λ ask. replaced id.now.kind skip (read_body (target_at id.now.kind id.now.ns (Some id.now.name)) body.now) ≡ Ok ask) }
    ensures refused { IfErr result (λ refusal. (refusal ≡ Refusal.NoMemory) ⊎ (replaced id.now.kind skip (read_body (target_at id.now.kind id.now.ns (Some id.now.name)) body.now) ≡ Err refusal)) }
    ensures served { IfOk result IsServedAsk }
{
    match reader.read_object(body, id.kind, &id.ns, Some(&id.name)) {
        Ok(read) => Ok(Ask::Replace {
            object: read.object,
            expected: read.expected,
            skip,
        }),
        Err(fault) => Err(refusal_of(id.kind, fault)),
    }
}
