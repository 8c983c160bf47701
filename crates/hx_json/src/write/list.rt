// Lists of objects as compact JSON.
ghost use Rattle.std.specs.Prelude.{◌≡◌, ◌++◌, false, string_bytes, OnOk};
ghost use Rattle.std.specs.List.{AllByRecursion};
ghost use Rattle.serde_json.specs.Written.{items_text};
ghost use Rattle.hx_object.specs.Faults.{IsLegal};
ghost use Rattle.hx_model.specs.Json.{objects_items, list_text};

use super::object::push_object;
use super::text::{push, push_api_version, push_comma_if, push_named_number};
use hx_object::{Kind, NoMemory, Shared};

/// Appends the text of a list of objects of one kind, with the version that the store has.
pub fn push_list(
    out: &mut String,
    kind: Kind,
    objects: &[Shared],
    version: u64,
) -> Result<(), NoMemory>
    requires { AllByRecursion IsLegal objects.now }
    ensures { OnOk result (string_bytes out.new ≡ string_bytes out.old ++ list_text kind objects.now version) }
{
    push_api_version(out, r#"{"apiVersion":"#, kind)?;
    push(out, r#","items":["#)?;
    push_objects(out, objects)?;
    push(out, r#","kind":""#)?;
    push(out, kind.name())?;
    push_named_number(out, r#"List","metadata":{"resourceVersion":"#, version)?;
    push(out, "}}")
}

/// Appends objects and the bracket behind them.
#[tactic(auto, unfolding(hx_object::specs::Json::object_text))]
fn push_objects(out: &mut String, objects: &[Shared]) -> Result<(), NoMemory>
    requires { AllByRecursion IsLegal objects.now }
    ensures { OnOk result (string_bytes out.new ≡ string_bytes out.old ++ items_text false (objects_items objects.now)) }
{
    let mut later = false;
    for object in objects {
        push_comma_if(out, later)?;
        push_object(out, object.object())?;
        later = true;
    }
    push(out, "]")
}
