// What is reported of quotas, and the brace that ends the object.
ghost use Rattle.std.specs.Prelude.{◌≡◌, ◌++◌, string_bytes, OnOk};
ghost use Rattle.hx_json.specs.Pushed.{hard_text, usages_rest, used_text};

use super::text::{push, push_comma_if, push_named_amount, push_text};
use hx_object::{NoMemory, Usage};

/// What is reported of a quota, where anything is.
pub fn push_usages(out: &mut String, usages: &[Usage]) -> Result<(), NoMemory>
    ensures { OnOk result (string_bytes out.new ≡ string_bytes out.old ++ usages_rest usages.now) }
{
    if usages.is_empty() {
        return push(out, "}");
    }
    push(out, r#","status":{"hard":{"#)?;
    push_hard(out, usages)?;
    push(out, r#","used":{"#)?;
    push_used(out, usages)?;
    push(out, "}}")
}

/// Appends the limits and the brace behind them.
fn push_hard(out: &mut String, usages: &[Usage]) -> Result<(), NoMemory>
    ensures { OnOk result (string_bytes out.new ≡ string_bytes out.old ++ hard_text usages.now) }
{
    let mut later = false;
    for usage in usages {
        push_comma_if(out, later)?;
        push_text(out, &usage.resource)?;
        push_named_amount(out, ":", u128::from(usage.hard))?;
        later = true;
    }
    push(out, "}")
}

/// Appends what is used of them and the brace behind it.
fn push_used(out: &mut String, usages: &[Usage]) -> Result<(), NoMemory>
    ensures { OnOk result (string_bytes out.new ≡ string_bytes out.old ++ used_text usages.now) }
{
    let mut later = false;
    for usage in usages {
        push_comma_if(out, later)?;
        push_text(out, &usage.resource)?;
        push_named_amount(out, ":", usage.used)?;
        later = true;
    }
    push(out, "}")
}
