// What a refusal says beside its reason and its message.
ghost use Rattle.std.specs.Prelude.{◌≡◌, ◌++◌, string_bytes, OnOk};
ghost use Rattle.hx_json.specs.Pushed.{details_part, over_text, rule_text};

use super::text::{push, push_named, push_named_amount, push_named_text};
use hx_model::{Refusal, Rule};
use hx_object::{NoMemory, Text};

/// Appends the rule that was broken, where one was, and of a limit of a quota its names and its numbers.
pub fn push_details(out: &mut String, refusal: &Refusal) -> Result<(), NoMemory>
    ensures { OnOk result (string_bytes out.new ≡ string_bytes out.old ++ details_part refusal.now) }
{
    match refusal {
        Refusal::Broken { rule } => push_rule(out, *rule),
        Refusal::OverQuota {
            namespace,
            quota,
            resource,
            used,
            asked,
            hard,
        } => push_over(out, namespace, quota, resource, *used, *asked, *hard),
        _ => Ok(()),
    }
}

fn push_rule(out: &mut String, rule: Rule) -> Result<(), NoMemory>
    ensures { OnOk result (string_bytes out.new ≡ string_bytes out.old ++ rule_text rule) }
{
    push_named(out, r#","details":{"rule":"#, rule.name())?;
    push(out, "}")
}

/// Appends which limit of which quota is passed, and its numbers.
fn push_over(
    out: &mut String,
    namespace: &Text,
    quota: &Text,
    resource: &Text,
    used: u128,
    asked: u128,
    hard: u64,
) -> Result<(), NoMemory>
    ensures { OnOk result (string_bytes out.new ≡ string_bytes out.old ++ over_text namespace.now quota.now resource.now used asked hard) }
{
    push_named_amount(out, r#","details":{"asked":"#, asked)?;
    push_named_amount(out, r#","hard":"#, u128::from(hard))?;
    push_named_text(out, r#","namespace":"#, namespace)?;
    push_named_text(out, r#","quota":"#, quota)?;
    push_named_text(out, r#","resource":"#, resource)?;
    push_named_amount(out, r#","rule":"Q1","used":"#, used)?;
    push(out, "}")
}
