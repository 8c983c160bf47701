// What objects hold beside their metadata, by their kinds: each member with a comma in front, and the brace that ends the object.
ghost use Rattle.std.specs.Prelude.{◌≡◌, ◌++◌, true, false, string_bytes, OnOk};
ghost use Rattle.serde_json.specs.Written.{compact_text, items_text, members_text};
ghost use Rattle.hx_object.specs.Json as json;
ghost use Rattle.hx_object.specs.declared.object.Payload.TheVariants as PayloadOf;
ghost use Rattle.hx_json.specs.Pushed.{conditions_alone, conditions_behind, config_rest, namespace_rest, quota_spec, spec_alone, spec_front, spec_part, status_rest};

use super::text::{push, push_comma_if, push_named, push_named_text, push_text};
use hx_object::{AnchorStatus, Condition, Limit, ModeEntry, NoMemory, Text};

#[tactic(auto, unfolding(crate::specs::Pushed::namespace_rest))]
pub fn push_namespace(out: &mut String, terminating: bool) -> Result<(), NoMemory>
    ensures { OnOk result (string_bytes out.new ≡ string_bytes out.old ++ namespace_rest terminating) }
{
    push(
        out,
        if terminating {
            r#","status":{"phase":"Terminating"}}"#
        } else {
            r#","status":{"phase":"Active"}}"#
        },
    )
}

/// The anchor's status, where there is one.
pub fn push_anchor(out: &mut String, status: Option<AnchorStatus>) -> Result<(), NoMemory>
    ensures { OnOk result (string_bytes out.new ≡ string_bytes out.old ++ members_text true (json.own_members (PayloadOf.Anchor status))) }
{
    push(out, anchor_rest(status))
}

#[tactic(auto, unfolding(json::specs::Print::escape_byte))]
fn anchor_rest(status: Option<AnchorStatus>) -> &'static str
    ensures { result.now ≡ members_text true (json.own_members (PayloadOf.Anchor status)) }
{
    match status {
        None => "}",
        Some(AnchorStatus::Missing) => r#","status":{"status":"Missing"}}"#,
        Some(AnchorStatus::Ok) => r#","status":{"status":"Ok"}}"#,
        Some(AnchorStatus::Conflict) => r#","status":{"status":"Conflict"}}"#,
        Some(AnchorStatus::Forbidden) => r#","status":{"status":"Forbidden"}}"#,
    }
}

pub fn push_config(out: &mut String, entries: &[ModeEntry]) -> Result<(), NoMemory>
    ensures { OnOk result (string_bytes out.new ≡ string_bytes out.old ++ config_rest entries.now) }
{
    push(out, r#","spec":{"resources":["#)?;
    push_entries(out, entries)?;
    push(out, "}}")
}

/// Appends entries and the bracket behind them.
fn push_entries(out: &mut String, entries: &[ModeEntry]) -> Result<(), NoMemory>
    ensures { OnOk result (string_bytes out.new ≡ string_bytes out.old ++ items_text false (json.entries_items entries.now)) }
{
    let mut later = false;
    for entry in entries {
        push_comma_if(out, later)?;
        push_entry(out, entry)?;
        later = true;
    }
    push(out, "]")
}

#[tactic(auto, unfolding(json::specs::Print::escape_byte))]
fn push_entry(out: &mut String, entry: &ModeEntry) -> Result<(), NoMemory>
    ensures { OnOk result (string_bytes out.new ≡ string_bytes out.old ++ compact_text (json.entry_data entry.now)) }
{
    push_named_text(out, r#"{"group":"#, &entry.group)?;
    push_named(out, r#","mode":"#, entry.mode.name())?;
    push_named_text(out, r#","resource":"#, &entry.resource)?;
    push(out, "}")
}

/// What is asked of a HierarchyConfiguration.
pub fn push_hierarchy_spec(
    out: &mut String,
    parent: &Option<Text>,
    cascade: bool,
) -> Result<(), NoMemory>
    ensures { OnOk result (string_bytes out.new ≡ string_bytes out.old ++ spec_part parent.now cascade) }
{
    let Some(parent) = parent else {
        return push_spec_alone(out, cascade);
    };
    push_spec_front(out, cascade)?;
    push_text(out, parent)?;
    push(out, "}")
}

/// Appends a `spec` that names no parent.
fn push_spec_alone(out: &mut String, cascade: bool) -> Result<(), NoMemory>
    ensures { OnOk result (string_bytes out.new ≡ string_bytes out.old ++ spec_alone cascade) }
{
    push(
        out,
        if cascade {
            r#","spec":{"allowCascadingDeletion":true}"#
        } else {
            r#","spec":{}"#
        },
    )
}

/// Appends a `spec` up to its parent.
fn push_spec_front(out: &mut String, cascade: bool) -> Result<(), NoMemory>
    ensures { OnOk result (string_bytes out.new ≡ string_bytes out.old ++ spec_front cascade) }
{
    push(
        out,
        if cascade {
            r#","spec":{"allowCascadingDeletion":true,"parent":"#
        } else {
            r#","spec":{"parent":"#
        },
    )
}

/// What is reported of a HierarchyConfiguration, where anything is.
pub fn push_hierarchy_status(
    out: &mut String,
    children: &[Text],
    conditions: &[Condition],
) -> Result<(), NoMemory>
    ensures { OnOk result (string_bytes out.new ≡ string_bytes out.old ++ status_rest children.now conditions.now) }
{
    if children.is_empty() {
        return push_conditions_alone(out, conditions);
    }
    push(out, r#","status":{"children":["#)?;
    push_texts(out, children)?;
    push_conditions_behind(out, conditions)?;
    push(out, "}}")
}

/// Appends texts and the bracket behind them.
fn push_texts(out: &mut String, texts: &[Text]) -> Result<(), NoMemory>
    ensures { OnOk result (string_bytes out.new ≡ string_bytes out.old ++ items_text false (json.texts_items texts.now)) }
{
    let mut later = false;
    for text in texts {
        push_comma_if(out, later)?;
        push_text(out, text)?;
        later = true;
    }
    push(out, "]")
}

fn push_conditions_alone(out: &mut String, conditions: &[Condition]) -> Result<(), NoMemory>
    ensures { OnOk result (string_bytes out.new ≡ string_bytes out.old ++ conditions_alone conditions.now) }
{
    if conditions.is_empty() {
        return push(out, "}");
    }
    push(out, r#","status":{"conditions":["#)?;
    push_conditions(out, conditions)?;
    push(out, "}}")
}

fn push_conditions_behind(out: &mut String, conditions: &[Condition]) -> Result<(), NoMemory>
    ensures { OnOk result (string_bytes out.new ≡ string_bytes out.old ++ conditions_behind conditions.now) }
{
    if conditions.is_empty() {
        return Ok(());
    }
    push(out, r#","conditions":["#)?;
    push_conditions(out, conditions)
}

/// Appends conditions and the bracket behind them.
fn push_conditions(out: &mut String, conditions: &[Condition]) -> Result<(), NoMemory>
    ensures { OnOk result (string_bytes out.new ≡ string_bytes out.old ++ items_text false (json.conditions_items conditions.now)) }
{
    let mut later = false;
    for condition in conditions {
        push_comma_if(out, later)?;
        push(out, condition_text(*condition))?;
        later = true;
    }
    push(out, "]")
}

#[tactic(auto, unfolding(json::specs::Print::escape_byte))]
fn condition_text(condition: Condition) -> &'static str
    ensures { result.now ≡ compact_text (json.condition_data condition) }
{
    match condition {
        Condition::InCycle => {
            r#"{"message":"the namespace is its own ancestor","reason":"InCycle","status":"True","type":"ActivitiesHalted"}"#
        }
        Condition::ParentMissing => {
            r#"{"message":"the parent does not exist","reason":"ParentMissing","status":"True","type":"ActivitiesHalted"}"#
        }
        Condition::IllegalParent => {
            r#"{"message":"the parent is excluded","reason":"IllegalParent","status":"True","type":"ActivitiesHalted"}"#
        }
        Condition::Ancestor => {
            r#"{"message":"an ancestor is halted","reason":"AncestorHaltActivities","status":"True","type":"ActivitiesHalted"}"#
        }
        Condition::AnchorMissing => {
            r#"{"message":"the parent has no anchor of this name","reason":"SubnamespaceAnchorMissing","status":"True","type":"BadConfiguration"}"#
        }
    }
}

/// The limits of a quota.
pub fn push_quota_spec(out: &mut String, hard: &[Limit]) -> Result<(), NoMemory>
    ensures { OnOk result (string_bytes out.new ≡ string_bytes out.old ++ quota_spec hard.now) }
{
    push(out, r#","spec":{"hard":{"#)?;
    push_limits(out, hard)?;
    push(out, "}")
}

/// Appends limits and the brace behind them.
fn push_limits(out: &mut String, limits: &[Limit]) -> Result<(), NoMemory>
    ensures { OnOk result (string_bytes out.new ≡ string_bytes out.old ++ members_text false (json.limits_members limits.now)) }
{
    let mut later = false;
    for limit in limits {
        push_comma_if(out, later)?;
        push_text(out, &limit.resource)?;
        push_named_text(out, ":", &limit.written)?;
        later = true;
    }
    push(out, "}")
}
