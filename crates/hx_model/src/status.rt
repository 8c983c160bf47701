// What a refusal says.
ghost use Rattle.std.specs.Prelude.{◌≡◌, ◌++◌, OnOk, string_bytes};
ghost use Rattle.hx_object.specs.Kinds.{name_of};
ghost use Rattle.hx_model.specs.Messages.{text_of};
ghost use Rattle.hx_model.specs.Replies.{rule_row, said_of, message_about, version_message, quota_message, gone_message};

use crate::{Reason, Rule};
use hx_object::{Kind, NoMemory, Text};
use hx_quantity::print;

/// What the table of refusals says of one: the reason in one word, and what is said to whom asked.
#[derive(Drop)]
pub struct RefusalStatus<'a> {
    pub reason: Reason,
    pub message: Message<'a>,
}

/// The form of what is said. Its texts are the table's or the refusal's.
#[derive(Drop)]
pub enum Message<'a> {
    Said(&'a str),
    /// Two texts, one after the other.
    Joined(&'a str, &'a str),
    /// A resource and a name in quotes, and what is said of it.
    About {
        kind: Kind,
        name: &'a str,
        said: &'a str,
    },
    /// The version that a name has.
    HasVersion {
        kind: Kind,
        name: &'a str,
        version: u64,
    },
    /// The version up to which events are gone.
    EventsGone {
        floor: u64,
    },
    /// The limit of a quota that is passed, with amounts in thousandths.
    OverQuota {
        namespace: &'a str,
        quota: &'a str,
        resource: &'a str,
        used: u128,
        asked: u128,
        hard: u64,
    },
}

impl Message<'_> {
    /// Appends the text.
    pub fn push(&self, out: &mut String) -> Result<(), NoMemory>
        ensures { OnOk result (string_bytes out.new ≡ string_bytes out.old ++ text_of self.now) }
    {
        match self {
            Message::Said(text) => Ok(out.push_str(text)?),
            Message::Joined(front, back) => push_joined(out, front, back),
            Message::About { kind, name, said } => push_about(out, *kind, name, said),
            Message::HasVersion {
                kind,
                name,
                version,
            } => push_version(out, *kind, name, *version),
            Message::EventsGone { floor } => push_gone(out, *floor),
            Message::OverQuota {
                namespace,
                quota,
                resource,
                used,
                asked,
                hard,
            } => push_over_quota(out, namespace, quota, resource, *used, *asked, *hard),
        }
    }
}

#[tactic(auto, unfolding(crate::specs::Replies::said_of))]
fn push_joined(out: &mut String, front: &str, back: &str) -> Result<(), NoMemory>
    ensures { OnOk result (string_bytes out.new ≡ string_bytes out.old ++ said_of front.now back.now) }
{
    Ok(write!(out, "{front}{back}")?)
}

#[tactic(auto, unfolding(crate::specs::Replies::message_about))]
fn push_about(out: &mut String, kind: Kind, name: &str, said: &str) -> Result<(), NoMemory>
    ensures { OnOk result (string_bytes out.new ≡ string_bytes out.old ++ message_about kind name.now said.now) }
{
    let resource = kind.resource();
    Ok(write!(out, "{resource} \"{name}\" {said}")?)
}

#[tactic(auto, unfolding(crate::specs::Replies::version_message))]
fn push_version(out: &mut String, kind: Kind, name: &str, version: u64) -> Result<(), NoMemory>
    ensures { OnOk result (string_bytes out.new ≡ string_bytes out.old ++ version_message kind name.now version) }
{
    let resource = kind.resource();
    Ok(write!(out, "{resource} \"{name}\" has version {version}")?)
}

#[tactic(auto, unfolding(crate::specs::Replies::gone_message))]
fn push_gone(out: &mut String, floor: u64) -> Result<(), NoMemory>
    ensures { OnOk result (string_bytes out.new ≡ string_bytes out.old ++ gone_message floor) }
{
    Ok(write!(out, "events up to version {floor} are gone")?)
}

#[tactic(auto, unfolding(crate::specs::Replies::quota_message))]
fn push_over_quota(
    out: &mut String,
    namespace: &str,
    quota: &str,
    resource: &str,
    used: u128,
    asked: u128,
    hard: u64,
) -> Result<(), NoMemory>
    ensures { OnOk result (string_bytes out.new ≡ string_bytes out.old ++ quota_message namespace.now quota.now resource.now used asked hard) }
{
    let alloc = *out.allocator();
    let used = print(alloc, used)?;
    let asked = print(alloc, asked)?;
    let hard = print(alloc, u128::from(hard))?;
    let (used, asked, hard) = (used.as_str(), asked.as_str(), hard.as_str());
    Ok(write!(
        out,
        "quota {quota} in namespace {namespace}: {resource} used {used}, asked {asked}, hard {hard}"
    )?)
}

/// The row that says one text.
pub fn says(reason: Reason, text: &str) -> RefusalStatus<'_>
    ensures reason { result.reason ≡ reason }
    ensures message { text_of result.message ≡ text.now }
{
    RefusalStatus {
        reason,
        message: Message::Said(text),
    }
}

/// The row that says two texts, one after the other.
pub fn joins<'a>(reason: Reason, front: &'a str, back: &'a str) -> RefusalStatus<'a>
    ensures reason { result.reason ≡ reason }
    ensures message { text_of result.message ≡ said_of front.now back.now }
{
    RefusalStatus {
        reason,
        message: Message::Joined(front, back),
    }
}

/// The row that says something of an object.
pub fn about<'a>(reason: Reason, kind: Kind, name: &'a Text, said: &'a str) -> RefusalStatus<'a>
    ensures reason { result.reason ≡ reason }
    ensures message { text_of result.message ≡ message_about kind name.now said.now }
{
    let name = name.as_str();
    RefusalStatus {
        reason,
        message: Message::About { kind, name, said },
    }
}

/// The row that says which version an object has.
pub fn has_version(reason: Reason, kind: Kind, name: &Text, version: u64) -> RefusalStatus<'_>
    ensures reason { result.reason ≡ reason }
    ensures message { text_of result.message ≡ version_message kind name.now version }
{
    let name = name.as_str();
    RefusalStatus {
        reason,
        message: Message::HasVersion {
            kind,
            name,
            version,
        },
    }
}

/// The row that says up to which version events are gone.
pub fn events_gone(floor: u64) -> RefusalStatus<'static>
    ensures reason { result.reason ≡ Reason.Expired }
    ensures message { text_of result.message ≡ gone_message floor }
{
    RefusalStatus {
        reason: Reason::Expired,
        message: Message::EventsGone { floor },
    }
}

/// The row that says which limit of a quota is passed.
pub fn over_quota<'a>(
    namespace: &'a Text,
    quota: &'a Text,
    resource: &'a Text,
    used: u128,
    asked: u128,
    hard: u64,
) -> RefusalStatus<'a>
    ensures reason { result.reason ≡ Reason.Forbidden }
    ensures message { text_of result.message ≡ quota_message namespace.now quota.now resource.now used asked hard }
{
    RefusalStatus {
        reason: Reason::Forbidden,
        message: Message::OverQuota {
            namespace: namespace.as_str(),
            quota: quota.as_str(),
            resource: resource.as_str(),
            used,
            asked,
            hard,
        },
    }
}

/// The row of a rule that is broken.
pub fn breaks(rule: Rule) -> RefusalStatus<'static>
    ensures reason { result.reason ≡ (rule_row rule).reason }
    ensures message { text_of result.message ≡ (rule_row rule).message }
{
    says(rule.reason(), rule.message())
}

/// The row that says a text and the name of a kind.
pub fn joins_kind(reason: Reason, front: &'static str, kind: Kind) -> RefusalStatus<'static>
    ensures reason { result.reason ≡ reason }
    ensures message { text_of result.message ≡ said_of front.now (name_of kind) }
{
    joins(reason, front, kind.name())
}
