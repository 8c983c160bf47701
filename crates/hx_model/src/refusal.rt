// Why a request is refused.
ghost use Rattle.std.specs.Prelude.{◌≡◌, ◌++◌, IfOk, OnOk, string_bytes};
ghost use Rattle.hx_model.specs.Messages.{text_of};
ghost use Rattle.hx_model.specs.Replies.{status_of, code_of, message_of};

use crate::status::{
    RefusalStatus, about, breaks, events_gone, has_version, joins, joins_kind, over_quota, says,
};
use crate::{Reason, Rule};
use hx_object::{Kind, NoMemory, Text};
use std::alloc::Global;

/// Why a request is refused. Reason and message are those of a Kubernetes `Status`.
pub enum Refusal {
    /// 400: a line of a script is in none of its forms.
    BadLine,
    /// 400: a segment of the path isn't UTF-8 once it is decoded.
    BadPath,
    /// 400: a parameter of the query has a value that isn't taken.
    BadQuery {
        name: Text,
    },
    /// 400: the body is no JSON text.
    NotJson,
    /// 400: the body has a number with a point or an exponent, or one that doesn't fit 64 bits.
    NotWhole,
    /// 400: the body is of another kind than the path.
    NotKind {
        kind: Kind,
    },
    /// 400: the body names another place than the path.
    OtherPlace,
    /// 403 or 507: a rule of admission is broken, or a limit of the store would be passed.
    Broken {
        rule: Rule,
    },
    /// 403: a limit of a quota would be passed. It stands under `resource` in the quota's `spec.hard`; so much of it is used in the subtree of the quota's namespace, and so much more is asked for, all in thousandths.
    OverQuota {
        namespace: Text,
        quota: Text,
        resource: Text,
        used: u128,
        asked: u128,
        hard: u64,
    },
    /// 404: the path leads nowhere.
    NoPath,
    /// 404: no object of that kind and name is there.
    NotFound {
        kind: Kind,
        name: Text,
    },
    /// 405: the path doesn't take the method.
    NoMethod,
    /// 409: an object of that kind and name is there already.
    Exists {
        kind: Kind,
        name: Text,
    },
    /// 409: the object has another version than the one that is expected.
    OtherVersion {
        kind: Kind,
        name: Text,
        version: u64,
    },
    /// 410: of the events that are asked for some are kept no more. Those of later versions than the floor are there.
    Expired {
        floor: u64,
    },
    /// 413: a line of a script has more than 131,072 bytes.
    TooLong,
    /// 422: a member that is required isn't there.
    Missing {
        member: Text,
    },
    /// 422: a member has another type.
    WrongType {
        member: Text,
    },
    /// 422: a member isn't a quantity.
    NoQuantity {
        member: Text,
    },
    /// 422: a name breaks its grammar.
    BadName,
    /// 422: a key of a label or an annotation, or a label's value, breaks its grammar.
    BadLabel,
    /// 422: there are more than 256 labels that count.
    TooManyLabels,
    /// 422: the object has more than 65,536 bytes.
    TooLarge,
    /// 500: the keeper's commit failed. The write may be in the keeper all the same.
    StoreFailed,
    /// 501: the request's form isn't served.
    NotServed,
    /// 503: no memory was left. Nothing was changed.
    NoMemory,
}

impl Drop for Refusal {
    fn drop(self) {
        match self {
            Refusal::BadLine => {}
            Refusal::BadPath => {}
            Refusal::BadQuery { name: _ } => {}
            Refusal::NotJson => {}
            Refusal::NotWhole => {}
            Refusal::NotKind { kind: _ } => {}
            Refusal::OtherPlace => {}
            Refusal::Broken { rule: _ } => {}
            Refusal::OverQuota {
                namespace: _,
                quota: _,
                resource: _,
                used: _,
                asked: _,
                hard: _,
            } => {}
            Refusal::NoPath => {}
            Refusal::NotFound { kind: _, name: _ } => {}
            Refusal::NoMethod => {}
            Refusal::Exists { kind: _, name: _ } => {}
            Refusal::OtherVersion {
                kind: _,
                name: _,
                version: _,
            } => {}
            Refusal::Expired { floor: _ } => {}
            Refusal::TooLong => {}
            Refusal::Missing { member: _ } => {}
            Refusal::WrongType { member: _ } => {}
            Refusal::NoQuantity { member: _ } => {}
            Refusal::BadName => {}
            Refusal::BadLabel => {}
            Refusal::TooManyLabels => {}
            Refusal::TooLarge => {}
            Refusal::StoreFailed => {}
            Refusal::NotServed => {}
            Refusal::NoMemory => {}
        }
    }
}

impl From<NoMemory> for Refusal {
    ghost use Rattle.std.specs.Prelude.{◌≡◌};
    ghost use Rattle.hx_model.specs.declared.refusal.Refusal.TheVariants.{NoMemory};

    ghost from_gives = { λ _ r. r ≡ NoMemory };

    fn from(_: NoMemory) -> Refusal {
        Refusal::NoMemory
    }
}

impl Refusal {
    /// The HTTP status.
    pub fn code(&self) -> u16
        ensures { result ≡ code_of self.now }
    {
        self.reason().code()
    }

    /// The reason in one word.
    pub fn reason(&self) -> Reason
        ensures { result ≡ (status_of self.now).reason }
    {
        self.status().reason
    }

    /// What is said to whom asked.
    pub fn message(&self, alloc: Global) -> Result<Text, NoMemory>
        ensures { IfOk result (λ text. text ≡ message_of self.now) }
    {
        let mut text = String::new(alloc);
        self.push_message(&mut text)?;
        Ok(Text::of_string(text))
    }

    /// Appends what is said to whom asked.
    pub fn push_message(&self, out: &mut String) -> Result<(), NoMemory>
        ensures { OnOk result (string_bytes out.new ≡ string_bytes out.old ++ message_of self.now) }
    {
        self.status().message.push(out)
    }

    /// The reason, and what is said.
    pub fn status(&self) -> RefusalStatus<'_>
        ensures reason { result.reason ≡ (status_of self.now).reason }
        ensures message { text_of result.message ≡ message_of self.now }
    {
        match self {
            Refusal::BadLine => says(Reason::BadRequest, "line in no form of the script"),
            Refusal::BadPath => says(Reason::BadRequest, "bad path"),
            Refusal::BadQuery { name } => joins(Reason::BadRequest, "bad query ", name.as_str()),
            Refusal::NotJson => says(Reason::BadRequest, "body is not JSON"),
            Refusal::NotWhole => says(Reason::BadRequest, "body has a number that is not whole"),
            Refusal::NotKind { kind } => joins_kind(Reason::BadRequest, "body is not ", *kind),
            Refusal::OtherPlace => says(Reason::BadRequest, "body names another place"),
            Refusal::Broken { rule } => breaks(*rule),
            Refusal::OverQuota {
                namespace,
                quota,
                resource,
                used,
                asked,
                hard,
            } => over_quota(namespace, quota, resource, *used, *asked, *hard),
            Refusal::NoPath => says(Reason::NotFound, "path not served"),
            Refusal::NotFound { kind, name } => about(Reason::NotFound, *kind, name, "not found"),
            Refusal::NoMethod => says(Reason::MethodNotAllowed, "method not served here"),
            Refusal::Exists { kind, name } => about(
                Reason::AlreadyExists,
                *kind,
                name,
                "already exists",
            ),
            Refusal::OtherVersion {
                kind,
                name,
                version,
            } => has_version(Reason::Conflict, *kind, name, *version),
            Refusal::Expired { floor } => events_gone(*floor),
            Refusal::TooLong => says(Reason::RequestEntityTooLarge, "more than 131072 bytes"),
            Refusal::Missing { member } => joins(Reason::Invalid, member.as_str(), " is missing"),
            Refusal::WrongType { member } => joins(
                Reason::Invalid,
                member.as_str(),
                " has the wrong type",
            ),
            Refusal::NoQuantity { member } => joins(
                Reason::Invalid,
                member.as_str(),
                " is no quantity",
            ),
            Refusal::BadName => says(Reason::Invalid, "name is not allowed"),
            Refusal::BadLabel => says(Reason::Invalid, "label or annotation is not allowed"),
            Refusal::TooManyLabels => says(Reason::Invalid, "more than 256 labels"),
            Refusal::TooLarge => says(Reason::Invalid, "object is larger than 65536 bytes"),
            Refusal::StoreFailed => says(Reason::InternalError, "the store failed"),
            Refusal::NotServed => says(Reason::NotImplemented, "not served"),
            Refusal::NoMemory => says(Reason::ServiceUnavailable, "out of memory"),
        }
    }
}
