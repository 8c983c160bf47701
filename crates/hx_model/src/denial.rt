// Why an ask is denied.
ghost use Rattle.std.specs.Prelude.{◌≡◌, ◌⊎◌, IfOk};
ghost use Rattle.hx_model.specs.Denials.{refusal_by};

use crate::{Refusal, Rule};
use hx_object::{Id, Kind, NoMemory};

/// Why an ask is denied. The refusal that is made of it names the identity that is asked about.
#[derive(Clone, Copy)]
pub enum Denial {
    /// The namespace isn't there.
    NoNamespace,
    NotFound,
    Exists,
    /// The object has this version, and another one is expected.
    OtherVersion(u64),
    Broken(Rule),
}

impl From<Rule> for Denial {
    ghost use Rattle.std.specs.Prelude.{◌≡◌};
    ghost use Rattle.hx_model.specs.declared.denial.Denial.TheVariants.{Broken};

    ghost from_gives = { λ rule denial. denial ≡ Broken rule };

    fn from(rule: Rule) -> Denial {
        Denial::Broken(rule)
    }
}

impl Denial {
    /// The refusal of an ask about an identity, or want of memory.
    pub fn refusal(self, id: &Id) -> Refusal
        ensures { (result ≡ refusal_by id.now self) ⊎ (result ≡ Refusal.NoMemory) }
    {
        match self.named(id) {
            Ok(refusal) => refusal,
            Err(NoMemory) => Refusal::NoMemory,
        }
    }

    /// The refusal with its names.
    fn named(self, id: &Id) -> Result<Refusal, NoMemory>
        ensures { IfOk result (λ refusal. refusal ≡ refusal_by id.now self) }
    {
        let kind = id.kind;
        match self {
            Denial::NoNamespace => Ok(Refusal::NotFound {
                kind: Kind::Namespace,
                name: id.ns.clone()?,
            }),
            Denial::NotFound => Ok(Refusal::NotFound {
                kind,
                name: id.name.clone()?,
            }),
            Denial::Exists => Ok(Refusal::Exists {
                kind,
                name: id.name.clone()?,
            }),
            Denial::OtherVersion(version) => Ok(Refusal::OtherVersion {
                kind,
                name: id.name.clone()?,
                version,
            }),
            Denial::Broken(rule) => Ok(Refusal::Broken { rule }),
        }
    }
}
