// What the objects of a list are, beside their kind and their labels.
ghost use Rattle.std.specs.Prelude.{◌≡◌, option_copied};
ghost use Rattle.hx_model.specs.Fields.{has_fields, is_one, no_fields};

use hx_object::{Id, Text};

/// The name and the namespace that the objects of a list have, each where it is asked for: the fields that a `fieldSelector` of the Kubernetes API may name here.
#[derive(Drop)]
pub struct Fields {
    pub name: Option<Text>,
    pub ns: Option<Text>,
}

impl Fields {
    /// No field is asked for.
    pub fn none() -> Fields
        ensures { result ≡ no_fields }
    {
        Fields {
            name: None,
            ns: None,
        }
    }

    /// Whether the object of an identity has them.
    pub fn are_of(&self, id: &Id) -> bool
        ensures { result ≡ has_fields self.now id.now }
    {
        is_one(self.name.as_ref(), &id.name) && is_one(self.ns.as_ref(), &id.ns)
    }
}

/// Whether a text is the one that is asked for.
fn is_one(asked: Option<&Text>, text: &Text) -> bool
    ensures { result ≡ is_one (option_copied asked.entry) text.now }
{
    match asked {
        Some(asked) => text.as_str() == asked.as_str(),
        None => true,
    }
}
