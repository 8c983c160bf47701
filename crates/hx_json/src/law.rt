// What a text tells.
ghost use Rattle.std.specs.Prelude.{◌≡◌, ◌<◌, ◌^◌, IsTrue};
ghost use Rattle.hx_object.specs.Faults.{IsLegal};
ghost use Rattle.hx_object.specs.Json.{object_text};
ghost use Rattle.hx_object.specs.Pairs.{has_ascending_keys};

use hx_object::Object;

/// A theorem, not to be called: no two legal objects have one text.
#[tactic(auto, using(crate::proofs::Telling::text_told))]
pub fn law_of_texts(one: &Object, other: &Object)
    requires one { IsLegal one.now }
    requires other { IsLegal other.now }
    ensures { object_text one.now ≡ object_text other.now → one.now ≡ other.now }
{
    keep_their_types(one);
    keep_their_types(other);
}

/// What the types of an object's fields keep: pairs are in order, and a version has 64 bits.
pub fn keep_their_types(object: &Object)
    ensures labels { IsTrue (has_ascending_keys object.now.labels) }
    ensures annotations { IsTrue (has_ascending_keys object.now.annotations) }
    ensures version { object.now.version < 2 ^ 64 }
{
    let _labels = object.labels.as_slice();
    let _annotations = object.annotations.as_slice();
    let _version = object.version;
}
