// What a store has of what is limited.
ghost use Rattle.std.specs.Prelude.{◌≡◌, ◌≤◌, ◌+◌, ◌-◌, ◌^◌, [], None, IfSome, option_copied};
ghost use Rattle.hx_object.specs.Sizes.{size_of, greatest_size};
ghost use Rattle.hx_model.specs.Limits.{part_of, counted_one, counted_size, counts};
ghost use Rattle.hx_state.specs.Counting.{Counts, IsPart, IsTooWide, counts_of, gone};

use crate::names::NameChange;
use hx_model::is_copy;
use hx_object::Object;

/// The greatest version of a write.
pub const GREATEST_VERSION: u64 = i64::MAX as u64;

/// What a store has of what is limited, as running numbers. They may be over the limits, which are refusals of requests alone.
#[derive(Clone, Copy)]
pub struct LimitCounts {
    /// The names of namespaces and anchors.
    pub names: u64,
    /// The objects that count: all but namespaces, HierarchyConfigurations and copies.
    pub objects: u64,
    /// The sum of the sizes of the objects that count.
    pub bytes: u64,
}

impl LimitCounts {
    /// The numbers of no objects.
    pub fn none() -> LimitCounts
        ensures { result ≡ counts_of [] }
    {
        LimitCounts {
            names: 0,
            objects: 0,
            bytes: 0,
        }
    }

    /// The numbers once `new` stands in the place of `old`, where either may be none, and names have changed so. `None` says that one of them doesn't fit 64 bits.
    pub(crate) fn after(
        self,
        old: Option<&Object>,
        new: Option<&Object>,
        name: NameChange,
    ) -> Option<LimitCounts>
        requires small { IfSome (option_copied old) (λ x. size_of x ≤ greatest_size) × IfSome (option_copied new) (λ x. size_of x ≤ greatest_size) }
        requires counted { IsPart (option_copied old) self }
        requires named { gone name ≤ self.names }
        ensures numbers { IfSome result (Counts (option_copied old.entry) (option_copied new.entry) name self) }
        ensures wide { result ≡ None → IsTooWide (option_copied old.entry) (option_copied new.entry) name self }
    {
        let names = replaced(self.names, name.gone(), name.come())?;
        let objects = replaced(self.objects, objects_of(old), objects_of(new))?;
        let bytes = replaced(self.bytes, bytes_of(old), bytes_of(new))?;
        Some(LimitCounts {
            names,
            objects,
            bytes,
        })
    }
}

/// A number once one part of it stands in the place of another, where it fits 64 bits.
fn replaced(number: u64, old: u64, new: u64) -> Option<u64>
    requires { old ≤ number }
    ensures sum { IfSome result (λ sum. sum + old ≡ number + new) }
    ensures wide { result ≡ None → 2 ^ 64 ≤ number - old + new }
{
    (number - old).checked_add(new)
}

fn objects_of(object: Option<&Object>) -> u64
    ensures { result ≡ part_of counted_one (option_copied object.entry) }
{
    match object {
        Some(object) if counts(object) => 1,
        _ => 0,
    }
}

/// The size of what is found, where it counts against the limits.
pub fn bytes_of(object: Option<&Object>) -> u64
    requires { IfSome (option_copied object) (λ x. size_of x ≤ greatest_size) }
    ensures { result ≡ part_of counted_size (option_copied object.entry) }
{
    match object {
        Some(object) if counts(object) => object.size() as u64,
        _ => 0,
    }
}

/// Whether an object counts against the limits.
#[tactic(auto, unfolding(hx_model::specs::Limits::counts))]
pub fn counts(object: &Object) -> bool
    ensures { result ≡ counts object.now }
{
    !object.id.kind.is_namespace() && !object.id.kind.is_hierarchy() && !is_copy(object)
}
