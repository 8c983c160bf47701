// What stands against a write by the limits of a store.
ghost use Rattle.std.specs.Prelude.{◌≡◌, ◌≤◌, IfSome, option_copied};
ghost use Rattle.hx_object.specs.Sizes.{size_of, greatest_size};
ghost use Rattle.hx_model.specs.First.{first};
ghost use Rattle.hx_state.specs.Counting.{IsPart};
ghost use Rattle.hx_admit.specs.Limiting.{count_denials, growth_denials, rises_over};
ghost use Rattle.hx_admit.specs.Refusing.{fault_in};

use hx_model::{Denial, Rule};
use hx_object::Object;
use hx_state::{GREATEST_VERSION, LimitCounts, bytes_of};

const MOST_NAMES: u64 = 4_096;

const MOST_OBJECTS: u64 = 65_536;

const MOST_BYTES: u64 = 268_435_456;

/// Finds the first limit that a name or an object passes, where a request brings one.
pub(crate) fn check_counts(
    brings_name: bool,
    brings_object: bool,
    counts: LimitCounts,
) -> Result<(), Denial>
    ensures { fault_in result ≡ first (count_denials brings_name brings_object counts) }
{
    if brings_name && counts.names >= MOST_NAMES {
        return Err(Denial::Broken(Rule::L1));
    }
    if brings_object && counts.objects >= MOST_OBJECTS {
        return Err(Denial::Broken(Rule::L2));
    }
    Ok(())
}

/// Finds that the bytes rise over their limit where `new` stands in the place of `old`, or that no version is left after `last`.
pub(crate) fn check_growth(
    counts: LimitCounts,
    old: Option<&Object>,
    new: Option<&Object>,
    last: u64,
) -> Result<(), Denial>
    requires small { IfSome (option_copied old) (λ x. size_of x ≤ greatest_size) × IfSome (option_copied new) (λ x. size_of x ≤ greatest_size) }
    requires counted { IsPart (option_copied old) counts }
    ensures { fault_in result ≡ first (growth_denials counts (option_copied old.entry) (option_copied new.entry) last) }
{
    if rises_over(counts.bytes, bytes_of(old), bytes_of(new)) {
        return Err(Denial::Broken(Rule::L3));
    }
    if last >= GREATEST_VERSION {
        return Err(Denial::Broken(Rule::L4));
    }
    Ok(())
}

/// Whether bytes rise over their limit where some come in the place of others.
fn rises_over(bytes: u64, old: u64, new: u64) -> bool
    requires part { old ≤ bytes }
    requires small { new ≤ greatest_size }
    ensures { result ≡ rises_over bytes old new }
{
    old < new && bytes - old > MOST_BYTES - new
}
