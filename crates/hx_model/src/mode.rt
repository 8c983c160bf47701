// How the objects of a kind are propagated.
ghost use Rattle.std.specs.Prelude.{◌≡◌, option_copied};
ghost use Rattle.hx_model.specs.Modes.{names_kind, entries_of, mode_by, mode_in};

use hx_object::{Kind, Mode, ModeEntry, Object, Payload};

/// Whether an entry of an HNCConfiguration names the resource of a kind, by its API group and its plural.
pub fn names_kind(kind: Kind, entry: &ModeEntry) -> bool
    ensures { result ≡ names_kind kind entry.now }
{
    entry.group.as_str() == kind.group() && entry.resource.as_str() == kind.plural()
}

/// The entries of an HNCConfiguration, none where there is none.
pub fn entries_of(found: Option<&Object>) -> &[ModeEntry]
    ensures { result.now ≡ entries_of (option_copied found.entry) }
{
    match found {
        Some(
            Object {
                payload: Payload::Config { entries },
                ..
            },
        ) => entries.as_slice(),
        _ => &[],
    }
}

/// The mode of a kind, by the HNCConfiguration that is stored. Roles and RoleBindings are always propagated, and a kind without an entry is ignored (HNC user guide, "Modify object propagation").
pub fn mode_in(found: Option<&Object>, kind: Kind) -> Mode
    ensures { result ≡ mode_in (option_copied found.entry) kind }
{
    match kind {
        Kind::Role | Kind::RoleBinding => Mode::Propagate,
        _ => mode_by(entries_of(found), kind),
    }
}

/// The mode of the first entry that names a kind.
fn mode_by(entries: &[ModeEntry], kind: Kind) -> Mode
    ensures { result ≡ mode_by entries.now kind }
{
    for entry in entries {
        if names_kind(kind, entry) {
            return entry.mode;
        }
    }
    Mode::Ignore
}
