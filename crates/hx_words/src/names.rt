// Names that are joined by commas.
ghost use Rattle.std.specs.Prelude.{◌≡◌, IfOk};
ghost use Rattle.std.specs.List.{list_all};
ghost use Rattle.hx_object.specs.Names.{is_dns_label};
ghost use Rattle.hx_words.specs.Words.{names_in, parts_of};

use hx_object::{List, NoMemory, Text, is_dns_label};
use std::alloc::Global;

/// The names that a value joins by commas. The empty value has none.
pub(crate) fn names_in(alloc: Global, value: &str) -> Result<List<Text>, NoMemory>
    ensures { IfOk result (λ names. names ≡ names_in value.now) }
{
    let names = if value.is_empty() {
        Vec::new(alloc)
    } else {
        parts_of(alloc, value)?
    };
    Ok(List::of(names))
}

/// What stands between the commas.
fn parts_of(alloc: Global, value: &str) -> Result<Vec<Text>, NoMemory>
    ensures { IfOk result (λ parts. parts.items ≡ parts_of value.now) }
{
    let mut parts = Vec::new(alloc);
    for part in value.split(',') {
        parts.push(Text::of(alloc, part)?)?;
    }
    Ok(parts)
}

/// Whether a value joins names of namespaces by commas. The empty value has none.
pub(crate) fn has_names(value: &str) -> bool
    ensures { result ≡ list_all is_dns_label (names_in value.now) }
{
    value.is_empty() || are_names(value)
}

fn are_names(value: &str) -> bool
    ensures { result ≡ list_all is_dns_label (parts_of value.now) }
{
    value.split(',').all(|part| is_dns_label(part.as_bytes()))
}
