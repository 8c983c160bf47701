// The exceptions to propagation.
ghost use Rattle.std.specs.Prelude.{◌≡◌, option_copied};
ghost use Rattle.hx_model.specs.Exceptions.{exception, none_of, passes, is_false};

use hx_object::well_known::NONE_EXCEPTION;
use hx_object::{Object, Text};

/// Whether the exception that keeps a source at home lets it go.
pub(crate) fn passes_none(source: &Object) -> bool
    ensures { result ≡ passes is_false (none_of source.now) }
{
    match exception(source, NONE_EXCEPTION) {
        None => true,
        Some(text) => text.as_str() == "false",
    }
}

/// The value of an exception. An empty one counts as absent.
pub fn exception<'a>(source: &'a Object, key: &str) -> Option<&'a Text>
    ensures { option_copied result ≡ exception source.now key.now }
{
    let text = source.annotations.get(key)?;
    if text.as_bytes().is_empty() {
        return None;
    }
    Some(text)
}
