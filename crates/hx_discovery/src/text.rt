// Texts as they stand, and commas between.
ghost use Rattle.std.specs.Prelude.{◌≡◌, ◌++◌, string_bytes, OnOk};
ghost use Rattle.hx_discovery.specs.Documents.{comma_if};

use hx_object::NoMemory;

/// Appends a text as it is.
pub fn push(out: &mut String, text: &str) -> Result<(), NoMemory>
    ensures { OnOk result (string_bytes out.new ≡ string_bytes out.old ++ text.now) }
{
    Ok(out.push_str(text)?)
}

/// Appends a comma, where something stands before.
pub fn push_comma_if(out: &mut String, later: bool) -> Result<(), NoMemory>
    ensures { OnOk result (string_bytes out.new ≡ string_bytes out.old ++ comma_if later) }
{
    push(out, if later { "," } else { "" })
}
