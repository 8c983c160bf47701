// The members of values.
ghost use Rattle.std.specs.Prelude.{◌≡◌, Some, IfSome, option_map};
ghost use Rattle.json.specs.Find as find;
ghost use Rattle.json.specs.Value.{value_view};
ghost use Rattle.serde_json.specs.Find.{get};
ghost use Rattle.hx_json.specs.Reading.{counted_member, in_spec, metadata_in, text_in, truth_in};
ghost use Rattle.hx_json.specs.Rows.{in_status};
ghost use Rattle.hx_json.specs.Trees.{said};

use json::Value;

/// A member.
pub fn get<'v, 'a>(value: &'v Value<'a>, name: &str) -> Option<&'v Value<'a>>
    ensures tree { option_map (λ v. value_view v.now) result ≡ find.get name.now (value_view value.now) }
    ensures said { option_map (λ v. said v.now) result ≡ get name.now (said value.now) }
{
    value.get(name)
}

/// A member that is there and isn't null.
pub fn member<'v, 'a>(value: &'v Value<'a>, name: &str) -> Option<&'v Value<'a>>
    ensures tree { IfSome result (λ v. Some (value_view v.now) ≡ find.get name.now (value_view value.now)) }
    ensures said { option_map (λ v. said v.now) result ≡ counted_member name.now (said value.now) }
{
    match get(value, name) {
        None | Some(Value::Null) => None,
        found => found,
    }
}

/// A member of the metadata.
pub fn in_metadata<'v, 'a>(value: &'v Value<'a>, name: &str) -> Option<&'v Value<'a>>
    ensures { option_map (λ v. said v.now) result ≡ counted_member name.now (metadata_in (said value.now)) }
{
    match get(value, "metadata") {
        Some(metadata) => member(metadata, name),
        None => None,
    }
}

/// A member of `spec`.
pub fn in_spec<'v, 'a>(value: &'v Value<'a>, name: &str) -> Option<&'v Value<'a>>
    ensures { option_map (λ v. said v.now) result ≡ in_spec name.now (said value.now) }
{
    match member(value, "spec") {
        Some(spec) => member(spec, name),
        None => None,
    }
}

/// A member of `status`.
pub fn in_status<'v, 'a>(value: &'v Value<'a>, name: &str) -> Option<&'v Value<'a>>
    ensures { option_map (λ v. said v.now) result ≡ in_status name.now (said value.now) }
{
    match member(value, "status") {
        Some(status) => member(status, name),
        None => None,
    }
}

/// The text that a member is.
pub fn text_in<'a>(found: Option<&Value<'a>>) -> Option<&'a str>
    ensures { option_map (λ s. s.now) result ≡ text_in (option_map (λ v. said v.now) found.entry) }
{
    match found {
        Some(Value::String(text)) => Some(*text),
        _ => None,
    }
}

/// Whether a member is `true`.
pub fn truth_in(found: Option<&Value<'_>>) -> bool
    ensures { result ≡ truth_in (option_map (λ v. said v.now) found.entry) }
{
    match found {
        Some(Value::Bool(truth)) => *truth,
        _ => false,
    }
}
