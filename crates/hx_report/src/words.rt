// Words and lines of a report.
ghost use Rattle.std.specs.Prelude.{◌≡◌, ◌++◌, [], ◌∷◌, map, string_bytes, OnOk};
ghost use Rattle.std.specs.Fmt.{decimal};
ghost use Rattle.std.specs.List.{flat_map};
ghost use Rattle.hx_object.specs.Json.{reason_text};
ghost use Rattle.hx_report.specs.Words.{named_line, spaced, words_text};

use hx_object::{Condition, NoMemory, Text};
use itoa::Buffer;

/// Appends a text as it is.
pub(crate) fn push(out: &mut String, text: &str) -> Result<(), NoMemory>
    ensures { OnOk result (string_bytes out.new ≡ string_bytes out.old ++ text.now) }
{
    Ok(out.push_str(text)?)
}

/// Appends a space and a word.
pub(crate) fn push_spaced(out: &mut String, word: &str) -> Result<(), NoMemory>
    ensures { OnOk result (string_bytes out.new ≡ string_bytes out.old ++ spaced word.now) }
{
    push(out, " ")?;
    push(out, word)
}

/// Appends a line of a name and a word.
pub(crate) fn push_word_line(out: &mut String, name: &str, word: &str) -> Result<(), NoMemory>
    ensures { OnOk result (string_bytes out.new ≡ string_bytes out.old ++ named_line name.now (word.now ∷ [])) }
{
    push(out, name)?;
    push_spaced(out, word)?;
    push(out, "\n")
}

/// Appends a line of a name and a number.
pub(crate) fn push_number_line(out: &mut String, name: &str, number: usize) -> Result<(), NoMemory>
    ensures { OnOk result (string_bytes out.new ≡ string_bytes out.old ++ named_line name.now (decimal number ∷ [])) }
{
    push_word_line(out, name, Buffer::new().format(number))
}

/// Appends a line of a name and the words behind it.
pub(crate) fn push_names_line(out: &mut String, name: &str, words: &[Text]) -> Result<(), NoMemory>
    ensures { OnOk result (string_bytes out.new ≡ string_bytes out.old ++ named_line name.now words.now) }
{
    push(out, name)?;
    push(out, " ")?;
    push_names(out, words)?;
    push(out, "\n")
}

/// Appends words with one space between them, or `-` where there are none.
fn push_names(out: &mut String, words: &[Text]) -> Result<(), NoMemory>
    ensures { OnOk result (string_bytes out.new ≡ string_bytes out.old ++ words_text words.now) }
{
    match words {
        [] => push(out, "-"),
        [word, words @ ..] => push_name_list(out, word, words),
    }
}

fn push_name_list(out: &mut String, word: &Text, words: &[Text]) -> Result<(), NoMemory>
    ensures { OnOk result (string_bytes out.new ≡ string_bytes out.old ++ words_text (word.now ∷ words.now)) }
{
    push(out, word.as_str())?;
    push_spaced_names(out, words)
}

fn push_spaced_names(out: &mut String, words: &[Text]) -> Result<(), NoMemory>
    ensures { OnOk result (string_bytes out.new ≡ string_bytes out.old ++ flat_map spaced words.now) }
{
    for word in words {
        push_spaced(out, word.as_str())?;
    }
    Ok(())
}

/// Appends a line of a name and the reasons of conditions.
pub(crate) fn push_reasons_line(
    out: &mut String,
    name: &str,
    conditions: &[Condition],
) -> Result<(), NoMemory>
    ensures { OnOk result (string_bytes out.new ≡ string_bytes out.old ++ named_line name.now (map reason_text conditions.now)) }
{
    push(out, name)?;
    push(out, " ")?;
    push_reasons(out, conditions)?;
    push(out, "\n")
}

/// Appends reasons with one space between them, or `-` where there are none.
fn push_reasons(out: &mut String, conditions: &[Condition]) -> Result<(), NoMemory>
    ensures { OnOk result (string_bytes out.new ≡ string_bytes out.old ++ words_text (map reason_text conditions.now)) }
{
    match conditions {
        [] => push(out, "-"),
        [condition, conditions @ ..] => push_reason_list(out, *condition, conditions),
    }
}

fn push_reason_list(
    out: &mut String,
    condition: Condition,
    conditions: &[Condition],
) -> Result<(), NoMemory>
    ensures { OnOk result (string_bytes out.new ≡ string_bytes out.old ++ words_text (reason_text condition ∷ map reason_text conditions.now)) }
{
    push(out, reason(condition))?;
    push_spaced_reasons(out, conditions)
}

fn push_spaced_reasons(out: &mut String, conditions: &[Condition]) -> Result<(), NoMemory>
    ensures { OnOk result (string_bytes out.new ≡ string_bytes out.old ++ flat_map spaced (map reason_text conditions.now)) }
{
    for condition in conditions {
        push_spaced(out, reason(*condition))?;
    }
    Ok(())
}

/// The reason of a condition, as a HierarchyConfiguration's status names it.
pub(crate) fn reason(condition: Condition) -> &'static str
    ensures { result.now ≡ reason_text condition }
{
    match condition {
        Condition::InCycle => "InCycle",
        Condition::ParentMissing => "ParentMissing",
        Condition::IllegalParent => "IllegalParent",
        Condition::Ancestor => "AncestorHaltActivities",
        Condition::AnchorMissing => "SubnamespaceAnchorMissing",
    }
}
