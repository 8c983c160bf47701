// The text of a tree.
ghost use Rattle.std.specs.Prelude.{◌≡◌, ◌++◌, IfOk, OnOk, option_copied, string_bytes};
ghost use Rattle.std.specs.List.{flat_map};
ghost use Rattle.hx_survey.specs.Surveyed.{tree_of};
ghost use Rattle.hx_report.specs.Trees.{indent, is_subnamespace, mark, reason_behind, tree_line, tree_text};

use crate::outline::{Line, lines_of};
use crate::words::{push, reason};
use hx_model::subnamespace_parent;
use hx_object::{Condition, Kind, NoMemory, Shared};
use hx_survey::Survey;

/// A line for each namespace: two spaces for each level, `[s] ` for a subnamespace, the name, and each reason of its conditions in parentheses.
///
/// At level 0 stand the namespaces without a parent that is there, and those in a cycle; below each line stand its children that aren't in a cycle. Names stand in byte order.
#[tactic(auto, unfolding(crate::specs::Trees::tree_text))]
pub fn tree(survey: &Survey) -> Result<String, NoMemory>
    ensures { IfOk result (λ text. string_bytes text ≡ tree_text survey.now.excluded survey.now.objects) }
{
    let lines = lines_of(survey)?;
    let mut out = String::new(survey.allocator());
    push_lines(&mut out, survey, lines.as_slice())?;
    Ok(out)
}

fn push_lines(out: &mut String, survey: &Survey, lines: &[Line]) -> Result<(), NoMemory>
    ensures { OnOk result (string_bytes out.new ≡ string_bytes out.old ++ flat_map (tree_line survey.now.objects (tree_of survey.now)) lines.now) }
{
    for line in lines {
        push_line(out, survey, line)?;
    }
    Ok(())
}

fn push_line(out: &mut String, survey: &Survey, line: &Line) -> Result<(), NoMemory>
    ensures { OnOk result (string_bytes out.new ≡ string_bytes out.old ++ tree_line survey.now.objects (tree_of survey.now) line.now) }
{
    let name = &line.name;
    let conditions = survey.conditions(name)?;
    push_indent(out, line.level)?;
    push(out, mark(survey.find(Kind::Namespace, "", name.as_str())))?;
    push(out, name.as_str())?;
    push_reasons_behind(out, conditions.as_slice())?;
    push(out, "\n")
}

/// Appends two spaces for each level.
fn push_indent(out: &mut String, level: usize) -> Result<(), NoMemory>
    ensures { OnOk result (string_bytes out.new ≡ string_bytes out.old ++ indent level) }
{
    for i in 0..level {
        push(out, "  ")?;
    }
    Ok(())
}

/// What stands before the name of a namespace.
fn mark(namespace: Option<&Shared>) -> &'static str
    ensures { result.now ≡ mark (option_copied namespace.entry) }
{
    if is_subnamespace(namespace) {
        "[s] "
    } else {
        ""
    }
}

/// Whether a namespace has the annotation of a subnamespace.
fn is_subnamespace(namespace: Option<&Shared>) -> bool
    ensures { result ≡ is_subnamespace (option_copied namespace.entry) }
{
    match namespace {
        Some(namespace) => subnamespace_parent(namespace.object()).is_some(),
        None => false,
    }
}

/// Appends the reasons of conditions, each behind a space in parentheses.
fn push_reasons_behind(out: &mut String, conditions: &[Condition]) -> Result<(), NoMemory>
    ensures { OnOk result (string_bytes out.new ≡ string_bytes out.old ++ flat_map reason_behind conditions.now) }
{
    for condition in conditions {
        push_reason_behind(out, *condition)?;
    }
    Ok(())
}

fn push_reason_behind(out: &mut String, condition: Condition) -> Result<(), NoMemory>
    ensures { OnOk result (string_bytes out.new ≡ string_bytes out.old ++ reason_behind condition) }
{
    push(out, " (")?;
    push(out, reason(condition))?;
    push(out, ")")
}
