// What a whole cluster counts.
ghost use Rattle.std.specs.Prelude.{◌≡◌, ◌++◌, IfOk, OnOk, count_by, string_bytes};
ghost use Rattle.hx_model.specs.Forest.{names_of};
ghost use Rattle.hx_model.specs.Limits.{is_copy};
ghost use Rattle.hx_model.specs.Propagation.{is_source};
ghost use Rattle.hx_survey.specs.Surveyed.{tree_of};
ghost use Rattle.hx_report.specs.Summing.{deepest_of, object_lines, summary_text, tree_lines};

use crate::describing::depth_of;
use crate::words::push_number_line;
use hx_model::{is_copy, is_source};
use hx_object::{Kind, NoMemory, Shared};
use hx_survey::Survey;

/// How many namespaces, sources, copies and Pods there are, and how deep the deepest namespace stands, a line each.
#[tactic(auto, unfolding(crate::specs::Summing::summary_text))]
pub fn summary(survey: &Survey) -> Result<String, NoMemory>
    ensures { IfOk result (λ text. string_bytes text ≡ summary_text survey.now.excluded survey.now.objects) }
{
    let mut out = String::new(survey.allocator());
    push_tree(&mut out, survey)?;
    push_objects(&mut out, survey)?;
    Ok(out)
}

/// Appends how many namespaces there are, and how deep the deepest stands.
fn push_tree(out: &mut String, survey: &Survey) -> Result<(), NoMemory>
    ensures { OnOk result (string_bytes out.new ≡ string_bytes out.old ++ tree_lines survey.now.objects (tree_of survey.now)) }
{
    let deepest = deepest_in(survey)?;
    push_number_line(out, "namespaces", survey.of_kind(Kind::Namespace).len())?;
    push_number_line(out, "deepest", deepest)
}

/// Appends how many sources, copies and Pods there are.
fn push_objects(out: &mut String, survey: &Survey) -> Result<(), NoMemory>
    ensures { OnOk result (string_bytes out.new ≡ string_bytes out.old ++ object_lines survey.now.objects) }
{
    push_number_line(out, "sources", sources_in(survey.objects()))?;
    push_number_line(out, "copies", copies_in(survey.objects()))?;
    push_number_line(out, "pods", survey.of_kind(Kind::Pod).len())
}

/// How deep the deepest namespace stands.
fn deepest_in(survey: &Survey) -> Result<usize, NoMemory>
    ensures { IfOk result (λ depth. depth ≡ deepest_of (tree_of survey.now) (names_of (tree_of survey.now))) }
{
    let mut deepest = 0;
    for entry in survey.nodes() {
        deepest = deepest.max(depth_of(survey, &entry.0)?);
    }
    Ok(deepest)
}

/// How many sources there are.
fn sources_in(objects: &[Shared]) -> usize
    ensures { result ≡ count_by is_source objects.now }
{
    let mut number = 0;
    for shared in objects {
        if is_source(shared.object()) {
            number += 1;
        }
    }
    number
}

/// How many copies there are.
fn copies_in(objects: &[Shared]) -> usize
    ensures { result ≡ count_by is_copy objects.now }
{
    let mut number = 0;
    for shared in objects {
        if is_copy(shared.object()) {
            number += 1;
        }
    }
    number
}
