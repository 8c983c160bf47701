// What is told of one namespace.
ghost use Rattle.std.specs.Prelude.{◌≡◌, ◌++◌, codes, IfOk, OnOk, option_copied, string_bytes};
ghost use Rattle.hx_model.specs.Forest.{depth_of, node_of, parent_of};
ghost use Rattle.hx_model.specs.Limits.{is_copy};
ghost use Rattle.hx_model.specs.Propagation.{as_list, is_source};
ghost use Rattle.hx_model.specs.State.{lies_in};
ghost use Rattle.hx_survey.specs.Surveyed.{tree_of};
ghost use Rattle.hx_report.specs.Describing.{counts_lines, describe_text, number_in, place_lines};
ghost use Rattle.hx_report.specs.Words.{named_line};

use crate::words::{push_names_line, push_number_line, push_reasons_line, push_word_line};
use hx_model::{Node, is_copy, is_source};
use hx_object::{Id, NoMemory, Shared, Text};
use hx_survey::Survey;

/// What is told of a namespace: its name, its parent, its children, the reasons of its conditions, how deep it stands, and how many sources and copies lie in it, a line each.
///
/// Children, terminating ones among them, and sources and copies are looked up by the name alone: whether the namespace is there is for the caller to ask.
#[tactic(auto, unfolding(crate::specs::Describing::describe_text))]
pub fn describe(survey: &Survey, ns: &Text) -> Result<String, NoMemory>
    ensures { IfOk result (λ text. string_bytes text ≡ describe_text survey.now.excluded survey.now.objects ns.now) }
{
    let mut out = String::new(survey.allocator());
    push_place(&mut out, survey, ns)?;
    push_counts(&mut out, survey, ns)?;
    Ok(out)
}

/// Appends where it stands in the tree, and why it is halted or misses its anchor.
fn push_place(out: &mut String, survey: &Survey, ns: &Text) -> Result<(), NoMemory>
    ensures { OnOk result (string_bytes out.new ≡ string_bytes out.old ++ place_lines survey.now.objects (tree_of survey.now) ns.now) }
{
    let children = survey.children(ns)?;
    let conditions = survey.conditions(ns)?;
    push_word_line(out, "namespace", ns.as_str())?;
    push_parent(out, parent_in(survey.nodes(), ns))?;
    push_names_line(out, "children", children.as_slice())?;
    push_reasons_line(out, "conditions", conditions.as_slice())
}

fn push_parent(out: &mut String, parent: Option<&Text>) -> Result<(), NoMemory>
    ensures { OnOk result (string_bytes out.new ≡ string_bytes out.old ++ named_line (codes "parent") (as_list (option_copied parent.entry))) }
{
    match parent {
        Some(parent) => push_word_line(out, "parent", parent.as_str()),
        None => push_names_line(out, "parent", &[]),
    }
}

/// Appends how deep it stands, and how many sources and copies lie in it.
fn push_counts(out: &mut String, survey: &Survey, ns: &Text) -> Result<(), NoMemory>
    ensures { OnOk result (string_bytes out.new ≡ string_bytes out.old ++ counts_lines survey.now.objects (tree_of survey.now) ns.now) }
{
    push_number_line(out, "depth", depth_of(survey, ns)?)?;
    push_number_line(out, "sources", sources_in(survey.objects(), ns))?;
    push_number_line(out, "copies", copies_in(survey.objects(), ns))
}

/// How far a namespace is from the end of its chain.
pub(crate) fn depth_of(survey: &Survey, ns: &Text) -> Result<usize, NoMemory>
    ensures { IfOk result (λ depth. depth ≡ depth_of (tree_of survey.now) ns.now) }
{
    Ok(survey.chain(ns)?.len().saturating_sub(1))
}

/// What a namespace names as its parent.
fn parent_in<'a>(nodes: &'a [(Text, Node)], name: &Text) -> Option<&'a Text>
    ensures { option_copied result ≡ parent_of nodes.now name.now }
{
    match node_in(nodes, name) {
        Some(node) => node.parent.as_ref(),
        None => None,
    }
}

fn node_in<'a>(nodes: &'a [(Text, Node)], name: &Text) -> Option<&'a Node>
    ensures { option_copied result ≡ node_of nodes.now name.now }
{
    for entry in nodes {
        if name.as_str() == entry.0.as_str() {
            return Some(&entry.1);
        }
    }
    None
}

/// How many sources lie in a namespace.
fn sources_in(objects: &[Shared], ns: &Text) -> usize
    ensures { result ≡ number_in is_source objects.now ns.now }
{
    let mut number = 0;
    for shared in objects {
        if lies_in(ns, &shared.object().id) && is_source(shared.object()) {
            number += 1;
        }
    }
    number
}

/// How many copies do.
fn copies_in(objects: &[Shared], ns: &Text) -> usize
    ensures { result ≡ number_in is_copy objects.now ns.now }
{
    let mut number = 0;
    for shared in objects {
        if lies_in(ns, &shared.object().id) && is_copy(shared.object()) {
            number += 1;
        }
    }
    number
}

/// Whether an identity lies in a namespace.
fn lies_in(ns: &Text, id: &Id) -> bool
    ensures { result ≡ lies_in ns.now id.now }
{
    !id.kind.is_in_cluster() && ns.as_str() == id.ns.as_str()
}
