// What is staged, and made or dropped, in a small tree.
use hx_forest::{Change, Forest, Halt, Node};
use hx_object::{NoMemory, Text};
use std::alloc::Global;
use std::hash::RandomState;
use std::test::Fail;

/// Adds namespaces with their parents, where they aren't there yet. The empty text is no parent.
fn add_all(alloc: Global, forest: &mut Forest, rows: &[(&str, &str)]) -> Result<(), NoMemory> {
    for (name, parent) in rows {
        let name = Text::of(alloc, name)?;
        let parent = match parent.is_empty() {
            true => None,
            false => Some(Text::of(alloc, parent)?),
        };
        let node = Node {
            parent,
            terminating: false,
            excluded: false,
        };
        if forest.node(&name).is_none() {
            forest.stage(Vec::from_array(alloc, [Change::Add { name, node }])?)?;
            forest.apply();
        }
    }
    Ok(())
}

/// Stages that a namespace gets another parent, where it is there.
fn stage_move(
    alloc: Global,
    forest: &mut Forest,
    name: &str,
    parent: &str,
) -> Result<(), NoMemory> {
    let name = Text::of(alloc, name)?;
    let parent = Some(Text::of(alloc, parent)?);
    if forest.node(&name).is_some() {
        forest.stage(Vec::from_array(alloc, [Change::SetParent { name, parent }])?)?;
    }
    Ok(())
}

/// Stages that a namespace is on its way out, where it is there.
fn stage_end(alloc: Global, forest: &mut Forest, name: &str) -> Result<(), NoMemory> {
    let name = Text::of(alloc, name)?;
    if forest.node(&name).is_some() {
        forest.stage(Vec::from_array(alloc, [Change::SetTerminating { name }])?)?;
    }
    Ok(())
}

/// Stages that a namespace goes, where it is there.
fn stage_removal(alloc: Global, forest: &mut Forest, name: &str) -> Result<(), NoMemory> {
    let name = Text::of(alloc, name)?;
    if forest.node(&name).is_some() {
        forest.stage(Vec::from_array(alloc, [Change::Remove { name }])?)?;
    }
    Ok(())
}

/// The names, with a space after each.
fn joined(alloc: Global, names: &[Text]) -> Result<String, NoMemory> {
    let mut text = String::new(alloc);
    for name in names {
        text.push_str(name.as_str())?;
        text.push(' ')?;
    }
    Ok(text)
}

/// Whether the names are those of the text, which has a space after each.
fn are(alloc: Global, names: &[Text], wanted: &str) -> Result<bool, NoMemory> {
    Ok(joined(alloc, names)?.as_str() == wanted)
}

fn has_chain(alloc: Global, forest: &Forest, name: &str, wanted: &str) -> Result<bool, NoMemory> {
    let chain = forest.chain(&Text::of(alloc, name)?)?;
    are(alloc, chain.as_slice(), wanted)
}

fn has_children(
    alloc: Global,
    forest: &Forest,
    name: &str,
    wanted: &str,
) -> Result<bool, NoMemory> {
    are(alloc, forest.children(&Text::of(alloc, name)?), wanted)
}

/// A small tree, and what each staged change leaves of it: none where it is dropped.
fn changes_are_alike(alloc: Global, forest: &mut Forest) -> Result<bool, NoMemory> {
    add_all(
        alloc,
        forest,
        &[
            ("web", "team"),
            ("team", "acme"),
            ("acme", ""),
            ("beta", ""),
        ],
    )?;
    stage_removal(alloc, forest, "team")?;
    forest.discard();
    forest.apply();
    let dropped = has_chain(alloc, forest, "web", "web team acme ")?;
    stage_move(alloc, forest, "team", "beta")?;
    let staged = has_chain(alloc, forest, "web", "web team acme ")?;
    forest.apply();
    let moved = has_chain(alloc, forest, "web", "web team beta ")?;
    stage_end(alloc, forest, "team")?;
    forest.apply();
    let halted = forest.halt(&Text::of(alloc, "web")?) == Some(Halt::ParentMissing);
    stage_removal(alloc, forest, "team")?;
    forest.apply();
    let removed = has_children(alloc, forest, "team", "web ")? && forest.len() == 3;
    Ok(dropped && staged && moved && halted && removed)
}

#[test]
fn staged_changes_are_made_or_dropped(rt: HostRuntime) -> Result<(), Fail> {
    let mut forest = Forest::new(rt.alloc(), RandomState::new(&rt)?);
    assert!(rt; changes_are_alike(rt.alloc(), &mut forest)?);
    Ok(())
}
