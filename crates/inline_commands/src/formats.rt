//! The command removeFormat. The steps are those of docs/ALGORITHMS.md.

ghost use Rattle.std.specs.Prelude.{◌≡◌};
ghost use Rattle.edit_model.specs.Gives.{Gives, labels_of};
ghost use Rattle.edit_model.specs.Moves.{unwrap};
ghost use Rattle.edit_model.specs.Run.{for_each};
ghost use Rattle.inline_value.specs.EditDoc.Held.{Holds, EachHeld, Keeps};
ghost use Rattle.inline_value.specs.EditDoc.Whole.{IsOpen};
ghost use Rattle.inline_value.specs.Recording.{recorded_commands};
ghost use Rattle.inline_commands.specs.RemovingFormat.{unwrap_candidates, is_formatted, part_from_format, part_nodes, clear_command, clear_commands, remove_format};

use crate::ranges::{candidates_in_range, is_candidate};
use edit_model::element_names::Command;
use inline_value::actions::unwrap;
use inline_value::doc::{Doc, EditFault, NodeRef};
use inline_value::wrap::{split_around, turn_bound};
use inline_value::{editable_in_range, set_value, split_ends};
use std::alloc::Global;

// Remove the format, step 1: of each node of a list.
#[tactic(auto, using(edit_model::proofs::Steps::eachs, edit_model::proofs::Steps::exits))]
fn unwrap_each(doc: &mut Doc, list: &[NodeRef]) -> Result<(), EditFault>
    requires open { IsOpen doc.old }
    requires list_held { EachHeld doc.old list.now }
    ensures gives { Gives result doc.old.state doc.new.state
        (for_each (labels_of list.now) unwrap) }
    ensures keeps { Keeps doc.old doc.new }
{
    for node in list {
        unwrap(doc, *node)?;
    }
    Ok(())
}

// Remove the format, step 1.
#[tactic(auto, using(edit_model::proofs::Steps::steps, edit_model::proofs::Steps::exits), unfolding(crate::specs::RemovingFormat::unwrap_candidates))]
fn unwrap_candidates(alloc: Global, doc: &mut Doc) -> Result<(), EditFault>
    requires open { IsOpen doc.old }
    ensures gives { Gives result doc.old.state doc.new.state unwrap_candidates }
    ensures keeps { Keeps doc.old doc.new }
{
    let list = candidates_in_range(alloc, doc)?;
    unwrap_each(doc, &list)
}

// Remove the format, step 3: whether the parent is a candidate.
#[tactic(auto, unfolding(crate::specs::RemovingFormat::is_formatted))]
fn is_formatted(doc: &Doc, node: NodeRef) -> bool
    requires { Holds doc.now node }
    ensures { result ≡ is_formatted doc.now.state node.label }
{
    match doc.parent(node) {
        Some(parent) => is_candidate(doc, parent),
        None => false,
    }
}

// Remove the format, step 3: of one node.
#[tactic(auto, using(edit_model::proofs::Steps::whiles, edit_model::proofs::Steps::exits), unfolding(crate::specs::RemovingFormat::part_from_format))]
fn part_from_format(alloc: Global, doc: &mut Doc, node: NodeRef) -> Result<(), EditFault>
    requires open { IsOpen doc.old }
    requires node_held { Holds doc.old node }
    ensures gives { Gives result doc.old.state doc.new.state (part_from_format node.label) }
    ensures keeps { Keeps doc.old doc.new }
{
    let mut turns = turn_bound(doc);
    while turns > 0 && is_formatted(doc, node) {
        split_around(alloc, doc, node)?;
        turns -= 1;
    }
    Ok(())
}

// Remove the format, step 3: of each node of a list.
#[tactic(auto, using(edit_model::proofs::Steps::eachs, edit_model::proofs::Steps::exits))]
fn part_each(alloc: Global, doc: &mut Doc, list: &[NodeRef]) -> Result<(), EditFault>
    requires open { IsOpen doc.old }
    requires list_held { EachHeld doc.old list.now }
    ensures gives { Gives result doc.old.state doc.new.state
        (for_each (labels_of list.now) part_from_format) }
    ensures keeps { Keeps doc.old doc.new }
{
    for node in list {
        part_from_format(alloc, doc, *node)?;
    }
    Ok(())
}

// Remove the format, step 3.
#[tactic(auto, using(edit_model::proofs::Steps::steps, edit_model::proofs::Steps::exits), unfolding(crate::specs::RemovingFormat::part_nodes))]
fn part_nodes(alloc: Global, doc: &mut Doc) -> Result<(), EditFault>
    requires open { IsOpen doc.old }
    ensures gives { Gives result doc.old.state doc.new.state part_nodes }
    ensures keeps { Keeps doc.old doc.new }
{
    let list = editable_in_range(alloc, doc)?;
    part_each(alloc, doc, &list)
}

// Remove the format, step 4: of one command.
#[tactic(auto, unfolding(crate::specs::RemovingFormat::clear_command))]
fn clear_command(alloc: Global, doc: &mut Doc, command: Command) -> Result<(), EditFault>
    requires open { IsOpen doc.old }
    ensures gives { Gives result doc.old.state doc.new.state (clear_command command) }
    ensures keeps { Keeps doc.old doc.new }
{
    set_value(alloc, doc, None, command)
}

// Remove the format, step 4: of each command of a list.
#[tactic(auto, using(edit_model::proofs::Steps::steps, crate::proofs::Items::commands, edit_model::proofs::Steps::exits))]
fn clear_each(alloc: Global, doc: &mut Doc, list: &[Command]) -> Result<(), EditFault>
    requires open { IsOpen doc.old }
    ensures gives { Gives result doc.old.state doc.new.state (for_each list.now clear_command) }
    ensures keeps { Keeps doc.old doc.new }
{
    for command in list {
        clear_command(alloc, doc, *command)?;
    }
    Ok(())
}

// The commands whose values go, in order.
static CLEARED: [Command; 9] = [
    Command::Subscript,
    Command::Bold,
    Command::FontName,
    Command::FontSize,
    Command::ForeColor,
    Command::HiliteColor,
    Command::Italic,
    Command::Strikethrough,
    Command::Underline,
];

// Remove the format, step 4.
#[tactic(auto, unfolding(crate::specs::RemovingFormat::clear_commands, inline_value::specs::Recording::recorded_commands))]
fn clear_commands(alloc: Global, doc: &mut Doc) -> Result<(), EditFault>
    requires open { IsOpen doc.old }
    ensures gives { Gives result doc.old.state doc.new.state clear_commands }
    ensures keeps { Keeps doc.old doc.new }
{
    clear_each(alloc, doc, &CLEARED)
}

/// The command removeFormat: the elements that stand for a format give way to their children where
/// the active range effectively contains them, other such elements are split around what it
/// contains, and the values of the commands on styles go. It answers true.
#[tactic(auto, using(edit_model::proofs::Steps::steps, edit_model::proofs::Steps::exits), unfolding(crate::specs::RemovingFormat::remove_format))]
pub fn remove_format(alloc: Global, doc: &mut Doc) -> Result<bool, EditFault>
    requires open { IsOpen doc.old }
    ensures gives { Gives result doc.old.state doc.new.state remove_format }
    ensures keeps { Keeps doc.old doc.new }
{
    unwrap_candidates(alloc, doc)?; // step 1
    split_ends(alloc, doc)?; // step 2
    part_nodes(alloc, doc)?; // step 3
    clear_commands(alloc, doc)?; // step 4
    Ok(true)
}
