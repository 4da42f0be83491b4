//! The command formatBlock. The steps are those of docs/ALGORITHMS.md.

ghost use Rattle.std.specs.Prelude.{◌≡◌};
ghost use Rattle.edit_model.specs.Gives.{Gives, labels_of};
ghost use Rattle.edit_model.specs.Run.{for_each};
ghost use Rattle.inline_value.specs.EditDoc.Held.{Holds, EachHeld, Keeps};
ghost use Rattle.inline_value.specs.EditDoc.Whole.{IsOpen};
ghost use Rattle.block_commands.specs.FormatBlock as format;

use crate::lines::{Formatted, OnLine, SameBlock, has_outer_block};
use crate::names::block_name;
use crate::turns::{Turn, in_turns};
use edit_model::dom::Name;
use inline_value::doc::{Doc, EditFault, NodeList, NodeRef};
use inline_value::extend::count_series;
use inline_value::query::outermost;
use inline_value::questions::is_single_line;
use inline_value::wrap::{
    CopyMade, WrapRule, remove_keeping_children, split_around, turn_bound, wrap,
};
use inline_value::{bare, fix_ancestors, record_values, restore_values};
use std::alloc::Global;

// Step 3: as long as the node stands in a block with no other block in it.
#[tactic(auto, using(edit_model::proofs::Steps::whiles, edit_model::proofs::Steps::exits), unfolding(crate::specs::FormatBlock::leave_blocks))]
fn leave_blocks(alloc: Global, doc: &mut Doc, node: NodeRef) -> Result<(), EditFault>
    requires open { IsOpen doc.old }
    requires node_held { Holds doc.old node }
    ensures gives { Gives result doc.old.state doc.new.state (format.leave_blocks node.label) }
    ensures keeps { Keeps doc.old doc.new }
{
    let mut left = turn_bound(doc);
    while left > 0 && has_outer_block(doc, node) {
        split_around(alloc, doc, node)?;
        left -= 1;
    }
    Ok(())
}

// Step 3, of each node of a list.
#[tactic(auto, using(edit_model::proofs::Steps::eachs, edit_model::proofs::Steps::exits))]
fn leave_each(alloc: Global, doc: &mut Doc, list: &[NodeRef]) -> Result<(), EditFault>
    requires open { IsOpen doc.old }
    requires list_held { EachHeld doc.old list.now }
    ensures gives { Gives result doc.old.state doc.new.state
        (for_each (labels_of list.now) format.leave_blocks) }
    ensures keeps { Keeps doc.old doc.new }
{
    for node in list {
        leave_blocks(alloc, doc, *node)?;
    }
    Ok(())
}

// Step 3, with the values of all recorded before and restored after it.
#[tactic(auto, using(edit_model::proofs::Steps::steps, edit_model::proofs::Steps::exits), unfolding(crate::specs::FormatBlock::split_blocks, inline_value::specs::Recording::record_values))]
fn split_blocks(alloc: Global, doc: &mut Doc, list: &[NodeRef]) -> Result<(), EditFault>
    requires open { IsOpen doc.old }
    requires list_held { EachHeld doc.old list.now }
    ensures gives { Gives result doc.old.state doc.new.state
        (format.split_blocks (labels_of list.now)) }
    ensures keeps { Keeps doc.old doc.new }
{
    let values = record_values(alloc, doc, list)?;
    leave_each(alloc, doc, list)?;
    restore_values(alloc, doc, &values)
}

// Steps 4 c and d: a list is wrapped in an element of the name.
#[tactic(auto, using(edit_model::proofs::Steps::steps, edit_model::proofs::Steps::exits), unfolding(crate::specs::FormatBlock::make_block))]
fn make_block(alloc: Global, doc: &mut Doc, name: &Name, list: &[NodeRef]) -> Result<(), EditFault>
    requires open { IsOpen doc.old }
    requires list_held { EachHeld doc.old list.now }
    ensures gives { Gives result doc.old.state doc.new.state
        (format.make_block name.now (labels_of list.now)) }
    ensures keeps { Keeps doc.old doc.new }
{
    let test = SameBlock {
        name: name.clone()?,
    };
    let maker = CopyMade {
        blank: bare(alloc, name.as_slice())?,
    };
    let members = NodeList::from_slice(alloc, list)?;
    match wrap(alloc, doc, members, &WrapRule::new(test, maker))? {
        Some(made) => fix_ancestors(alloc, doc, made), // d
        None => Ok(()),
    }
}

// Steps 4 a and c to e: a container goes, and its children are wrapped.
#[tactic(auto, using(edit_model::proofs::Steps::steps, edit_model::proofs::Steps::exits), unfolding(crate::specs::FormatBlock::format_container, inline_value::specs::Recording::record_values))]
fn format_container(
    alloc: Global,
    doc: &mut Doc,
    name: &Name,
    node: NodeRef,
) -> Result<(), EditFault>
    requires open { IsOpen doc.old }
    requires node_held { Holds doc.old node }
    ensures gives { Gives result doc.old.state doc.new.state
        (format.format_container name.now node.label) }
    ensures keeps { Keeps doc.old doc.new }
{
    let children = doc.children_of(node)?;
    let values = record_values(alloc, doc, &children)?;
    remove_keeping_children(alloc, doc, node)?;
    make_block(alloc, doc, name, &children)?;
    restore_values(alloc, doc, &values)
}

// Step 4, one turn.
#[derive(Clone, Copy)]
struct FormatTurn<'a> {
    name: &'a Name,
}

impl<'a> Turn for FormatTurn<'a> {
    ghost use Rattle.block_commands.specs.FormatBlock.{format_next};

    ghost run = { λ s. format_next s.name.now };

    #[tactic(auto, using(edit_model::proofs::Steps::steps, edit_model::proofs::Steps::exits, edit_model::proofs::Steps::ends, crate::proofs::Below::labels_mapped, crate::proofs::Below::all_held, crate::proofs::Below::labels_of_front, crate::proofs::Below::labels_of_rest, crate::proofs::Counting::exit_count), unfolding(crate::specs::FormatBlock::format_next, crate::specs::FormatBlock::format_line))]
    fn take(&self, alloc: Global, doc: &mut Doc, list: &[NodeRef]) -> Result<usize, EditFault> {
        let first = list[0];
        if is_single_line(doc, first) {
            format_container(alloc, doc, self.name, first)?;
            return Ok(1);
        }
        let count = count_series(doc, list, &OnLine); // b
        make_block(alloc, doc, self.name, &list[..count])?;
        Ok(count)
    }
}

// Steps 2 to 4.
#[tactic(auto, using(edit_model::proofs::Steps::steps, edit_model::proofs::Steps::exits), unfolding(crate::specs::FormatBlock::format_range))]
fn format_range(alloc: Global, doc: &mut Doc, name: &Name) -> Result<bool, EditFault>
    requires open { IsOpen doc.old }
    ensures gives { Gives result doc.old.state doc.new.state (format.format_range name.now) }
    ensures keeps { Keeps doc.old doc.new }
{
    let list = outermost(alloc, doc, &Formatted)?; // step 2
    split_blocks(alloc, doc, list.as_slice())?; // step 3
    in_turns(alloc, doc, &FormatTurn { name }, list.as_slice())?; // step 4
    Ok(true)
}

/// The command formatBlock: the lines of the active range become blocks of the name that the value
/// gives, with or without `<` and `>` around it and in any case. Without such a name it answers
/// false.
#[tactic(auto, using(edit_model::proofs::Steps::steps, edit_model::proofs::Steps::exits), unfolding(crate::specs::FormatBlock::format_block))]
pub fn format_block(alloc: Global, doc: &mut Doc, value: &[char]) -> Result<bool, EditFault>
    requires open { IsOpen doc.old }
    ensures gives { Gives result doc.old.state doc.new.state (format.format_block value.now) }
    ensures keeps { Keeps doc.old doc.new }
{
    match block_name(alloc, value)? {
        Some(name) => format_range(alloc, doc, &name),
        None => Ok(false), // step 1
    }
}
