//! The command insertLineBreak. The steps are those of docs/ALGORITHMS.md.

ghost use Rattle.std.specs.Prelude.{◌≡◌};
ghost use Rattle.edit_model.specs.Gives.{Gives};
ghost use Rattle.inline_value.specs.EditDoc.Whole.{IsOpen};
ghost use Rattle.inline_value.specs.EditDoc.Held.{Holds, Keeps};
ghost use Rattle.insert_objects.specs.LineBreak as command;

use crate::putting::{collapse_after, put};
use delete_core::Manner;
use edit_model::boundary::node_of;
use inline_value::actions::make_break;
use inline_value::doc::{Attributes, Doc, EditFault, NodeRef};
use inline_value::questions::{
    is_collapsed_break, is_element, is_extraneous_break, name_allowed_in,
};
use std::alloc::Global;
use text_insertion::{erase, insert_at_start, start_inside};

// Step 2: whether a br may stand in an element, or beside what is none.
#[tactic(auto, unfolding(crate::specs::LineBreak::takes_break))]
fn takes_break(doc: &Doc, node: NodeRef) -> bool
    requires { Holds doc.now node }
    ensures { result ≡ command.takes_break doc.now.state node.label }
{
    if is_element(doc, node) {
        return name_allowed_in(doc, b"br", node);
    }
    match doc.parent(node) {
        Some(parent) => name_allowed_in(doc, b"br", parent),
        None => false,
    }
}

// Step 4: a br that shows no line of its own is followed by another one.
#[tactic(auto, using(edit_model::proofs::Steps::steps, edit_model::proofs::Steps::exits), unfolding(crate::specs::LineBreak::repeat_break))]
fn repeat_break(alloc: Global, doc: &mut Doc, node: NodeRef) -> Result<(), EditFault>
    requires open { IsOpen doc.old }
    requires node_held { Holds doc.old node }
    ensures gives { Gives result doc.old.state doc.new.state (command.repeat_break node.label) }
    ensures keeps { Keeps doc.old doc.new }
{
    if is_extraneous_break(doc, node) || is_collapsed_break(doc, node) {
        let made = make_break(alloc, doc)?;
        insert_at_start(doc, made)?;
    }
    Ok(())
}

/// The command insertLineBreak: what is selected goes, and a br stands in its place, with the caret
/// after it. Where that br alone would show no new line, as at the end of a block, another one
/// comes after it. It answers true.
#[tactic(auto, using(edit_model::proofs::Steps::steps, edit_model::proofs::Steps::exits), unfolding(crate::specs::LineBreak::put_break, crate::specs::LineBreak::break_line, crate::specs::LineBreak::insert_line_break))]
pub fn insert_line_break(alloc: Global, doc: &mut Doc) -> Result<bool, EditFault>
    requires open { IsOpen doc.old }
    ensures gives { Gives result doc.old.state doc.new.state command.insert_line_break }
    ensures keeps { Keeps doc.old doc.new }
{
    erase(alloc, doc, Manner::KEEP_WRAPPERS)?;
    let Some(at) = start_inside(doc) else {
        return Ok(true);
    };
    if !takes_break(doc, node_of(doc, at)) {
        return Ok(true);
    }
    let made = put(alloc, doc, b"br", &Attributes::new(alloc))?;
    collapse_after(doc, made);
    repeat_break(alloc, doc, made)?;
    Ok(true)
}
