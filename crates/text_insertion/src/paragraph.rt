//! The command insertParagraph. The steps are those of docs/ALGORITHMS.md.

ghost use Rattle.std.specs.Prelude.{◌≡◌, ◌<◌, IfOk, IfSome, true};
ghost use Rattle.edit_model.specs.DomModel.Forest.{count_of};
ghost use Rattle.edit_model.specs.Gives.{Gives};
ghost use Rattle.inline_value.specs.EditDoc.Whole.{IsOpen};
ghost use Rattle.inline_value.specs.EditDoc.Held.{Holds, Keeps};
ghost use Rattle.text_insertion.specs.Paragraph as command;

use crate::containers::container_of;
use crate::entries::{is_empty_entry, leave_list};
use crate::halves::part_container;
use crate::lines::own_container;
use crate::start::{cuts_text, erase, has_chars, insert_at_start, start_inside};
use delete_core::{Manner, after_node, before_node, select};
use edit_model::boundary::node_of;
use inline_value::actions::make_break;
use inline_value::doc::{Doc, EditFault, NodeRef, Point};
use inline_value::questions::{has_name, is_words};
use inline_value::wrap::last_below;
use std::alloc::{AllocError, Global};

// Step 2: from the end of a text to after it, and else to before the text or comment.
#[tactic(auto, unfolding(crate::specs::Paragraph::out_of_text))]
fn out_of_text(doc: &Doc, node: NodeRef, at: Point) -> Option<Point>
    requires held { Holds doc.now node }
    requires label { at.label ≡ node.label }
    ensures gives { result ≡ command.out_of_text doc.now.state.trees at }
    ensures there { IfSome result (λ next. 0 < count_of doc.now.state.trees next.label) }
{
    if is_words(doc, node) && at.offset == doc.length(node) {
        after_node(doc, node)
    } else if has_chars(doc, node) {
        before_node(doc, node)
    } else {
        None
    }
}

// Step 2: the point outside a text or a comment.
#[tactic(auto, unfolding(crate::specs::Paragraph::left_text))]
fn left_text(doc: &Doc, node: NodeRef, at: Point) -> Point
    requires held { Holds doc.now node }
    requires label { at.label ≡ node.label }
    ensures gives { result ≡ command.left_text doc.now.state.trees at }
    ensures there { 0 < count_of doc.now.state.trees result.label }
{
    match out_of_text(doc, node, at) {
        Some(out) => out,
        None => at,
    }
}

// Step 2: the point leaves a text or a comment.
#[tactic(auto, using(edit_model::proofs::Steps::steps, edit_model::proofs::Steps::exits, edit_model::proofs::Steps::actions), unfolding(crate::specs::Paragraph::leave_text))]
fn leave_text(doc: &mut Doc, node: NodeRef, at: Point) -> Result<Point, EditFault>
    requires open { IsOpen doc.old }
    requires node_held { Holds doc.old node }
    requires label { at.label ≡ node.label }
    ensures gives { Gives result doc.old.state doc.new.state (command.leave_text at) }
    ensures there { IfOk result (λ next. 0 < count_of doc.new.state.trees next.label) }
    ensures keeps { Keeps doc.old doc.new }
{
    let caret = left_text(doc, node, at);
    select(doc, caret, caret);
    Ok(caret)
}

// Step 2: a text is split there, and the point leaves it.
#[tactic(auto, using(edit_model::proofs::Steps::steps, edit_model::proofs::Steps::exits), unfolding(crate::specs::Paragraph::split_text))]
fn split_text(doc: &mut Doc, at: Point) -> Result<Point, EditFault>
    requires open { IsOpen doc.old }
    requires here { 0 < count_of doc.old.state.trees at.label }
    ensures gives { Gives result doc.old.state doc.new.state (command.split_text at) }
    ensures there { IfOk result (λ next. 0 < count_of doc.new.state.trees next.label) }
    ensures keeps { Keeps doc.old doc.new }
{
    let node = node_of(doc, at);
    if cuts_text(doc, node, at) {
        doc.split_words(node, at.offset)?;
    }
    leave_text(doc, node, at)
}

// Step 5: whether a node is an address, listing or pre.
#[tactic(auto, unfolding(crate::specs::Paragraph::holds_lines))]
fn holds_lines(doc: &Doc, node: NodeRef) -> bool
    requires { Holds doc.now node }
    ensures { result ≡ command.holds_lines doc.now.state node.label }
{
    has_name(doc, node, b"address")
        || has_name(doc, node, b"listing")
        || has_name(doc, node, b"pre")
}

// Step 5: a br ends the line. Where it is the last node of its container, another one follows it.
#[tactic(auto, using(edit_model::proofs::Steps::steps, edit_model::proofs::Steps::exits, edit_model::proofs::Steps::actions), unfolding(crate::specs::Paragraph::break_line))]
fn break_line(alloc: Global, doc: &mut Doc, at: Point, container: NodeRef) -> Result<(), EditFault>
    requires open { IsOpen doc.old }
    requires container_held { Holds doc.old container }
    ensures gives { Gives result doc.old.state doc.new.state
        (command.break_line at container.label) }
    ensures keeps { Keeps doc.old doc.new }
{
    let offset = at.offset.checked_add(1).ok_or(AllocError)?;
    let made = make_break(alloc, doc)?;
    insert_at_start(doc, made)?;
    let caret = Point {
        label: at.label,
        offset,
    };
    select(doc, caret, caret);
    if last_below(doc, container).label == made.label {
        let second = make_break(alloc, doc)?;
        insert_at_start(doc, second)?;
    }
    Ok(())
}

// Steps 2 to 9, where the start's node is inside.
#[tactic(auto, using(edit_model::proofs::Steps::steps, edit_model::proofs::Steps::exits), unfolding(crate::specs::Paragraph::part_line, crate::specs::Paragraph::part_paragraph, crate::specs::Paragraph::insert_paragraph_inside))]
fn insert_paragraph_inside(alloc: Global, doc: &mut Doc) -> Result<(), EditFault>
    requires open { IsOpen doc.old }
    ensures gives { Gives result doc.old.state doc.new.state command.insert_paragraph_inside }
    ensures keeps { Keeps doc.old doc.new }
{
    let Some(start) = start_inside(doc) else {
        return Ok(());
    };
    let at = split_text(doc, start)?; // step 2
    let found = container_of(doc, node_of(doc, at)); // step 3
    let Some(container) = own_container(alloc, doc, found)? else {
        return Ok(()); // step 4
    };
    if holds_lines(doc, container) {
        break_line(alloc, doc, at, container) // step 5
    } else if is_empty_entry(doc, container) {
        leave_list(alloc, doc, container) // step 6
    } else {
        part_container(alloc, doc, container) // steps 7 to 9
    }
}

/// The command insertParagraph: what is selected goes, and the line is parted there. In an address,
/// listing or pre it is parted by a br, and an entry of a list with nothing in it leaves the list.
#[tactic(auto, using(edit_model::proofs::Steps::steps, edit_model::proofs::Steps::exits), unfolding(crate::specs::Paragraph::insert_paragraph))]
pub fn insert_paragraph(alloc: Global, doc: &mut Doc) -> Result<bool, EditFault>
    requires open { IsOpen doc.old }
    ensures gives { Gives result doc.old.state doc.new.state command.insert_paragraph }
    ensures taken { IfOk result (λ answer. answer ≡ true) }
    ensures keeps { Keeps doc.old doc.new }
{
    erase(alloc, doc, Manner::DEFAULT)?; // step 1
    insert_paragraph_inside(alloc, doc)?;
    Ok(true)
}
