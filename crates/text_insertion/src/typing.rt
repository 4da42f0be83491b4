//! The command insertText. The steps are those of docs/ALGORITHMS.md.

ghost use Rattle.std.specs.Prelude.{◌≡◌, ◌<◌, IfOk, true};
ghost use Rattle.edit_model.specs.DomModel.Forest.{count_of};
ghost use Rattle.edit_model.specs.Gives.{Gives, label_of};
ghost use Rattle.edit_model.specs.Run.{for_each};
ghost use Rattle.inline_value.specs.EditDoc.Whole.{IsOpen};
ghost use Rattle.inline_value.specs.EditDoc.Held.{Holds, IfHeld, Finds, Keeps};
ghost use Rattle.text_insertion.specs.Typing as typing;

use crate::paragraph::insert_paragraph;
use crate::start::{active_start, erase, insert_at_start, start_inside};
use delete_core::{
    Manner, canonicalize, canonicalize_end, canonicalize_start, child_at, child_before,
    collapse_selection, end_in, select, start_in,
};
use edit_model::boundary::node_of;
use inline_commands::restore_states;
use inline_value::doc::{Doc, EditFault, NodeRef, Point};
use inline_value::questions::{is_collapsed_break, is_words};
use inline_value::record_overrides;
use std::alloc::{AllocError, Global};

// A node, if there is one, that is a text.
fn if_words(doc: &Doc, node: Option<NodeRef>) -> Option<NodeRef>
    requires { IfHeld doc.now node }
    ensures { Finds doc.now result (typing.if_words doc.now.state.trees (label_of node)) }
{
    let node = node?;
    if is_words(doc, node) {
        Some(node)
    } else {
        None
    }
}

// Step 3: the end of a text before a point.
#[tactic(auto, unfolding(crate::specs::Typing::end_before))]
fn end_before(doc: &Doc, node: NodeRef, at: Point) -> Option<Point>
    requires held { Holds doc.now node }
    requires label { at.label ≡ node.label }
    ensures { result ≡ typing.end_before doc.now.state.trees at }
{
    let text = if_words(doc, child_before(doc, node, at.offset))?;
    Some(end_in(doc, text))
}

// Step 3: the start of a text after a point.
#[tactic(auto, unfolding(crate::specs::Typing::start_after))]
fn start_after(doc: &Doc, node: NodeRef, at: Point) -> Option<Point>
    requires held { Holds doc.now node }
    requires label { at.label ≡ node.label }
    ensures { result ≡ typing.start_after doc.now.state.trees at }
{
    let text = if_words(doc, child_at(doc, node, at.offset))?;
    Some(start_in(text))
}

// Step 3.
#[tactic(auto, unfolding(crate::specs::Typing::into_text))]
fn into_text(doc: &Doc, at: Point) -> Point
    requires { 0 < count_of doc.now.state.trees at.label }
    ensures { result ≡ typing.into_text doc.now.state.trees at }
{
    let node = node_of(doc, at);
    if let Some(end) = end_before(doc, node, at) {
        return end;
    }
    start_after(doc, node, at).unwrap_or(at)
}

// Step 5: the one child of a node goes, where it is a collapsed line break.
#[tactic(auto, using(edit_model::proofs::Steps::steps, edit_model::proofs::Steps::exits), unfolding(crate::specs::Typing::drop_sole_break))]
fn drop_sole_break(doc: &mut Doc, node: NodeRef) -> Result<(), EditFault>
    requires open { IsOpen doc.old }
    requires node_held { Holds doc.old node }
    ensures gives { Gives result doc.old.state doc.new.state (typing.drop_sole_break node.label) }
    ensures keeps { Keeps doc.old doc.new }
{
    let Some(child) = doc.first_child(node) else {
        return Ok(());
    };
    if doc.next(child).is_none() && is_collapsed_break(doc, child) {
        doc.remove(child)?;
    }
    Ok(())
}

// Step 5: a character goes into the text at the start of the active range, or into a new one there.
#[tactic(auto, using(edit_model::proofs::Steps::steps, edit_model::proofs::Steps::exits, edit_model::proofs::Steps::actions), unfolding(crate::specs::Typing::put_at, crate::specs::Typing::put_char))]
fn put_char(doc: &mut Doc, put: char) -> Result<(), EditFault>
    requires open { IsOpen doc.old }
    ensures gives { Gives result doc.old.state doc.new.state (typing.put_char put) }
    ensures keeps { Keeps doc.old doc.new }
{
    let Some(at) = active_start(doc) else {
        return Ok(());
    };
    let node = node_of(doc, at);
    if is_words(doc, node) {
        let offset = at.offset.checked_add(1).ok_or(AllocError)?;
        doc.replace_words(node, at.offset, 0, &[put])?;
        let end = Point {
            label: at.label,
            offset,
        };
        select(doc, at, end);
        return Ok(());
    }
    drop_sole_break(doc, node)?;
    let text = doc.make_words(&[put])?;
    insert_at_start(doc, text)?;
    let end = end_in(doc, text);
    select(doc, start_in(text), end);
    Ok(())
}

// Step 7.
#[tactic(auto, using(edit_model::proofs::Steps::steps, edit_model::proofs::Steps::exits), unfolding(crate::specs::Typing::close_text))]
fn close_text(alloc: Global, doc: &mut Doc) -> Result<(), EditFault>
    requires open { IsOpen doc.old }
    ensures gives { Gives result doc.old.state doc.new.state typing.close_text }
    ensures keeps { Keeps doc.old doc.new }
{
    canonicalize_start(alloc, doc, false)?;
    canonicalize_end(alloc, doc, false)?;
    collapse_selection(doc, true)
}

// Steps 3 to 7.
#[tactic(auto, using(edit_model::proofs::Steps::steps, edit_model::proofs::Steps::exits, edit_model::proofs::Steps::actions), unfolding(crate::specs::Typing::type_char))]
fn type_char(alloc: Global, doc: &mut Doc, put: char, at: Point) -> Result<(), EditFault>
    requires open { IsOpen doc.old }
    requires here { 0 < count_of doc.old.state.trees at.label }
    ensures gives { Gives result doc.old.state doc.new.state (typing.type_char put at) }
    ensures keeps { Keeps doc.old doc.new }
{
    let place = into_text(doc, at); // step 3
    // step 4
    let overrides = record_overrides(alloc, doc)?;
    select(doc, place, place);
    canonicalize(alloc, doc, place, true)?;
    put_char(doc, put)?; // step 5
    restore_states(alloc, doc, &overrides)?; // step 6
    close_text(alloc, doc)
}

// From step 2 on, of one character, where the start's node is inside. A line feed begins a
// paragraph.
#[tactic(auto, using(edit_model::proofs::Steps::steps, edit_model::proofs::Steps::exits), unfolding(crate::specs::Typing::insert_char_at, crate::specs::Typing::insert_char_inside))]
fn insert_char_inside(alloc: Global, doc: &mut Doc, put: char) -> Result<(), EditFault>
    requires open { IsOpen doc.old }
    ensures gives { Gives result doc.old.state doc.new.state (typing.insert_char_inside put) }
    ensures keeps { Keeps doc.old doc.new }
{
    let Some(at) = start_inside(doc) else {
        return Ok(());
    };
    if put != '\n' {
        return type_char(alloc, doc, put, at);
    }
    insert_paragraph(alloc, doc)?;
    Ok(())
}

// Insert text, of one character.
#[tactic(auto, using(edit_model::proofs::Steps::steps, edit_model::proofs::Steps::exits), unfolding(crate::specs::Typing::insert_char))]
fn insert_char(alloc: Global, doc: &mut Doc, put: char) -> Result<(), EditFault>
    requires open { IsOpen doc.old }
    ensures gives { Gives result doc.old.state doc.new.state (typing.insert_char put) }
    ensures keeps { Keeps doc.old doc.new }
{
    erase(alloc, doc, Manner::KEEP_WRAPPERS)?;
    insert_char_inside(alloc, doc, put)
}

// Step 2: each character, in order.
#[tactic(auto, using(edit_model::proofs::Steps::steps, edit_model::proofs::Steps::exits, crate::proofs::Chars::turns))]
fn insert_each(alloc: Global, doc: &mut Doc, value: &[char]) -> Result<(), EditFault>
    requires open { IsOpen doc.old }
    ensures gives { Gives result doc.old.state doc.new.state
        (for_each value.now typing.insert_char) }
    ensures keeps { Keeps doc.old doc.new }
{
    for put in value {
        insert_char(alloc, doc, *put)?;
    }
    Ok(())
}

// Step 2: each of several characters in order, none, or one.
#[tactic(auto, using(edit_model::proofs::Steps::steps, edit_model::proofs::Steps::exits, crate::proofs::Chars::counts), unfolding(crate::specs::Typing::insert_several))]
fn insert_chars(alloc: Global, doc: &mut Doc, value: &[char]) -> Result<(), EditFault>
    requires open { IsOpen doc.old }
    ensures gives { Gives result doc.old.state doc.new.state (typing.insert_chars value.now) }
    ensures keeps { Keeps doc.old doc.new }
{
    if value.len() > 1 {
        if start_inside(doc).is_none() {
            return Ok(());
        }
        return insert_each(alloc, doc, value);
    }
    if value.len() == 0 {
        return Ok(());
    }
    insert_char_inside(alloc, doc, value[0])
}

/// The command insertText: what is selected goes, and the characters of the value come there one by
/// one, as if each were typed, with the overrides that are set. A line feed begins a paragraph.
#[tactic(auto, using(edit_model::proofs::Steps::steps, edit_model::proofs::Steps::exits), unfolding(crate::specs::Typing::insert_text))]
pub fn insert_text(alloc: Global, doc: &mut Doc, value: &[char]) -> Result<bool, EditFault>
    requires open { IsOpen doc.old }
    ensures gives { Gives result doc.old.state doc.new.state (typing.insert_text value.now) }
    ensures taken { IfOk result (λ answer. answer ≡ true) }
    ensures keeps { Keeps doc.old doc.new }
{
    erase(alloc, doc, Manner::KEEP_WRAPPERS)?;
    insert_chars(alloc, doc, value)?;
    Ok(true)
}
