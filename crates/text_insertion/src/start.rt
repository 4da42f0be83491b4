//! The start of the active range: what is erased before something is inserted there, and nodes that
//! are put there.

ghost use Rattle.std.specs.Prelude.{◌≡◌, ◌<◌, IfSome};
ghost use Rattle.edit_model.specs.DomModel.Contents.{has_chars_at};
ghost use Rattle.edit_model.specs.DomModel.Forest.{count_of};
ghost use Rattle.edit_model.specs.Gives.{Gives};
ghost use Rattle.inline_value.specs.EditDoc.Whole.{IsOpen};
ghost use Rattle.inline_value.specs.EditDoc.Held.{Holds, Keeps};
ghost use Rattle.text_insertion.specs.Start as start;

use delete_core::{Manner, child_at, delete_selection};
use edit_model::boundary::node_of;
use edit_model::dom::Content;
use inline_commands::restore_states;
use inline_value::actions::ends_of;
use inline_value::doc::{Doc, EditFault, NodeRef, Point};
use inline_value::questions::is_words;
use std::alloc::Global;

/// The start of the active range.
#[tactic(auto, using(crate::proofs::Below::placed_here), unfolding(crate::specs::Start::active_start))]
pub(crate) fn active_start(doc: &Doc) -> Option<Point>
    ensures gives { result ≡ start.active_start doc.now.state }
    ensures there { IfSome result (λ at. 0 < count_of doc.now.state.trees at.label) }
{
    doc.valid();
    let pair = doc.points().selection()?;
    let (at, _) = ends_of(doc, pair);
    Some(at)
}

/// The start of the active range, where its node is inside.
#[tactic(auto, unfolding(crate::specs::Start::start_inside))]
pub fn start_inside(doc: &Doc) -> Option<Point>
    ensures gives { result ≡ start.start_inside doc.now.state }
    ensures there { IfSome result (λ at. 0 < count_of doc.now.state.trees at.label) }
{
    let at = active_start(doc)?;
    if doc.is_inside(node_of(doc, at)) {
        Some(at)
    } else {
        None
    }
}

// Puts a loose node at a point.
#[tactic(auto, using(edit_model::proofs::Steps::steps, edit_model::proofs::Steps::exits), unfolding(crate::specs::Start::insert_at))]
fn insert_at(doc: &mut Doc, node: NodeRef, at: Point) -> Result<(), EditFault>
    requires open { IsOpen doc.old }
    requires node_held { Holds doc.old node }
    requires here { 0 < count_of doc.old.state.trees at.label }
    ensures gives { Gives result doc.old.state doc.new.state (start.insert_at node.label at) }
    ensures keeps { Keeps doc.old doc.new }
{
    let parent = node_of(doc, at);
    let before = child_at(doc, parent, at.offset);
    doc.insert(parent, before, node)?;
    Ok(())
}

/// Puts a loose node at the start of the active range.
#[tactic(auto, using(edit_model::proofs::Steps::steps, edit_model::proofs::Steps::exits), unfolding(crate::specs::Start::insert_at_start))]
pub fn insert_at_start(doc: &mut Doc, node: NodeRef) -> Result<(), EditFault>
    requires open { IsOpen doc.old }
    requires node_held { Holds doc.old node }
    ensures gives { Gives result doc.old.state doc.new.state (start.insert_at_start node.label) }
    ensures keeps { Keeps doc.old doc.new }
{
    match active_start(doc) {
        Some(at) => insert_at(doc, node, at),
        None => Ok(()),
    }
}

/// Whether a point of a node stands within a text, at neither end of it.
#[tactic(auto, unfolding(crate::specs::Start::cuts_text))]
pub fn cuts_text(doc: &Doc, node: NodeRef, at: Point) -> bool
    requires held { Holds doc.now node }
    requires label { at.label ≡ node.label }
    ensures { result ≡ start.cuts_text doc.now.state.trees at }
{
    is_words(doc, node) && at.offset != 0 && at.offset != doc.length(node)
}

/// Whether a node is a text or a comment.
pub fn has_chars(doc: &Doc, node: NodeRef) -> bool
    requires { Holds doc.now node }
    ensures { result ≡ has_chars_at doc.now.state.trees node.label }
{
    matches!(doc.content(node), Content::Words(_) | Content::Remark(_))
}

/// Deletes what is selected, and restores its states and values.
#[tactic(auto, using(edit_model::proofs::Steps::steps, edit_model::proofs::Steps::exits), unfolding(crate::specs::Start::erase))]
pub fn erase(alloc: Global, doc: &mut Doc, manner: Manner) -> Result<(), EditFault>
    requires open { IsOpen doc.old }
    ensures gives { Gives result doc.old.state doc.new.state (start.erase manner) }
    ensures keeps { Keeps doc.old doc.new }
{
    let states = delete_selection(alloc, doc, manner)?;
    restore_states(alloc, doc, &states)
}
