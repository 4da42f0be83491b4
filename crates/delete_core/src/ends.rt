//! The ends of what a deletion deletes, and the caret that it leaves. The steps are those of
//! docs/ALGORITHMS.md.

ghost use Rattle.std.specs.Prelude.{◌≡◌, ◌<◌};
ghost use Rattle.edit_model.specs.DomModel.Forest.{count_of};
ghost use Rattle.edit_model.specs.Gives.{Gives, label_of};
ghost use Rattle.edit_model.specs.Action.{Select, acted};
ghost use Rattle.inline_value.specs.EditDoc.Whole.{IsOpen, with_state};
ghost use Rattle.inline_value.specs.EditDoc.Held.{Holds, Finds, Keeps};
ghost use Rattle.inline_value.specs.NodeTests.CollapsedWhitespace.{is_words};
ghost use Rattle.delete_core.specs.Ends.{collapse_selection, canonicalize_start, canonicalize_end, out_of_start, out_of_end, up_inline, top_inline, is_cell, may_merge, block_of_end};

use crate::places::{after_node, before_node, if_inside};
use crate::whitespace::canonicalize;
use edit_model::dom::Content;
use inline_value::actions::{ends_of, is_same};
use inline_value::doc::{Doc, EditFault, NodeRef, Point};
use inline_value::questions::{has_name, is_block, is_words, name_allowed_in};
use inline_value::wrap::turn_bound;
use std::alloc::Global;

/// Selects from the anchor to the focus, where both stand in the document.
pub fn select(doc: &mut Doc, anchor: Point, focus: Point)
    ensures selected { doc.new ≡ with_state doc.old (acted (Select anchor focus) doc.old.state) }
    ensures keeps { Keeps doc.old doc.new }
{
    doc.select(anchor, focus);
}

/// Collapses the active range to its start, or to its end where `backward` is on (delete the
/// selection, steps 1, 5 and 9).
#[tactic(auto, using(edit_model::proofs::Steps::actions), unfolding(crate::specs::Ends::collapse_selection))]
pub fn collapse_selection(doc: &mut Doc, backward: bool) -> Result<(), EditFault>
    requires open { IsOpen doc.old }
    ensures gives { Gives result doc.old.state doc.new.state (collapse_selection backward) }
    ensures keeps { Keeps doc.old doc.new }
{
    doc.valid();
    let Some(pair) = doc.points().selection() else {
        return Ok(());
    };
    let (start, end) = ends_of(doc, pair);
    let caret = if backward { end } else { start };
    select(doc, caret, caret);
    Ok(())
}

/// Canonicalizes whitespace at the start of the active range (delete the selection, steps 1 and 8).
#[tactic(auto, using(edit_model::proofs::Steps::steps, edit_model::proofs::Steps::exits), unfolding(crate::specs::Ends::canonicalize_start))]
pub fn canonicalize_start(alloc: Global, doc: &mut Doc, fix: bool) -> Result<(), EditFault>
    requires open { IsOpen doc.old }
    ensures gives { Gives result doc.old.state doc.new.state (canonicalize_start fix) }
    ensures keeps { Keeps doc.old doc.new }
{
    doc.valid();
    let Some(pair) = doc.points().selection() else {
        return Ok(());
    };
    let (start, _) = ends_of(doc, pair);
    canonicalize(alloc, doc, start, fix)
}

/// The same at its end (delete the selection, steps 1 and 8).
#[tactic(auto, using(edit_model::proofs::Steps::steps, edit_model::proofs::Steps::exits), unfolding(crate::specs::Ends::canonicalize_end))]
pub fn canonicalize_end(alloc: Global, doc: &mut Doc, fix: bool) -> Result<(), EditFault>
    requires open { IsOpen doc.old }
    ensures gives { Gives result doc.old.state doc.new.state (canonicalize_end fix) }
    ensures keeps { Keeps doc.old doc.new }
{
    doc.valid();
    let Some(pair) = doc.points().selection() else {
        return Ok(());
    };
    let (_, end) = ends_of(doc, pair);
    canonicalize(alloc, doc, end, fix)
}

/// Step 2: from the start of a text to before it.
#[tactic(auto, unfolding(crate::specs::Ends::out_of_start))]
pub(crate) fn out_of_start(doc: &Doc, node: NodeRef, at: Point) -> Point
    requires held { Holds doc.now node }
    requires label { at.label ≡ node.label }
    ensures gives { result ≡ out_of_start doc.now.state.trees at }
    ensures there { 0 < count_of doc.now.state.trees result.label }
{
    if !is_words(doc, node) || at.offset != 0 {
        return at;
    }
    match before_node(doc, node) {
        Some(before) => before,
        None => at,
    }
}

/// Step 2: from the end of a text to after it.
#[tactic(auto, unfolding(crate::specs::Ends::out_of_end))]
pub(crate) fn out_of_end(doc: &Doc, node: NodeRef, at: Point) -> Point
    requires held { Holds doc.now node }
    requires label { at.label ≡ node.label }
    ensures gives { result ≡ out_of_end doc.now.state.trees at }
    ensures there { 0 < count_of doc.now.state.trees result.label }
{
    if !is_words(doc, node) || at.offset != doc.length(node) {
        return at;
    }
    match after_node(doc, node) {
        Some(after) => after,
        None => at,
    }
}

// Step 3: one turn up from an inline node.
#[tactic(auto, unfolding(crate::specs::Ends::up_inline))]
fn up_inline(doc: &Doc, node: NodeRef) -> Option<NodeRef>
    requires { Holds doc.now node }
    ensures { Finds doc.now result (up_inline doc.now.state node.label) }
{
    if is_block(doc, node) {
        None
    } else {
        if_inside(doc, doc.parent(node))
    }
}

// Step 3: up from an inline node, as long as the parent is inside.
#[tactic(auto, using(crate::proofs::Below::walks), unfolding(crate::specs::Ends::top_inline))]
fn top_inline(doc: &Doc, node: NodeRef) -> NodeRef
    requires { Holds doc.now node }
    ensures gives { result.label ≡ top_inline doc.now.state node.label }
    ensures held { Holds doc.now result }
{
    let mut at = node;
    let mut turns = turn_bound(doc);
    while turns > 0 {
        let Some(next) = up_inline(doc, at) else {
            return at;
        };
        at = next;
        turns -= 1;
    }
    at
}

/// Whether a node is a cell of a table.
#[tactic(auto, unfolding(crate::specs::Ends::is_cell))]
pub(crate) fn is_cell(doc: &Doc, node: NodeRef) -> bool
    requires { Holds doc.now node }
    ensures { result ≡ is_cell doc.now.state.trees node.label }
{
    has_name(doc, node, b"td") || has_name(doc, node, b"th")
}

// Step 3: whether a node is a block, or the affected host, in which text may stand, and no cell of
// a table.
#[tactic(auto, unfolding(crate::specs::Ends::may_merge))]
fn may_merge(doc: &Doc, node: NodeRef) -> bool
    requires { Holds doc.now node }
    ensures { result ≡ may_merge doc.now.state node.label }
{
    (is_block(doc, node) || is_same(doc.host(), node))
        && name_allowed_in(doc, b"span", node)
        && !is_cell(doc, node)
}

/// Step 3: the block that a deletion merges, of the node of an end.
#[tactic(auto, unfolding(crate::specs::Ends::block_of_end))]
pub(crate) fn block_of_end(doc: &Doc, node: NodeRef) -> Option<NodeRef>
    requires { Holds doc.now node }
    ensures { Finds doc.now result (block_of_end doc.now.state node.label) }
{
    let top = top_inline(doc, node);
    if may_merge(doc, top) { Some(top) } else { None }
}
