//! Delete the selection, steps 5 to 8: what a deletion removes. The steps are those of
//! docs/ALGORITHMS.md.

ghost use Rattle.std.specs.Prelude.{◌≡◌, ◌<◌, ◌≤◌, IfOk};
ghost use Rattle.edit_model.specs.Gives.{Gives, GivesMaybe, label_of, labels_of};
ghost use Rattle.edit_model.specs.Run.{for_each};
ghost use Rattle.inline_value.specs.EditDoc.Whole.{IsOpen};
ghost use Rattle.inline_value.specs.EditDoc.Held.{Holds, IfHeld, EachHeld, Finds, Keeps};
ghost use Rattle.inline_value.specs.WrapSplit.Wrap as wrap;
ghost use Rattle.delete_core.specs.Erasing.{is_own_text, erase_within, cut_after, cut_before, is_table_part, is_removable, removable_nodes, own_block, shows_child, is_hollow, fill_hollow, removed_up, is_strippable, strip_empty, strip_from, remove_under, remove_node, remove_nodes};

use crate::ends::{collapse_selection, is_cell};
use crate::whitespace::canonicalize;
use inline_value::actions::ends_of;
use inline_value::doc::{Doc, EditFault, NodeList, NodeRef, Point};
use inline_value::extend::{Choice, gather_in};
use inline_value::questions::{has_name, is_block, is_visible, is_within, is_words};
use inline_value::styles::nearest_block;
use inline_value::wrap::{append_break, turn_bound};
use std::alloc::{AllocError, Global};

/// Whether a node is an editable text.
#[tactic(auto, unfolding(crate::specs::Erasing::is_own_text))]
pub(crate) fn is_own_text(doc: &Doc, node: NodeRef) -> bool
    requires { Holds doc.now node }
    ensures { result ≡ is_own_text doc.now.state node.label }
{
    doc.is_editable_for(node) && is_words(doc, node)
}

/// Delete the selection, step 5: deletes what stands between two offsets of a text.
#[tactic(auto, using(edit_model::proofs::Steps::steps, edit_model::proofs::Steps::exits), unfolding(crate::specs::Erasing::erase_within))]
pub(crate) fn erase_within(
    alloc: Global,
    doc: &mut Doc,
    node: NodeRef,
    start: Point,
    end: Point,
    backward: bool,
) -> Result<(), EditFault>
    requires open { IsOpen doc.old }
    requires node_held { Holds doc.old node }
    requires label { start.label ≡ node.label }
    ensures gives { Gives result doc.old.state doc.new.state (erase_within backward start end) }
    ensures keeps { Keeps doc.old doc.new }
{
    let count = end.offset.saturating_sub(start.offset);
    doc.replace_words(node, start.offset, count, &[])?;
    canonicalize(alloc, doc, start, false)?;
    collapse_selection(doc, backward)
}

/// Step 6: deletes what stands in an editable text from an offset on.
#[tactic(auto, using(edit_model::proofs::Steps::steps, edit_model::proofs::Steps::exits), unfolding(crate::specs::Erasing::cut_after))]
pub(crate) fn cut_after(doc: &mut Doc, node: NodeRef, start: Point) -> Result<(), EditFault>
    requires open { IsOpen doc.old }
    requires node_held { Holds doc.old node }
    requires label { start.label ≡ node.label }
    ensures gives { Gives result doc.old.state doc.new.state (cut_after start) }
    ensures keeps { Keeps doc.old doc.new }
{
    if is_own_text(doc, node) {
        let count = doc.length(node).saturating_sub(start.offset);
        doc.replace_words(node, start.offset, count, &[])?;
    }
    Ok(())
}

/// Step 8: deletes what stands in an editable text before an offset.
#[tactic(auto, using(edit_model::proofs::Steps::steps, edit_model::proofs::Steps::exits), unfolding(crate::specs::Erasing::cut_before))]
pub(crate) fn cut_before(doc: &mut Doc, node: NodeRef, end: Point) -> Result<(), EditFault>
    requires open { IsOpen doc.old }
    requires node_held { Holds doc.old node }
    requires label { end.label ≡ node.label }
    ensures gives { Gives result doc.old.state doc.new.state (cut_before end) }
    ensures keeps { Keeps doc.old doc.new }
{
    if is_own_text(doc, node) {
        doc.replace_words(node, 0, end.offset, &[])?;
    }
    Ok(())
}

#[tactic(auto, unfolding(crate::specs::Erasing::is_table_part))]
fn is_table_part(doc: &Doc, node: NodeRef) -> bool
    requires { Holds doc.now node }
    ensures { result ≡ is_table_part doc.now.state.trees node.label }
{
    has_name(doc, node, b"thead")
        || has_name(doc, node, b"tbody")
        || has_name(doc, node, b"tfoot")
        || has_name(doc, node, b"tr")
        || is_cell(doc, node)
}

/// Step 7: which nodes of the active range go.
struct Removable;

impl Choice<Doc> for Removable {
    ghost use Rattle.inline_value.specs.EditDoc.Whole.{Whole};
    ghost use Rattle.delete_core.specs.Erasing.{is_removable};

    ghost chosen = { λ _ d l. is_removable d.state l };

    #[tactic(auto, unfolding(crate::specs::Erasing::is_removable))]
    fn chooses(&self, nodes: &Doc, node: NodeRef) -> bool {
        nodes.is_editable_for(node) && !is_table_part(nodes, node)
    }
}

// Step 7: the nodes that go.
#[tactic(auto, using(crate::proofs::Below::placed_here), unfolding(crate::specs::Erasing::removable_nodes))]
fn removable_nodes(alloc: Global, doc: &Doc) -> Result<NodeList, AllocError>
    ensures held { IfOk result (λ list. EachHeld doc.now list) }
    ensures nodes { IfOk result (λ list. labels_of list ≡ removable_nodes doc.now.state) }
{
    doc.valid();
    match doc.points().selection() {
        Some(pair) => gather_in(alloc, doc, ends_of(doc, pair), &Removable),
        None => NodeList::from_slice(alloc, &[]),
    }
}

#[tactic(auto, unfolding(crate::specs::Erasing::own_block))]
fn own_block(doc: &Doc, node: NodeRef) -> Option<NodeRef>
    requires { Holds doc.now node }
    ensures { Finds doc.now result (own_block doc.now.state.trees node.label) }
{
    if is_block(doc, node) {
        Some(node)
    } else {
        nearest_block(doc, node)
    }
}

/// Whether a child of a node is visible.
pub fn shows_child(doc: &Doc, node: NodeRef) -> bool
    requires { Holds doc.now node }
    ensures { result ≡ shows_child doc.now.state.trees node.label }
{
    doc.valid();
    let mut at = doc.first_child(node);
    while let Some(child) = at {
        if is_visible(doc, child) {
            return true;
        }
        at = doc.next(child);
    }
    false
}

// Whether the nearest block of an element shows nothing.
#[tactic(auto, unfolding(crate::specs::Erasing::is_hollow))]
fn is_hollow(doc: &Doc, node: NodeRef) -> bool
    requires { Holds doc.now node }
    ensures { result ≡ is_hollow doc.now.state.trees node.label }
{
    match own_block(doc, node) {
        Some(block) => !shows_child(doc, block),
        None => false,
    }
}

// Step 7: puts a new br into a node where its nearest block shows nothing.
#[tactic(auto, using(edit_model::proofs::Steps::steps, edit_model::proofs::Steps::exits), unfolding(crate::specs::Erasing::fill_hollow))]
fn fill_hollow(alloc: Global, doc: &mut Doc, node: NodeRef) -> Result<(), EditFault>
    requires open { IsOpen doc.old }
    requires node_held { Holds doc.old node }
    ensures gives { Gives result doc.old.state doc.new.state (fill_hollow node.label) }
    ensures keeps { Keeps doc.old doc.new }
{
    if doc.is_inside(node) && is_hollow(doc, node) {
        append_break(alloc, doc, node)?;
    }
    Ok(())
}

/// Steps 7 and 13: removes a node, if there is one, and answers its former parent.
#[tactic(auto, using(edit_model::proofs::Steps::steps, edit_model::proofs::Steps::exits), unfolding(crate::specs::Erasing::removed_up))]
pub(crate) fn removed_up(doc: &mut Doc, node: Option<NodeRef>) -> Result<Option<NodeRef>, EditFault>
    requires open { IsOpen doc.old }
    requires node_held { IfHeld doc.old node }
    ensures gives { GivesMaybe result doc.old.state doc.new.state (removed_up (label_of node)) }
    ensures held { IfOk result (λ parent. IfHeld doc.new parent) }
    ensures keeps { Keeps doc.old doc.new }
{
    let Some(node) = node else {
        return Ok(None);
    };
    let parent = doc.parent(node);
    doc.remove(node)?;
    Ok(parent)
}

fn is_strippable(doc: &Doc, node: Option<NodeRef>) -> bool
    requires { IfHeld doc.now node }
    ensures { result ≡ is_strippable doc.now.state (label_of node) }
{
    match node {
        Some(node) => { doc.is_editable_for(node) && !is_block(doc, node) && doc.length(node) == 0 }
        None => false,
    }
}

// Step 7: removes inline nodes that are left empty, from one up.
#[tactic(auto, using(edit_model::proofs::Steps::whiles, edit_model::proofs::Steps::exits), unfolding(crate::specs::Erasing::strip_empty))]
fn strip_empty(doc: &mut Doc, node: NodeRef) -> Result<(), EditFault>
    requires open { IsOpen doc.old }
    requires node_held { Holds doc.old node }
    ensures gives { Gives result doc.old.state doc.new.state (strip_empty node.label) }
    ensures keeps { Keeps doc.old doc.new }
{
    let mut turns = turn_bound(doc);
    let mut at = Some(node);
    while turns > 0 {
        if !is_strippable(doc, at) {
            return Ok(());
        }
        at = removed_up(doc, at)?;
        turns -= 1;
    }
    Ok(())
}

// Step 7: with `strip` off, those stay in which the start stands.
#[tactic(auto, using(edit_model::proofs::Steps::steps, edit_model::proofs::Steps::exits), unfolding(crate::specs::Erasing::strip_from))]
fn strip_from(doc: &mut Doc, strip: bool, start: NodeRef, node: NodeRef) -> Result<(), EditFault>
    requires open { IsOpen doc.old }
    requires start_held { Holds doc.old start }
    requires node_held { Holds doc.old node }
    ensures gives { Gives result doc.old.state doc.new.state
        (strip_from strip start.label node.label) }
    ensures keeps { Keeps doc.old doc.new }
{
    if strip || !is_within(doc, node, start) {
        strip_empty(doc, node)?;
    }
    Ok(())
}

// Step 7: one node, with its parent.
#[tactic(auto, using(edit_model::proofs::Steps::steps, edit_model::proofs::Steps::exits), unfolding(crate::specs::Erasing::remove_under))]
fn remove_under(
    alloc: Global,
    doc: &mut Doc,
    strip: bool,
    start: NodeRef,
    node: NodeRef,
    parent: NodeRef,
) -> Result<(), EditFault>
    requires open { IsOpen doc.old }
    requires start_held { Holds doc.old start }
    requires node_held { Holds doc.old node }
    requires parent_held { Holds doc.old parent }
    ensures gives { Gives result doc.old.state doc.new.state
        (remove_under strip start.label node.label parent.label) }
    ensures keeps { Keeps doc.old doc.new }
{
    doc.remove(node)?;
    fill_hollow(alloc, doc, parent)?;
    strip_from(doc, strip, start, parent)
}

// Step 7: one node.
#[tactic(auto, using(edit_model::proofs::Steps::steps, edit_model::proofs::Steps::exits), unfolding(crate::specs::Erasing::remove_node))]
fn remove_node(
    alloc: Global,
    doc: &mut Doc,
    strip: bool,
    start: NodeRef,
    node: NodeRef,
) -> Result<(), EditFault>
    requires open { IsOpen doc.old }
    requires start_held { Holds doc.old start }
    requires node_held { Holds doc.old node }
    ensures gives { Gives result doc.old.state doc.new.state
        (remove_node strip start.label node.label) }
    ensures keeps { Keeps doc.old doc.new }
{
    let Some(parent) = doc.parent(node) else {
        return Ok(());
    };
    remove_under(alloc, doc, strip, start, node, parent)
}

// Step 7: each node, in order.
#[tactic(auto, using(edit_model::proofs::Steps::eachs, edit_model::proofs::Steps::exits))]
fn remove_each(
    alloc: Global,
    doc: &mut Doc,
    strip: bool,
    start: NodeRef,
    list: &[NodeRef],
) -> Result<(), EditFault>
    requires open { IsOpen doc.old }
    requires start_held { Holds doc.old start }
    requires list_held { EachHeld doc.old list.now }
    ensures gives { Gives result doc.old.state doc.new.state
        (for_each (labels_of list.now) (remove_node strip start.label)) }
    ensures keeps { Keeps doc.old doc.new }
{
    for node in list {
        remove_node(alloc, doc, strip, start, *node)?;
    }
    Ok(())
}

/// Step 7: removes the editable nodes of the active range that are no parts of a table, and inline
/// nodes that are left empty.
#[tactic(auto, using(edit_model::proofs::Steps::steps, edit_model::proofs::Steps::exits), unfolding(crate::specs::Erasing::remove_nodes))]
pub(crate) fn remove_nodes(
    alloc: Global,
    doc: &mut Doc,
    strip: bool,
    start: NodeRef,
) -> Result<(), EditFault>
    requires open { IsOpen doc.old }
    requires start_held { Holds doc.old start }
    ensures gives { Gives result doc.old.state doc.new.state (remove_nodes strip start.label) }
    ensures keeps { Keeps doc.old doc.new }
{
    let list = removable_nodes(alloc, doc)?;
    remove_each(alloc, doc, strip, start, list.as_slice())
}
