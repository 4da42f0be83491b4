//! Delete, steps 6 and 11: entries of lists. The steps are those of docs/ALGORITHMS.md.

ghost use Rattle.std.specs.Prelude.{◌≡◌, IfOk};
ghost use Rattle.edit_model.specs.Gives.{Gives, label_of, labels_of};
ghost use Rattle.inline_value.specs.EditDoc.Whole.{IsOpen};
ghost use Rattle.inline_value.specs.EditDoc.Held.{Holds, IfHeld, EachHeld, Keeps};
ghost use Rattle.text_deletion.specs.Entries as entries;

use delete_core::{child_at, child_before};
use inline_value::doc::{Doc, EditFault, NodeRef, Point};
use inline_value::questions::{is_block, is_break};
use inline_value::wrap::{append_break, is_inline};
use inline_value::{fix_ancestors, split_out};
use list_indent::{normalize_each, push_items};
use std::alloc::{AllocError, Global};
use text_insertion::{is_entry, rename_stray};

/// Step 6: whether a point is the start of an entry that is the first child of its parent.
#[tactic(auto, unfolding(crate::specs::Entries::starts_entry))]
pub(crate) fn starts_entry(doc: &Doc, node: NodeRef, at: Point) -> bool
    requires held { Holds doc.now node }
    requires label { at.label ≡ node.label }
    ensures { result ≡ entries.starts_entry doc.now.state at }
{
    at.offset == 0 && is_entry(doc, node) && doc.parent(node).is_some() && doc.prev(node).is_none()
}

// Step 6: the items among a node that there may be and its ancestors.
fn items_from(alloc: Global, doc: &Doc, node: Option<NodeRef>) -> Result<Vec<NodeRef>, AllocError>
    requires { IfHeld doc.now node }
    ensures held { IfOk result (λ list. EachHeld doc.now list.items) }
    ensures items { IfOk result
        (λ list. labels_of list.items ≡ entries.items_from doc.now.state.trees (label_of node)) }
{
    let mut list = Vec::new(alloc);
    if let Some(node) = node {
        push_items(&mut list, doc, node)?;
    }
    Ok(list)
}

/// Step 6: the sublists of the items around an entry are taken out of these, and it leaves its list.
#[tactic(auto, using(edit_model::proofs::Steps::steps, edit_model::proofs::Steps::exits), unfolding(crate::specs::Entries::lift_entry))]
pub(crate) fn lift_entry(alloc: Global, doc: &mut Doc, node: NodeRef) -> Result<(), EditFault>
    requires open { IsOpen doc.old }
    requires node_held { Holds doc.old node }
    ensures gives { Gives result doc.old.state doc.new.state (entries.lift_entry node.label) }
    ensures keeps { Keeps doc.old doc.new }
{
    let items = items_from(alloc, doc, doc.parent(node))?;
    normalize_each(alloc, doc, &items)?;
    split_out(alloc, doc, node)?;
    let kept = rename_stray(alloc, doc, node)?;
    fix_ancestors(alloc, doc, kept)
}

// Step 11: whether an entry that begins with an inline node stands after a point.
#[tactic(auto, unfolding(crate::specs::Entries::opens_entry))]
fn opens_entry(doc: &Doc, node: NodeRef, at: Point) -> bool
    requires held { Holds doc.now node }
    requires label { at.label ≡ node.label }
    ensures { result ≡ entries.opens_entry doc.now.state at }
{
    at.offset != 0
        && match child_at(doc, node, at.offset) {
            Some(child) => is_entry(doc, child) && is_inline(doc, doc.first_child(child)),
            None => false,
        }
}

// Step 11: whether a node, if there is one, is inline and no br.
fn is_open_line(doc: &Doc, node: Option<NodeRef>) -> bool
    requires { IfHeld doc.now node }
    ensures { result ≡ entries.is_open_line doc.now.state (label_of node) }
{
    match node {
        Some(node) => !is_block(doc, node) && !is_break(doc, node),
        None => false,
    }
}

/// Step 11: where an entry begins with a line, the child before it that ends with one gets an
/// empty line at its end.
#[tactic(auto, using(edit_model::proofs::Steps::steps, edit_model::proofs::Steps::exits), unfolding(crate::specs::Entries::part_entry, crate::specs::Entries::part_entries))]
pub(crate) fn part_entries(
    alloc: Global,
    doc: &mut Doc,
    node: NodeRef,
    at: Point,
) -> Result<(), EditFault>
    requires open { IsOpen doc.old }
    requires node_held { Holds doc.old node }
    requires label { at.label ≡ node.label }
    ensures gives { Gives result doc.old.state doc.new.state (entries.part_entries at) }
    ensures keeps { Keeps doc.old doc.new }
{
    if !opens_entry(doc, node, at) {
        return Ok(());
    }
    let Some(before) = child_before(doc, node, at.offset) else {
        return Ok(());
    };
    if is_open_line(doc, doc.last_child(before)) {
        append_break(alloc, doc, before)?;
    }
    if is_inline(doc, doc.last_child(before)) {
        append_break(alloc, doc, before)?;
    }
    Ok(())
}
