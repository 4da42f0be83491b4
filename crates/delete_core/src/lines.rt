//! Lines: inline siblings up to a br (delete the selection, steps 11 and 12).

ghost use Rattle.std.specs.Prelude.{◌≡◌, ◌++◌, IfOk, Some};
ghost use Rattle.edit_model.specs.DomModel.Forest.{first_in};
ghost use Rattle.edit_model.specs.Gives.{label_of, labels_of};
ghost use Rattle.inline_value.specs.EditDoc.Held.{Holds, IfHeld, EachHeld, Finds};
ghost use Rattle.inline_value.specs.WrapSplit.Walks.{turn_bound};
ghost use Rattle.delete_core.specs.Merging.{if_inline, next_in_line, line_after, line_from, line_at};

use inline_value::doc::{Doc, NodeRef};
use inline_value::questions::{is_block, is_break};
use inline_value::wrap::turn_bound;
use std::alloc::{AllocError, Global};

/// A node, if there is one, that is inline.
pub(crate) fn if_inline(doc: &Doc, node: Option<NodeRef>) -> Option<NodeRef>
    requires { IfHeld doc.now node }
    ensures { Finds doc.now result (if_inline doc.now.state (label_of node)) }
{
    let node = node?;
    if is_block(doc, node) {
        None
    } else {
        Some(node)
    }
}

// The node after one that is no br, where it is inline.
fn next_in_line(doc: &Doc, node: NodeRef) -> Option<NodeRef>
    requires { Holds doc.now node }
    ensures { Finds doc.now result (next_in_line doc.now.state node.label) }
{
    if is_break(doc, node) {
        None
    } else {
        if_inline(doc, doc.next(node))
    }
}

// Step 11 d: a list with the inline siblings after its last member, up to a br.
#[tactic(auto, using(crate::proofs::Rows::lines, edit_model::proofs::Steps::labels_of_push, edit_model::proofs::Steps::append_none))]
fn with_line_after(doc: &Doc, list: Vec<NodeRef>, last: NodeRef) -> Result<Vec<NodeRef>, AllocError>
    requires list_held { EachHeld doc.now list.items }
    requires last_held { Holds doc.now last }
    ensures gives { IfOk result (λ v. labels_of v.items
        ≡ labels_of list.items ++ line_after doc.now.state (turn_bound doc.now.state) last.label) }
    ensures held { IfOk result (λ v. EachHeld doc.now v.items) }
{
    let mut list = list;
    let mut at = last;
    let mut turns = turn_bound(doc);
    while turns > 0 {
        let Some(next) = next_in_line(doc, at) else {
            return Ok(list);
        };
        list.push(next)?;
        at = next;
        turns -= 1;
    }
    Ok(list)
}

/// Step 11 d: the line that begins with a node.
#[tactic(auto, unfolding(crate::specs::Merging::line_from))]
pub(crate) fn line_from(
    alloc: Global,
    doc: &Doc,
    first: NodeRef,
) -> Result<Vec<NodeRef>, AllocError>
    requires { Holds doc.now first }
    ensures gives { IfOk result (λ v. labels_of v.items ≡ line_from doc.now.state first.label) }
    ensures head { IfOk result (λ v. first_in (labels_of v.items) ≡ Some first.label) }
    ensures held { IfOk result (λ v. EachHeld doc.now v.items) }
{
    let mut list = Vec::new(alloc);
    list.push(first)?;
    with_line_after(doc, list, first)
}

/// Step 12: the line that begins with a node, if there is one and it is inline.
#[tactic(auto, unfolding(crate::specs::Merging::line_at))]
pub(crate) fn line_at(
    alloc: Global,
    doc: &Doc,
    first: Option<NodeRef>,
) -> Result<Vec<NodeRef>, AllocError>
    requires { IfHeld doc.now first }
    ensures gives { IfOk result (λ v. labels_of v.items ≡ line_at doc.now.state (label_of first)) }
    ensures held { IfOk result (λ v. EachHeld doc.now v.items) }
{
    match if_inline(doc, first) {
        Some(first) => line_from(alloc, doc, first),
        None => Ok(Vec::new(alloc)),
    }
}
