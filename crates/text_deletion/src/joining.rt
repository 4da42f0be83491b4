//! Delete, steps 9, 10 and 12: what stands before the start of a block. The steps are those of
//! docs/ALGORITHMS.md.

ghost use Rattle.std.specs.Prelude.{◌≡◌};
ghost use Rattle.edit_model.specs.Gives.{label_of};
ghost use Rattle.inline_value.specs.EditDoc.Held.{Holds, IfHeld};
ghost use Rattle.text_deletion.specs.Delete as command;

use crate::places::is_affected_host;
use delete_core::{child_at, child_before, end_in, start_in};
use inline_value::doc::{Doc, NodeRef, Point};
use inline_value::questions::{has_name, is_block, is_break};
use inline_value::wrap::turn_bound;
use text_insertion::is_entry;

// Step 9: a node that is a table.
fn is_table(doc: &Doc, node: Option<NodeRef>) -> bool
    requires { IfHeld doc.now node }
    ensures { result ≡ command.is_table doc.now.state (label_of node) }
{
    match node {
        Some(node) => has_name(doc, node, b"table"),
        None => false,
    }
}

/// Step 9: whether a point is the start of the host, or just before a table.
#[tactic(auto, unfolding(crate::specs::Delete::is_kept_from))]
pub(crate) fn is_kept_from(doc: &Doc, node: NodeRef, at: Point) -> bool
    requires held { Holds doc.now node }
    requires label { at.label ≡ node.label }
    ensures { result ≡ command.is_kept_from doc.now.state at }
{
    (is_affected_host(doc, node) && at.offset == 0) || is_table(doc, child_at(doc, node, at.offset))
}

/// Step 9: whether a table stands before a point.
#[tactic(auto, unfolding(crate::specs::Delete::follows_table))]
pub(crate) fn follows_table(doc: &Doc, node: NodeRef, at: Point) -> bool
    requires held { Holds doc.now node }
    requires label { at.label ≡ node.label }
    ensures { result ≡ command.follows_table doc.now.state at }
{
    is_table(doc, child_before(doc, node, at.offset))
}

// Step 10: whether a node is a br after another one or after a block.
#[tactic(auto, unfolding(crate::specs::Delete::is_empty_line))]
fn is_empty_line(doc: &Doc, node: NodeRef) -> bool
    requires { Holds doc.now node }
    ensures { result ≡ command.is_empty_line doc.now.state node.label }
{
    is_break(doc, node)
        && match doc.prev(node) {
            Some(prev) => is_break(doc, prev) || is_block(doc, prev),
            None => false,
        }
}

/// Step 10: whether a rule or an empty line stands before a point, and the caret is at the start of
/// its node.
#[tactic(auto, unfolding(crate::specs::Delete::follows_line))]
pub(crate) fn follows_line(doc: &Doc, caret: Point, node: NodeRef, at: Point) -> bool
    requires held { Holds doc.now node }
    requires label { at.label ≡ node.label }
    ensures { result ≡ command.follows_line doc.now.state caret at }
{
    caret.offset == 0
        && match child_before(doc, node, at.offset) {
            Some(child) => has_name(doc, child, b"hr") || is_empty_line(doc, child),
            None => false,
        }
}

// Step 12: to the end of the child before a point.
#[tactic(auto, using(crate::proofs::Below::absent), unfolding(crate::specs::Delete::into_last))]
fn into_last(doc: &Doc, at: Point) -> Option<Point>
    ensures { result ≡ command.into_last doc.now.state at }
{
    let node = doc.find(at.label)?;
    let child = child_before(doc, node, at.offset)?;
    Some(end_in(doc, child))
}

// Step 12: down to the end of what stands before a point.
#[tactic(auto, using(crate::proofs::Below::point_walks), unfolding(crate::specs::Delete::deepest_before))]
fn deepest_before(doc: &Doc, at: Point) -> Point
    ensures { result ≡ command.deepest_before doc.now.state at }
{
    let mut at = at;
    let mut turns = turn_bound(doc);
    while turns > 0 {
        let Some(next) = into_last(doc, at) else {
            return at;
        };
        at = next;
        turns -= 1;
    }
    at
}

/// Step 12: from where to where is deleted, with a caret and the point that something stands before.
#[tactic(auto, unfolding(crate::specs::Delete::joined))]
pub(crate) fn joined(doc: &Doc, caret: Point, node: NodeRef, at: Point) -> (Point, Point)
    requires held { Holds doc.now node }
    requires label { at.label ≡ node.label }
    ensures { result ≡ command.joined doc.now.state caret at }
{
    match (
        child_before(doc, node, at.offset),
        child_at(doc, node, at.offset),
    ) {
        (Some(before), Some(after)) if is_entry(doc, before) && is_entry(doc, after) => {
            (end_in(doc, before), start_in(after))
        }
        _ => (deepest_before(doc, at), caret),
    }
}
