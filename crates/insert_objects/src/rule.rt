//! The command insertHorizontalRule. The steps are those of docs/ALGORITHMS.md.

ghost use Rattle.std.specs.Prelude.{◌≡◌, ◌<◌, IfSome};
ghost use Rattle.edit_model.specs.DomModel.Forest.{is_label, count_of};
ghost use Rattle.edit_model.specs.Gives.{Gives};
ghost use Rattle.edit_model.specs.Run.{final};
ghost use Rattle.inline_value.specs.EditDoc.Whole.{IsOpen};
ghost use Rattle.inline_value.specs.EditDoc.Held.{Keeps};
ghost use Rattle.insert_objects.specs.Rule as command;

use crate::putting::{collapse_after, put};
use delete_core::{Manner, after_node, before_node, select};
use edit_model::boundary::node_of;
use inline_value::actions::{ends_of, is_same};
use inline_value::doc::{Attributes, Doc, EditFault, NodeRef, Point};
use inline_value::fix_ancestors;
use inline_value::wrap::turn_bound;
use std::alloc::Global;
use text_insertion::{erase, start_inside};

// Step 1: from the start of a node to before it.
#[tactic(auto, unfolding(crate::specs::Rule::out_of_start))]
fn out_of_start(doc: &Doc, at: Point) -> Option<Point>
    requires here { 0 < count_of doc.now.state.trees at.label }
    ensures gives { result ≡ command.out_of_start doc.now.state at }
    ensures there { IfSome result (λ next. 0 < count_of doc.now.state.trees next.label) }
{
    let node = node_of(doc, at);
    if at.offset == 0 && !is_same(doc.host(), node) {
        before_node(doc, node)
    } else {
        None
    }
}

// Step 1: from the end of a node to after it.
#[tactic(auto, unfolding(crate::specs::Rule::out_of_end))]
fn out_of_end(doc: &Doc, at: Point) -> Option<Point>
    requires here { 0 < count_of doc.now.state.trees at.label }
    ensures gives { result ≡ command.out_of_end doc.now.state at }
    ensures there { IfSome result (λ next. 0 < count_of doc.now.state.trees next.label) }
{
    let node = node_of(doc, at);
    if at.offset == doc.length(node) && !is_same(doc.host(), node) {
        after_node(doc, node)
    } else {
        None
    }
}

// Step 1: up from the start of the range, to the affected host at most.
#[tactic(auto, using(crate::proofs::Below::point_walks), unfolding(crate::specs::Rule::outermost_start))]
fn outermost_start(doc: &Doc, at: Point) -> Point
    requires here { 0 < count_of doc.now.state.trees at.label }
    ensures { result ≡ command.outermost_start doc.now.state at }
{
    let mut at = at;
    let mut turns = turn_bound(doc);
    while turns > 0 {
        let Some(next) = out_of_start(doc, at) else {
            return at;
        };
        at = next;
        turns -= 1;
    }
    at
}

// Step 1: up from its end.
#[tactic(auto, using(crate::proofs::Below::point_walks), unfolding(crate::specs::Rule::outermost_end))]
fn outermost_end(doc: &Doc, at: Point) -> Point
    requires here { 0 < count_of doc.now.state.trees at.label }
    ensures { result ≡ command.outermost_end doc.now.state at }
{
    let mut at = at;
    let mut turns = turn_bound(doc);
    while turns > 0 {
        let Some(next) = out_of_end(doc, at) else {
            return at;
        };
        at = next;
        turns -= 1;
    }
    at
}

// Step 1: the active range comes to stand around the nodes at whose edges it starts and ends.
#[tactic(auto, using(edit_model::proofs::Steps::actions, crate::proofs::Below::placed_here), unfolding(crate::specs::Rule::widen_range))]
fn widen_range(doc: &mut Doc)
    ensures gives { final command.widen_range doc.old.state ≡ doc.new.state }
    ensures keeps { Keeps doc.old doc.new }
{
    doc.valid();
    if let Some(pair) = doc.points().selection() {
        let (start, end) = ends_of(doc, pair);
        let first = outermost_start(doc, start);
        let last = outermost_end(doc, end);
        select(doc, first, last);
    }
}

/// The command insertHorizontalRule: what is selected goes, with the nodes that it fills, and an hr
/// stands in its place, with the caret after it. Where it may not stand in a block, as in a
/// paragraph, this is parted around it. It answers true.
#[tactic(auto, using(edit_model::proofs::Steps::steps, edit_model::proofs::Steps::exits), unfolding(crate::specs::Rule::put_rule, crate::specs::Rule::insert_horizontal_rule))]
pub fn insert_horizontal_rule(alloc: Global, doc: &mut Doc) -> Result<bool, EditFault>
    requires open { IsOpen doc.old }
    ensures gives { Gives result doc.old.state doc.new.state command.insert_horizontal_rule }
    ensures keeps { Keeps doc.old doc.new }
{
    widen_range(doc);
    erase(alloc, doc, Manner::KEEP_BLOCKS)?;
    if start_inside(doc).is_none() {
        return Ok(true);
    }
    let made = put(alloc, doc, b"hr", &Attributes::new(alloc))?;
    fix_ancestors(alloc, doc, made)?;
    collapse_after(doc, made);
    Ok(true)
}
