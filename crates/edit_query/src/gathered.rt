//! The nodes of the block-extended active range that a command on blocks goes over.

ghost use Rattle.std.specs.Prelude.{◌≡◌, ◌<◌, IfOk};
ghost use Rattle.edit_model.specs.DomModel.Forest.{count_of};
ghost use Rattle.edit_model.specs.Gives.{labels_of};
ghost use Rattle.edit_model.specs.Valid.{IsPlacedPair};
ghost use Rattle.edit_actions.specs.EditDoc.Held.{EachHeld};
ghost use Rattle.edit_query.specs.Gathered as gathered;

use block_extend::{Choice, block_extend, gather_in};
use edit_actions::doc::{Doc, NodeList, Pair, Point};
use edit_actions::ends_of;
use std::alloc::{AllocError, Global};

/// The ends of the range of two points, block-extended.
#[tactic(auto, using(edit_actions::proofs::Placed::placed_here))]
pub fn extended(doc: &Doc, pair: Pair) -> (Point, Point)
    requires { IsPlacedPair doc.now.state.trees pair }
    ensures range { result ≡ gathered.extended doc.now.state.trees pair }
    ensures start { 0 < count_of doc.now.state.trees result.0.label }
    ensures end { 0 < count_of doc.now.state.trees result.1.label }
{
    block_extend(doc, ends_of(doc, pair))
}

// Of a range, the nodes that pass, without those that have an ancestor among them.
#[tactic(auto, using(crate::proofs::Lists::labels_mapped, crate::proofs::Lists::each_held))]
fn outermost_in<C: Choice<Doc>>(
    alloc: Global,
    doc: &Doc,
    range: (Point, Point),
    choice: &C,
) -> Result<NodeList, AllocError>
    requires start { 0 < count_of doc.now.state.trees range.0.label }
    requires end { 0 < count_of doc.now.state.trees range.1.label }
    ensures held { IfOk result (λ list. EachHeld doc.now list) }
    ensures nodes { IfOk result
        (λ list. labels_of list
        ≡ gathered.outermost_in (C.chosen choice.now doc.now) doc.now.state.trees range) }
{
    gather_in(alloc, doc, range, choice)
}

/// The nodes that the block-extended active range contains and that pass a test, in tree order,
/// without those that have an ancestor among them. Without a selection there are none.
#[tactic(auto, unfolding(crate::specs::Gathered::outermost))]
pub fn outermost<C: Choice<Doc>>(
    alloc: Global,
    doc: &Doc,
    choice: &C,
) -> Result<NodeList, AllocError>
    ensures held { IfOk result (λ list. EachHeld doc.now list) }
    ensures nodes { IfOk result
        (λ list. labels_of list ≡ gathered.outermost (C.chosen choice.now doc.now) doc.now.state) }
{
    doc.valid();
    match doc.points().selection() {
        Some(pair) => outermost_in(alloc, doc, extended(doc, pair), choice),
        None => NodeList::from_slice(alloc, &[]),
    }
}
