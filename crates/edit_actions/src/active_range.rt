//! The ends of the active range, and the editing host that a command works in.

ghost use Rattle.std.specs.Prelude.{◌≡◌, true};
ghost use Rattle.edit_model.specs.PointOrder.PointOrder.{is_placed};
ghost use Rattle.edit_model.specs.Valid.{IsPlacedPair};
ghost use Rattle.edit_doc.specs.Held.{Finds};
ghost use Rattle.edit_actions.specs.ActiveRange.{start_of, end_of, host_of_pair, affected_host};

use edit_doc::{Doc, NodeRef, Pair, Point};

/// The earlier and the later point of a pair.
pub fn ends_of(doc: &Doc, pair: Pair) -> (Point, Point)
    requires { IsPlacedPair doc.now.state.trees pair }
    ensures start { result.0 ≡ start_of doc.now.state.trees pair }
    ensures end { result.1 ≡ end_of doc.now.state.trees pair }
    ensures start_placed { is_placed doc.now.state.trees result.0 ≡ true }
    ensures end_placed { is_placed doc.now.state.trees result.1 ≡ true }
{
    if doc.is_before(pair.focus, pair.anchor) {
        (pair.focus, pair.anchor)
    } else {
        (pair.anchor, pair.focus)
    }
}

#[tactic(auto, using(crate::proofs::Placed::placed_here), unfolding(crate::specs::ActiveRange::host_of_pair))]
fn host_of_pair(doc: &Doc, pair: Pair) -> Option<NodeRef>
    requires { IsPlacedPair doc.now.state.trees pair }
    ensures { Finds doc.now result (host_of_pair doc.now.state.trees pair) }
{
    node_tests::affected_host(doc, ends_of(doc, pair))
}

/// The affected editing host of a command on the active range. It costs the ancestors of the
/// range's ends.
#[tactic(auto, unfolding(crate::specs::ActiveRange::affected_host))]
pub fn affected_host(doc: &Doc) -> Option<NodeRef>
    ensures { Finds doc.now result (affected_host doc.now.state) }
{
    doc.valid();
    match doc.points().selection() {
        Some(pair) => host_of_pair(doc, pair),
        None => None,
    }
}
