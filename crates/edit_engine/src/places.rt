//! Points by the path of their node, and by its label.

ghost use Rattle.std.specs.Prelude.{◌≡◌, IfSome, true};
ghost use Rattle.edit_model.specs.PointOrder.PointOrder.{is_placed, is_in_document};
ghost use Rattle.edit_model.specs.Valid.{IsPlacedPair};
ghost use Rattle.inline_value.specs.EditDoc.Whole.{IsClosed};
ghost use Rattle.inline_value.specs.EditDoc.Held.{Holds, Finds};
ghost use Rattle.inline_value.specs.NodePaths.Paths.{label_at};
ghost use Rattle.edit_engine.specs.Places.{point_in, point_at, pair_at, placed_pair, range_in};

use edit_model::boundary::is_placed;
use inline_value::doc::{Doc, NodeRef, Pair, Point};
use inline_value::node_place::resolve;
use step_text::script::{Path, Place};

// The point at an offset of a node of the document.
fn point_in(doc: &Doc, node: NodeRef, offset: u32) -> Option<Point>
    requires held { Holds doc.now node }
    requires inner { is_in_document doc.now.state.trees node.label ≡ true }
    ensures point { result ≡ point_in doc.now.state.trees offset node.label }
    ensures placed { IfSome result (λ p. is_placed doc.now.state.trees p ≡ true) }
{
    if offset <= doc.length(node) {
        Some(Point {
            label: node.label,
            offset,
        })
    } else {
        None
    }
}

/// The node at a path. It takes no memory.
pub(crate) fn node_at(doc: &Doc, path: &Path) -> Option<NodeRef>
    requires { IsClosed doc.now }
    ensures found { Finds doc.now result (label_at doc.now.state.trees path.now) }
    ensures inner { IfSome result (λ r. is_in_document doc.now.state.trees r.label ≡ true) }
{
    doc.valid();
    let arena = doc.arena();
    arena.valid();
    resolve(arena, path.as_slice())
}

#[tactic(auto, unfolding(crate::specs::Places::point_at))]
fn point_at(doc: &Doc, place: &Place) -> Option<Point>
    requires { IsClosed doc.now }
    ensures point { result ≡ point_at doc.now.state.trees place.now }
    ensures placed { IfSome result (λ p. is_placed doc.now.state.trees p ≡ true) }
{
    match node_at(doc, &place.path) {
        None => None,
        Some(node) => point_in(doc, node, place.offset),
    }
}

fn is_same_place(place: &Place, other: &Place) -> bool
    ensures { result ≡ true → place.now ≡ other.now }
{
    place.offset == other.offset && place.path.as_slice() == other.path.as_slice()
}

/// The pair of points at two places, where there are such points. One place is looked for once.
#[tactic(auto, unfolding(crate::specs::Places::pair_at))]
pub(crate) fn pair_at(doc: &Doc, anchor: &Place, focus: &Place) -> Option<Pair>
    requires { IsClosed doc.now }
    ensures pair { result ≡ pair_at doc.now.state.trees anchor.now focus.now }
    ensures placed { IfSome result (λ p. IsPlacedPair doc.now.state.trees p) }
{
    let first = point_at(doc, anchor)?;
    let second = if is_same_place(anchor, focus) {
        first
    } else {
        point_at(doc, focus)?
    };
    Some(Pair {
        anchor: first,
        focus: second,
    })
}

/// The pair of two points, where both stand in the document. It takes no memory.
#[tactic(auto, unfolding(crate::specs::Places::placed_pair))]
pub(crate) fn placed_pair(doc: &Doc, anchor: Point, focus: Point) -> Option<Pair>
    ensures pair { result ≡ placed_pair doc.now.state.trees anchor focus }
    ensures placed { IfSome result (λ p. IsPlacedPair doc.now.state.trees p) }
{
    if is_placed(doc, anchor) && is_placed(doc, focus) {
        Some(Pair { anchor, focus })
    } else {
        None
    }
}

/// Where a command works that may be told a range: at the selection, or on that range if both its
/// points stand in the document. It takes no memory.
pub(crate) fn range_in(doc: &Doc, range: Option<Pair>) -> Option<Option<Pair>>
    ensures range { result ≡ range_in doc.now.state.trees range }
    ensures placed { IfSome result (λ at. IfSome at (IsPlacedPair doc.now.state.trees)) }
{
    match range {
        None => Some(None),
        Some(range) => match placed_pair(doc, range.anchor, range.focus) {
            Some(placed) => Some(Some(placed)),
            None => None,
        },
    }
}
