//! How the live points follow an edit, and the document's numbers.

ghost use Rattle.std.specs.Prelude.{◌≡◌, ◌≢◌, ◌+◌, ◌-◌, ◌<◌, ◌≤◌, ◌^◌, ℕ, [], ◌∷◌, IsNone, IfSome, false, slice_get, take};
ghost use Rattle.std.specs.Option.{option_map_or};
ghost use Rattle.edit_model.specs.DomModel.declared.Content.{Content};
ghost use Rattle.edit_model.specs.DomModel.Forest.{Forest, is_label, preorder, tree_of};
ghost use Rattle.edit_model.specs.DomModel.Places.{index_of};
ghost use Rattle.edit_parts.specs.Following.{IsRemoval, IsFrom, AreApart, AreUpTo, is_touched, is_pair_touched};
ghost use Rattle.edit_model.specs.LiveRange.PointsEdit.{Insert, Move, Remove, has_label};
ghost use Rattle.edit_model.specs.LiveRange.LivePoints.{Fits, LivePoints, TellsAlike, labels_of, mapped};
ghost use Rattle.edit_model.specs.NodeArena.Held.{Holds};

use crate::Counts;
use edit_model::arena::{Arena, NodeRef};
use edit_model::dom_ranges::{Pair, Point, Points};

// The selection's two points, the scratch pair's, and those of 16 marks.
const MOST_POINTS: usize = 36;

const MOST_MARKS: usize = 16;

/// Whether a point stands at a node.
pub fn stands_at(points: &Points, node: NodeRef) -> bool
    ensures { result ≡ has_label (labels_of points.now) node.label }
{
    points.stands_at(node.label)
}

/// What becomes of the points where a tree is removed: those in it go to its place, if a point
/// stands in it or at its parent.
#[derive(Clone, Copy)]
pub struct Removal {
    gone: [u32; MOST_POINTS],
    count: usize,
    place: Option<Point>,
}

// The label of a node, if a point stands there.
fn own_label(points: &Points, node: NodeRef) -> ([u32; MOST_POINTS], usize)
    ensures few { result.1 ≤ 36 }
    ensures tells { TellsAlike points.now (take result.1 result.0) (node.label ∷ []) }
{
    let mut labels = [0; MOST_POINTS];
    if !stands_at(points, node) {
        return (labels, 0);
    }
    labels[0] = node.label;
    (labels, 1)
}

// The labels in a tree at which a point stands. That of a node without children has no other.
fn labels_within(arena: &Arena, points: &Points, top: NodeRef) -> ([u32; MOST_POINTS], usize)
    requires { Holds arena.now top }
    ensures few { result.1 ≤ 36 }
    ensures tells { TellsAlike points.now (take result.1 result.0)
        (preorder (tree_of arena.now.trees top.label)) }
{
    arena.valid();
    if arena.first_child(top).is_none() {
        return own_label(points, top);
    }
    let standing = points.standing();
    let list = standing.as_slice();
    let mut labels = [0; MOST_POINTS];
    let mut count = 0;
    for label in list {
        if let Some(node) = arena.find(*label) {
            if arena.is_within(top, node) {
                labels[count] = *label;
                count += 1;
            }
        }
    }
    (labels, count)
}

// The index of a node, which is known or else counted.
fn index_from(arena: &Arena, node: NodeRef, known: Option<u32>) -> u32
    requires held { Holds arena.now node }
    requires known { IfSome known (λ index. index ≡ index_of arena.now.trees node.label) }
    ensures { result ≡ index_of arena.now.trees node.label }
{
    match known {
        Some(index) => index,
        None => arena.index(node),
    }
}

/// Looks, before a node is removed from its parent, at what becomes of the points. The node's
/// index is counted if it isn't known.
pub fn removal_of(
    arena: &Arena,
    points: &Points,
    node: NodeRef,
    parent: NodeRef,
    known: Option<u32>,
) -> Removal
    requires held { Holds arena.now node }
    requires known { IfSome known (λ index. index ≡ index_of arena.now.trees node.label) }
    ensures { IsRemoval arena.now.trees points.now node.label parent.label result }
{
    let (gone, count) = labels_within(arena, points, node);
    let place = if count > 0 || stands_at(points, parent) {
        Some(Point {
            label: parent.label,
            offset: index_from(arena, node, known),
        })
    } else {
        None
    };
    Removal { gone, count, place }
}

impl Removal {
    /// The points follow the removal.
    pub fn adjust(&self, points: &mut Points)
        requires { self.now.count ≤ 36 }
        ensures { (f : Forest Content) (n p : ℕ) → IsRemoval f points.old n p self.now → points.new
            ≡ mapped (Remove (preorder (tree_of f n)) p (index_of f n)) points.old }
    {
        if let Some(place) = self.place {
            points.removed(&self.gone[..self.count], place.label, place.offset);
        }
    }
}

/// The points follow a node that was inserted.
pub fn adjust_inserted(arena: &Arena, points: &mut Points, parent: NodeRef, node: NodeRef)
    requires held { Holds arena.now node }
    requires fits { Fits (Insert parent.label (index_of arena.now.trees node.label)) points.old }
    ensures { points.new
        ≡ mapped (Insert parent.label (index_of arena.now.trees node.label)) points.old }
{
    if stands_at(points, parent) {
        points.inserted(parent.label, arena.index(node));
    }
}

/// Where a node is that is to move, if a point stands at its parent or at the one that it moves to.
pub fn moving_from(
    arena: &Arena,
    points: &Points,
    node: NodeRef,
    from: NodeRef,
    to: NodeRef,
) -> Option<Point>
    requires held { Holds arena.now node }
    ensures { IsFrom arena.now.trees points.now node.label from.label to.label result }
{
    if stands_at(points, from) || stands_at(points, to) {
        Some(Point {
            label: from.label,
            offset: arena.index(node),
        })
    } else {
        None
    }
}

fn is_label(at: Option<u32>, label: u32) -> bool
    ensures { result ≡ is_label at label }
{
    match at {
        Some(other) => other == label,
        None => false,
    }
}

// Whether a point stands at the node that may be given, or beside the child at another place.
fn touches(at: Point, child: Point, to: Option<u32>) -> bool
    ensures { result ≡ is_touched child to at }
{
    is_label(to, at.label)
        || (at.label == child.label
            && (at.offset == child.offset || at.offset as u64 == child.offset as u64 + 1))
}

fn touches_pair(pair: Pair, child: Point, to: Option<u32>) -> bool
    ensures { result ≡ is_pair_touched child to pair }
{
    touches(pair.anchor, child, to) || touches(pair.focus, child, to)
}

fn touches_some(pair: Option<Pair>, child: Point, to: Option<u32>) -> bool
    ensures { result ≡ option_map_or (is_pair_touched child to) pair false }
{
    match pair {
        Some(pair) => touches_pair(pair, child, to),
        None => false,
    }
}

fn touches_mark(points: &Points, mark: usize, child: Point, to: Option<u32>) -> bool
    ensures { result ≡ option_map_or (λ m. is_pair_touched child to m.1)
        (slice_get points.now.marks mark) false }
{
    match points.mark_at(mark) {
        Some((_, pair)) => touches_pair(pair, child, to),
        None => false,
    }
}

fn touches_marks(points: &Points, child: Point, to: Option<u32>) -> bool
    ensures { result ≡ false → (k : ℕ) → IfSome (slice_get points.now.marks k)
        (λ m. is_pair_touched child to m.1 ≡ false) }
{
    points.valid();
    for mark in 0..MOST_MARKS {
        if touches_mark(points, mark, child, to) {
            return true;
        }
    }
    false
}

// Whether one of the points stands at the node that may be given, or beside the child at another
// place.
fn touches_any(points: &Points, child: Point, to: Option<u32>) -> bool
    ensures { result ≡ false → AreApart child to points.now }
{
    touches_some(points.selection(), child, to)
        || touches_some(points.scratch(), child, to)
        || touches_marks(points, child, to)
}

// Whether a point goes to the new place of a node that was moved from a child's place, or lies
// after it. For all others it is as if the node was removed.
#[tactic(auto, using(crate::proofs::Moves::moved_alike))]
fn needs_place(points: &Points, from: Point, to: NodeRef) -> bool
    ensures { result ≡ false → (offset : ℕ) → mapped (Remove [] from.label from.offset) points.now
        ≡ mapped (Move from (record { label = to.label; offset = offset })) points.now }
{
    touches_any(points, from, Some(to.label))
}

// The same of a node that was moved to the end of another parent, where no point lies after it.
#[tactic(auto, using(crate::proofs::Moves::moved_last_alike))]
fn needs_end(points: &Points, from: Point, to: NodeRef) -> bool
    requires { from.label ≢ to.label }
    ensures { result ≡ false → (offset : ℕ) → AreUpTo to.label offset points.now
        → mapped (Remove [] from.label from.offset) points.now
        ≡ mapped (Move from (record { label = to.label; offset = offset })) points.now }
{
    touches_any(points, from, None)
}

// Whether a point needs the index at which a node comes to stand, before a child of its new parent
// or at the end.
fn needs_index(points: &Points, from: Point, to: NodeRef, before: Option<NodeRef>) -> bool
    ensures { result ≡ false → (offset : ℕ)
        → (IsNone before → from.label ≢ to.label → AreUpTo to.label offset points.now)
        → mapped (Remove [] from.label from.offset) points.now
        ≡ mapped (Move from (record { label = to.label; offset = offset })) points.now }
{
    if before.is_none() && from.label != to.label {
        needs_end(points, from, to)
    } else {
        needs_place(points, from, to)
    }
}

/// The points follow a node that was moved before a child of its new parent or to the end. Its
/// index at the new place is counted only where a point needs it.
pub fn adjust_moved(
    arena: &Arena,
    points: &mut Points,
    from: Option<Point>,
    parent: NodeRef,
    before: Option<NodeRef>,
    node: NodeRef,
)
    requires held { Holds arena.now node }
    requires fits { IfSome from (λ at. Fits (Move at (record {
      label = parent.label;
      offset = index_of arena.now.trees node.label;
    })) points.old) }
    requires last { IsNone before → IfSome from (λ at. at.label ≢ parent.label
        → AreUpTo parent.label (index_of arena.now.trees node.label) points.old) }
    ensures moved { IfSome from (λ at. points.new ≡ mapped (Move at (record {
      label = parent.label;
      offset = index_of arena.now.trees node.label;
    })) points.old) }
    ensures none { IsNone from → points.new ≡ points.old }
{
    if let Some(from) = from {
        if !needs_index(points, from, parent, before) {
            points.removed(&[], from.label, from.offset);
            return;
        }
        let to = Point {
            label: parent.label,
            offset: arena.index(node),
        };
        points.moved(from, to);
    }
}

/// The numbers of the document with those of a tree.
pub fn add_counts(counts: &mut Counts, more: Counts)
    requires nodes { counts.old.nodes + more.nodes < 2 ^ 32 }
    requires chars { counts.old.chars + more.chars < 2 ^ 64 }
    ensures nodes { counts.new.nodes ≡ counts.old.nodes + more.nodes }
    ensures chars { counts.new.chars ≡ counts.old.chars + more.chars }
    ensures depth { counts.new.depth ≡ counts.old.depth }
{
    counts.nodes += more.nodes;
    counts.chars += more.chars;
}

/// The numbers of the document without those of a tree.
pub fn take_counts(counts: &mut Counts, less: Counts)
    requires nodes { less.nodes ≤ counts.old.nodes }
    requires chars { less.chars ≤ counts.old.chars }
    ensures nodes { counts.new.nodes ≡ counts.old.nodes - less.nodes }
    ensures chars { counts.new.chars ≡ counts.old.chars - less.chars }
    ensures depth { counts.new.depth ≡ counts.old.depth }
{
    counts.nodes -= less.nodes;
    counts.chars -= less.chars;
}
