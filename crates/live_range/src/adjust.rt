//! What an edit does to a point, and to all points at the places.
ghost use Rattle.std.specs.Prelude.{◌≡◌, ℕ, ◌+◌, ◌^◌, ◌<◌, ◌≤◌, map};
ghost use Rattle.std.specs.List.{list_any, count_by};
ghost use Rattle.std.specs.Option.{option_map};
ghost use Rattle.live_range.specs.PointsEdit.{Insert, Remove, Move, Replace, Split, Grown, adjusted, adjusted_pair, after_insert, after_removal, after_replacement, after_loss, has_label, named_nodes, PointFits};
ghost use Rattle.live_range.specs.Names.{at_place, marks_of, place_labels, PlacesFit};
ghost use Rattle.live_range.specs.Rows.{has_row, listed_at, Lists};
ghost use Rattle.live_range.specs.Adjustments.{edit_of};

use crate::listing::move_point;
use crate::nodes::Nodes;
use crate::pairs::point_of;
use crate::places::{Places, Point};
use crate::rows::RowSet;
use std::sync::ledger::Ledger;
use step_count::Steps;

// An edit of the tree, as far as points are concerned.
#[derive(Drop)]
pub(crate) enum Adjustment<'a> {
    Insert {
        parent: u32,
        index: u32,
    },
    Remove {
        gone: &'a [u32],
        parent: u32,
        index: u32,
    },
    Move {
        from: Point,
        to: Point,
    },
    Replace {
        node: u32,
        at: u32,
        taken: u32,
        put: u32,
    },
    Split {
        node: u32,
        at: u32,
        tail: u32,
        parent: u32,
        index: u32,
    },
    Grown {
        at: Point,
    },
}

fn offset_after_insert(index: u32, offset: u32) -> u32
    requires { after_insert index offset < 2 ^ 32 }
    ensures { result ≡ after_insert index offset }
{
    if index < offset { offset + 1 } else { offset }
}

fn offset_after_removal(index: u32, offset: u32) -> u32
    ensures { result ≡ after_removal index offset }
{
    if index < offset { offset - 1 } else { offset }
}

fn offset_after_replacement(at: u32, taken: u32, put: u32, offset: u32) -> u32
    requires { after_replacement at taken put offset < 2 ^ 32 }
    ensures { result ≡ after_replacement at taken put offset }
{
    if offset <= at {
        offset
    } else if offset - at <= taken {
        at
    } else {
        offset - taken + put
    }
}

// The point of a node that lost the child at `from` to another node, where it stands at `to`.
fn point_after_loss(from: Point, to: Point, point: Point) -> Point
    requires { (after_loss from to point).offset < 2 ^ 32 }
    ensures { result ≡ after_loss from to point }
{
    if point.offset == from.offset {
        to
    } else if point.offset > from.offset && point.offset - from.offset == 1 {
        Point {
            label: to.label,
            offset: to.offset + 1,
        }
    } else {
        Point {
            label: point.label,
            offset: offset_after_removal(from.offset, point.offset),
        }
    }
}

// A point of the node that lost a child or of the node that got it, which may be the same.
fn point_after_move(from: Point, to: Point, point: Point) -> Point
    requires { (adjusted (Move from to) point).offset < 2 ^ 32 }
    ensures { result ≡ adjusted (Move from to) point }
{
    if from.label == to.label && point.label == from.label {
        let without = offset_after_removal(from.offset, point.offset);
        Point {
            label: point.label,
            offset: offset_after_insert(to.offset, without),
        }
    } else if point.label == from.label {
        point_after_loss(from, to, point)
    } else if point.label == to.label && from.label != to.label {
        Point {
            label: point.label,
            offset: offset_after_insert(to.offset, point.offset),
        }
    } else {
        point
    }
}

fn point_after_removal(gone: &[u32], parent: u32, index: u32, point: Point) -> Point
    ensures { result ≡ adjusted (Remove gone.now parent index) point }
{
    if gone.contains(&point.label) {
        Point {
            label: parent,
            offset: index,
        }
    } else if point.label == parent {
        Point {
            label: point.label,
            offset: offset_after_removal(index, point.offset),
        }
    } else {
        point
    }
}

fn point_after_split(node: u32, at: u32, tail: u32, parent: u32, index: u32, point: Point) -> Point
    requires { (adjusted (Split node at tail parent index) point).offset < 2 ^ 32 }
    ensures { result ≡ adjusted (Split node at tail parent index) point }
{
    if point.label == node {
        if at < point.offset {
            Point {
                label: tail,
                offset: point.offset - at,
            }
        } else {
            point
        }
    } else if point.label == parent {
        Point {
            label: point.label,
            offset: offset_after_insert(index, point.offset),
        }
    } else {
        point
    }
}

fn point_after_insert(parent: u32, index: u32, point: Point) -> Point
    requires { (adjusted (Insert parent index) point).offset < 2 ^ 32 }
    ensures { result ≡ adjusted (Insert parent index) point }
{
    if point.label == parent {
        Point {
            label: point.label,
            offset: offset_after_insert(index, point.offset),
        }
    } else {
        point
    }
}

fn point_after_replacement(node: u32, at: u32, taken: u32, put: u32, point: Point) -> Point
    requires { (adjusted (Replace node at taken put) point).offset < 2 ^ 32 }
    ensures { result ≡ adjusted (Replace node at taken put) point }
{
    if point.label == node {
        Point {
            label: point.label,
            offset: offset_after_replacement(at, taken, put, point.offset),
        }
    } else {
        point
    }
}

fn point_after_growth(at: Point, point: Point) -> Point
    requires { (adjusted (Grown at) point).offset < 2 ^ 32 }
    ensures { result ≡ adjusted (Grown at) point }
{
    if point.label == at.label && point.offset == at.offset {
        Point {
            label: point.label,
            offset: point.offset + 1,
        }
    } else {
        point
    }
}

// The rows at any of the labels.
fn rows_at_any(nodes: &Nodes, labels: &[u32]) -> RowSet
    ensures { (r : ℕ) → has_row result r ≡ list_any (λ l. listed_at nodes.now l r) labels.now }
{
    let mut rows = RowSet::empty();
    for label in labels {
        rows = rows.or(nodes.at(*label));
    }
    rows
}

impl Adjustment<'_> {
    fn point(&self, point: Point) -> Point
        requires { PointFits (edit_of self.now) point }
        ensures { result ≡ adjusted (edit_of self.now) point }
    {
        match self {
            Adjustment::Insert { parent, index } => point_after_insert(*parent, *index, point),
            Adjustment::Remove {
                gone,
                parent,
                index,
            } => point_after_removal(gone, *parent, *index, point),
            Adjustment::Move { from, to } => point_after_move(*from, *to, point),
            Adjustment::Replace {
                node,
                at,
                taken,
                put,
            } => point_after_replacement(*node, *at, *taken, *put, point),
            Adjustment::Split {
                node,
                at,
                tail,
                parent,
                index,
            } => point_after_split(*node, *at, *tail, *parent, *index, point),
            Adjustment::Grown { at } => point_after_growth(*at, point),
        }
    }

    // The rows at the nodes that the edit names.
    fn rows(&self, nodes: &Nodes) -> RowSet
        ensures { (r : ℕ) → has_row result r ≡ list_any (λ l. listed_at nodes.now l r)
            (named_nodes (edit_of self.now)) }
    {
        match self {
            Adjustment::Insert { parent, .. } => nodes.at(*parent),
            Adjustment::Remove { gone, parent, .. } => {
                nodes.at(*parent).or(rows_at_any(nodes, gone))
            }
            Adjustment::Move { from, to } => nodes.at(from.label).or(nodes.at(to.label)),
            Adjustment::Replace { node, .. } => nodes.at(*node),
            Adjustment::Split { node, parent, .. } => nodes.at(*node).or(nodes.at(*parent)),
            Adjustment::Grown { at } => nodes.at(at.label),
        }
    }

    // Adjusts all points at the places, in a step for each point at the nodes that the edit names.
    pub(crate) fn places<L: Ledger>(
        &self,
        places: &mut Places,
        nodes: &mut Nodes,
        steps: &mut Steps<L>,
    )
        requires few { places.old.count ≤ 16 }
        requires fits { PlacesFit (edit_of self.now) places.old }
        requires listed { Lists places.old nodes.old }
        ensures selection { places.new.selection
            ≡ option_map (adjusted_pair (edit_of self.now)) places.old.selection }
        ensures scratch { places.new.scratch
            ≡ option_map (adjusted_pair (edit_of self.now)) places.old.scratch }
        ensures marks { marks_of places.new
            ≡ map (at_place (adjusted_pair (edit_of self.now))) (marks_of places.old) }
        ensures count { places.new.count ≡ places.old.count }
        ensures listed { Lists places.new nodes.new }
        ensures steps { steps.new
            ≡ steps.old + count_by (has_label (named_nodes (edit_of self.now)))
            (place_labels places.old) }
    {
        let mut rest = self.rows(nodes);
        while let Some(row) = rest.first() {
            steps.tick();
            rest = rest.without(row);
            let point = point_of(places, row).unwrap();
            move_point(places, nodes, row, self.point(point));
        }
    }
}
