//! Where characters occur.

ghost use Rattle.std.specs.Prelude.{◌≡◌, ◌<◌, ◌^◌, ◌++◌, length, OnOk, IfOk};
ghost use Rattle.node_texts.specs.Occurrences.{offsets, points_at, points_in, found_in};

use crate::walk::{Visitor, walk};
use node_styles::arena::{NodeRef, Nodes};
use node_styles::dom::Content;
use point_order::dom_ranges::Point;
use std::alloc::{AllocError, Global};
use std::marker::Model;

/// What has been found of characters in the texts that were shown.
#[derive(Drop)]
struct Finder<'a> {
    wanted: &'a [char],
    points: Vec<Point>,
}

impl<'a> Model for Finder<'a> {
    ghost use Rattle.std.specs.Prelude.{ℕ, List};
    ghost use Rattle.point_order.specs.LiveRange.declared.places.Point.{Point};

    ghost Value = { List ℕ × List Point };

    ghost view = { λ finder. (finder.wanted.now, finder.points.items) };
}

impl<'a> Visitor for Finder<'a> {
    ghost entered = { λ found l content. (found.0, found.1 ++ points_in found.0 l content) };

    ghost left = { λ found _ _. found };

    fn enter(&mut self, label: u32, content: &Content) -> Result<(), AllocError> {
        match content {
            Content::Words(chars) => push_points(
                &mut self.points,
                self.wanted,
                label,
                chars.as_slice(),
            ),
            _ => Ok(()),
        }
    }

    fn leave(&mut self, _label: u32, _content: &Content) -> Result<(), AllocError> {
        Ok(())
    }
}

// Appends a point of a text for each offset at which characters occur in it.
fn push_points(
    points: &mut Vec<Point>,
    wanted: &[char],
    label: u32,
    chars: &[char],
) -> Result<(), AllocError>
    requires { length chars.now < 2 ^ 32 }
    ensures ok { OnOk result (points.new.items
        ≡ points.old.items ++ points_at label (offsets wanted.now chars.now)) }
{
    if wanted.is_empty() {
        return Ok(());
    }
    let mut at = 0;
    while at < chars.len() {
        if chars[at..].starts_with(wanted) {
            points.push(Point {
                label,
                offset: at as u32,
            })?;
            at += wanted.len();
        } else {
            at += 1;
        }
    }
    Ok(())
}

/// The points at which characters occur in the texts of a node and of all that stands below it, in
/// tree order, none overlapping. Each occurrence stands in one text. Its calls go as deep as the
/// tree.
pub fn find<N: Nodes>(
    alloc: Global,
    nodes: &N,
    node: NodeRef,
    wanted: &[char],
) -> Result<Vec<Point>, AllocError>
    requires { N.holds nodes.now node }
    ensures { IfOk result (λ points. points.items
        ≡ found_in (N.trees nodes.now) node.label wanted.now) }
{
    let mut finder = Finder {
        wanted,
        points: Vec::new(alloc),
    };
    walk(nodes, node, &mut finder)?;
    Ok(finder.points)
}
