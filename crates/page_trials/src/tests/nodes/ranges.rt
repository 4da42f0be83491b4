//! Where blocks start and end, and what ranges contain.

ghost use Rattle.std.specs.Prelude.{◌<◌};
ghost use Rattle.edit_model.specs.DomModel.Forest.{count_of};

use crate::tests::fixtures::{Look, Page, check_pages, labels, point_of, range_of};
use edit_model::arena::Arena;
use edit_model::dom_ranges::Point;
use inline_value::questions::*;
use std::alloc::{AllocError, Global};
use std::test::Fail;

// Points, each the label of a node and an offset, with whether it is a block start point and a
// block end point.
struct Points(&'static [(u32, u32, bool, bool)]);

impl Look for Points {
    fn meets(&self, _alloc: Global, arena: &Arena) -> Result<bool, Fail> {
        for (label, offset, starts, ends) in self.0 {
            let at = point_of(arena, (*label, *offset))?;
            let is_boundary = is_block_boundary(arena, at) == (*starts || *ends);
            if is_block_start(arena, at) != *starts
                || is_block_end(arena, at) != *ends
                || !is_boundary
            {
                return Ok(false);
            }
        }
        Ok(true)
    }
}

static POINTS: [Page<Points>; 3] = [
    Page(
        "<p>a</p><br>b",
        Points(&[
            (0, 0, true, true),
            (0, 1, true, false),
            (0, 2, true, false),
            (0, 3, false, true),
            (0, 4, false, false),
            (1, 0, false, false),
            (1, 1, false, false),
            (2, 0, false, false),
            (2, 1, false, false),
        ]),
    ),
    Page(
        "<p style=\"display: none\">a</p>",
        Points(&[
            (0, 0, true, false),
            (0, 1, false, true),
            (1, 1, false, false),
        ]),
    ),
    Page(
        "a<br><p>b</p>",
        Points(&[
            (0, 1, false, false),
            (0, 2, false, true),
            (0, 3, true, true),
        ]),
    ),
];

#[test]
fn blocks_start_and_end(rt: HostRuntime) -> Result<(), Fail> {
    check_pages(rt.alloc(), &POINTS)
}

// A start and an end, each the label of a node and an offset, and the labels of the nodes that the
// range contains, and contains in effect.
type Row = ((u32, u32), (u32, u32), &'static [u32], &'static [u32]);

struct Ranges(&'static [Row]);

// Whether the tests of single nodes give these lists.
fn contains_each(arena: &Arena, range: (Point, Point), lists: (&[u32], &[u32])) -> bool
    requires start_held { 0 < count_of arena.now.trees range.0.label }
    requires end_held { 0 < count_of arena.now.trees range.1.label }
{
    for label in 0..arena.next_label() {
        if let Some(node) = arena.find(label) {
            let contained = is_contained(arena, node, range) == lists.0.contains(&label);
            let effective = is_effectively_contained(arena, node, range)
                == lists.1.contains(&label);
            if !contained || !effective {
                return false;
            }
        }
    }
    true
}

// Whether the lists of nodes are these.
fn lists_each(
    alloc: Global,
    arena: &Arena,
    range: (Point, Point),
    lists: (&[u32], &[u32]),
) -> Result<bool, AllocError>
    requires start_held { 0 < count_of arena.now.trees range.0.label }
    requires end_held { 0 < count_of arena.now.trees range.1.label }
{
    let contained = contained_nodes(alloc, arena, range)?;
    let contained = labels(alloc, contained.as_slice())?;
    let effective = effective_nodes(alloc, arena, range)?;
    let effective = labels(alloc, effective.as_slice())?;
    Ok(contained.as_slice() == lists.0 && effective.as_slice() == lists.1)
}

impl Look for Ranges {
    fn meets(&self, alloc: Global, arena: &Arena) -> Result<bool, Fail> {
        for (start, end, contained, effective) in self.0 {
            let range = range_of(arena, *start, *end)?;
            let lists = (*contained, *effective);
            if !contains_each(arena, range, lists) || !lists_each(alloc, arena, range, lists)? {
                return Ok(false);
            }
        }
        Ok(true)
    }
}

static RANGES: [Page<Ranges>; 4] = [
    Page(
        "<div contenteditable=\"true\"><p>foobar</p></div>",
        Ranges(&[
            ((3, 1), (3, 4), &[], &[3]),
            ((3, 0), (3, 6), &[], &[0, 1, 2, 3]),
            ((3, 2), (3, 2), &[], &[]),
            ((1, 0), (1, 1), &[2, 3], &[0, 1, 2, 3]),
            ((0, 0), (0, 1), &[1, 2, 3], &[0, 1, 2, 3]),
            ((2, 0), (2, 1), &[3], &[0, 1, 2, 3]),
            ((2, 0), (3, 6), &[], &[0, 1, 2, 3]),
        ]),
    ),
    Page(
        "<div contenteditable=\"true\"><p>a<b>bc</b></p><p>d</p></div>",
        Ranges(&[
            ((3, 0), (5, 1), &[], &[3, 5]),
            ((3, 1), (5, 1), &[], &[5]),
            ((5, 0), (5, 2), &[], &[4, 5]),
            ((5, 1), (7, 1), &[], &[5, 6, 7]),
            ((3, 1), (7, 0), &[4, 5], &[4, 5]),
            ((4, 0), (6, 1), &[5, 7], &[4, 5, 6, 7]),
            ((5, 2), (7, 1), &[], &[6, 7]),
            ((2, 1), (6, 0), &[4, 5], &[4, 5]),
        ]),
    ),
    Page(
        "<p>a</p><div contenteditable=\"true\"><p>b</p></div>",
        Ranges(&[
            ((2, 0), (5, 1), &[], &[0, 1, 2, 3, 4, 5]),
            ((5, 0), (2, 1), &[], &[]),
        ]),
    ),
    Page(
        "<div contenteditable=\"true\">a<u contenteditable=\"false\">b<i contenteditable=\"true\">c</i></u></div>",
        Ranges(&[
            ((2, 0), (6, 1), &[4], &[0, 1, 2, 3, 4, 5, 6]),
            ((4, 0), (4, 1), &[], &[4]),
            ((6, 0), (6, 1), &[], &[5, 6]),
            ((5, 0), (5, 1), &[6], &[5, 6]),
        ]),
    ),
];

#[test]
fn ranges_contain_nodes(rt: HostRuntime) -> Result<(), Fail> {
    check_pages(rt.alloc(), &RANGES)
}

// The labels of the ends of a range, and that of its host.
struct Hosts(&'static [(u32, u32, Option<u32>)]);

impl Look for Hosts {
    fn meets(&self, _alloc: Global, arena: &Arena) -> Result<bool, Fail> {
        for (start, end, wanted) in self.0 {
            let range = range_of(arena, (*start, 0), (*end, 0))?;
            if affected_host(arena, range).map(|host| host.label) != *wanted {
                return Ok(false);
            }
        }
        Ok(true)
    }
}

static HOSTS: [Page<Hosts>; 1] = [Page(
    "<div contenteditable=\"true\">a<u contenteditable=\"false\">b<i contenteditable=\"true\">c</i></u></div><p>d</p>",
    Hosts(&[
        (2, 2, Some(1)),
        (1, 2, Some(1)),
        (2, 6, Some(1)),
        (6, 6, Some(5)),
        (5, 6, Some(5)),
        (4, 4, None),
        (2, 4, None),
        (2, 8, None),
        (8, 8, None),
    ]),
)];

#[test]
fn ranges_have_hosts(rt: HostRuntime) -> Result<(), Fail> {
    check_pages(rt.alloc(), &HOSTS)
}
