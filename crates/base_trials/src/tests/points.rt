//! Points that follow edits, and marks.

ghost use Rattle.std.specs.Prelude.{◌≡◌, ◌<◌};
ghost use Rattle.edit_model.specs.LiveRange.LivePoints.{no_points};

use super::rows::assert_row;
use edit_model::dom_ranges::{MarkFault, Pair, Point, Points};
use std::alloc::Global;
use std::test::Fail;

fn small(label: u32, offset: u8) -> Point
    ensures { result.offset < 256 }
{
    Point {
        label,
        offset: offset as u32,
    }
}

fn pair(label: u32, anchor: u32, focus: u32) -> Pair {
    Pair {
        anchor: Point {
            label,
            offset: anchor,
        },
        focus: Point {
            label,
            offset: focus,
        },
    }
}

// An edit: an insertion at 2 of 7, a removal of the tree of 8 and 9 from there, a move, a
// replacement of three characters of 7 from 2 on by one, a split of 7 at 2, of which the tail is 9
// and the parent 5, where 7 is the child at 1, and a growth at 2 of 7.
#[derive(Clone, Copy)]
enum Edit {
    Insert,
    Remove,
    Move((u32, u8), (u32, u8)),
    Replace,
    Split,
    Grow,
}

// What becomes of a point by an edit.
fn after(points: &mut Points, edit: Edit, at: (u32, u8)) -> Option<Pair>
    requires { points.old ≡ no_points }
{
    let at = small(at.0, at.1);
    points.set_selection(Some(Pair {
        anchor: at,
        focus: at,
    }));
    match edit {
        Edit::Insert => points.inserted(7, 2),
        Edit::Remove => points.removed(&[8, 9], 7, 2),
        Edit::Move(from, to) => points.moved(small(from.0, from.1), small(to.0, to.1)),
        Edit::Replace => points.replaced(7, 2, 3, 1),
        Edit::Split => points.split(7, 2, 9, 5, 1),
        Edit::Grow => points.grown(small(7, 2)),
    }
    points.selection()
}

// An edit, a point, and what it becomes: label and offset of each.
static EDITS: [(Edit, (u32, u8), (u32, u32)); 33] = [
    // an insertion moves points past it
    (Edit::Insert, (7, 1), (7, 1)),
    (Edit::Insert, (7, 2), (7, 2)),
    (Edit::Insert, (7, 3), (7, 4)),
    (Edit::Insert, (8, 3), (8, 3)),
    // a removal collects the points of the tree
    (Edit::Remove, (9, 5), (7, 2)),
    (Edit::Remove, (7, 2), (7, 2)),
    (Edit::Remove, (7, 3), (7, 2)),
    (Edit::Remove, (6, 3), (6, 3)),
    // a move takes both sides along
    (Edit::Move((7, 2), (9, 4)), (7, 1), (7, 1)),
    (Edit::Move((7, 2), (9, 4)), (7, 2), (9, 4)),
    (Edit::Move((7, 2), (9, 4)), (7, 3), (9, 5)),
    (Edit::Move((7, 2), (9, 4)), (7, 4), (7, 3)),
    (Edit::Move((7, 2), (9, 4)), (9, 4), (9, 4)),
    (Edit::Move((7, 2), (9, 4)), (9, 5), (9, 6)),
    (Edit::Move((7, 2), (9, 4)), (8, 3), (8, 3)),
    // forward and backward within one parent
    (Edit::Move((7, 1), (7, 3)), (7, 1), (7, 1)),
    (Edit::Move((7, 1), (7, 3)), (7, 2), (7, 1)),
    (Edit::Move((7, 1), (7, 3)), (7, 4), (7, 3)),
    (Edit::Move((7, 1), (7, 3)), (7, 5), (7, 5)),
    (Edit::Move((7, 3), (7, 1)), (7, 1), (7, 1)),
    (Edit::Move((7, 3), (7, 1)), (7, 2), (7, 3)),
    (Edit::Move((7, 3), (7, 1)), (7, 4), (7, 4)),
    // a replacement collects the points in it
    (Edit::Replace, (7, 2), (7, 2)),
    (Edit::Replace, (7, 3), (7, 2)),
    (Edit::Replace, (7, 5), (7, 2)),
    (Edit::Replace, (7, 6), (7, 4)),
    // a split sends points past it
    (Edit::Split, (7, 2), (7, 2)),
    (Edit::Split, (7, 3), (9, 1)),
    (Edit::Split, (5, 1), (5, 1)),
    (Edit::Split, (5, 2), (5, 3)),
    // a growth moves points at the place
    (Edit::Grow, (7, 2), (7, 3)),
    (Edit::Grow, (7, 3), (7, 3)),
    (Edit::Grow, (8, 2), (8, 2)),
];

// Whether a mark is set.
fn sets(points: &mut Points, name: &[u8], pair: Pair) -> bool {
    points.set_mark(name, pair).is_ok()
}

// Whether these are the name and the points of the first mark, and points stand at these nodes and
// no others, in this order.
fn has_first(points: &Points, name: &[u8], pair: Pair, labels: &[u32]) -> bool {
    let standing = points.standing();
    match points.mark_at(0) {
        Some(mark) => mark.0 == name && mark.1 == pair && standing.as_slice() == labels,
        None => false,
    }
}

fn keep_their_order(points: &mut Points) -> bool {
    sets(points, b"a", pair(7, 1, 1))
        && sets(points, b"b", pair(8, 1, 2))
        && sets(points, b"a", pair(9, 2, 2))
        && has_first(points, b"a", pair(9, 2, 2), &[9, 8])
        && points.stands_at(8)
        && !points.stands_at(7)
}

fn go(points: &mut Points) -> bool {
    let set = sets(points, b"a", pair(7, 1, 1)) && sets(points, b"b", pair(8, 1, 2));
    let unset = points.unset_mark(b"a");
    points.removed(&[8], 3, 4);
    set && unset && has_first(points, b"b", pair(3, 4, 4), &[3])
}

// The selection is drawn to more nodes than there is room for, and each is taken out.
fn outlive_many_nodes(points: &mut Points) -> bool {
    let set = sets(points, b"a", pair(7, 1, 1));
    for label in 8..300u32 {
        points.set_selection(Some(pair(label, 0, 1)));
        points.removed(&[label], 1000, 4);
    }
    points.removed(&[7], 3, 4);
    set && has_first(points, b"a", pair(3, 4, 4), &[1000, 3])
        && points.selection() == Some(pair(1000, 4, 4))
}

fn are_sixteen(points: &mut Points) -> bool {
    for i in 0..16u8 {
        if !sets(points, &[i], pair(7, 1, 1)) {
            return false;
        }
    }
    let more = points.set_mark(b"more", pair(7, 1, 1));
    matches!(more, Err(MarkFault::TooManyMarks)) && sets(points, &[3], pair(9, 1, 1))
}

// The places are kept, the points changed, and the places brought back.
fn come_back(points: &mut Points) -> bool {
    let set = sets(points, b"a", pair(7, 1, 1));
    let before = points.places();
    points.set_selection(None);
    points.set_scratch(pair(9, 0, 0));
    points.set_places(&before);
    set && points.scratch().is_none() && has_first(points, b"a", pair(7, 1, 1), &[7])
}

#[derive(Clone, Copy)]
enum Marks {
    KeepTheirOrder,
    Go,
    OutliveManyNodes,
    AreSixteen,
    ComeBack,
}

static MARKS: [(Marks, &str); 5] = [
    (Marks::KeepTheirOrder, "marks keep their order"),
    (Marks::Go, "a mark goes"),
    (Marks::OutliveManyNodes, "more nodes are met than have room"),
    (Marks::AreSixteen, "the seventeenth mark is refused"),
    (Marks::ComeBack, "places come back"),
];

fn are_right(points: &mut Points, marks: Marks) -> bool {
    match marks {
        Marks::KeepTheirOrder => keep_their_order(points),
        Marks::Go => go(points),
        Marks::OutliveManyNodes => outlive_many_nodes(points),
        Marks::AreSixteen => are_sixteen(points),
        Marks::ComeBack => come_back(points),
    }
}

// A row of one of the tables.
#[derive(Clone, Copy)]
enum Row {
    Edit(Edit, (u32, u8), (u32, u32)),
    Marks(Marks),
}

// Whether points are as their row says. Points are let go here alone, since the proof of that takes
// long, and again on each way out of the function that owns some.
fn is_met(alloc: Global, row: Row) -> Result<bool, Fail> {
    let mut points = Points::new(alloc)?;
    Ok(match row {
        Row::Edit(edit, at, to) => after(&mut points, edit, at) == Some(pair(to.0, to.1, to.1)),
        Row::Marks(marks) => are_right(&mut points, marks),
    })
}

#[test]
fn points_follow_edits(rt: HostRuntime) -> Result<(), Fail> {
    for (number, (edit, at, to)) in EDITS.iter().enumerate() {
        let met = is_met(rt.alloc(), Row::Edit(*edit, *at, *to))?;
        assert!(rt; met, "row {number}");
    }
    Ok(())
}

#[test]
fn marks_are_kept(rt: HostRuntime) -> Result<(), Fail> {
    for (marks, name) in &MARKS {
        assert_row(&rt, is_met(rt.alloc(), Row::Marks(*marks))?, name);
    }
    Ok(())
}
