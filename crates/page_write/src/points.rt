//! The listing of the kept points.

ghost use Rattle.std.specs.Prelude.{◌≡◌, ◌++◌, OnOk, IfOk, IfSome, Some};
ghost use Rattle.node_paths.specs.DomModel.Forest.{IsWithin};
ghost use Rattle.page_write.specs.PointLines.{point_text, selection_lines, mark_line, mark_lines, point_lines, IsIn, AreIn};

use live_range::{Pair, Point, Points};
use node_paths::arena::Arena;
use node_paths::{push_decimal, push_path};
use std::alloc::{AllocError, Global};

// Appends a point of the document.
fn push_point(
    alloc: Global,
    bytes: &mut Vec<u8>,
    arena: &Arena,
    point: Point,
) -> Result<(), AllocError>
    requires { IsWithin arena.now.trees 0 point.label }
    ensures ok { OnOk result (bytes.new.items ≡ bytes.old.items
        ++ point_text arena.now.trees point) }
{
    arena.valid();
    match arena.find(point.label) {
        None => unreachable!(),
        Some(node) => {
            push_path(alloc, bytes, arena, node)?;
            bytes.push(b':')?;
            push_decimal(alloc, bytes, point.offset)
        }
    }
}

fn push_pair(
    alloc: Global,
    bytes: &mut Vec<u8>,
    arena: &Arena,
    pair: Pair,
) -> Result<(), AllocError>
    requires { IsIn arena.now.trees pair }
    ensures ok { OnOk result (bytes.new.items ≡ bytes.old.items
        ++ selection_lines arena.now.trees (Some pair)) }
{
    bytes.extend_from_slice(b"anchor ")?;
    push_point(alloc, bytes, arena, pair.anchor)?;
    bytes.extend_from_slice(b"\nfocus ")?;
    push_point(alloc, bytes, arena, pair.focus)?;
    bytes.push(b'\n')?;
    Ok(())
}

fn push_selection(
    alloc: Global,
    bytes: &mut Vec<u8>,
    arena: &Arena,
    selection: Option<Pair>,
) -> Result<(), AllocError>
    requires { IfSome selection (IsIn arena.now.trees) }
    ensures ok { OnOk result (bytes.new.items ≡ bytes.old.items
        ++ selection_lines arena.now.trees selection) }
{
    match selection {
        None => bytes.extend_from_slice(b"none\n"),
        Some(pair) => push_pair(alloc, bytes, arena, pair),
    }
}

fn push_mark(
    alloc: Global,
    bytes: &mut Vec<u8>,
    arena: &Arena,
    name: &[u8],
    pair: Pair,
) -> Result<(), AllocError>
    requires { IsIn arena.now.trees pair }
    ensures ok { OnOk result (bytes.new.items ≡ bytes.old.items
        ++ mark_line arena.now.trees (name.now, pair)) }
{
    bytes.extend_from_slice(b"mark ")?;
    bytes.extend_from_slice(name)?;
    bytes.push(b' ')?;
    push_point(alloc, bytes, arena, pair.anchor)?;
    bytes.push(b' ')?;
    push_point(alloc, bytes, arena, pair.focus)?;
    bytes.push(b'\n')?;
    Ok(())
}

// Appends the lines of the marks from a place on.
fn push_marks(
    alloc: Global,
    bytes: &mut Vec<u8>,
    arena: &Arena,
    points: &Points,
) -> Result<(), AllocError>
    requires { AreIn arena.now.trees points.now }
    ensures ok { OnOk result (bytes.new.items ≡ bytes.old.items
        ++ mark_lines arena.now.trees points.now.marks) }
{
    points.valid();
    let mut place = 0;
    while let Some((name, pair)) = points.mark_at(place) {
        push_mark(alloc, bytes, arena, name, pair)?;
        place += 1;
    }
    Ok(())
}

/// The kept points as lines: `none`, or the anchor and the focus of the selection; then each mark
/// in the order of the marks. A point is the path of its node, `:` and its offset.
#[tactic(auto, unfolding(crate::specs::PointLines::point_lines))]
pub fn write_points(alloc: Global, arena: &Arena, points: &Points) -> Result<Vec<u8>, AllocError>
    requires { AreIn arena.now.trees points.now }
    ensures { IfOk result (λ bytes. bytes.items ≡ point_lines arena.now.trees points.now) }
{
    let mut bytes = Vec::new(alloc);
    push_selection(alloc, &mut bytes, arena, points.selection())?;
    push_marks(alloc, &mut bytes, arena, points)?;
    Ok(bytes)
}
