//! Paths and points.

ghost use Rattle.std.specs.Prelude.{◌≡◌};
ghost use Rattle.script_read.specs.Answers.{Reads};
ghost use Rattle.script_read.specs.Reading.{indexes_of, path_of, point_of, points_of};

use crate::act::{LineFault, Path, Place};
use crate::parts::{cut, read_number};
use std::alloc::Global;

// Indexes in decimal, with a `/` between.
fn read_indexes(alloc: Global, text: &[u8]) -> Result<Path, LineFault>
    ensures { Reads result (indexes_of text.now) }
{
    let mut items = Vec::new(alloc);
    let mut rest = text;
    while let Some((digits, more)) = cut(rest, b'/') {
        let Some(index) = read_number(digits) else {
            return Err(LineFault::Syntax);
        };
        items.push(index)?;
        rest = more;
    }
    let Some(last) = read_number(rest) else {
        return Err(LineFault::Syntax);
    };
    items.push(last)?;
    Ok(Path::from_vec(items))
}

/// A path: `.` for the document, and else the indexes of children with a `/` between.
#[tactic(auto, unfolding(crate::specs::Reading::path_of))]
pub fn read_path(alloc: Global, text: &[u8]) -> Result<Path, LineFault>
    ensures { Reads result (path_of text.now) }
{
    match text {
        b"." => Ok(Path::from_vec(Vec::new(alloc))),
        _ => read_indexes(alloc, text),
    }
}

/// A point: a path, `:` and an offset.
#[tactic(auto, unfolding(crate::specs::Reading::point_of))]
pub fn read_point(alloc: Global, text: &[u8]) -> Result<Place, LineFault>
    ensures { Reads result (point_of text.now) }
{
    let (path, offset) = cut(text, b':').ok_or(LineFault::Syntax)?;
    let offset = read_number(offset).ok_or(LineFault::Syntax)?;
    let path = read_path(alloc, path)?;
    Ok(Place { path, offset })
}

// Two points with a space between.
#[tactic(auto, unfolding(crate::specs::Reading::points_of))]
pub(crate) fn read_points(alloc: Global, text: &[u8]) -> Result<(Place, Place), LineFault>
    ensures { Reads result (points_of text.now) }
{
    let (anchor, focus) = cut(text, b' ').ok_or(LineFault::Syntax)?;
    let anchor = read_point(alloc, anchor)?;
    let focus = read_point(alloc, focus)?;
    Ok((anchor, focus))
}
