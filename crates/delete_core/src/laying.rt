//! Canonicalize whitespace, steps 6 and 7: the canonical sequence in place of the blanks. The steps
//! are those of docs/ALGORITHMS.md.

ghost use Rattle.std.specs.Prelude.{◌≡◌, ◌<◌, IfOk, Ok, slice_get};
ghost use Rattle.edit_model.specs.DomModel.Forest.{count_of};
ghost use Rattle.edit_model.specs.Gives.{Gives};
ghost use Rattle.inline_value.specs.EditDoc.Whole.{IsOpen};
ghost use Rattle.inline_value.specs.EditDoc.Held.{Holds, Finds, Keeps};
ghost use Rattle.inline_value.specs.NodeTests.BlockPoints as points;
ghost use Rattle.delete_core.specs.Places.{at};
ghost use Rattle.delete_core.specs.Whitespace.{spaces_for, put_space, next_laid, lay_char, lay_out, lay_text, lay_turn, lays, lay_all, laid_between};

use crate::blanks::{char_at, ends_line, starts_line};
use crate::places::{after_there, child_at, comes_before, start_in};
use crate::scanning::Scan;
use crate::spaces::canonical_spaces;
use edit_model::boundary::node_of;
use edit_model::dom::Chars;
use inline_value::doc::{Doc, EditFault, NodeRef, Point};
use inline_value::wrap::turn_bound;
use std::alloc::{AllocError, Global};

/// How far the canonical sequence is laid.
#[derive(Clone, Copy)]
struct Laid {
    /// Where the walk stands.
    place: Point,
    /// How many characters of the sequence it has passed.
    laid: usize,
}

// Step 6: the sequence that comes to stand between a point and where a scan came to.
#[tactic(auto, unfolding(crate::specs::Whitespace::spaces_for))]
fn spaces_for(alloc: Global, doc: &Doc, start: Point, scan: Scan) -> Result<Chars, AllocError>
    ensures { IfOk result (λ spaces. spaces ≡ spaces_for doc.now.state start scan) }
{
    canonical_spaces(
        alloc,
        scan.count,
        starts_line(doc, start),
        ends_line(doc, scan.end),
    )
}

// Step 7: another character of the sequence takes the place of one.
#[tactic(auto, using(edit_model::proofs::Steps::steps, edit_model::proofs::Steps::exits), unfolding(crate::specs::Whitespace::put_space))]
fn put_space(
    doc: &mut Doc,
    node: NodeRef,
    offset: u32,
    character: char,
    space: char,
) -> Result<(), EditFault>
    requires open { IsOpen doc.old }
    requires node_held { Holds doc.old node }
    requires small { offset < 4294967295 }
    ensures gives { Gives result doc.old.state doc.new.state
        (put_space (at node.label offset) character space) }
    ensures keeps { Keeps doc.old doc.new }
{
    if character == space {
        return Ok(());
    }
    doc.replace_words(node, offset, 0, &[space])?;
    doc.replace_words(node, offset + 1, 1, &[])?;
    Ok(())
}

// Past a character.
fn next_laid(laid: Laid) -> Result<Laid, AllocError>
    ensures gives { IfOk result (λ next. next ≡ next_laid laid) }
    ensures small { IfOk result (λ _. laid.place.offset < 4294967295) }
{
    let offset = laid.place.offset.checked_add(1).ok_or(AllocError)?;
    let count = laid.laid.checked_add(1).ok_or(AllocError)?;
    Ok(Laid {
        place: Point {
            label: laid.place.label,
            offset,
        },
        laid: count,
    })
}

// The character of the sequence that comes next.
fn space_at(spaces: &[char], laid: usize) -> Option<char>
    ensures { result ≡ slice_get spaces.now laid }
{
    spaces.get(laid).copied()
}

// Step 7, third line.
#[tactic(auto, using(edit_model::proofs::Steps::steps, edit_model::proofs::Steps::exits), unfolding(crate::specs::Whitespace::lay_char))]
fn lay_char(doc: &mut Doc, spaces: &[char], laid: Laid, character: char) -> Result<Laid, EditFault>
    requires open { IsOpen doc.old }
    requires there { 0 < count_of doc.old.state.trees laid.place.label }
    ensures gives { Gives result doc.old.state doc.new.state (lay_char spaces.now laid character) }
    ensures keeps { Keeps doc.old doc.new }
{
    let Some(space) = space_at(spaces, laid.laid) else {
        return Ok(laid);
    };
    let next = next_laid(laid)?;
    let node = node_of(doc, laid.place);
    put_space(doc, node, laid.place.offset, character, space)?;
    Ok(next)
}

// Step 7, second line.
#[tactic(auto, using(edit_model::proofs::Steps::steps), unfolding(crate::specs::Whitespace::lay_out))]
fn lay_out(doc: &Doc, laid: Laid) -> Laid
    ensures gives { Gives (Ok result) doc.now.state doc.now.state (lay_out laid) }
{
    match after_there(doc, laid.place) {
        Some(place) => Laid { place, ..laid },
        None => laid,
    }
}

// Step 7, second and third line.
#[tactic(auto, using(edit_model::proofs::Steps::steps, edit_model::proofs::Steps::exits), unfolding(crate::specs::Whitespace::lay_text))]
fn lay_text(doc: &mut Doc, spaces: &[char], laid: Laid) -> Result<Laid, EditFault>
    requires open { IsOpen doc.old }
    ensures gives { Gives result doc.old.state doc.new.state (lay_text spaces.now laid) }
    ensures keeps { Keeps doc.old doc.new }
{
    match char_at(doc, laid.place) {
        Some(character) => lay_char(doc, spaces, laid, character),
        None => Ok(lay_out(doc, laid)),
    }
}

// The child at a point.
#[tactic(auto, using(crate::proofs::Absent::absent))]
fn child_of_point(doc: &Doc, at: Point) -> Option<NodeRef>
    ensures { Finds doc.now result (points.child_at doc.now.state.trees at.label at.offset) }
{
    let node = doc.find(at.label)?;
    child_at(doc, node, at.offset)
}

// Step 7: one turn.
#[tactic(auto, using(edit_model::proofs::Steps::steps, edit_model::proofs::Steps::exits), unfolding(crate::specs::Whitespace::lay_turn))]
fn lay_turn(doc: &mut Doc, spaces: &[char], laid: Laid) -> Result<Laid, EditFault>
    requires open { IsOpen doc.old }
    ensures gives { Gives result doc.old.state doc.new.state (lay_turn spaces.now laid) }
    ensures keeps { Keeps doc.old doc.new }
{
    match child_of_point(doc, laid.place) {
        Some(child) => Ok(Laid {
            place: start_in(child),
            ..laid
        }),
        None => lay_text(doc, spaces, laid),
    }
}

#[tactic(auto, unfolding(crate::specs::Whitespace::lays))]
fn lays(doc: &Doc, spaces: &[char], end: Point, laid: Laid) -> bool
    ensures { result ≡ lays spaces.now end doc.now.state laid }
{
    laid.laid < spaces.len() && comes_before(doc, laid.place, end)
}

// Step 7.
#[tactic(auto, using(edit_model::proofs::Steps::whiles, edit_model::proofs::Steps::exits), unfolding(crate::specs::Whitespace::lay_all))]
fn lay_all(doc: &mut Doc, spaces: &[char], start: Point, end: Point) -> Result<(), EditFault>
    requires open { IsOpen doc.old }
    ensures gives { Gives result doc.old.state doc.new.state (lay_all spaces.now start end) }
    ensures keeps { Keeps doc.old doc.new }
{
    let mut turns = turn_bound(doc);
    let mut laid = Laid {
        place: start,
        laid: 0,
    };
    while turns > 0 {
        if !lays(doc, spaces, end, laid) {
            return Ok(());
        }
        laid = lay_turn(doc, spaces, laid)?;
        turns -= 1;
    }
    Ok(())
}

/// Canonicalize whitespace, steps 6 and 7: the blanks between a point and where a scan came to
/// become those of the canonical sequence.
#[tactic(auto, using(edit_model::proofs::Steps::steps, edit_model::proofs::Steps::exits), unfolding(crate::specs::Whitespace::laid_between))]
pub(crate) fn laid_between(
    alloc: Global,
    doc: &mut Doc,
    start: Point,
    scan: Scan,
) -> Result<(), EditFault>
    requires open { IsOpen doc.old }
    ensures gives { Gives result doc.old.state doc.new.state (laid_between start scan) }
    ensures keeps { Keeps doc.old doc.new }
{
    let spaces = spaces_for(alloc, doc, start, scan)?;
    lay_all(doc, spaces.as_slice(), start, scan.end)
}
