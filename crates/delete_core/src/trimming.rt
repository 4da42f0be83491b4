//! Canonicalize whitespace, step 5: blanks at the end of a line. The steps are those of
//! docs/ALGORITHMS.md.

ghost use Rattle.std.specs.Prelude.{◌≡◌, ◌<◌, true};
ghost use Rattle.edit_model.specs.DomModel.Forest.{count_of};
ghost use Rattle.edit_model.specs.Gives.{Gives};
ghost use Rattle.inline_value.specs.EditDoc.Whole.{IsOpen};
ghost use Rattle.inline_value.specs.EditDoc.Held.{Keeps};
ghost use Rattle.delete_core.specs.Whitespace.{ends_softly, shrunk, trim_char, trim_turn, trims, trimmed, trimmed_if};

use crate::blanks::{blank_before, ends_line};
use crate::places::comes_before;
use crate::scanning::Scan;
use crate::spaces::SOFT;
use crate::stepping::trim_step;
use edit_model::boundary::node_of;
use inline_value::doc::{Doc, EditFault, Point};
use inline_value::wrap::turn_bound;

// Step 5, third line: whether a U+0020 that collapses stands before a point that ends a line.
#[tactic(auto, unfolding(crate::specs::Whitespace::ends_softly))]
fn ends_softly(doc: &Doc, at: Point) -> bool
    ensures gives { result ≡ ends_softly doc.now.state at }
    ensures there { result ≡ true → 0 < count_of doc.now.state.trees at.label }
    ensures some { result ≡ true → 0 < at.offset }
{
    match blank_before(doc, at) {
        Some(character) => character == SOFT && ends_line(doc, at),
        None => false,
    }
}

// A blank less.
fn shrunk(scan: Scan) -> Scan
    requires { 0 < scan.end.offset }
    ensures { result ≡ shrunk scan }
{
    Scan {
        end: Point {
            label: scan.end.label,
            offset: scan.end.offset - 1,
        },
        count: scan.count.saturating_sub(1),
        ..scan
    }
}

// Step 5, third and fourth line.
#[tactic(auto, using(edit_model::proofs::Steps::steps, edit_model::proofs::Steps::exits), unfolding(crate::specs::Whitespace::trim_char))]
fn trim_char(doc: &mut Doc, scan: Scan) -> Result<Scan, EditFault>
    requires open { IsOpen doc.old }
    ensures gives { Gives result doc.old.state doc.new.state (trim_char scan) }
    ensures keeps { Keeps doc.old doc.new }
{
    if ends_softly(doc, scan.end) {
        let node = node_of(doc, scan.end);
        doc.replace_words(node, scan.end.offset - 1, 1, &[])?;
        return Ok(shrunk(scan));
    }
    Ok(Scan {
        going: false,
        ..scan
    })
}

// Step 5: one turn.
#[tactic(auto, using(edit_model::proofs::Steps::steps, edit_model::proofs::Steps::exits), unfolding(crate::specs::Whitespace::trim_turn))]
fn trim_turn(doc: &mut Doc, scan: Scan) -> Result<Scan, EditFault>
    requires open { IsOpen doc.old }
    ensures gives { Gives result doc.old.state doc.new.state (trim_turn scan) }
    ensures keeps { Keeps doc.old doc.new }
{
    match trim_step(doc, scan.end) {
        Some(end) => Ok(Scan { end, ..scan }),
        None => trim_char(doc, scan),
    }
}

#[tactic(auto, unfolding(crate::specs::Whitespace::trims))]
fn trims(doc: &Doc, start: Point, scan: Scan) -> bool
    ensures { result ≡ trims start doc.now.state scan }
{
    scan.going && comes_before(doc, start, scan.end)
}

// Step 5: removes each U+0020 before the end of a line, back to a point.
#[tactic(auto, using(edit_model::proofs::Steps::whiles, edit_model::proofs::Steps::exits), unfolding(crate::specs::Whitespace::trimmed))]
fn trimmed(doc: &mut Doc, start: Point, scan: Scan) -> Result<Scan, EditFault>
    requires open { IsOpen doc.old }
    ensures gives { Gives result doc.old.state doc.new.state (trimmed start scan) }
    ensures keeps { Keeps doc.old doc.new }
{
    let mut turns = turn_bound(doc);
    let mut scan = Scan {
        going: true,
        ..scan
    };
    while turns > 0 {
        if !trims(doc, start, scan) {
            return Ok(scan);
        }
        scan = trim_turn(doc, scan)?;
        turns -= 1;
    }
    Ok(scan)
}

/// Canonicalize whitespace, step 5, where `fix` is on.
#[tactic(auto, using(edit_model::proofs::Steps::steps, edit_model::proofs::Steps::exits), unfolding(crate::specs::Whitespace::trimmed_if))]
pub(crate) fn trimmed_if(
    doc: &mut Doc,
    fix: bool,
    start: Point,
    scan: Scan,
) -> Result<Scan, EditFault>
    requires open { IsOpen doc.old }
    ensures gives { Gives result doc.old.state doc.new.state (trimmed_if fix start scan) }
    ensures keeps { Keeps doc.old doc.new }
{
    if fix {
        trimmed(doc, start, scan)
    } else {
        Ok(scan)
    }
}
