//! Canonicalize whitespace, steps 3 and 4: the blanks from where they begin. The steps are those of
//! docs/ALGORITHMS.md.

ghost use Rattle.std.specs.Prelude.{◌≡◌, ◌<◌, IfOk, true};
ghost use Rattle.edit_model.specs.DomModel.Forest.{count_of};
ghost use Rattle.edit_model.specs.Gives.{Gives};
ghost use Rattle.inline_value.specs.EditDoc.Whole.{IsOpen};
ghost use Rattle.inline_value.specs.EditDoc.Held.{Keeps};
ghost use Rattle.delete_core.specs.InLine.{PrecedesNone};
ghost use Rattle.delete_core.specs.Whitespace.{first_scan, passed, scan_blank, scan_char, scan_turn, scan_blanks};

use crate::blanks::{blank_at, starts_line};
use crate::spaces::SOFT;
use crate::stepping::{Stand, on_step};
use edit_model::boundary::node_of;
use inline_value::doc::{Doc, EditFault, Point};
use inline_value::wrap::turn_bound;
use std::alloc::AllocError;

/// How far a walk over blanks has come.
#[derive(Clone, Copy)]
pub(crate) struct Scan {
    /// Where it stands.
    pub end: Point,
    /// How many blanks it passed that stay.
    pub count: usize,
    /// A U+0020 stands before it, or a line starts there.
    pub after_soft: bool,
    /// It goes on.
    pub going: bool,
}

// Step 3.
#[tactic(auto, unfolding(crate::specs::Whitespace::first_scan))]
fn first_scan(doc: &Doc, start: Point) -> Scan
    ensures { result ≡ first_scan doc.now.state start }
{
    Scan {
        end: start,
        count: 0,
        after_soft: starts_line(doc, start),
        going: true,
    }
}

// Past a blank, which counts. More blanks than can be counted find no memory.
fn passed(scan: Scan, character: char) -> Result<Scan, AllocError>
    ensures { IfOk result (λ next. next ≡ passed scan character) }
{
    let offset = scan.end.offset.checked_add(1).ok_or(AllocError)?;
    let count = scan.count.checked_add(1).ok_or(AllocError)?;
    Ok(Scan {
        end: Point {
            label: scan.end.label,
            offset,
        },
        count,
        after_soft: character == SOFT,
        going: scan.going,
    })
}

// Step 4, third line.
#[tactic(auto, using(edit_model::proofs::Steps::steps, edit_model::proofs::Steps::exits), unfolding(crate::specs::Whitespace::scan_blank))]
fn scan_blank(doc: &mut Doc, fix: bool, scan: Scan, character: char) -> Result<Scan, EditFault>
    requires open { IsOpen doc.old }
    requires there { 0 < count_of doc.old.state.trees scan.end.label }
    ensures gives { Gives result doc.old.state doc.new.state (scan_blank fix scan character) }
    ensures keeps { Keeps doc.old doc.new }
{
    if fix && scan.after_soft && character == SOFT {
        let node = node_of(doc, scan.end);
        doc.replace_words(node, scan.end.offset, 1, &[])?;
        return Ok(scan);
    }
    Ok(passed(scan, character)?)
}

// Step 4, third and fourth line.
#[tactic(auto, using(edit_model::proofs::Steps::steps, edit_model::proofs::Steps::exits), unfolding(crate::specs::Whitespace::scan_char))]
fn scan_char(doc: &mut Doc, fix: bool, scan: Scan) -> Result<Scan, EditFault>
    requires open { IsOpen doc.old }
    ensures gives { Gives result doc.old.state doc.new.state (scan_char fix scan) }
    ensures keeps { Keeps doc.old doc.new }
{
    match blank_at(doc, scan.end) {
        Some(character) => scan_blank(doc, fix, scan, character),
        None => Ok(Scan {
            going: false,
            ..scan
        }),
    }
}

// Step 4: one turn.
#[tactic(auto, using(edit_model::proofs::Steps::steps, edit_model::proofs::Steps::exits), unfolding(crate::specs::Whitespace::scan_turn))]
fn scan_turn(doc: &mut Doc, fix: bool, scan: Scan, in_line: &mut bool) -> Result<Scan, EditFault>
    requires open { IsOpen doc.old }
    requires knows { in_line.old ≡ true → PrecedesNone doc.old.state.trees scan.end }
    ensures gives { Gives result doc.old.state doc.new.state (scan_turn fix scan) }
    ensures knows { IfOk result
        (λ next. in_line.new ≡ true → PrecedesNone doc.new.state.trees next.end) }
    ensures keeps { Keeps doc.old doc.new }
{
    let stand = Stand {
        at: scan.end,
        in_line: *in_line,
    };
    match on_step(doc, stand) {
        Some(next) => {
            *in_line = next.in_line;
            Ok(Scan {
                end: next.at,
                ..scan
            })
        }
        None => {
            *in_line = false;
            scan_char(doc, fix, scan)
        }
    }
}

/// Canonicalize whitespace, steps 3 and 4: counts the blanks from a point on, and where `fix` is on
/// removes each U+0020 after another one or at the start of a line.
#[tactic(auto, using(edit_model::proofs::Steps::whiles, edit_model::proofs::Steps::exits), unfolding(crate::specs::Whitespace::scan_blanks))]
pub(crate) fn scan_blanks(doc: &mut Doc, fix: bool, start: Point) -> Result<Scan, EditFault>
    requires open { IsOpen doc.old }
    ensures gives { Gives result doc.old.state doc.new.state (scan_blanks fix start) }
    ensures keeps { Keeps doc.old doc.new }
{
    let mut turns = turn_bound(doc);
    let mut scan = first_scan(doc, start);
    let mut in_line = false;
    while turns > 0 {
        if !scan.going {
            return Ok(scan);
        }
        scan = scan_turn(doc, fix, scan, &mut in_line)?;
        turns -= 1;
    }
    Ok(scan)
}
