//! Canonicalizing whitespace. The steps are those of docs/ALGORITHMS.md.

ghost use Rattle.edit_model.specs.Gives.{Gives};
ghost use Rattle.inline_value.specs.EditDoc.Whole.{IsOpen};
ghost use Rattle.inline_value.specs.EditDoc.Held.{Keeps};
ghost use Rattle.delete_core.specs.Whitespace.{canonicalize_from, canonicalize};

use crate::laying::laid_between;
use crate::scanning::scan_blanks;
use crate::stepping::start_of_blanks;
use crate::trimming::trimmed_if;
use inline_value::doc::{Doc, EditFault, Point};
use std::alloc::Global;

// Canonicalize whitespace, steps 3 to 7.
#[tactic(auto, using(edit_model::proofs::Steps::steps, edit_model::proofs::Steps::exits), unfolding(crate::specs::Whitespace::canonicalize_from))]
fn canonicalize_from(alloc: Global, doc: &mut Doc, fix: bool, start: Point) -> Result<(), EditFault>
    requires open { IsOpen doc.old }
    ensures gives { Gives result doc.old.state doc.new.state (canonicalize_from fix start) }
    ensures keeps { Keeps doc.old doc.new }
{
    let found = scan_blanks(doc, fix, start)?;
    let kept = trimmed_if(doc, fix, start, found)?;
    laid_between(alloc, doc, start, kept)
}

/// Makes the blanks round a point, U+0020 and U+00A0 alike, a canonical sequence, so that each of
/// them shows (HTML Editing APIs, "canonicalize whitespace"). With `fix` on, blanks that show
/// nothing go first. A point whose node is neither the affected host nor editable is left alone.
#[tactic(auto, using(edit_model::proofs::Steps::steps, edit_model::proofs::Steps::exits, crate::proofs::Absent::absent), unfolding(crate::specs::Whitespace::canonicalize))]
pub fn canonicalize(alloc: Global, doc: &mut Doc, at: Point, fix: bool) -> Result<(), EditFault>
    requires open { IsOpen doc.old }
    ensures gives { Gives result doc.old.state doc.new.state (canonicalize fix at) }
    ensures keeps { Keeps doc.old doc.new }
{
    let Some(node) = doc.find(at.label) else {
        return Ok(());
    };
    if !doc.is_inside(node) {
        return Ok(());
    }
    let start = start_of_blanks(doc, at);
    canonicalize_from(alloc, doc, fix, start)
}
