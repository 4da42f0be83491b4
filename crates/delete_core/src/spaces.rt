//! The canonical space sequence. The steps are those of docs/ALGORITHMS.md.

ghost use Rattle.std.specs.Prelude.{◌≡◌, ◌<◌, ◌++◌, ◌∷◌, [], IfOk, OnOk};
ghost use Rattle.delete_core.specs.Spaces.{hard_if, is_blank, canonical_spaces};

use edit_model::dom::Chars;
use std::alloc::{AllocError, Global};

/// U+0020, which collapses with another one beside it.
pub(crate) const SOFT: char = ' ';

/// U+00A0, which keeps its place.
const HARD: char = '\u{a0}';

/// Whether a character is one of these two.
pub(crate) fn is_blank(character: char) -> bool
    ensures { result ≡ is_blank character }
{
    character == SOFT || character == HARD
}

fn hard_if(hard: bool) -> char
    ensures { result ≡ hard_if hard }
{
    if hard { HARD } else { SOFT }
}

#[tactic(auto, using(crate::proofs::Counted::pushes))]
fn push_two(spaces: &mut Vec<char>, first: char, second: char) -> Result<(), AllocError>
    ensures { OnOk result (spaces.new.items ≡ spaces.old.items ++ first ∷ second ∷ []) }
{
    spaces.push(first)?;
    spaces.push(second)?;
    Ok(())
}

// The canonical space sequence, steps 1, 2, 4 and 5: what it has at its end, which is at most three
// blanks.
#[tactic(auto, using(crate::proofs::Counted::pushes, crate::proofs::Counted::counts))]
fn push_last(spaces: &mut Vec<char>, count: usize, start: bool, end: bool) -> Result<(), AllocError>
    requires { count < 4 }
    ensures { OnOk result (spaces.new.items ≡ spaces.old.items
        ++ canonical_spaces count start end) }
{
    if count == 0 {
        return Ok(());
    }
    if count == 1 {
        spaces.push(hard_if(start || end))?;
        return Ok(());
    }
    if count == 2 {
        return push_two(spaces, hard_if(start || !end), hard_if(end));
    }
    push_two(spaces, hard_if(start), hard_if(!(start && end)))?;
    spaces.push(hard_if(end))?;
    Ok(())
}

/// So many blanks, U+00A0 or U+0020, of which no two U+0020 stand side by side. `start` and `end`
/// say that a line starts before them, and that one ends after them; a blank there is U+00A0.
#[tactic(auto, using(crate::proofs::Counted::pushes, crate::proofs::Counted::counts))]
pub fn canonical_spaces(
    alloc: Global,
    count: usize,
    start: bool,
    end: bool,
) -> Result<Chars, AllocError>
    ensures { IfOk result (λ spaces. spaces ≡ canonical_spaces count start end) }
{
    let mut spaces = Vec::new(alloc);
    let mut left = count;
    while left > 3 {
        push_two(&mut spaces, hard_if(start), hard_if(!start))?;
        left -= 2;
    }
    push_last(&mut spaces, left, start, end)?;
    Chars::from_slice(alloc, &spaces)
}
