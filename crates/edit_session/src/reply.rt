//! The lines on pages and on replays.

ghost use Rattle.std.specs.Prelude.{◌≡◌, ◌++◌, IfOk, OnOk, string_bytes};
ghost use Rattle.edit_model.specs.DomModel.Document.{node_count, char_count};
ghost use Rattle.edit_session.specs.Transcript.{numbers_text, numbers_line, refused, fault_word, step_text, step_refused, tally_text, document_line, replayed_text};

use crate::replay::{Refusal, Tally};
use edit_model::arena::Arena;
use page_write::write_html;
use std::alloc::{AllocError, Global};
use step_text::StepFault;

fn numbers_text(alloc: Global, nodes: u32, chars: u64) -> Result<String, AllocError>
    ensures { IfOk result (λ text. string_bytes text ≡ numbers_text nodes chars) }
{
    format!(in alloc; "page ok nodes {nodes} chars {chars}\n")
}

/// The line with which a page is accepted: how many nodes the document has, the Document among
/// them, and how many characters its texts have.
pub fn numbers(alloc: Global, arena: &Arena) -> Result<String, AllocError>
    ensures { IfOk result (λ text. string_bytes text ≡ numbers_line arena.now.trees) }
{
    numbers_text(alloc, arena.node_count(), arena.char_count())
}

/// The line with which a page is refused: the place in bytes, and the word of the kind.
pub fn refusal(alloc: Global, place: usize, word: &str) -> Result<String, AllocError>
    ensures { IfOk result (λ text. string_bytes text ≡ (refused place word.now).text) }
{
    format!(in alloc; "! page {place} {word}\n")
}

fn fault_word(fault: StepFault) -> &'static str
    ensures { result.now ≡ fault_word fault }
{
    match fault {
        StepFault::Syntax => "syntax",
        StepFault::BadLabel => "bad-label",
        StepFault::BadPlace => "bad-place",
        StepFault::TooDeep => "too-deep",
        StepFault::Memory => "memory",
    }
}

fn step_text(alloc: Global, number: usize, word: &str) -> Result<String, AllocError>
    ensures { IfOk result (λ text. string_bytes text ≡ step_text number word.now) }
{
    format!(in alloc; "! step {number} {word}\n")
}

/// The line with which a step line is refused: its number, and the word of the fault.
pub fn step_refusal(alloc: Global, refusal: Refusal) -> Result<String, AllocError>
    ensures { IfOk result (λ text. string_bytes text ≡ (step_refused refusal).text) }
{
    step_text(alloc, refusal.number, fault_word(refusal.fault))
}

fn tally_text(alloc: Global, tally: Tally) -> Result<String, AllocError>
    ensures { IfOk result (λ text. string_bytes text ≡ tally_text tally) }
{
    let Tally { entries, steps } = tally;
    format!(in alloc; "replayed {entries} {steps}\n")
}

fn document_line(alloc: Global, nodes: u32, chars: u64, next: u32) -> Result<String, AllocError>
    ensures { IfOk result (λ text. string_bytes text ≡ document_line nodes chars next) }
{
    format!(in alloc; "nodes {nodes} chars {chars} next {next}\n")
}

// Appends the line with the numbers of the document.
fn push_numbers(alloc: Global, text: &mut Vec<u8>, arena: &Arena) -> Result<(), AllocError>
    ensures { OnOk result (text.new.items ≡ text.old.items
        ++ document_line (node_count arena.now.trees)
        (char_count arena.now.trees) arena.now.next) }
{
    let (nodes, chars) = (arena.node_count(), arena.char_count());
    let line = document_line(alloc, nodes, chars, arena.next_label())?;
    text.extend_from_slice(line.as_bytes())
}

/// The lines with which a replay ends: what was counted, the numbers of the document, and its HTML.
pub fn replayed_text(alloc: Global, arena: &Arena, tally: Tally) -> Result<Vec<u8>, AllocError>
    ensures { IfOk result (λ text. text.items
        ≡ replayed_text tally arena.now.trees arena.now.next) }
{
    let mut text = tally_text(alloc, tally)?.into_bytes();
    push_numbers(alloc, &mut text, arena)?;
    text.extend_from_slice(&write_html(alloc, arena)?)?;
    text.push(b'\n')?;
    Ok(text)
}
