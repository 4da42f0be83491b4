//! Lines read as steps. Each step has one line, so a line is read as if it were one of a step, and
//! is one where the step that is read prints as the line.

ghost use Rattle.std.specs.Prelude.{◌≡◌, ◌⊎◌, ◌<◌, IfErr, IfOk, IfSome, true};
ghost use Rattle.std.specs.Option.{option_map};
ghost use Rattle.std.specs.Str.{all_scalars};
ghost use Rattle.script_read.specs.Reading.{number_of};
ghost use Rattle.step_text.specs.StepLine.{IsLabel, IsMade, IsStepLine, line_text};
ghost use Rattle.step_text.specs.StepReading as reading;
ghost use Rattle.step_text.specs.StepReading.{Reads};

use crate::line::{Made, StepFault, StepLine};
use crate::print::print_step;
use crate::tag::{read_tag, within};
use page_grammar::dom::Chars;
use script_read::{LineFault, cut, read_number, read_printed};
use std::alloc::Global;

fn read_label(text: &[u8]) -> Option<u32>
    ensures read { result ≡ number_of text.now }
    ensures sound { IfSome result IsLabel }
{
    read_number(text)
}

// A label, and what follows it after a space.
#[tactic(auto, unfolding(crate::specs::StepReading::labelled))]
fn read_labelled(text: &[u8]) -> Option<(u32, &[u8])>
    ensures read { option_map (λ p. (p.0, p.1.now)) result ≡ reading.labelled text.now }
    ensures sound { IfSome result (λ p. IsLabel p.0) }
{
    let (digits, rest) = cut(text, b' ')?;
    let label = read_label(digits)?;
    Some((label, rest))
}

fn read_before(text: &[u8]) -> Result<Option<u32>, StepFault>
    ensures read { Reads result (reading.before_of text.now) }
    ensures sound { IfOk result (λ before. IfSome before IsLabel) }
{
    match text {
        b"-" => Ok(None),
        _ => {
            let label = read_label(text).ok_or(StepFault::Syntax)?;
            Ok(Some(label))
        }
    }
}

// A parent, and the child before which a node goes.
#[tactic(auto, unfolding(crate::specs::StepReading::place_of))]
fn read_place(text: &[u8]) -> Result<(u32, Option<u32>), StepFault>
    ensures read { Reads result (reading.place_of text.now) }
    ensures sound { IfOk result (λ place. IsLabel place.0 × IfSome place.1 IsLabel) }
{
    let (parent, before) = read_labelled(text).ok_or(StepFault::Syntax)?;
    let before = read_before(before)?;
    Ok((parent, before))
}

fn read_words(alloc: Global, text: &[u8]) -> Result<Chars, StepFault>
    ensures read { Reads result (reading.words_of text.now) }
    ensures sound { IfOk result (λ words. all_scalars words ≡ true) }
{
    match read_printed(alloc, within(text)) {
        Ok(words) => Ok(words),
        Err(LineFault::Memory) => Err(StepFault::Memory),
        Err(_) => Err(StepFault::Syntax),
    }
}

#[tactic(auto, unfolding(crate::specs::StepReading::made_of))]
fn read_made(alloc: Global, text: &[u8]) -> Result<Made, StepFault>
    ensures read { Reads result (reading.made_of text.now) }
    ensures sound { IfOk result IsMade }
{
    match text {
        [b'"', ..] => {
            let words = read_words(alloc, text)?;
            Ok(Made::Words { words })
        }
        _ => {
            let (name, attributes) = read_tag(alloc, text)?;
            Ok(Made::Element { name, attributes })
        }
    }
}

#[tactic(auto, unfolding(crate::specs::StepReading::make_of))]
fn read_make(alloc: Global, text: &[u8]) -> Result<StepLine, StepFault>
    ensures read { Reads result (reading.make_of text.now) }
    ensures sound { IfOk result IsStepLine }
{
    let (label, made) = read_labelled(text).ok_or(StepFault::Syntax)?;
    let made = read_made(alloc, made)?;
    Ok(StepLine::Make { label, made })
}

#[tactic(auto, unfolding(crate::specs::StepReading::insert_of))]
fn read_insert(text: &[u8]) -> Result<StepLine, StepFault>
    ensures read { Reads result (reading.insert_of text.now) }
    ensures sound { IfOk result IsStepLine }
{
    let (label, place) = read_labelled(text).ok_or(StepFault::Syntax)?;
    let (parent, before) = read_place(place)?;
    Ok(StepLine::Insert {
        label,
        parent,
        before,
    })
}

#[tactic(auto, unfolding(crate::specs::StepReading::remove_of))]
fn read_remove(text: &[u8]) -> Result<StepLine, StepFault>
    ensures read { Reads result (reading.remove_of text.now) }
    ensures sound { IfOk result IsStepLine }
{
    let label = read_label(text).ok_or(StepFault::Syntax)?;
    Ok(StepLine::Remove { label })
}

#[tactic(auto, unfolding(crate::specs::StepReading::move_of))]
fn read_move(text: &[u8]) -> Result<StepLine, StepFault>
    ensures read { Reads result (reading.move_of text.now) }
    ensures sound { IfOk result IsStepLine }
{
    let (label, place) = read_labelled(text).ok_or(StepFault::Syntax)?;
    let (parent, before) = read_place(place)?;
    Ok(StepLine::Move {
        label,
        parent,
        before,
    })
}

#[tactic(auto, unfolding(crate::specs::StepReading::words_step_of))]
fn read_words_step(alloc: Global, text: &[u8]) -> Result<StepLine, StepFault>
    ensures read { Reads result (reading.words_step_of text.now) }
    ensures sound { IfOk result IsStepLine }
{
    let (label, words) = read_labelled(text).ok_or(StepFault::Syntax)?;
    let words = read_words(alloc, words)?;
    Ok(StepLine::Words { label, words })
}

#[tactic(auto, unfolding(crate::specs::StepReading::tag_step_of))]
fn read_tag_step(alloc: Global, text: &[u8]) -> Result<StepLine, StepFault>
    ensures read { Reads result (reading.tag_step_of text.now) }
    ensures sound { IfOk result IsStepLine }
{
    let (label, tag) = read_labelled(text).ok_or(StepFault::Syntax)?;
    let (name, attributes) = read_tag(alloc, tag)?;
    Ok(StepLine::Tag {
        label,
        name,
        attributes,
    })
}

#[tactic(auto, unfolding(crate::specs::StepReading::arguments_of))]
fn read_arguments(alloc: Global, word: &[u8], text: &[u8]) -> Result<StepLine, StepFault>
    ensures read { Reads result (reading.arguments_of word.now text.now) }
    ensures sound { IfOk result IsStepLine }
{
    if word == b"make".as_slice() {
        read_make(alloc, text)
    } else if word == b"insert".as_slice() {
        read_insert(text)
    } else if word == b"remove".as_slice() {
        read_remove(text)
    } else if word == b"move".as_slice() {
        read_move(text)
    } else if word == b"words".as_slice() {
        read_words_step(alloc, text)
    } else if word == b"tag".as_slice() {
        read_tag_step(alloc, text)
    } else {
        Err(StepFault::Syntax)
    }
}

// The step that a line stands for, if it stands for one.
#[tactic(auto, unfolding(crate::specs::StepReading::step_of))]
fn read_leniently(alloc: Global, line: &[u8]) -> Result<StepLine, StepFault>
    ensures read { Reads result (reading.step_of line.now) }
    ensures sound { IfOk result IsStepLine }
{
    match cut(line, b' ') {
        Some((word, text)) => read_arguments(alloc, word, text),
        None if line == b"entry".as_slice() => Ok(StepLine::Entry),
        None => Err(StepFault::Syntax),
    }
}

/// The step that a line stands for. The line comes without its LF.
///
/// A step has one line: labels have 1 to 9 digits without leading zeros, a text has just the
/// escapes that a printed text has, and a tag just the references of a written page. Its names are
/// those of the grammar of pages, in lower case and whatever the element.
#[tactic(auto, unfolding(crate::specs::StepReading::step_in))]
pub fn read_step(alloc: Global, line: &[u8]) -> Result<StepLine, StepFault>
    ensures computed { Reads result (reading.step_in line.now) }
    ensures step { IfOk result (λ step. IsStepLine step × (line_text step ≡ line.now)) }
    ensures spelled { (step : StepLine) → IsStepLine step → line_text step ≡ line.now →
        (result ≡ Ok step) ⊎ (result ≡ Err StepFault.Memory) }
    ensures syntax { result ≡ Err StepFault.Syntax →
        (step : StepLine) → IsStepLine step → ¬ (line_text step ≡ line.now) }
    ensures fault { IfErr result (λ fault. (fault ≡ StepFault.Syntax)
        ⊎ (fault ≡ StepFault.Memory)) }
{
    let step = read_leniently(alloc, line)?;
    let printed = print_step(alloc, &step)?;
    if printed.as_slice() != line {
        return Err(StepFault::Syntax);
    }
    Ok(step)
}
