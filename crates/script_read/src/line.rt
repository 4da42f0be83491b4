//! Whole lines.

ghost use Rattle.std.specs.Prelude.{◌≡◌, ◌<◌, ◌≤◌, ◌⊎◌, ◌↔◌, IfOk, length};
ghost use Rattle.script_read.specs.declared.act.Act.{Act};
ghost use Rattle.script_read.specs.Acts.{Spells, IsUnknown, IsOutside};
ghost use Rattle.script_read.specs.Answers.{Reads, GivesAct};
ghost use Rattle.script_read.specs.Reading.{now_of, cut, name_of, count_of, select_of, mark_of, unmark_of, exec_of, query_of, undo_of, redo_of, probe_of, word_act, arguments_act, act_of, first_word, after_word, line_parts, Line, line_of, IsLine};

use crate::act::{Act, LineFault};
use crate::parts::{cut, is_name, read_number};
use crate::place::{read_path, read_points};
use crate::value::read_value;
use crate::verb::Verb;
use dom_model::{Chars, Name};
use html_names::QueryKind;
use std::alloc::Global;

// How many bytes a line may have.
const LINE_LIMIT: usize = 8192;

fn read_name(alloc: Global, text: &[u8]) -> Result<Name, LineFault>
    ensures { Reads result (name_of text.now) }
{
    if !is_name(text) {
        return Err(LineFault::Syntax);
    }
    Ok(Name::from_slice(alloc, text)?)
}

// How many entries to undo or redo, from 1.
fn read_count(text: &[u8]) -> Option<u32>
    ensures { result ≡ count_of text.now }
{
    let count = read_number(text)?;
    if count == 0 { None } else { Some(count) }
}

#[tactic(auto, unfolding(crate::specs::Reading::select_of))]
fn read_select(alloc: Global, text: &[u8]) -> Result<Act, LineFault>
    ensures { Reads result (select_of text.now) }
{
    let (anchor, focus) = read_points(alloc, text)?;
    Ok(Act::Select { anchor, focus })
}

#[tactic(auto, unfolding(crate::specs::Reading::mark_of))]
fn read_mark(alloc: Global, text: &[u8]) -> Result<Act, LineFault>
    ensures { Reads result (mark_of text.now) }
{
    let (name, points) = cut(text, b' ').ok_or(LineFault::Syntax)?;
    let name = read_name(alloc, name)?;
    let (anchor, focus) = read_points(alloc, points)?;
    Ok(Act::Mark {
        name,
        anchor,
        focus,
    })
}

#[tactic(auto, unfolding(crate::specs::Reading::exec_of))]
fn read_exec(alloc: Global, text: &[u8]) -> Result<Act, LineFault>
    ensures { Reads result (exec_of text.now) }
{
    match cut(text, b' ') {
        Some((name, value)) => {
            let name = read_name(alloc, name)?;
            let value = read_value(alloc, value)?;
            Ok(Act::Exec { name, value })
        }
        None => {
            let name = read_name(alloc, text)?;
            Ok(Act::Exec {
                name,
                value: Chars::new(alloc),
            })
        }
    }
}

#[tactic(auto, unfolding(crate::specs::Reading::query_of))]
fn read_query(alloc: Global, text: &[u8]) -> Result<Act, LineFault>
    ensures { Reads result (query_of text.now) }
{
    let (kind, name) = cut(text, b' ').ok_or(LineFault::Syntax)?;
    let kind = QueryKind::from_word(kind).ok_or(LineFault::Syntax)?;
    let name = read_name(alloc, name)?;
    Ok(Act::Query { kind, name })
}

#[tactic(auto, unfolding(crate::specs::Reading::unmark_of))]
fn read_unmark(alloc: Global, text: &[u8]) -> Result<Act, LineFault>
    ensures { Reads result (unmark_of text.now) }
{
    let name = read_name(alloc, text)?;
    Ok(Act::Unmark { name })
}

#[tactic(auto, unfolding(crate::specs::Reading::undo_of))]
fn read_undo(text: &[u8]) -> Result<Act, LineFault>
    ensures { Reads result (undo_of text.now) }
{
    let count = read_count(text).ok_or(LineFault::Syntax)?;
    Ok(Act::Undo { count })
}

#[tactic(auto, unfolding(crate::specs::Reading::redo_of))]
fn read_redo(text: &[u8]) -> Result<Act, LineFault>
    ensures { Reads result (redo_of text.now) }
{
    let count = read_count(text).ok_or(LineFault::Syntax)?;
    Ok(Act::Redo { count })
}

#[tactic(auto, unfolding(crate::specs::Reading::probe_of))]
fn read_probe(alloc: Global, text: &[u8]) -> Result<Act, LineFault>
    ensures { Reads result (probe_of text.now) }
{
    let path = read_path(alloc, text)?;
    Ok(Act::Probe { path })
}

// The act that is its word alone.
fn read_word(verb: Verb) -> Option<Act>
    ensures { result ≡ word_act verb }
{
    match verb {
        Verb::Unselect => Some(Act::Unselect),
        Verb::Html => Some(Act::Html),
        Verb::Tree => Some(Act::Tree),
        Verb::Points => Some(Act::Points),
        Verb::Stat => Some(Act::Stat),
        Verb::Log => Some(Act::Log),
        Verb::Select | Verb::Mark | Verb::Unmark | Verb::Exec => None,
        Verb::Query | Verb::Undo | Verb::Redo | Verb::Probe => None,
    }
}

// The act of a word and what follows it after a space.
fn read_arguments(alloc: Global, verb: Verb, text: &[u8]) -> Result<Act, LineFault>
    ensures { Reads result (arguments_act verb text.now) }
{
    match verb {
        Verb::Select => read_select(alloc, text),
        Verb::Mark => read_mark(alloc, text),
        Verb::Unmark => read_unmark(alloc, text),
        Verb::Exec => read_exec(alloc, text),
        Verb::Query => read_query(alloc, text),
        Verb::Undo => read_undo(text),
        Verb::Redo => read_redo(text),
        Verb::Probe => read_probe(alloc, text),
        Verb::Unselect | Verb::Html | Verb::Tree => Err(LineFault::Syntax),
        Verb::Points | Verb::Stat | Verb::Log => Err(LineFault::Syntax),
    }
}

fn read_act(alloc: Global, verb: Verb, rest: Option<&[u8]>) -> Result<Act, LineFault>
    ensures { Reads result (act_of verb (now_of rest.entry)) }
{
    match rest {
        Some(text) => read_arguments(alloc, verb, text),
        None => read_word(verb).ok_or(LineFault::Syntax),
    }
}

// The first word of a line, and what follows it after a space.
fn part_line(line: &[u8]) -> (&[u8], Option<&[u8]>)
    ensures word { result.0.now ≡ first_word line.now (cut 32 line.now) }
    ensures rest { now_of result.1 ≡ after_word (cut 32 line.now) }
{
    match cut(line, b' ') {
        Some((word, rest)) => (word, Some(rest)),
        None => (line, None),
    }
}

// A line that isn't too long.
fn read_short(alloc: Global, line: &[u8]) -> Result<Act, LineFault>
    ensures { GivesAct result (line_parts line.now (cut 32 line.now)) }
{
    let (word, rest) = part_line(line);
    match Verb::from_word(word) {
        Some(verb) => read_act(alloc, verb, rest),
        None => Err(LineFault::UnknownAct),
    }
}

#[tactic(auto, unfolding(crate::specs::Reading::line_of))]
fn read(alloc: Global, line: &[u8]) -> Result<Act, LineFault>
    ensures { GivesAct result (line_of line.now) }
{
    if line.len() > LINE_LIMIT {
        return Err(LineFault::LongLine);
    }
    read_short(alloc, line)
}

/// The act that a line spells, or why it spells none. The line comes without its LF.
///
/// The faults are tried in this order: the line has more than 8,192 bytes; its first word, up to
/// the first space, is no act's; it is outside the grammar or outside UTF-8. Memory may run out for
/// the parts that the act holds.
pub fn read_line(alloc: Global, line: &[u8]) -> Result<Act, LineFault>
    ensures computed { GivesAct result (line_of line.now) }
    ensures meaning { IsLine line.now (line_of line.now) }
    ensures one_meaning { (l : Line) → IsLine line.now l → line_of line.now ≡ l }
    ensures act { IfOk result (λ act. (length line.now ≤ 8192) × Spells line.now act) }
    ensures spelled { (act : Act) → length line.now ≤ 8192 → Spells line.now act
        → Reads result (Some act) }
    ensures one_act { (a b : Act) → Spells line.now a → Spells line.now b → a ≡ b }
    ensures long { (result ≡ Err LineFault.LongLine) ↔ (8192 < length line.now) }
    ensures unknown { (result ≡ Err LineFault.UnknownAct) ↔ IsUnknown line.now }
    ensures syntax { result ≡ Err LineFault.Syntax → IsOutside line.now }
    ensures outside { IsOutside line.now → (result ≡ Err LineFault.Syntax)
        ⊎ (result ≡ Err LineFault.Memory) }
{
    read(alloc, line)
}
