//! The run of the program over any source and sink.

ghost use Rattle.std.specs.Prelude.{◌≡◌, ◌⊎◌, ◌+◌, ◌<◌, ◌≤◌, ◌↔◌, ◌^◌, Result, [], length, map, string_bytes, IfOk, IfSome, Some, None, false};
ghost use Rattle.edit_io.specs.Faults.{Rose};
ghost use Rattle.edit_io.specs.Handed.{handed_more};
ghost use Rattle.step_text.specs.PageGrammar.Reading.{page_reading};
ghost use Rattle.page_read.specs.Faults.{kind_of};
ghost use Rattle.edit_session.specs.Bulk.{bulk_text};
ghost use Rattle.edit_session.specs.Replay.{Replayed, replay, IsFault};
ghost use Rattle.edit_session.specs.declared.replay.Refusal.{Refusal};
ghost use Rattle.step_text.specs.Applying.{labelled};
ghost use Rattle.edit_session.specs.Words as asked;
ghost use Rattle.edit_session.specs.Words.{reads_input, usual_limits, denied_in, limits_in, order_in, order_of};
ghost use Rattle.edit_session.specs.Block.{lines_of, block_of};
ghost use Rattle.inline_value.specs.EditDoc.Whole.{HasNoLoose};
ghost use Rattle.edit_engine.specs.Editing.{new_editing};
ghost use Rattle.edit_session.specs.Replies.{line_reply, replies_to};
ghost use Rattle.edit_session.specs.Transcript.{Transcript, numbers_line, transcript_of, refused, checked, acted, run_block, step_refused, replayed_text, replay_ended, replayed_on, replay_block, gives, transcript};
ghost use Rattle.edit_session.specs.Grammars.{RestsOnGrammars};
ghost use Rattle.edit_session.specs.Following.{Follows, IsWanted, HasCap, IsAnswered, IsBegun, RunFollows, Answered, IsCutOff, IsSilent};

use crate::acts::answer_line;
use crate::block::{PageBlock, after_line, line_end, read_block};
use crate::bulk::bulk_text;
use crate::denials::{gate_of, read_names};
use crate::replay::{Refusal, Tally, replay_lines};
use crate::reply::{numbers, refusal, replayed_text, step_refusal};
use crate::words::{GREATEST_CAP, Limits, Order, read_words, usual_limits};
use command_gate::{Gate, NameList};
use edit_engine::Editor;
use edit_io::{ReadAllFault, Sink, SinkFault, Source, read_all, write_all};
use edit_model::arena::Arena;
use page_read::{PageFault, PageKind, read_page};
use std::alloc::{AllocError, Global};
use step_text::StepFault;

// How many bytes an input may have.
const INPUT_LIMIT: usize = 8_388_608;

/// How a run ended. The number is the exit status of the program.
#[derive(Clone, Copy, PartialEq, Eq, Debug)]
pub enum Status {
    /// The input was read to its end, and its whole transcript is written.
    Done = 0,
    /// The words are not in the grammar. Nothing is read or written.
    Usage = 2,
    /// A read failed. Nothing is written.
    ReadFault = 3,
    /// A write failed. What was written is a prefix of the transcript.
    WriteFault = 4,
    /// Memory ran out. What was written is a prefix of the transcript.
    Memory = 5,
    /// The page block or the page is refused. The line that says so is written.
    PageRefused = 6,
    /// The input has more than 8,388,608 bytes. Nothing is written.
    TooLong = 7,
    /// A step line of a replay is refused. The line that says so is written.
    StepRefused = 8,
}

// Writes a text, and answers the status, or why the writing failed.
fn answer<O: Sink>(output: &mut O, text: &[u8], status: Status) -> Status
    requires { Answered status }
    ensures { Follows (transcript_of status text.now)
        (O.taken output.old) (O.taken output.new) (O.faults output.old) (O.faults output.new)
        result }
{
    match write_all(output, text) {
        Ok(()) => status,
        Err(SinkFault::Failed) => Status::WriteFault,
        Err(SinkFault::Memory) => Status::Memory,
    }
}

// Refuses the page at a place, by the word of a kind.
fn refuse<O: Sink>(alloc: Global, output: &mut O, place: usize, word: &str) -> Status
    ensures { Follows (refused place word.now)
        (O.taken output.old) (O.taken output.new) (O.faults output.old) (O.faults output.new)
        result }
{
    match refusal(alloc, place, word) {
        Ok(line) => answer(output, line.as_bytes(), Status::PageRefused),
        Err(_) => Status::Memory,
    }
}

fn refuse_page<O: Sink>(alloc: Global, output: &mut O, fault: PageFault) -> Status
    ensures { (want : Transcript) → Answered want.status
        → IsWanted fault.at (kind_of fault.kind) want
        → Follows want (O.taken output.old) (O.taken output.new) (O.faults output.old)
        (O.faults output.new) result }
{
    match fault.kind {
        PageKind::Memory => Status::Memory,
        kind => refuse(alloc, output, fault.at, kind.word()),
    }
}

// Accepts a page by its numbers.
fn accept<O: Sink>(alloc: Global, arena: &Arena, output: &mut O) -> Status
    ensures { Follows (transcript_of Status.Done (numbers_line arena.now.trees))
        (O.taken output.old) (O.taken output.new) (O.faults output.old) (O.faults output.new)
        result }
{
    match numbers(alloc, arena) {
        Ok(line) => answer(output, line.as_bytes(), Status::Done),
        Err(_) => Status::Memory,
    }
}

// `check`: the whole input is the page.
fn check<O: Sink>(alloc: Global, input: &[u8], output: &mut O) -> Status
    ensures { Follows (checked (page_reading 200 2000000 input.now))
        (O.taken output.old) (O.taken output.new) (O.faults output.old) (O.faults output.new)
        result }
{
    match read_page(alloc, input, GREATEST_CAP) {
        Ok(arena) => accept(alloc, &arena, output),
        Err(fault) => refuse_page(alloc, output, fault),
    }
}

// Answers one line.
fn act<O: Sink>(
    alloc: Global,
    gate: &Gate<NameList>,
    editor: &mut Editor,
    line: &[u8],
    output: &mut O,
) -> Status
    ensures follows { Follows
        (transcript_of Status.Done (line_reply gate.now editor.old.editing line.now).text)
        (O.taken output.old) (O.taken output.new) (O.faults output.old) (O.faults output.new)
        result }
    ensures after { result ≡ Status.Done
        → editor.new.editing ≡ (line_reply gate.now editor.old.editing line.now).after }
{
    match answer_line(alloc, gate, editor, line) {
        Ok(text) => answer(output, &text, Status::Done),
        Err(_) => Status::Memory,
    }
}

// Answers the lines of the acts, as far as memory and the output go.
fn run_acts<O: Sink>(
    alloc: Global,
    gate: &Gate<NameList>,
    editor: &mut Editor,
    acts: &[u8],
    output: &mut O,
) -> Status
    ensures { Follows
        (transcript_of Status.Done (replies_to gate.now editor.old.editing (lines_of acts.now)))
        (O.taken output.old) (O.taken output.new) (O.faults output.old) (O.faults output.new)
        result }
{
    let mut rest = acts;
    while !rest.is_empty() {
        let end = line_end(rest);
        match act(alloc, gate, editor, &rest[..end], output) {
            Status::Done => {}
            status => return status,
        }
        rest = after_line(rest, end);
    }
    Status::Done
}

fn denied_names(alloc: Global, denied: Option<&str>) -> Result<NameList, AllocError>
    ensures { IfOk result (λ list. list ≡ denied_in denied.entry) }
{
    match denied {
        Some(text) => read_names(alloc, text.as_bytes()),
        None => Ok(NameList::new(alloc)),
    }
}

// The gate of a session.
fn make_gate(alloc: Global, denied: Option<&str>) -> Result<Gate<NameList>, AllocError>
    ensures { IfOk result (λ gate. gate ≡ denied_in denied.entry) }
{
    let denied = denied_names(alloc, denied)?;
    gate_of(alloc, denied)
}

// `run` over the nodes of a page and the lines of its acts.
fn edit_page<O: Sink>(
    alloc: Global,
    arena: Arena,
    limits: Limits,
    acts: &[u8],
    output: &mut O,
) -> Status
    requires depth { 0 < limits.undo }
    requires loose { HasNoLoose arena }
    ensures { Follows (transcript_of Status.Done (replies_to (denied_in limits.entry.denied)
        (new_editing arena limits.entry.undo) (lines_of acts.now)))
        (O.taken output.old) (O.taken output.new) (O.faults output.old) (O.faults output.new)
        result }
{
    let Ok(gate) = make_gate(alloc, limits.denied) else {
        return Status::Memory;
    };
    match Editor::new(alloc, arena, limits.undo as usize) {
        Ok(mut editor) => run_acts(alloc, &gate, &mut editor, acts, output),
        Err(_) => Status::Memory,
    }
}

// `run` over a page and the lines of its acts.
fn run_page<O: Sink>(
    alloc: Global,
    page: &[u8],
    acts: &[u8],
    limits: Limits,
    output: &mut O,
) -> Status
    requires cap { 0 < limits.cap }
    requires undo { 0 < limits.undo }
    ensures { Follows
        (acted (limits_in limits.entry) (lines_of acts.now)
        (page_reading 200 limits.entry.cap page.now))
        (O.taken output.old) (O.taken output.new) (O.faults output.old) (O.faults output.new)
        result }
{
    match read_page(alloc, page, limits.cap) {
        Ok(arena) => edit_page(alloc, arena, limits, acts, output),
        Err(fault) => refuse_page(alloc, output, fault),
    }
}

// `run`: the page of the block, and then the acts.
fn run<O: Sink>(alloc: Global, input: &[u8], limits: Limits, output: &mut O) -> Status
    requires cap { 0 < limits.cap }
    requires undo { 0 < limits.undo }
    ensures { Follows (run_block (limits_in limits.entry) (length input.now) (block_of input.now))
        (O.taken output.old) (O.taken output.new) (O.faults output.old) (O.faults output.new)
        result }
{
    match read_block(input) {
        PageBlock::NoOpening => refuse(alloc, output, 0, "no-opening"),
        PageBlock::NoClosing => refuse(alloc, output, input.len(), "no-closing"),
        PageBlock::Whole { page, acts } => run_page(alloc, page, acts, limits, output),
    }
}

// `bulk`: a session that is made from a number.
fn run_bulk<O: Sink>(alloc: Global, count: u32, output: &mut O) -> Status
    ensures { Follows
        (run_block usual_limits (length (bulk_text count)) (block_of (bulk_text count)))
        (O.taken output.old) (O.taken output.new) (O.faults output.old) (O.faults output.new)
        result }
{
    match bulk_text(alloc, count) {
        Ok(text) => run(alloc, &text, usual_limits(), output),
        Err(_) => Status::Memory,
    }
}

// Refuses a step line for another fault than that memory is out.
fn tell_refusal<O: Sink>(alloc: Global, output: &mut O, refusal: Refusal) -> Status
    ensures { Follows (step_refused refusal)
        (O.taken output.old) (O.taken output.new) (O.faults output.old) (O.faults output.new)
        result }
{
    match step_refusal(alloc, refusal) {
        Ok(line) => answer(output, line.as_bytes(), Status::StepRefused),
        Err(_) => Status::Memory,
    }
}

fn refuse_step<O: Sink>(alloc: Global, output: &mut O, refusal: Refusal) -> Status
    ensures { (want : Result Replayed Refusal) → IsFault refusal refusal.fault want
        → Follows (replay_ended want) (O.taken output.old) (O.taken output.new)
        (O.faults output.old)
        (O.faults output.new) result }
{
    match refusal.fault {
        StepFault::Memory => Status::Memory,
        _ => tell_refusal(alloc, output, refusal),
    }
}

// Ends a replay that nothing refused.
fn end_replay<O: Sink>(alloc: Global, arena: &Arena, tally: Tally, output: &mut O) -> Status
    ensures { Follows
        (transcript_of Status.Done (replayed_text tally arena.now.trees arena.now.next))
        (O.taken output.old) (O.taken output.new) (O.faults output.old) (O.faults output.new)
        result }
{
    match replayed_text(alloc, arena, tally) {
        Ok(text) => answer(output, &text, Status::Done),
        Err(_) => Status::Memory,
    }
}

// `replay` over the nodes of a page and the step lines.
fn replay_steps<O: Sink>(alloc: Global, arena: Arena, steps: &[u8], output: &mut O) -> Status
    requires { length steps.now < 2 ^ 32 }
    ensures { Follows (replay_ended (replay (lines_of steps.now) (labelled arena)))
        (O.taken output.old) (O.taken output.new) (O.faults output.old) (O.faults output.new)
        result }
{
    let mut page = step_text::Replay::new(arena);
    match replay_lines(alloc, &mut page, steps) {
        Ok(tally) => end_replay(alloc, page.arena(), tally, output),
        Err(refusal) => refuse_step(alloc, output, refusal),
    }
}

// `replay` over a page and the step lines.
fn replay_page<O: Sink>(alloc: Global, page: &[u8], steps: &[u8], output: &mut O) -> Status
    requires { length steps.now < 2 ^ 32 }
    ensures { Follows (replayed_on (lines_of steps.now) (page_reading 200 2000000 page.now))
        (O.taken output.old) (O.taken output.new) (O.faults output.old) (O.faults output.new)
        result }
{
    match read_page(alloc, page, GREATEST_CAP) {
        Ok(arena) => replay_steps(alloc, arena, steps, output),
        Err(fault) => refuse_page(alloc, output, fault),
    }
}

// `replay`: the page of the block, and then the step lines.
fn replay<O: Sink>(alloc: Global, session: &[u8], output: &mut O) -> Status
    requires { length session.now < 2 ^ 32 }
    ensures { Follows (replay_block (length session.now) (block_of session.now))
        (O.taken output.old) (O.taken output.new) (O.faults output.old) (O.faults output.new)
        result }
{
    match read_block(session) {
        PageBlock::NoOpening => refuse(alloc, output, 0, "no-opening"),
        PageBlock::NoClosing => refuse(alloc, output, session.len(), "no-closing"),
        PageBlock::Whole { page, acts } => replay_page(alloc, page, acts, output),
    }
}

// What was ordered, over an input that is read where the order reads it.
fn obey<O: Sink>(alloc: Global, order: Order, input: &[u8], output: &mut O) -> Status
    requires cap { HasCap (order_in order) }
    requires short { length input.now < 2 ^ 32 }
    ensures { Follows (gives (order_in order.entry) input.now)
        (O.taken output.old) (O.taken output.new) (O.faults output.old) (O.faults output.new)
        result }
{
    match order {
        Order::Check => check(alloc, input, output),
        Order::Run(limits) => run(alloc, input, limits, output),
        Order::Replay => replay(alloc, input, output),
        Order::Bulk(count) => run_bulk(alloc, count, output),
    }
}

/// Runs the program over the words after its name: reads all of the input, where the order reads
/// it, and writes the transcript.
#[tactic(auto, using(crate::proofs::Grammars::rests))]
pub fn run_session<I: Source, O: Sink>(
    alloc: Global,
    words: &[String],
    input: &mut I,
    output: &mut O,
) -> Status
    // Usage comes exactly where the words are not in the grammar, and then nothing is read or
    // written.
    ensures usage { (result ≡ Status.Usage) ↔ (order_of (map string_bytes words.now) ≡ None) }
    ensures unread { result ≡ Status.Usage → (input.new ≡ input.old) × (output.new ≡ output.old) }

    // An order that reads no input leaves it as it is.
    ensures untouched { (order : asked.Order) → order_of (map string_bytes words.now) ≡ Some order
        → reads_input order ≡ false → input.new ≡ input.old }

    // And it follows its transcript, whatever the source shows: no input is too long for it, and no
    // read fails.
    ensures alone { (order : asked.Order) → order_of (map string_bytes words.now) ≡ Some order
        → reads_input order ≡ false → Follows (transcript (map string_bytes words.now) [])
        (O.taken output.old) (O.taken output.new) (O.faults output.old) (O.faults output.new)
        result }

    // Where the source shows its bytes, what is written is a prefix of their transcript, all of it
    // with the transcript's status, and any other status has its cause.
    ensures told { IfSome (I.left input.old) (λ bytes.
        RunFollows (transcript (map string_bytes words.now) bytes)
        (O.taken output.old) (O.taken output.new) (I.faults input.old) (I.faults input.new)
        (O.faults output.old) (O.faults output.new) result) }

    // With Done, PageRefused and StepRefused the input was read to its end, or not looked at where
    // the order reads none, and the transcript of what was read is written whole.
    ensures answered { Answered result → IsAnswered (map string_bytes words.now)
        (I.left input.old) (I.left input.new) (I.handed input.old) (I.handed input.new)
        (O.taken output.old) (O.taken output.new) result }

    // With WriteFault and Memory nothing is written, or a prefix of the transcript of what was read,
    // whether the source shows that or not.
    ensures cut_off { IsCutOff result → (output.new ≡ output.old)
        ⊎ IsBegun (map string_bytes words.now) (I.left input.old) (I.left input.new)
        (I.handed input.old) (I.handed input.new) (O.taken output.old) (O.taken output.new) }

    // At most one byte past the limit is taken, and TooLong means that it was.
    ensures bounded { I.handed input.new ≤ I.handed input.old + 8388609 }
    ensures too_long { result ≡ Status.TooLong
        → I.handed input.new ≡ handed_more (I.handed input.old) 8388609 }
    ensures read_fault { result ≡ Status.ReadFault
        → Rose (I.faults input.old) (I.faults input.new) }
    ensures write_fault { result ≡ Status.WriteFault
        → Rose (O.faults output.old) (O.faults output.new) }
    ensures silent { IsSilent result → output.new ≡ output.old }
    ensures counted { (I.faults input.old ≤ I.faults input.new)
        × (O.faults output.old ≤ O.faults output.new) }

    // What the transcript rests on is what the grammars say of words, page blocks, pages, acts and
    // step lines.
    ensures grammars { RestsOnGrammars }
{
    let order = match read_words(words) {
        Some(order) => order,
        None => return Status::Usage,
    };
    if !order.reads_input() {
        return obey(alloc, order, &[], output);
    }
    match read_all(alloc, input, INPUT_LIMIT) {
        Ok(bytes) => obey(alloc, order, &bytes, output),
        Err(ReadAllFault::Failed) => Status::ReadFault,
        Err(ReadAllFault::TooLong) => Status::TooLong,
        Err(ReadAllFault::Memory) => Status::Memory,
    }
}
