//! A session of the program as one call.

ghost use Rattle.std.specs.Prelude.{◌≡◌, ◌≢◌, map, string_bytes, IfOk};
ghost use Rattle.edit_session.specs.Transcript.{transcript, transcript_of};
ghost use Rattle.edit_session.specs.Grammars.{RestsOnGrammars};
ghost use Rattle.hedit_c.specs.Session.{reply, reply_to, nothing_written, Replies, Ran};
ghost use Rattle.hedit_c.specs.Session.{session_number_of, memory_number, run_words, words_in};

use crate::editor::status::Status as CallStatus;
use edit_io::{SliceSource, SureSink};
use edit_session::{Status, after_line, line_end, run_session};
use std::alloc::{AllocError, Global};

// How a run ended, and what it wrote.
#[derive(Drop)]
struct Run {
    status: Status,
    text: Vec<u8>,
}

fn number(status: Status) -> u32
    ensures { result ≡ session_number_of status }
{
    status as u32
}

fn run_text(alloc: Global, words: &[String], input: &[u8]) -> Run
    ensures { Ran (transcript (map string_bytes words.now) input.now)
        result.status result.text.items }
{
    let mut source = SliceSource {
        bytes: input,
        at: 0,
    };
    let mut sink = SureSink {
        taken: Vec::new(alloc),
    };
    let status = run_session(alloc, words, &mut source, &mut sink);
    Run {
        status,
        text: sink.taken,
    }
}

// Puts the text at the front of the buffer, or only gives its length where there is no room for it.
fn put(status: Status, text: &[u8], output: &mut [u8], written: &mut usize) -> u32
    ensures { reply result output.new written.new
        ≡ reply_to (transcript_of status text.now) output.old }
{
    *written = text.len();
    if output.len() < text.len() {
        return CallStatus::TooSmall.number();
    }
    output[..text.len()].copy_from_slice(text);
    number(status)
}

fn out_of_memory(written: &mut usize) -> u32
    ensures number { result ≡ memory_number }
    ensures count { written.new ≡ 0 }
{
    *written = 0;
    number(Status::Memory)
}

// Answers with what a run wrote, unless memory ran out.
fn answer(run: &Run, output: &mut [u8], written: &mut usize) -> u32
    ensures gave_up { run.now.status ≡ Status.Memory → result ≡ memory_number }
    ensures memory { result ≡ memory_number
        → reply result output.new written.new ≡ nothing_written output.old }
    ensures told { result ≢ memory_number → reply result output.new written.new
        ≡ reply_to (transcript_of run.now.status run.now.text.items) output.old }
{
    match run.status {
        Status::Memory => out_of_memory(written),
        status => put(status, &run.text, output, written),
    }
}

fn run_into(
    alloc: Global,
    words: &[String],
    input: &[u8],
    output: &mut [u8],
    written: &mut usize,
) -> u32
    ensures { Replies (transcript (map string_bytes words.now) input.now)
        output.old (reply result output.new written.new) }
{
    answer(&run_text(alloc, words, input), output, written)
}

fn run_words(alloc: Global) -> Result<Vec<String>, AllocError>
    ensures { IfOk result (λ words. map string_bytes words.items ≡ run_words) }
{
    let mut words = Vec::new(alloc);
    words.push("run".to_string(alloc)?)?;
    Ok(words)
}

// The lines of a text as words.
fn read_words(alloc: Global, text: &[u8]) -> Result<Vec<String>, AllocError>
    ensures { IfOk result (λ words. map string_bytes words.items ≡ words_in text.now) }
{
    let mut words = Vec::new(alloc);
    let mut rest = text;
    while !rest.is_empty() {
        let end = line_end(rest);
        words.push(String::from_utf8_lossy(alloc, &rest[..end])?)?;
        rest = after_line(rest, end);
    }
    Ok(words)
}

/// Runs a session without options over its text, as `hedit run` does over standard input.
///
/// The status is the exit status of the program, or `TooSmall`, 9, if the transcript is longer than
/// the buffer. Then nothing is lost, and `written` is the length that is needed.
#[unsafe(no_mangle)]
#[tactic(auto, using(edit_session::proofs::Grammars::rests))]
pub extern "C" fn hedit_session(
    alloc: Global,
    input: &[u8],
    output: &mut [u8],
    written: &mut usize,
) -> u32
    // The whole transcript stands at the front of the buffer, or its length is told; or memory ran
    // out, and nothing is written.
    ensures replied { Replies (transcript run_words input.now)
        output.old (reply result output.new written.new) }

    // What the transcript rests on is what the grammars say of page blocks, pages and acts.
    ensures grammars { RestsOnGrammars }
{
    match run_words(alloc) {
        Ok(words) => run_into(alloc, &words, input, output, written),
        Err(_) => out_of_memory(written),
    }
}

/// Runs the program over arguments, each a line of a text, and over the bytes of its input, as
/// `hedit` does with its command line and standard input.
///
/// The status is like that of `hedit_session`.
#[unsafe(no_mangle)]
#[tactic(auto, using(edit_session::proofs::Grammars::rests))]
pub extern "C" fn hedit_session_with_words(
    alloc: Global,
    words: &[u8],
    input: &[u8],
    output: &mut [u8],
    written: &mut usize,
) -> u32
    // The whole transcript stands at the front of the buffer, or its length is told; or memory ran
    // out, and nothing is written.
    ensures replied { Replies (transcript (words_in words.now) input.now)
        output.old (reply result output.new written.new) }

    // What the transcript rests on is what the grammars say of words, page blocks, pages, acts and
    // step lines.
    ensures grammars { RestsOnGrammars }
{
    match read_words(alloc, words) {
        Ok(words) => run_into(alloc, &words, input, output, written),
        Err(_) => out_of_memory(written),
    }
}
