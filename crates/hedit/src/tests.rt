//! What no stored session shows: reads and writes that fail, and what faults print.
//!
//! What a function owns it lets go on as few ways as can be: the proof of that is made again on each.
mod faults;

use edit_io::{MemorySink, MemorySource};
use edit_session::{Status, run_session};
use std::alloc::{AllocError, Global};
use std::test::Fail;

// The words of a command line.
fn words_of(alloc: Global, line: &str) -> Result<Vec<String>, AllocError> {
    let mut words = Vec::new(alloc);
    for word in line.split_whitespace() {
        words.push(word.to_string(alloc)?)?;
    }
    Ok(words)
}

// A mark and a caret in a link that goes, comes back with undo, and goes again.
const EDITING: &str =
    "page <<E\n<div contenteditable=\"true\"><p><a href=\"u\">x</a></p></div>\nE\nmark m 0/0/0/0:0 0/0/0/0:1\nselect 0/0/0/0:1 0/0/0/0:1\nexec unlink\npoints\nunmark m\nundo 1\npoints\nredo 1\npoints\n";

const EDITED: &str =
    "ok\nok\ntrue\nanchor 0/0/0:1\nfocus 0/0/0:1\nmark m 0/0/0:0 0/0/0:1\ntrue\nundo 1\nanchor 0/0/0/0:1\nfocus 0/0/0/0:1\nmark m 0/0/0/0:0 0/0/0/0:1\nredo 1\nanchor 0/0/0:1\nfocus 0/0/0:1\nmark m 0/0/0:0 0/0/0:1\n";

// The stored session: bold in the middle of a text, and all that is printed of it.
const BOLD: &str =
    "page <<END\n<div contenteditable=\"true\"><p>foobar</p></div>\nEND\nselect 0/0/0:1 0/0/0:4\nexec bold\nhtml\ntree\npoints\nstat\n";

const MADE_BOLD: &str =
    "ok\ntrue\n<div contenteditable=\"true\"><p>f<b>oob</b>ar</p></div>\n<div contenteditable=\"true\">\n  <p>\n    \"f\"\n    <b>\n      \"oob\"\n    \"ar\"\nanchor 0/0/1/0:0\nfocus 0/0/1/0:3\nnodes 7 chars 6 next 7 edits 6 undo 1 redo 0\n";

// A session in a source of pieces of seven bytes that fails at one call.
fn source_of(alloc: Global, session: &str, failing: u64) -> Result<MemorySource, AllocError> {
    Ok(MemorySource {
        bytes: session.as_bytes().to_vec(alloc)?,
        at: 0,
        piece: 7,
        failing: [failing].to_vec(alloc)?,
        calls: 0,
    })
}

// A sink of pieces of five bytes that fails at one call.
fn sink_of(alloc: Global, failing: u64) -> Result<MemorySink, AllocError> {
    Ok(MemorySink {
        taken: Vec::new(alloc),
        piece: 5,
        failing: [failing].to_vec(alloc)?,
        calls: 0,
    })
}

fn run_into(
    alloc: Global,
    source: &mut MemorySource,
    sink: &mut MemorySink,
) -> Result<Status, AllocError> {
    let words = words_of(alloc, "run")?;
    Ok(run_session(alloc, &words, source, sink))
}

fn answer_failing(
    alloc: Global,
    session: &str,
    read: u64,
    write: u64,
) -> Result<(Status, MemorySource, MemorySink), AllocError> {
    let mut source = source_of(alloc, session, read)?;
    let mut sink = sink_of(alloc, write)?;
    let status = run_into(alloc, &mut source, &mut sink)?;
    Ok((status, source, sink))
}

// How many reads and writes a session takes whose answer this is.
fn calls_of(alloc: Global, session: &str, answer: &str) -> Result<Option<(u64, u64)>, AllocError> {
    let (status, source, sink) = answer_failing(alloc, session, 1000, 1000)?;
    let is_right = status == Status::Done && sink.taken.as_slice() == answer.as_bytes();
    let calls = (source.calls, sink.calls);
    Ok(if is_right { Some(calls) } else { None })
}

fn fails_reading(alloc: Global, session: &str, call: u64) -> Result<bool, AllocError> {
    let (status, _, sink) = answer_failing(alloc, session, call, 1000)?;
    Ok(status == Status::ReadFault && sink.taken.is_empty())
}

fn fails_writing(
    alloc: Global,
    session: &str,
    answer: &str,
    call: u64,
) -> Result<bool, AllocError> {
    let (status, _, sink) = answer_failing(alloc, session, 1000, call)?;
    Ok(status == Status::WriteFault && answer.as_bytes().starts_with(&sink.taken))
}

#[test]
fn answers_at_each_failing_call(rt: HostRuntime) -> Result<(), Fail> {
    for (session, answer) in [(EDITING, EDITED), (BOLD, MADE_BOLD)] {
        let (reads, writes) = calls_of(rt.alloc(), session, answer)?.ok_or("another answer")?;
        for k in 0..reads {
            let fails = fails_reading(rt.alloc(), session, k)?;
            assert!(rt; fails, "reading {k}");
        }
        for k in 0..writes {
            let fails = fails_writing(rt.alloc(), session, answer, k)?;
            assert!(rt; fails, "writing {k}");
        }
    }
    Ok(())
}
