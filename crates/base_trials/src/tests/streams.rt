//! Each form of a source and of a sink in a run of several calls, with what it must answer.
use edit_io::{
    Failed, MemorySink, MemorySource, ReadAllFault, ReadSource, Sink, SinkFault, SliceSource,
    Source, SureSink, WriteSink, read_all, write_all,
};
use std::alloc::{AllocError, Global};
use std::io;
use std::io::Read;
use std::test::Fail;

const TEXT: &[u8] = b"What is read in pieces of seven is written in pieces of five.";

// The text in a source that hands out seven bytes a call, and fails in one call.
fn in_sevens(alloc: Global, failing: u64) -> Result<MemorySource, AllocError> {
    Ok(MemorySource {
        bytes: TEXT.to_vec(alloc)?,
        at: 0,
        piece: 7,
        failing: [failing].to_vec(alloc)?,
        calls: 0,
    })
}

// An empty sink that takes five bytes a call, and fails in one call.
fn in_fives(alloc: Global, failing: u64) -> Result<MemorySink, AllocError> {
    Ok(MemorySink {
        taken: Vec::new(alloc),
        piece: 5,
        failing: [failing].to_vec(alloc)?,
        calls: 0,
    })
}

// The call that fails, how many bytes are taken at the most, how many are read or why not, how many
// calls were made then, and how many bytes were handed out. 61 bytes come in nine calls, and the
// tenth call finds the end.
static READS: [(u64, usize, Result<usize, ReadAllFault>, u64, usize); 5] = [
    (10, 61, Ok(61), 10, 61),
    (10, 60, Err(ReadAllFault::TooLong), 9, 61),
    (9, 61, Err(ReadAllFault::Failed), 10, 61),
    (2, 61, Err(ReadAllFault::Failed), 3, 14),
    (10, 20, Err(ReadAllFault::TooLong), 3, 21),
];

// The text is read whole, or how many of its bytes are read, or why they are not.
fn read_length<S: Source>(
    alloc: Global,
    input: &mut S,
    limit: usize,
) -> Result<usize, ReadAllFault> {
    match read_all(alloc, input, limit) {
        Ok(bytes) => Ok(bytes.len()),
        Err(fault) => Err(fault),
    }
}

fn reads_text<S: Source>(alloc: Global, input: &mut S) -> bool {
    match read_all(alloc, input, 100) {
        Ok(bytes) => bytes.as_slice() == TEXT,
        Err(_) => false,
    }
}

fn read_in_sevens(
    alloc: Global,
    failing: u64,
    limit: usize,
) -> Result<(Result<usize, ReadAllFault>, u64, usize), AllocError> {
    let mut input = in_sevens(alloc, failing)?;
    let read = read_length(alloc, &mut input, limit);
    Ok((read, input.calls, input.at))
}

fn reads_text_in_sevens(alloc: Global) -> Result<bool, AllocError> {
    let mut input = in_sevens(alloc, 10)?;
    Ok(reads_text(alloc, &mut input))
}

#[test]
fn reads_in_pieces(rt: HostRuntime) -> Result<(), Fail> {
    for (failing, limit, wanted, calls, at) in &READS {
        let found = read_in_sevens(rt.alloc(), *failing, *limit)?;
        let right = found.0 == *wanted && found.1 == *calls && found.2 == *at;
        assert!(rt; right, "failing at {failing}");
    }
    assert!(rt; reads_text_in_sevens(rt.alloc())?);
    Ok(())
}

// The call that fails, whether all is written or why not, how many calls were made then, and how
// many bytes were taken. 61 bytes go in thirteen calls.
static WRITES: [(u64, Result<(), SinkFault>, u64, usize); 3] = [
    (13, Ok(()), 13, 61),
    (12, Err(SinkFault::Failed), 13, 60),
    (0, Err(SinkFault::Failed), 1, 0),
];

fn writes_in_fives(
    alloc: Global,
    failing: u64,
    wanted: Result<(), SinkFault>,
    calls: u64,
    taken: usize,
) -> Result<bool, AllocError> {
    let mut output = in_fives(alloc, failing)?;
    let written = write_all(&mut output, TEXT);
    let right = written == wanted && output.calls == calls;
    Ok(right && output.taken.len() == taken && TEXT.starts_with(&output.taken))
}

#[test]
fn writes_in_pieces(rt: HostRuntime) -> Result<(), Fail> {
    for (failing, wanted, calls, taken) in &WRITES {
        let right = writes_in_fives(rt.alloc(), *failing, *wanted, *calls, *taken)?;
        assert!(rt; right, "failing at {failing}");
    }
    Ok(())
}

fn writes_surely(alloc: Global, bytes: &[u8]) -> bool {
    let mut output = SureSink {
        taken: Vec::new(alloc),
    };
    let written = write_all(&mut output, bytes).is_ok() && write_all(&mut output, b"").is_ok();
    written && output.taken.as_slice() == TEXT
}

// What a slice hands out is written again.
fn copies(alloc: Global) -> bool {
    let mut input = SliceSource { bytes: TEXT, at: 0 };
    match read_all(alloc, &mut input, 61) {
        Ok(bytes) => writes_surely(alloc, &bytes),
        Err(_) => false,
    }
}

// A reader that is no longer there.
#[derive(Drop)]
struct Gone;

impl Read for Gone {
    fn read(&mut self, _buf: &mut [u8]) -> io::Result<usize> {
        Err(io::Error::from(io::ErrorKind::NotConnected))
    }
}

fn reads_to_the_end(alloc: Global) -> bool {
    let mut input = ReadSource::new(TEXT);
    let mut buf = [0; 4];
    reads_text(alloc, &mut input) && input.read(&mut buf) == Ok(0)
}

fn fails_to_read(alloc: Global) -> bool {
    let mut gone = ReadSource::new(Gone);
    let mut buf = [0; 4];
    gone.read(&mut buf) == Err(Failed)
        && read_length(alloc, &mut gone, 61) == Err(ReadAllFault::Failed)
}

fn fills_a_writer() -> bool {
    let mut store = [0; 8];
    let mut output = WriteSink::new(&mut store[..]);
    output.write(b"eight by") == Ok(8) && output.write(b"te") == Err(SinkFault::Failed)
}

#[test]
fn other_forms(rt: HostRuntime) {
    assert!(rt; copies(rt.alloc()));
    assert!(rt; reads_to_the_end(rt.alloc()));
    assert!(rt; fails_to_read(rt.alloc()));
    assert!(rt; fills_a_writer());
}
