// The source over a real reader and the sink over a real writer. They keep no record of the bytes,
// and tell what the reader and the writer tell.
ghost use Rattle.std.specs.Prelude.{◌≡◌, ℕ, ◌<◌, ◌≤◌, length, IfOk, IfErr, OnOk, OnErr};
ghost use Rattle.std.specs.Io.KnownBytes.{IsAtEnd, ReadConsumes, WriteAppends};
ghost use Rattle.edit_io.specs.Faults.{Rose, next_call};
ghost use Rattle.edit_io.specs.Handed.{handed_more};
ghost use Rattle.edit_io.specs.Real.{reader_of, read_faults, read_handed, writer_of, write_faults};

use crate::streams::{Failed, Sink, SinkFault, Source};
use std::io::{Read, Write};

/// A source over a reader, which tells what the reader tells. Each error of the reader is a fault.
#[derive(Drop)]
pub struct ReadSource<R> {
    reader: R,
    faults: u64,
    handed: u64,
}

impl<R: Read> ReadSource<R> {
    /// A source that has met no fault and handed out no byte.
    pub fn new(reader: R) -> ReadSource<R>
        ensures reader { reader_of result ≡ reader }
        ensures faults { read_faults result ≡ 0 }
        ensures handed { read_handed result ≡ 0 }
    {
        ReadSource {
            reader,
            faults: 0,
            handed: 0,
        }
    }
}

impl<R: Read> Source for ReadSource<R> {
    ghost left = { λ s. R.remaining (reader_of s) };

    ghost faults = { read_faults };

    ghost handed = { read_handed };

    fn read(&mut self, buf: &mut [u8]) -> Result<usize, Failed>
        requires { 0 < length buf.old }
        ensures bound { IfOk result (λ n. n ≤ length buf.new) }
        ensures passed { ReadConsumes (R.remaining (reader_of self.old))
            (R.remaining (reader_of self.new)) result buf.new }
        ensures end { IfOk result (λ n. n ≡ 0 → IsAtEnd (R.remaining (reader_of self.new))) }
        ensures same { OnOk result (read_faults self.new ≡ read_faults self.old) }
        ensures raised { OnErr result (read_faults self.new ≡ next_call (read_faults self.old)) }
        ensures failed { OnErr result (Rose (read_faults self.old) (read_faults self.new)) }
        ensures amount { IfOk result (λ n. read_handed self.new
            ≡ handed_more (read_handed self.old) n) }
        ensures same_amount { OnErr result (read_handed self.new ≡ read_handed self.old) }
    {
        match self.reader.read(buf) {
            Ok(count) => {
                self.handed = self.handed.saturating_add(count as u64);
                Ok(count)
            }
            Err(_) => {
                self.faults = self.faults.saturating_add(1);
                Err(Failed)
            }
        }
    }
}

/// A sink over a writer, which tells what the writer tells. Each error of the writer is a fault, and
/// so is a write that takes no byte.
#[derive(Drop)]
pub struct WriteSink<W> {
    writer: W,
    faults: u64,
}

impl<W: Write> WriteSink<W> {
    /// A sink that has met no fault.
    pub fn new(writer: W) -> WriteSink<W>
        ensures writer { writer_of result ≡ writer }
        ensures faults { write_faults result ≡ 0 }
    {
        WriteSink { writer, faults: 0 }
    }
}

impl<W: Write> Sink for WriteSink<W> {
    ghost taken = { λ s. W.contents (writer_of s) };

    ghost faults = { write_faults };

    fn write(&mut self, piece: &[u8]) -> Result<usize, SinkFault>
        requires { 0 < length piece.now }
        ensures some { IfOk result (λ n. 0 < n) }
        ensures bound { IfOk result (λ n. n ≤ length piece.now) }
        ensures passed { WriteAppends (W.contents (writer_of self.old))
            (W.contents (writer_of self.new)) result piece.now }
        ensures same { OnOk result (write_faults self.new ≡ write_faults self.old) }
        ensures raised { OnErr result (write_faults self.new ≡ next_call (write_faults self.old)) }
        ensures failed { OnErr result (Rose (write_faults self.old) (write_faults self.new)) }
        ensures no_memory { IfErr result (λ e. e ≡ SinkFault.Failed) }
    {
        match self.writer.write(piece) {
            Ok(count) if count > 0 => Ok(count),
            _ => {
                self.faults = self.faults.saturating_add(1);
                Err(SinkFault::Failed)
            }
        }
    }
}
