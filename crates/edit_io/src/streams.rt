// What a source and a sink are.
ghost use Rattle.std.specs.Prelude.{◌≡◌, ℕ, ◌<◌, ◌≤◌, List, Option, length, take, IfOk, IfErr, OnErr};
ghost use Rattle.std.specs.Io.KnownBytes.{Appends, Consumes, IsAtEnd, Keeps};
ghost use Rattle.edit_io.specs.Faults.{Rose};
ghost use Rattle.edit_io.specs.Handed.{handed_more};
ghost use Rattle.edit_io.specs.declared.streams.SinkFault.TheVariants.{Memory};

use std::alloc::AllocError;
use thiserror::Error;

/// A read that failed. Nothing was taken from the source.
#[derive(Clone, Copy, Debug, PartialEq, Eq, Error)]
#[error("the read failed")]
pub struct Failed;

/// Why a sink took nothing.
#[derive(Clone, Copy, Debug, PartialEq, Eq, Error)]
pub enum SinkFault {
    /// The sink refused the bytes.
    #[error("the write failed")]
    Failed,
    /// There was no memory to keep the bytes in.
    #[error("out of memory")]
    Memory,
}

impl From<AllocError> for SinkFault {
    ghost from_gives = { λ _ fault. fault ≡ Memory };

    fn from(_refused: AllocError) -> SinkFault {
        SinkFault::Memory
    }
}

/// Gives bytes, a piece at a time, up to an end.
pub trait Source {
    // the bytes that are still to come, where the source tells them
    ghost left: { Self → Option (List ℕ) };

    // how many reads failed so far, up to the last value of a u64
    ghost faults: { Self → ℕ };

    // how many bytes were handed out so far, up to the last value of a u64
    ghost handed: { Self → ℕ };

    /// Reads into the front of the buffer, and answers the number of bytes. 0 is the end.
    fn read(&mut self, buf: &mut [u8]) -> Result<usize, Failed>
        requires { 0 < length buf.old }
        ensures bound { IfOk result (λ n. n ≤ length buf.new) }
        ensures bytes { IfOk result (λ n. Consumes (left self.old) (left self.new)
            (take n buf.new)) }
        ensures end { IfOk result (λ n. n ≡ 0 → IsAtEnd (left self.new)) }
        ensures kept { OnErr result (Keeps (left self.old) (left self.new)) }
        ensures counted { faults self.old ≤ faults self.new }
        ensures failed { OnErr result (Rose (faults self.old) (faults self.new)) }
        ensures amount { IfOk result (λ n. handed self.new ≡ handed_more (handed self.old) n) }
        ensures same_amount { OnErr result (handed self.new ≡ handed self.old) };
}

/// Takes bytes, a piece at a time.
pub trait Sink {
    // the bytes that the sink took so far, where it tells them
    ghost taken: { Self → Option (List ℕ) };

    // how many writes failed so far, up to the last value of a u64
    ghost faults: { Self → ℕ };

    /// Takes bytes from the front of the piece, at least one, and answers their number.
    fn write(&mut self, piece: &[u8]) -> Result<usize, SinkFault>
        requires { 0 < length piece.now }
        ensures some { IfOk result (λ n. 0 < n) }
        ensures bound { IfOk result (λ n. n ≤ length piece.now) }
        ensures bytes { IfOk result (λ n. Appends (taken self.old) (taken self.new)
            (take n piece.now)) }
        ensures kept { OnErr result (Keeps (taken self.old) (taken self.new)) }
        ensures counted { faults self.old ≤ faults self.new }
        ensures failed { IfErr result (λ e. e ≡ SinkFault.Failed
            → Rose (faults self.old) (faults self.new)) }
        ensures memory { IfErr result (λ e. e ≡ SinkFault.Memory → faults self.new
            ≡ faults self.old) };
}
