// Reading all that is left, and writing all of a piece.
ghost use Rattle.std.specs.Prelude.{◌≡◌, ℕ, ◌+◌, ◌<◌, ◌≤◌, length, take, vec_len, IfOk, IfErr, OnOk, OnErr, IfSome, IsOk, IsErr};
ghost use Rattle.std.specs.Io.KnownBytes.{Appends, Consumes, IsAtEnd};
ghost use Rattle.edit_io.specs.Faults.{Rose};
ghost use Rattle.edit_io.specs.Handed.{handed_more};
ghost use Rattle.edit_io.specs.declared.whole.ReadAllFault.TheVariants.{Failed, Memory};
ghost use Rattle.edit_io.specs.Told.{TakesPrefix, GivesAtMost, GivesMore};

use crate::streams::{Failed, Sink, SinkFault, Source};
use std::alloc::{AllocError, Global};
use thiserror::Error;

/// Why not all that is left was read.
#[derive(Clone, Copy, Debug, PartialEq, Eq, Error)]
pub enum ReadAllFault {
    /// A read failed.
    #[error("a read failed")]
    Failed = 1,
    /// More bytes than the limit are there.
    #[error("the input is too long")]
    TooLong = 2,
    /// There was no memory to keep the bytes in.
    #[error("out of memory")]
    Memory = 3,
}

impl From<Failed> for ReadAllFault {
    ghost from_gives = { λ _ fault. fault ≡ Failed };

    fn from(_failed: Failed) -> ReadAllFault {
        ReadAllFault::Failed
    }
}

impl From<AllocError> for ReadAllFault {
    ghost from_gives = { λ _ fault. fault ≡ Memory };

    fn from(_refused: AllocError) -> ReadAllFault {
        ReadAllFault::Memory
    }
}

// How many bytes one read may bring.
const BUFFER_LEN: usize = 16384;

/// Reads all that is left, at most `limit` bytes. Whatever the answer, at most one byte more than
/// the limit was taken.
pub fn read_all<I: Source>(
    alloc: Global,
    input: &mut I,
    limit: usize,
) -> Result<Vec<u8>, ReadAllFault>
    ensures bytes { IfOk result (λ bytes. Consumes (I.left input.old) (I.left input.new)
        bytes.items) }
    ensures end { OnOk result (IsAtEnd (I.left input.new)) }
    ensures short { IfOk result (λ bytes. vec_len bytes ≤ limit) }
    ensures failed { IfErr result (λ e. e ≡ ReadAllFault.Failed
        → Rose (I.faults input.old) (I.faults input.new)) }
    ensures too_long { IfErr result (λ e. e ≡ ReadAllFault.TooLong →
        IfSome (I.left input.old) (λ bytes. limit < length bytes)) }
    ensures long { IfSome (I.left input.old) (λ bytes. limit < length bytes → IsErr result) }
    ensures given { GivesAtMost (I.left input.old) (I.left input.new) (limit + 1) }
    ensures counted { I.faults input.old ≤ I.faults input.new }

    // The same where the source doesn't show its bytes.
    ensures amount { IfOk result (λ bytes. I.handed input.new
        ≡ handed_more (I.handed input.old) (vec_len bytes)) }
    ensures at_most { I.handed input.new ≤ I.handed input.old + (limit + 1) }
    ensures beyond { IfErr result (λ e. e ≡ ReadAllFault.TooLong → I.handed input.new
        ≡ handed_more (I.handed input.old) (limit + 1)) }
{
    let mut store = make_buffer(alloc)?;
    let buffer = store.as_mut_slice();
    let mut bytes = Vec::new(alloc);
    loop {
        let room = limit - bytes.len();
        let count = read_piece(input, buffer, room)?;
        if count == 0 {
            return Ok(bytes);
        }
        bytes.extend_from_slice(&buffer[..count])?;
    }
}

// A buffer that one read can fill.
fn make_buffer(alloc: Global) -> Result<Vec<u8>, AllocError>
    ensures { IfOk result (λ buffer. 0 < vec_len buffer) }
{
    vec![in alloc; 0u8; BUFFER_LEN]
}

// Reads once into the front of the buffer, and takes at most one byte more than there is room for.
fn read_piece<I: Source>(
    input: &mut I,
    buffer: &mut [u8],
    room: usize,
) -> Result<usize, ReadAllFault>
    requires { 0 < length buffer.old }
    ensures bound { IfOk result (λ n. n ≤ length buffer.new) }
    ensures room { IfOk result (λ n. n ≤ room) }
    ensures bytes { IfOk result (λ n. Consumes (I.left input.old) (I.left input.new)
        (take n buffer.new)) }
    ensures end { IfOk result (λ n. n ≡ 0 → IsAtEnd (I.left input.new)) }
    ensures failed { IfErr result (λ e. e ≡ ReadAllFault.Failed
        → Rose (I.faults input.old) (I.faults input.new)) }
    ensures given { OnErr result (GivesAtMost (I.left input.old) (I.left input.new) (room + 1)) }
    ensures too_long { IfErr result (λ e. e ≡ ReadAllFault.TooLong
        → GivesMore (I.left input.old) (I.left input.new) room) }
    ensures counted { I.faults input.old ≤ I.faults input.new }
    ensures amount { IfOk result (λ n. I.handed input.new ≡ handed_more (I.handed input.old) n) }
    ensures at_most { I.handed input.new ≤ I.handed input.old + (room + 1) }
    ensures beyond { IfErr result (λ e. e ≡ ReadAllFault.TooLong → I.handed input.new
        ≡ handed_more (I.handed input.old) (room + 1)) }
{
    let wanted = room.min(buffer.len() - 1) + 1;
    let count = input.read(&mut buffer[..wanted])?;
    if count > room {
        return Err(ReadAllFault::TooLong);
    }
    Ok(count)
}

/// Writes all of the piece. After a fault, some of its first bytes are written.
pub fn write_all<O: Sink>(output: &mut O, piece: &[u8]) -> Result<(), SinkFault>
    ensures all { OnOk result (Appends (O.taken output.old) (O.taken output.new) piece.now) }
    ensures prefix { TakesPrefix (O.taken output.old) (O.taken output.new) piece.now }
    ensures empty { length piece.now ≡ 0 → IsOk result }
    ensures failed { IfErr result (λ e. e ≡ SinkFault.Failed
        → Rose (O.faults output.old) (O.faults output.new)) }
    ensures counted { O.faults output.old ≤ O.faults output.new }
{
    let mut at = 0;
    while at < piece.len() {
        at += output.write(&piece[at..])?;
    }
    Ok(())
}
