//! Texts, places and buffers that cross to C and back.

ghost use Rattle.std.specs.Prelude.{◌≡◌, IfOk, encode_utf8_all};
ghost use Rattle.hedit_c.specs.Calls.{Puts, PutsUnlessMemory, place};

use super::status::Status;
use escaped_text::push_chars;
use script_read::{Path, Place};
use std::alloc::{AllocError, Global};
use std::marker::Copy;

/// The place of an offset in the node at a path.
pub(crate) fn place_of(alloc: Global, path: &[u32], offset: u32) -> Result<Place, AllocError>
    ensures { IfOk result (λ found. found ≡ place path.now offset) }
{
    let path = Path::from_slice(alloc, path)?;
    Ok(Place { path, offset })
}

/// Puts items at the front of a buffer, as the bytes of a text, or only gives their count where
/// there is no room for them.
pub(crate) fn put<T: Copy>(items: &[T], buffer: &mut [T], length: &mut usize) -> Status
    ensures { Puts result items.now buffer.old buffer.new length.new }
{
    *length = items.len();
    if buffer.len() < items.len() {
        return Status::TooSmall;
    }
    buffer[..items.len()].copy_from_slice(items);
    Status::Done
}

/// Puts characters in UTF-8 at the front of a buffer, or only gives their length.
pub(crate) fn put_chars(
    alloc: Global,
    chars: &[char],
    buffer: &mut [u8],
    length: &mut usize,
) -> Status
    ensures { PutsUnlessMemory result (encode_utf8_all chars.now) buffer.old buffer.new length.new }
{
    let mut text = Vec::new(alloc);
    match push_chars(&mut text, chars) {
        Ok(()) => put(&text, buffer, length),
        Err(_) => Status::Memory,
    }
}
