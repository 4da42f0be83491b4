//! The characters of a node after a splice.

ghost use Rattle.std.specs.Prelude.{◌≡◌, ◌+◌, ◌≤◌, length, IfOk};
ghost use Rattle.document_edits.specs.DomModel.Room.{spliced};

use document_edits::dom::{Chars, room};
use edit_steps::Splice;
use std::alloc::{AllocError, Global};

/// The whole characters after a splice of these.
pub fn spliced_words(alloc: Global, words: &[char], splice: &Splice) -> Result<Chars, AllocError>
    requires { splice.now.at + length splice.now.taken ≤ length words.now }
    ensures { IfOk result (λ whole. whole
        ≡ spliced words.now splice.now.at (length splice.now.taken) splice.now.put) }
{
    let at = splice.at() as usize;
    let behind = &words[at + splice.taken_len()..];
    let put = splice.put();
    let mut whole = Vec::with_capacity(alloc, room(at + put.len() + behind.len()))?;
    whole.extend_from_slice(&words[..at])?;
    whole.extend_from_slice(put)?;
    whole.extend_from_slice(behind)?;
    Chars::from_vec(whole)
}
