//! The characters of a node that give way to others.

ghost use Rattle.std.specs.Prelude.{◌≡◌, ◌^◌, ◌<◌, ◌≤◌, IfOk, length, drop};
ghost use Rattle.document_edits.specs.Replaced as spec;

use crate::DocumentEdit;
use forest_changes::dom::Chars;
use std::alloc::{AllocError, Global};

// How many characters are the same at the starts of two texts.
fn shared_start(old: &[char], new: &[char]) -> usize
    ensures shared { result ≡ spec.shared_start old.now new.now }
    ensures in_old { result ≤ length old.now }
    ensures in_new { result ≤ length new.now }
{
    let mut at = 0;
    while at < old.len() && at < new.len() && old[at] == new[at] {
        at += 1;
    }
    at
}

// How many characters are the same at their ends.
fn shared_end(old: &[char], new: &[char]) -> usize
    ensures shared { result ≡ spec.shared_end old.now new.now }
    ensures in_old { result ≤ length old.now }
    ensures in_new { result ≤ length new.now }
{
    let mut same = 0;
    while same < old.len()
        && same < new.len()
        && old[old.len() - 1 - same] == new[new.len() - 1 - same]
    {
        same += 1;
    }
    same
}

/// The edit that gives a node other characters, unless they are the same: the characters between
/// what is the same at the start and, of the rest, at the end give way.
pub fn replaced(
    alloc: Global,
    node: u32,
    old: &[char],
    new: &[char],
) -> Result<Option<DocumentEdit>, AllocError>
    requires { length old.now < 2 ^ 32 }
    ensures { IfOk result (λ edit. edit ≡ spec.replaced node old.now new.now) }
{
    let at = shared_start(old, new);
    if at == old.len() && at == new.len() {
        return Ok(None);
    }
    let gone = &old[at..];
    let come = &new[at..];
    let same = shared_end(gone, come);
    let put = Chars::from_slice(alloc, &come[..come.len() - same])?;
    Ok(Some(DocumentEdit::Replace {
        node,
        at: at as u32,
        taken: (gone.len() - same) as u32,
        put,
    }))
}
