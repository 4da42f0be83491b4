//! What C is told of what changed, and of which labels are kept.

ghost use Rattle.std.specs.Prelude.{◌≡◌, IfOk};
ghost use Rattle.packed_edits.specs.Packed.{packed};
ghost use Rattle.edit_engine.specs.Changes.{changes_of};
ghost use Rattle.hedit_c.specs.Following.{ChangesTell, KeptTells, RevisionTells};

use super::status::Status;
use super::texts::put;
use edit_engine::Editor;
use packed_edits::pack;
use std::alloc::{AllocError, Global};

fn packed_changes(alloc: Global, editor: &mut Editor) -> Result<Vec<u8>, AllocError>
    ensures packed { IfOk result (λ bytes. bytes.items ≡ packed (changes_of editor.old)) }
    ensures stays { editor.new ≡ editor.old }
{
    let edits = editor.changes(alloc)?;
    pack(alloc, &edits)
}

/// Puts what the last call that changed something changed into a buffer.
pub(crate) fn changes(
    alloc: Global,
    editor: &mut Editor,
    buffer: &mut [u8],
    length: &mut usize,
) -> Status
    ensures told { ChangesTell result editor.old buffer.old buffer.new length.new }
    ensures stays { editor.new ≡ editor.old }
{
    match packed_changes(alloc, editor) {
        Ok(bytes) => put(&bytes, buffer, length),
        Err(_) => Status::Memory,
    }
}

/// How many calls changed something.
pub(crate) fn revision(editor: &Editor, revision: &mut u64) -> Status
    ensures { RevisionTells result editor.now revision.new }
{
    *revision = editor.revision();
    Status::Done
}

/// Whether the node of a label is in the document, or is kept for undo and redo.
pub(crate) fn is_kept(editor: &Editor, label: u32) -> Status
    ensures { KeptTells result editor.now label }
{
    if editor.is_kept(label) {
        Status::Done
    } else {
        Status::No
    }
}
