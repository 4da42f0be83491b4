//! Opening a page.

ghost use Rattle.std.specs.Prelude.{◌≡◌, ◌<◌, IfOk, IfSome, MatchResult, Err, List, ℕ};
ghost use Rattle.inline_value.specs.EditDoc.Whole.{HasNoLoose};
ghost use Rattle.edit_engine.specs.Editing.{new_editing};
ghost use Rattle.page_read.specs.Answer.{IsAnswer};
ghost use Rattle.hedit_c.specs.Calls.{IsOpened, NotOpened};
ghost use Rattle.hedit_c.specs.Following.{BeginsFollowing};

use super::status::Status;
use edit_engine::Editor;
use edit_model::arena::Arena;
use page_read::{PageFault, PageKind, read_page};
use std::alloc::Global;

/// The position and the kind of the error in a refused page.
#[repr(C)]
#[derive(Drop)]
pub struct Refusal {
    pub at: usize,
    pub kind: u32,
}

// The status of a page that is refused, or for which there is no memory.
fn refuse(fault: PageFault, refusal: &mut Refusal) -> Status
    ensures memory { result ≡ Status.Memory → fault.kind ≡ PageKind.Memory }
    ensures told { (page : List ℕ) (limit depth : ℕ) → 0 < limit → 0 < depth
        → IsAnswer limit page (Err fault)
        → NotOpened result refusal.new page limit depth }
{
    match fault.kind {
        PageKind::Memory => Status::Memory,
        kind => {
            *refusal = Refusal {
                at: fault.at,
                kind: kind as u32,
            };
            Status::PageRefused
        }
    }
}

// None where there is no memory.
fn editor_of(alloc: Global, arena: Arena, undo_depth: usize) -> Option<Box<Editor>>
    requires depth { 0 < undo_depth }
    requires loose { HasNoLoose arena }
    ensures opened { IfSome result (λ editor. editor.value.editing ≡ new_editing arena undo_depth) }
    ensures begins { IfSome result (λ editor. BeginsFollowing editor.value) }
{
    let editor = Editor::new(alloc, arena, undo_depth).ok()?;
    Box::new(alloc, editor).ok()
}

/// The editor of a page, or why there is none.
pub(crate) fn open(
    alloc: Global,
    page: &[u8],
    label_cap: u32,
    undo_depth: usize,
    refusal: &mut Refusal,
) -> Result<Box<Editor>, Status>
    ensures begins { IfOk result (λ editor. BeginsFollowing editor.value) }
    ensures opened { MatchResult result
        (λ editor. IsOpened editor.value.editing page.now label_cap undo_depth)
        (λ status. NotOpened status refusal.new page.now label_cap undo_depth) }
{
    if label_cap == 0 || undo_depth == 0 {
        return Err(Status::BadArgument);
    }
    match read_page(alloc, page, label_cap) {
        Ok(arena) => editor_of(alloc, arena, undo_depth).ok_or(Status::Memory),
        Err(fault) => Err(refuse(fault, refusal)),
    }
}
