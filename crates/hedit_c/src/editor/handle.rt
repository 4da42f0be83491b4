//! The handle by which C holds an editor.

ghost use Rattle.std.specs.Prelude.{◌≡◌, MatchOption, Option, None, Some};
ghost use Rattle.std.specs.Coded.{coded_option};
ghost use Rattle.std.specs.contracts.impls.GlobalAllocator.TheImpl.{ghosts};
ghost use Rattle.edit_engine.specs.Editing.{EditorValue, value_code};
ghost use Rattle.edit_engine.specs.contracts.editor.Editor.{the_row};
ghost use Rattle.hedit_c.specs.Held.{held};

use super::raw_box::RawBox;
use edit_engine::Editor;
use std::alloc::Global;
use std::marker::Model;
use std::mem::replace;
use std::ptr::null_mut;

/// A handle: a pointer to an editor on the heap, or null if it is closed. C sees one pointer, since
/// the allocator takes no bytes.
#[repr(C)]
pub struct Handle {
    // C may not see the type of an editor.
    state: *mut u8,
    alloc: Global,
    pub ghost value: { Option EditorValue } by { coded_option value_code },
}

impl Model for Handle {
    ghost also_owns = { λ h. held (ghosts.dealloc_token h.alloc) the_row h.state h.value };
}

impl Handle {
    /// A handle without an editor.
    pub(crate) fn closed(alloc: Global) -> Handle
        ensures { result.value ≡ None }
    {
        Handle {
            state: null_mut(),
            alloc,
        }
    }

    fn of_raw(raw: RawBox<Editor, Global>) -> Handle
        ensures { result.value ≡ Some raw.value }
    {
        let RawBox { at, alloc } = raw;
        Handle {
            state: at as *mut u8,
            alloc,
        }
    }

    fn into_raw(self) -> Option<RawBox<Editor, Global>>
        ensures { MatchOption result (self.value ≡ None)
            (λ raw. self.value ≡ Some raw.value) }
    {
        let Handle { state, alloc } = self;
        if state.is_null() {
            None
        } else {
            Some(RawBox {
                at: state as *mut Editor,
                alloc,
            })
        }
    }

    // The handle of an editor.
    fn of(editor: Box<Editor>) -> Handle
        ensures { result.value ≡ Some editor.value }
    {
        Handle::of_raw(RawBox::of(editor))
    }

    // The handle's editor.
    fn into_editor(self) -> Option<Box<Editor>>
        ensures { MatchOption result (self.value ≡ None)
            (λ editor. self.value ≡ Some editor.value) }
    {
        match self.into_raw() {
            Some(raw) => Some(raw.into_box()),
            None => None,
        }
    }

    /// Takes the editor out. The handle is closed then.
    pub(crate) fn take(&mut self, alloc: Global) -> Option<Box<Editor>>
        ensures taken { MatchOption result (self.old.value ≡ None)
            (λ editor. self.old.value ≡ Some editor.value) }
        ensures closed { self.new.value ≡ None }
    {
        replace(self, Handle::closed(alloc)).into_editor()
    }

    /// Puts an editor in, in the place of what it holds.
    pub(crate) fn put(&mut self, editor: Box<Editor>)
        ensures { self.new.value ≡ Some editor.value }
    {
        *self = Handle::of(editor);
    }
}

impl Drop for Handle {
    fn drop(self) {
        drop(self.into_editor());
    }
}
