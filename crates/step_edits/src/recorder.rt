//! One who looks on as steps are applied, and keeps the edits of the document.

ghost use Rattle.std.specs.Prelude.{◌≡◌, ◌++◌, [], true, IfOk};
ghost use Rattle.step_edits.specs.Recorded.{Recorded, Records};

use crate::telling::push_told;
use document_edits::DocumentEdit;
use edit_steps::Step;
use edit_steps::history::Watch;
use node_paths::arena::Arena;
use std::alloc::{AllocError, Global};
use std::marker::Model;

/// The edits of the document that steps make, in their order, kept by one who looks on as the steps
/// are applied to an arena. They are whole as long as memory suffices.
#[derive(Drop)]
pub struct EditRecorder {
    alloc: Global,
    edits: Vec<DocumentEdit>,
    whole: bool,
}

impl Model for EditRecorder {
    ghost use Rattle.step_edits.specs.Recorded.{Recorded};

    ghost Value = { Recorded };

    ghost view = { λ r. record { edits = r.edits.items; whole = r.whole } };
}

impl EditRecorder {
    /// A recorder without edits.
    pub fn new(alloc: Global) -> EditRecorder
        ensures { result ≡ record { edits = []; whole = true } }
    {
        EditRecorder {
            alloc,
            edits: Vec::new(alloc),
            whole: true,
        }
    }

    /// The edits, if memory sufficed.
    pub fn into_edits(self) -> Result<Vec<DocumentEdit>, AllocError>
        ensures { IfOk result (λ edits. (self.whole ≡ true) × (edits.items ≡ self.edits)) }
    {
        let EditRecorder {
            alloc: _,
            edits,
            whole,
        } = self;
        if whole { Ok(edits) } else { Err(AllocError) }
    }
}

impl Watch<Step, Arena> for EditRecorder {
    ghost seen = { Records };

    fn see(&mut self, step: &Step, arena: &Arena) {
        self.whole = self.whole && push_told(self.alloc, &mut self.edits, arena, step).is_ok();
    }
}
