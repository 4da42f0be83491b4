//! The tree under edits.

ghost use Rattle.std.specs.Prelude.{IfOk, IfSome};
ghost use Rattle.edit_model.specs.Valid.{IsPlacedPair};
ghost use Rattle.edit_parts.specs.Following.{Watches};
ghost use Rattle.edit_doc.specs.Fields.{IsKept};

use crate::command::Kept;
use crate::counted_arena::CountedArena;
use crate::overrides::Overrides;
use crate::{Flags, Points};
use edit_parts::Watch;
use std::alloc::{AllocError, Global};

// The nodes, and what stands in them and is set beside them.
#[derive(Drop)]
pub(crate) struct LiveTree {
    pub(crate) nodes: CountedArena,
    pub(crate) points: Points,
    pub(crate) overrides: Overrides,
    pub(crate) flags: Flags,
}

impl LiveTree {
    // What a command keeps as it begins.
    pub(crate) fn keep(&self, alloc: Global) -> Result<Kept, AllocError>
        ensures { IfOk result
            (IsKept self.now.points self.now.overrides self.now.flags self.now.nodes.counts) }
    {
        Ok(Kept {
            places: self.points.places(),
            overrides: self.overrides.copy(alloc)?,
            flags: self.flags,
            counts: self.nodes.counts,
        })
    }

    // What to watch until the points stand where a change takes them.
    pub(crate) fn watch(&self) -> Option<Watch>
        requires { IfSome self.now.points.selection (IsPlacedPair self.now.nodes.arena.trees) }
        ensures { Watches self.now.nodes.arena.trees self.now.points self.now.overrides result }
    {
        self.overrides.watch(&self.nodes.arena, &self.points)
    }
}
