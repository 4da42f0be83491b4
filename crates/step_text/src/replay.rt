//! An arena on whose nodes step lines are applied one after another.

ghost use Rattle.std.specs.Prelude.{◌≡◌, ◌^◌, ◌<◌, IfSome, IfNone, IsOkUnless, OnOk, OnErr, Err};
ghost use Rattle.edit_steps.specs.NodeArena.Held.{KeepsHeld};
ghost use Rattle.step_text.specs.Applying.{labelled, fault_of, line_applied, text_length};

use crate::apply::apply_within;
use crate::line::{StepFault, StepLine};
use crate::room::Room;
use edit_steps::arena::Arena;
use std::marker::Model;

/// An arena on whose nodes step lines are applied one after another. Contracts see the arena alone.
/// Beside it stands at most how many levels its nodes have, so that a tree that a line puts
/// somewhere is walked only where that leaves no room.
#[derive(Drop)]
pub struct Replay {
    arena: Arena,
    room: Room,
}

impl Model for Replay {
    ghost use Rattle.page_grammar.specs.DomModel.ArenaState.{ArenaState, state_code};

    ghost Value = { ArenaState };

    ghost coded = { state_code };

    ghost use Rattle.step_text.specs.Planning.{IsBound};

    ghost view = { λ r. r.arena };

    ghost invariant = { λ r. IsBound r.room r.arena.trees };
}

impl Replay {
    /// Begins with the nodes of this arena.
    pub fn new(arena: Arena) -> Replay
        ensures { result ≡ arena }
    {
        let room = Room::any(&arena);
        Replay { arena, room }
    }

    /// The nodes as they are.
    pub fn arena(&self) -> &Arena
        ensures { result.now ≡ self.now }
    {
        &self.arena
    }

    /// Does to the nodes what a step line says, as [`crate::apply_step`] does. It takes time for
    /// the ways up from the tree and from its new place; the tree is walked too where trees moved so
    /// far down that its nodes might come to be too deep, and every so many of these walks, all of
    /// the nodes.
    pub fn apply(&mut self, step: StepLine) -> Result<(), StepFault>
        requires { text_length step < 2 ^ 32 }
        ensures refused { IfSome (fault_of step (labelled self.old)) (λ fault. result ≡ Err fault) }
        ensures taken { IfNone (fault_of step (labelled self.old))
            (IsOkUnless result StepFault.Memory) }
        ensures applied { OnOk result (labelled self.new ≡ line_applied step (labelled self.old)) }
        ensures held { OnOk result (KeepsHeld self.old self.new) }
        ensures err { OnErr result (self.new ≡ self.old) }
    {
        apply_within(&mut self.arena, &mut self.room, step)
    }
}
