//! Undo and redo of an entry, where nobody counts the edits that it has.

ghost use Rattle.std.specs.Prelude.{◌≡◌, ◌↔◌, ◌<◌, IsTrue, length};
ghost use Rattle.inline_value.specs.EditDoc.Kept.{HoldsOnlyNeeded};
ghost use Rattle.edit_engine.specs.Changes.{CanFollow};
ghost use Rattle.edit_engine.specs.Editing.{document};
ghost use Rattle.edit_engine.specs.Labels.{KeepsLabels};
ghost use Rattle.edit_engine.specs.Turning.{entries_of, told_by_turn, turned_by};

use crate::editor::Editor;
use edit_model::stepping::Steps;
use std::marker::Brand;
use std::sync::ledger::{Blank, Ledger};

/// A direction in the history.
#[derive(Clone, Copy, PartialEq, Eq, Debug)]
pub enum Turn {
    /// Reverts the last step.
    Undo,
    /// Makes the step again that undo reverted last.
    Redo,
}

impl Editor {
    fn turn_uncounted<L: Ledger>(&mut self, turn: Turn, blank: Blank) -> bool
        requires name { blank.name ≡ L.name }
        requires parts { blank.parts ≡ L.parts }
        requires some { 0 < blank.parts }
        ensures answer { IsTrue result ↔ (0 < length (entries_of turn self.old.editing.history)) }
        ensures turned { self.new.editing ≡ turned_by turn self.old.editing }
        ensures labels { KeepsLabels self.old.editing self.new.editing }
        ensures needed { HoldsOnlyNeeded (document self.new) }
        ensures followed { CanFollow self.old self.new }
        ensures told { self.new.following ≡ told_by_turn turn result self.old.following }
    {
        let mut steps = Steps::<L>::open(blank);
        match turn {
            Turn::Undo => self.undo(&mut steps),
            Turn::Redo => self.redo(&mut steps),
        }
    }

    /// Undoes or redoes one step, like `undo` and `redo`, without counting. Returns false if there
    /// is none.
    pub fn turn(&mut self, turn: Turn) -> bool
        ensures answer { IsTrue result ↔ (0 < length (entries_of turn self.old.editing.history)) }
        ensures turned { self.new.editing ≡ turned_by turn self.old.editing }
        ensures labels { KeepsLabels self.old.editing self.new.editing }
        ensures needed { HoldsOnlyNeeded (document self.new) }
        ensures followed { CanFollow self.old self.new }
        ensures told { self.new.following ≡ told_by_turn turn result self.old.following }
    {
        self.turn_uncounted::<Brand>(turn, Blank::new(1))
    }
}
