//! The nodes of a document, with its numbers.

ghost use Rattle.std.specs.Prelude.{◌≡◌, ◌+◌, ◌≤◌, IsTrue, IfOk, OnOk, OnErr, IfErr};
ghost use Rattle.step_edits.specs.EditSteps.Step.{StepFits, step_applied, step_inverse};
ghost use Rattle.step_edits.specs.UndoLog.Log.{abandoned, is_open, noted, first_length, FitsUndo, FitsRedo};
ghost use Rattle.step_edits.specs.UndoLog.Log.Open.{Closed};
ghost use Rattle.step_edits.specs.UndoLog.States.{start};
ghost use Rattle.step_edits.specs.UndoLog.Turning.{FitsBack};
ghost use Rattle.edit_doc.specs.Changes.{steps_told, steps_told_back};
ghost use Rattle.edit_doc.specs.Counted.{IsCounted};
ghost use Rattle.edit_doc.specs.Logging.{steps_logged};
ghost use Rattle.edit_doc.specs.Trail.{FitsAlong, with_note, steps_along, arena_along, trail_along};

use crate::history::{History, Way};
use crate::logged::LoggedEdit;
use crate::{Arena, Counts, EditFault};
use edit_model::stepping::Steps;
use std::alloc::{AllocError, Global};
use std::sync::ledger::Ledger;
use step_edits::document::DocumentEdit;
use step_edits::history::Invertible;
use step_edits::steps::Step;

// The nodes, and the numbers of the document among them.
#[derive(Drop)]
pub(crate) struct CountedArena {
    // with the trees that only entries of the log name
    pub(crate) arena: Arena,
    pub(crate) counts: Counts,
    ghost counted: { IsCounted arena.trees counts },
}

impl CountedArena {
    // Makes a change, with the numbers after it, and notes the step that takes it back. Where there
    // is no memory for the note the change is taken back.
    pub(crate) fn change(
        &mut self,
        history: &mut History,
        change: Step,
        counts: Counts,
    ) -> Result<(), EditFault>
        requires fits { StepFits change self.old.arena }
        requires open { IsTrue (is_open history.old.log.open_entry) }
        requires counted { IsCounted (step_applied change self.old.arena).trees counts }
        ensures arena { OnOk result (self.new.arena ≡ step_applied change self.old.arena) }
        ensures history { OnOk result (history.new
            ≡ with_note history.old (step_inverse change self.old.arena)) }
        ensures fault { IfErr result (λ fault. fault ≡ EditFault.Memory) }
        ensures err { OnErr result ((self.new.arena ≡ self.old.arena)
            × (history.new ≡ history.old)) }
        ensures counts { OnErr result (self.new.counts ≡ self.old.counts) }
    {
        let mut step = change;
        step.apply(&mut self.arena);
        match history.note(step) {
            Ok(()) => {
                self.counts = counts;
                Ok(())
            }
            Err(mut step) => {
                step.apply(&mut self.arena);
                Err(EditFault::Memory)
            }
        }
    }

    // Takes back the steps of the open entry, to where there were these numbers.
    pub(crate) fn abandon(&mut self, history: &mut History, counts: Counts)
        requires open { IsTrue (is_open history.old.log.open_entry) }
        requires fit { FitsBack step_applied StepFits (noted history.old.log.open_entry)
            self.old.arena }
        requires counted { IsCounted (start step_applied history.old.log self.old.arena).trees
            counts }
        ensures history { history.new ≡ record history.old { log = abandoned history.old.log } }
        ensures arena { self.new.arena ≡ start step_applied history.old.log self.old.arena }
        ensures counts { self.new.counts ≡ counts }
    {
        history.abandon(&mut self.arena);
        self.counts = counts;
    }

    // Takes the first entry of the history that way, to where there were these numbers.
    pub(crate) fn turn<L: Ledger>(
        &mut self,
        way: Way,
        history: &mut History,
        counts: Counts,
        steps: &mut Steps<L>,
    )
        requires closed { history.old.log.open_entry ≡ Closed }
        requires fit { FitsAlong way (steps_along way history.old) self.old.arena }
        requires counted { IsCounted
            (arena_along way (steps_along way history.old) self.old.arena).trees counts }
        ensures history { history.new ≡ trail_along way history.old self.old.arena }
        ensures arena { self.new.arena
            ≡ arena_along way (steps_along way history.old) self.old.arena }
        ensures count { steps.new ≡ steps.old + first_length (steps_along way history.old) }
    {
        history.turn(way, &mut self.arena, steps);
        self.counts = counts;
    }

    // What the steps of the entry that undo would take tell, past the first `kept` of them.
    pub(crate) fn changes(
        &mut self,
        alloc: Global,
        history: &mut History,
        kept: usize,
    ) -> Result<Vec<DocumentEdit>, AllocError>
        requires closed { history.old.log.open_entry ≡ Closed }
        requires within { kept ≤ first_length history.old.log.undo }
        requires fit { FitsUndo step_applied StepFits history.old.log.undo self.old.arena }
        ensures told { IfOk result (λ edits. edits.items
            ≡ steps_told kept history.old.log.undo self.old.arena.trees) }
        ensures history { history.new ≡ history.old }
        ensures arena { self.new.arena ≡ self.old.arena }
    {
        history.changes(alloc, kept, &mut self.arena)
    }

    // What the steps of the entry that redo would take tell as undo took it back.
    pub(crate) fn undone_changes(
        &mut self,
        alloc: Global,
        history: &mut History,
    ) -> Result<Vec<DocumentEdit>, AllocError>
        requires { FitsRedo step_applied StepFits history.old.log.redo self.old.arena }
        ensures told { IfOk result (λ edits. edits.items
            ≡ steps_told_back history.old.log.redo self.old.arena.trees) }
        ensures history { history.new ≡ history.old }
        ensures arena { self.new.arena ≡ self.old.arena }
    {
        history.undone_changes(alloc, &mut self.arena)
    }

    // The edits of the entry that undo would take, as a log has them.
    pub(crate) fn last_edits(
        &mut self,
        alloc: Global,
        history: &mut History,
    ) -> Result<Vec<LoggedEdit>, AllocError>
        requires closed { history.old.log.open_entry ≡ Closed }
        requires fit { FitsUndo step_applied StepFits history.old.log.undo self.old.arena }
        ensures read { IfOk result (λ edits. edits.items
            ≡ steps_logged history.old.log.undo self.old.arena.trees) }
        ensures history { history.new ≡ history.old }
        ensures arena { self.new.arena ≡ self.old.arena }
    {
        history.last_edits(alloc, &mut self.arena)
    }
}
