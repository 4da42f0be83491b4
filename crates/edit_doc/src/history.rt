//! The history of a document: the log of the steps, and a snapshot beside each entry of it.

ghost use Rattle.std.specs.Prelude.{◌≡◌, ◌+◌, ◌<◌, ◌≤◌, ◌↔◌, ◌++◌, IsTrue, IfOk, OnOk, IfErr, [], length, take, drop, slice_get, option_copied, true, if◌then◌else◌};
ghost use Rattle.std.specs.Option.{option_map};
ghost use Rattle.step_edits.specs.EditSteps.Step.{StepFits, step_applied};
ghost use Rattle.step_edits.specs.UndoLog.Turning.{FitsBack};
ghost use Rattle.step_edits.specs.UndoLog.Log.{begun, resumed, abandoned, is_open, is_resumed, noted, first_length, FitsUndo, FitsRedo};
ghost use Rattle.step_edits.specs.UndoLog.Log.Open.{Closed};
ghost use Rattle.step_edits.specs.UndoLog.States.{start};
ghost use Rattle.edit_doc.specs.Fields.{SwapsLeft, Forgets, Enters};
ghost use Rattle.edit_doc.specs.Sound.{next_first};
ghost use Rattle.edit_doc.specs.Trail.{IsTrail, FitsAlong, first_trail, with_note, steps_along, snapshots_along, arena_along, trail_along};
ghost use Rattle.edit_doc.specs.Closing.{Closes};
ghost use Rattle.edit_doc.specs.Changes.{steps_told, steps_told_back};
ghost use Rattle.edit_doc.specs.Logging.{steps_logged};

use crate::Counts;
use crate::command::{Command, EntrySnapshot, EntrySpan};
use crate::giving_up::keep_loose;
use crate::log_recorder::LogRecorder;
use crate::logged::LoggedEdit;
use circular_buffer::HeapCircularBuffer;
use edit_model::arena::Arena;
use edit_model::dom_ranges::Places;
use edit_model::stepping::Steps;
use std::alloc::{AllocError, Global};
use std::marker::Model;
use std::mem::swap;
use std::sync::ledger::Ledger;
use step_edits::EditRecorder;
use step_edits::document::DocumentEdit;
use step_edits::history::{Committed, UndoLog};
use step_edits::steps::Step;

// The two ways through the history: back, as undo goes, and forth again, as redo goes.
#[derive(Clone, Copy)]
pub(crate) enum Way {
    Back,
    Forth,
}

// The entries around the cursor, and the open one.
#[derive(Drop)]
pub(crate) struct History {
    log: UndoLog<Step>,
    // beside each entry that undo would take, and each that redo would take
    past: HeapCircularBuffer<EntrySnapshot>,
    future: HeapCircularBuffer<EntrySnapshot>,
}

// What a commit makes of the open entry: nothing, or an entry. Then the oldest goes out where
// there were too many.
pub(crate) enum Closing {
    Nothing,
    Entry(Option<EntrySnapshot>),
}

impl Model for History {
    ghost use Rattle.edit_doc.specs.Trail.{Trail, trail_of, IsSoundHistory};

    ghost Value = { Trail };

    ghost view = { λ h. trail_of h.log h.past.items h.future.items };

    ghost invariant = { λ h. IsSoundHistory (trail_of h.log h.past.items h.future.items) h.past.capacity
        h.future.capacity };
}

impl History {
    // An empty history of at most `depth` entries.
    pub(crate) fn new(alloc: Global, depth: usize) -> Result<History, AllocError>
        requires { 0 < depth }
        ensures { IfOk result (λ t. t ≡ first_trail depth) }
    {
        Ok(History {
            log: UndoLog::new(alloc, depth)?,
            past: HeapCircularBuffer::with_capacity(alloc, depth)?,
            future: HeapCircularBuffer::with_capacity(alloc, depth)?,
        })
    }

    // What holds of every history, for proofs. It does nothing.
    pub(crate) fn valid(&self)
        ensures { IsTrail self.now }
    {
        self.log.valid();
    }

    // Opens a new entry.
    pub(crate) fn begin(&mut self)
        requires { self.old.log.open_entry ≡ Closed }
        ensures { self.new ≡ record self.old { log = begun self.old.log } }
    {
        self.log.begin();
    }

    // Opens the entry that undo would take. False where there is none, and where redo would take
    // one.
    pub(crate) fn resume(&mut self) -> bool
        requires { self.old.log.open_entry ≡ Closed }
        ensures answer { IsTrue result
            ↔ ((0 < length self.old.log.undo) × (self.old.log.redo ≡ [])) }
        ensures history { self.new
            ≡ (if result then record self.old { log = resumed self.old.log } else self.old) }
    {
        self.log.resume()
    }

    // Notes a step in the open entry, or hands it back where memory is out.
    pub(crate) fn note(&mut self, step: Step) -> Result<(), Step>
        requires { IsTrue (is_open self.old.log.open_entry) }
        ensures ok { OnOk result (self.new ≡ with_note self.old step) }
        ensures err { IfErr result (λ x. (x ≡ step) × (self.new ≡ self.old)) }
    {
        self.log.note(step)
    }

    // Closes the open entry. With a step it is kept with the roots of the loose trees that the
    // command detached, a new one in place of those that redo would take.
    pub(crate) fn commit(
        &mut self,
        alloc: Global,
        arena: &Arena,
        command: &mut Command,
        after: Places,
        counts: Counts,
    ) -> Closing
        requires open { IsTrue (is_open self.old.log.open_entry) }
        requires resumed { command.old.resumed ≡ is_resumed self.old.log.open_entry }
        ensures closes { Closes arena.now.trees after counts self.old self.new command.old
            command.new result }
    {
        self.log.valid();
        match self.log.commit() {
            Committed::Nothing => Closing::Nothing,
            Committed::Entry => {
                keep_loose(arena, &mut command.detached);
                let oldest = keep_entry(alloc, &mut self.past, command, after, counts);
                self.future.clear();
                Closing::Entry(oldest)
            }
        }
    }

    // Closes the open entry, and takes back the steps noted in it.
    pub(crate) fn abandon(&mut self, arena: &mut Arena)
        requires open { IsTrue (is_open self.old.log.open_entry) }
        requires fit { FitsBack step_applied StepFits (noted self.old.log.open_entry) arena.old }
        ensures history { self.new ≡ record self.old { log = abandoned self.old.log } }
        ensures arena { arena.new ≡ start step_applied self.old.log arena.old }
    {
        self.log.abandon(arena);
    }

    // Takes the first entry that way, if there is one.
    pub(crate) fn turn<L: Ledger>(&mut self, way: Way, arena: &mut Arena, steps: &mut Steps<L>)
        requires closed { self.old.log.open_entry ≡ Closed }
        requires fit { FitsAlong way (steps_along way self.old) arena.old }
        ensures history { self.new ≡ trail_along way self.old arena.old }
        ensures arena { arena.new ≡ arena_along way (steps_along way self.old) arena.old }
        ensures count { steps.new ≡ steps.old + first_length (steps_along way self.old) }
    {
        self.log.valid();
        match way {
            Way::Back => {
                if self.log.undo(arena, steps) {
                    pass(&mut self.past, &mut self.future);
                }
            }
            Way::Forth => {
                if self.log.redo(arena, steps) {
                    pass(&mut self.future, &mut self.past);
                }
            }
        }
    }

    // What the steps of the entry that undo would take tell, past the first `kept` of them.
    pub(crate) fn changes(
        &mut self,
        alloc: Global,
        kept: usize,
        arena: &mut Arena,
    ) -> Result<Vec<DocumentEdit>, AllocError>
        requires closed { self.old.log.open_entry ≡ Closed }
        requires within { kept ≤ first_length self.old.log.undo }
        requires fit { FitsUndo step_applied StepFits self.old.log.undo arena.old }
        ensures told { IfOk result (λ edits. edits.items
            ≡ steps_told kept self.old.log.undo arena.old.trees) }
        ensures history { self.new ≡ self.old }
        ensures arena { arena.new ≡ arena.old }
    {
        let mut recorder = EditRecorder::new(alloc);
        self.log.watch_last(kept, arena, &mut recorder);
        recorder.into_edits()
    }

    // What the steps of the entry that redo would take tell as undo took it back.
    pub(crate) fn undone_changes(
        &mut self,
        alloc: Global,
        arena: &mut Arena,
    ) -> Result<Vec<DocumentEdit>, AllocError>
        requires { FitsRedo step_applied StepFits self.old.log.redo arena.old }
        ensures told { IfOk result (λ edits. edits.items
            ≡ steps_told_back self.old.log.redo arena.old.trees) }
        ensures history { self.new ≡ self.old }
        ensures arena { arena.new ≡ arena.old }
    {
        let mut recorder = EditRecorder::new(alloc);
        self.log.watch_undone(arena, &mut recorder);
        recorder.into_edits()
    }

    // The edits of the entry that undo would take, as a log has them.
    pub(crate) fn last_edits(
        &mut self,
        alloc: Global,
        arena: &mut Arena,
    ) -> Result<Vec<LoggedEdit>, AllocError>
        requires closed { self.old.log.open_entry ≡ Closed }
        requires fit { FitsUndo step_applied StepFits self.old.log.undo arena.old }
        ensures read { IfOk result (λ edits. edits.items
            ≡ steps_logged self.old.log.undo arena.old.trees) }
        ensures history { self.new ≡ self.old }
        ensures arena { arena.new ≡ arena.old }
    {
        let mut recorder = LogRecorder::new(alloc);
        self.log.watch_last(0, arena, &mut recorder);
        recorder.into_edits()
    }

    // Exchanges the detached trees of the command with those of the entry that undo would take.
    pub(crate) fn swap_detached(&mut self, command: &mut Command)
        requires { 0 < length self.old.past }
        ensures swapped { SwapsLeft self.old.past self.new.past command.old command.new }
        ensures rest { self.new ≡ record self.old { past = self.new.past } }
    {
        swap_first(&mut self.past, command);
    }

    // Forgets what the command detached; a resumed entry has its detached trees again.
    pub(crate) fn forget_detached(&mut self, command: &mut Command)
        requires { command.old.resumed ≡ true → 0 < length self.old.past }
        ensures forgotten { Forgets self.old.past self.new.past command.old }
        ensures rest { self.new ≡ record self.old { past = self.new.past } }
    {
        if command.resumed {
            command.detached.truncate(command.detached_before);
            swap_first(&mut self.past, command);
        }
    }

    // How many entries undo would take.
    pub(crate) fn undo_len(&self) -> usize
        ensures { result ≡ length self.now.log.undo }
    {
        self.log.undo_len()
    }

    // How many entries redo would take.
    pub(crate) fn redo_len(&self) -> usize
        ensures { result ≡ length self.now.log.redo }
    {
        self.log.redo_len()
    }

    // How many steps the entry has that undo would take, 0 if there is none.
    pub(crate) fn entry_len(&self) -> usize
        ensures { result ≡ first_length self.now.log.undo }
    {
        self.log.entry_len()
    }

    // Whether a commit ever dropped the oldest entry.
    pub(crate) fn has_dropped(&self) -> bool
        ensures { result ≡ self.now.log.dropped }
    {
        self.log.has_dropped()
    }

    // The steps of the entry that redo would take. None where there is none.
    pub(crate) fn next_entry(&self) -> Option<&[Step]>
        ensures { option_map (λ steps. steps.now) result ≡ slice_get self.now.log.redo 0 }
    {
        self.log.next_entry()
    }

    // The span of the first entry that way. None where there is none.
    pub(crate) fn first_span(&self, way: Way) -> Option<&EntrySpan>
        ensures { option_copied result
            ≡ option_map (λ b. b.span) (slice_get (snapshots_along way self.now) 0) }
    {
        let first = match way {
            Way::Back => self.past.front(),
            Way::Forth => self.future.front(),
        };
        match first {
            Some(snapshot) => Some(&snapshot.span),
            None => None,
        }
    }

    // The first label of the entries that redo would take; without any, that of the command.
    pub(crate) fn first_undone(&self, start: u32) -> u32
        ensures { result ≡ next_first start self.now.future }
    {
        match self.future.front() {
            Some(snapshot) => snapshot.span.first_label,
            None => start,
        }
    }

    // The same of the entries past the one that redo would take.
    pub(crate) fn first_later(&self, start: u32) -> u32
        ensures { result ≡ next_first start (drop 1 self.now.future) }
    {
        match self.future.get(1) {
            Some(snapshot) => snapshot.span.first_label,
            None => start,
        }
    }
}

// Exchanges the detached trees of the command with those of the first entry.
fn swap_first(past: &mut HeapCircularBuffer<EntrySnapshot>, command: &mut Command)
    requires { 0 < length past.old.items }
    ensures swapped { SwapsLeft past.old.items past.new.items command.old command.new }
    ensures capacity { past.new.capacity ≡ past.old.capacity }
{
    match past.get_mut(0) {
        Some(snapshot) => swap(&mut snapshot.detached, &mut command.detached),
        None => unreachable!(),
    }
}

// The command makes an entry, or joins the one that it resumed, with what it detached. Answers the
// oldest entry's snapshot where there were too many.
fn keep_entry(
    alloc: Global,
    past: &mut HeapCircularBuffer<EntrySnapshot>,
    command: &mut Command,
    after: Places,
    counts: Counts,
) -> Option<EntrySnapshot>
    requires { command.old.resumed ≡ true → 0 < length past.old.items }
    ensures entered { Enters command.old command.old.detached.items after counts past.old.capacity
        past.old.items past.new.items result }
    ensures capacity { past.new.capacity ≡ past.old.capacity }
    ensures command { command.new ≡ record command.old { detached = command.new.detached } }
{
    if command.resumed {
        match past.get_mut(0) {
            Some(snapshot) => {
                snapshot.join(after, counts);
                swap(&mut snapshot.detached, &mut command.detached);
            }
            None => unreachable!(),
        }
        None
    } else {
        let mut snapshot = command.snapshot(alloc, after, counts);
        swap(&mut snapshot.detached, &mut command.detached);
        past.push_front(snapshot)
    }
}

// The first snapshot on one side of the cursor comes to stand on the other.
fn pass(from: &mut HeapCircularBuffer<EntrySnapshot>, to: &mut HeapCircularBuffer<EntrySnapshot>)
    requires some { 0 < length from.old.items }
    requires room { length to.old.items < to.old.capacity }
    ensures from { from.new.items ≡ drop 1 from.old.items }
    ensures to { to.new.items ≡ take 1 from.old.items ++ to.old.items }
    ensures rooms { (from.new.capacity ≡ from.old.capacity) × (to.new.capacity ≡ to.old.capacity) }
{
    let _ = to.push_front(from.pop_front().unwrap());
}
