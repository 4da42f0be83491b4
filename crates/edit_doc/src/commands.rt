//! Commands begin, end or are taken back, and undo and redo.

ghost use Rattle.std.specs.Prelude.{◌≡◌, ℕ, ◌+◌, ◌<◌, ◌↔◌, IsTrue, IfOk, OnErr, None, [], length, true, false, if◌then◌else◌};
ghost use Rattle.edit_model.specs.Gives.{label_of};
ghost use Rattle.edit_model.specs.History.{rested, undone_state, undone_history, redone_state, redone_history};
ghost use Rattle.edit_doc.specs.Whole.{IsOpen, IsClosed, opened, history_committed, state_rolled_back, first_edits};
ghost use Rattle.edit_doc.specs.Changes.{IsToldSince};
ghost use Rattle.edit_doc.specs.Held.{IfHeld, KeepsThere};
ghost use Rattle.edit_doc.specs.History.{entries_along, whole_along};

use crate::command::resting_places;
use crate::giving_up::{give_up_detached, give_up_unnamed};
use crate::history::{Closing, Way};
use crate::{Committed, Doc, NodeRef};
use edit_model::stepping::Steps;
use std::alloc::AllocError;
use std::mem::swap;
use std::sync::ledger::Ledger;

impl Doc {
    /// Begins a command with this affected editing host. A keeping command removes no image, no
    /// rule and no characters but tab, LF, CR and space.
    pub fn begin(&mut self, host: Option<NodeRef>, keeping: bool) -> Result<(), AllocError>
        requires closed { IsClosed self.old }
        requires host_held { IfHeld self.old host }
        ensures begun { IfOk result (λ _. self.new
            ≡ opened (label_of host) keeping false self.old) }
        ensures err { OnErr result (self.new ≡ self.old) }
    {
        self.tree.nodes.arena.valid();
        let kept = self.tree.keep(self.alloc)?;
        self.history.begin();
        self.command.kept = kept;
        self.command.host = host;
        self.command.keeping = keeping;
        Ok(())
    }

    /// Begins a command, as `begin` does, whose edits join the last entry. False where there is
    /// none, and where redo would take one.
    pub fn resume(&mut self, host: Option<NodeRef>, keeping: bool) -> Result<bool, AllocError>
        requires closed { IsClosed self.old }
        requires host_held { IfHeld self.old host }
        ensures answer { IfOk result
            (λ b. IsTrue b ↔ ((0 < length self.old.history.undo) × (self.old.history.redo ≡ []))) }
        ensures begun { IfOk result
            (λ b. self.new
            ≡ (if b then opened (label_of host) keeping true self.old else self.old)) }
        ensures err { OnErr result (self.new ≡ self.old) }
    {
        self.tree.nodes.arena.valid();
        let kept = self.tree.keep(self.alloc)?;
        if !self.history.resume() {
            return Ok(false);
        }
        self.history.swap_detached(&mut self.command);
        self.command.detached_before = self.command.detached.len();
        self.command.kept = kept;
        self.command.host = host;
        self.command.keeping = keeping;
        self.command.resumed = true;
        Ok(true)
    }

    /// Ends the command. Loose trees and the scratch pair go; with an edit the history has an entry
    /// for it, or a longer one.
    pub fn commit(&mut self) -> Committed
        requires open { IsOpen self.old }
        ensures answer { (result ≡ Committed.Entry) ↔ (0 < length self.old.state.edits) }
        ensures state { self.new.state ≡ rested self.old.state }
        ensures history { self.new.history ≡ history_committed self.old }
        ensures told { 0 < length self.old.state.edits
            → IsToldSince self.old.began self.old.state self.old.history.undo
            self.new.history.undo }
        ensures closed { self.new.began ≡ None }
        ensures keeps { KeepsThere self.old self.new }
    {
        self.history.valid();
        self.tree.nodes.arena.valid();
        let places = resting_places(&self.tree.points);
        self.tree.points.set_places(&places);
        let low = self.history.first_undone(self.command.start);
        let nodes = &mut self.tree.nodes;
        match self.history.commit(
            self.alloc,
            &nodes.arena,
            &mut self.command,
            places,
            nodes.counts,
        ) {
            Closing::Nothing => {
                nodes.arena.drop_made(self.command.start);
                self.history.forget_detached(&mut self.command);
                nodes.arena.valid();
                self.command.end(nodes.arena.next_label());
                Committed::Nothing
            }
            Closing::Entry(oldest) => {
                give_up_unnamed(&mut nodes.arena, low, &self.command);
                give_up_detached(&mut nodes.arena, oldest);
                nodes.arena.valid();
                self.command.end(nodes.arena.next_label());
                Committed::Entry
            }
        }
    }

    /// Takes the command back: the document is as before it, and the labels that it drew are given
    /// back.
    pub fn roll_back(&mut self)
        requires open { IsOpen self.old }
        ensures state { self.new.state ≡ state_rolled_back self.old }
        ensures history { self.new.history ≡ self.old.history }
        ensures closed { self.new.began ≡ None }
        ensures keeps { KeepsThere self.old self.new }
    {
        self.history.valid();
        self.tree.nodes.arena.valid();
        self.tree.nodes.arena.slotted();
        self.tree
            .nodes
            .abandon(&mut self.history, self.command.kept.counts);
        self.tree.nodes.arena.valid();
        self.tree.nodes.arena.drop_made(self.command.start);
        self.tree.nodes.arena.rewind(self.command.start);
        self.tree.nodes.arena.valid();
        self.tree.points.set_places(&self.command.kept.places);
        swap(&mut self.tree.overrides, &mut self.command.kept.overrides);
        self.tree.flags = self.command.kept.flags;
        self.history.forget_detached(&mut self.command);
        self.command.end(self.tree.nodes.arena.next_label());
    }

    /// Takes the entry before the cursor back. False where there is none.
    pub fn undo<L: Ledger>(&mut self, steps: &mut Steps<L>) -> bool
        requires closed { IsClosed self.old }
        ensures answer { IsTrue result ↔ (0 < length self.old.history.undo) }
        ensures doc { self.new ≡ record self.old {
          state = undone_state self.old.history self.old.state;
          history = undone_history self.old.history;
        } }
        ensures count { steps.new ≡ steps.old + first_edits self.old.history.undo }
    {
        self.turn(Way::Back, steps)
    }

    /// Takes the entry after the cursor forth again. False where there is none.
    pub fn redo<L: Ledger>(&mut self, steps: &mut Steps<L>) -> bool
        requires closed { IsClosed self.old }
        ensures answer { IsTrue result ↔ (0 < length self.old.history.redo) }
        ensures doc { self.new ≡ record self.old {
          state = redone_state self.old.history self.old.state;
          history = redone_history self.old.history;
        } }
        ensures count { steps.new ≡ steps.old + first_edits self.old.history.redo }
    {
        self.turn(Way::Forth, steps)
    }

    // Takes the first entry that way. False where there is none.
    fn turn<L: Ledger>(&mut self, way: Way, steps: &mut Steps<L>) -> bool
        requires closed { IsClosed self.old }
        ensures answer { IsTrue result ↔ (0 < length (entries_along way self.old)) }
        ensures doc { self.new ≡ whole_along way self.old }
        ensures count { steps.new ≡ steps.old + first_edits (entries_along way self.old) }
    {
        self.history.valid();
        self.tree.nodes.arena.valid();
        self.tree.nodes.arena.slotted();
        let Some(span) = self.history.first_span(way) else {
            return false;
        };
        let counts = span.counts(way);
        self.tree.points.set_places(span.places(way));
        self.tree.nodes.turn(way, &mut self.history, counts, steps);
        self.tree.nodes.arena.valid();
        self.tree.overrides.unset();
        true
    }

    /// How many entries undo would take.
    pub fn undo_len(&self) -> usize
        requires closed { IsClosed self.now }
        ensures { result ≡ length self.now.history.undo }
    {
        self.history.undo_len()
    }

    /// How many entries redo would take.
    pub fn redo_len(&self) -> usize
        requires closed { IsClosed self.now }
        ensures { result ≡ length self.now.history.redo }
    {
        self.history.redo_len()
    }

    /// How many edits the entry has that undo would take, 0 if there is none.
    pub fn edits(&self) -> usize
        requires closed { IsClosed self.now }
        ensures { result ≡ first_edits self.now.history.undo }
    {
        self.history.entry_len()
    }

    /// Whether a commit ever dropped the oldest entry.
    pub fn has_dropped(&self) -> bool
        ensures { result ≡ self.now.history.dropped }
    {
        self.history.has_dropped()
    }
}
