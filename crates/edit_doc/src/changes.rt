//! What the entries next to the cursor changed, as edits of the document alone.

ghost use Rattle.std.specs.Prelude.{◌≡◌, ◌≤◌, IfOk};
ghost use Rattle.edit_doc.specs.Changes.{changes_past, changes_undone, ChangesLead, UndoneLead, LeadsSince};
ghost use Rattle.edit_doc.specs.Whole.{IsOpen, IsClosed, first_edits};

use crate::Doc;
use std::alloc::{AllocError, Global};
use step_edits::document::DocumentEdit;

impl Doc {
    /// What the entry that undo would take changed in the document, past the first `kept` of its
    /// edits. They are taken back to read what came and went, and made again.
    pub fn changes(&mut self, alloc: Global, kept: usize) -> Result<Vec<DocumentEdit>, AllocError>
        requires closed { IsClosed self.old }
        requires within { kept ≤ first_edits self.old.history.undo }
        ensures told { IfOk result (λ edits. edits.items
            ≡ changes_past kept self.old.history.undo) }
        ensures stays { self.new ≡ self.old }
    {
        self.history.valid();
        self.tree.nodes.arena.valid();
        self.tree.nodes.arena.slotted();
        self.tree.nodes.changes(alloc, &mut self.history, kept)
    }

    /// What undo changed in the document when it took the entry back that redo would take. Its edits
    /// are made to read what came and went, and taken back.
    pub fn undone_changes(&mut self, alloc: Global) -> Result<Vec<DocumentEdit>, AllocError>
        requires closed { IsClosed self.old }
        ensures told { IfOk result (λ edits. edits.items ≡ changes_undone self.old.history.redo) }
        ensures stays { self.new ≡ self.old }
    {
        self.history.valid();
        self.tree.nodes.arena.valid();
        self.tree.nodes.arena.slotted();
        self.tree.nodes.undone_changes(alloc, &mut self.history)
    }

    /// That what is told of the entries next to the cursor leads from the document before each to
    /// the one after it, and back, for proofs. It does nothing.
    pub fn changes_lead(&self)
        requires closed { IsClosed self.now }
        ensures made { ChangesLead self.now.history.undo }
        ensures undone { UndoneLead self.now.history.redo }
    {
        self.tree.nodes.arena.valid();
    }

    /// That what the running command changed so far leads from the document at its begin to the one
    /// that is there now, for proofs. It does nothing.
    pub fn changes_lead_so_far(&self)
        requires open { IsOpen self.now }
        ensures { LeadsSince self.now.began self.now.state }
    {
        self.tree.nodes.arena.valid();
    }
}
