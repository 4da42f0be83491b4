//! What a host that follows the document asks for: whether something changed, and what.

ghost use Rattle.std.specs.Prelude.{◌≡◌};
ghost use Rattle.edit_engine.specs.Following.{first_following, changed_by, after_commit, after_undo, after_redo};

use inline_value::doc::Committed;

/// The edits of the last call that changed something.
#[derive(Clone, Copy)]
pub enum LastChange {
    /// The edits of the step that undo would take, except the first `kept`.
    Made { kept: usize },
    /// The edits of an undo, which reverted the step that redo would take.
    Undone,
}

/// The number of calls that changed something, and the last of them.
#[derive(Clone, Copy)]
pub struct Following {
    pub last: LastChange,
    pub revision: u64,
}

impl Following {
    // Nothing changed yet.
    pub(crate) fn new() -> Following
        ensures { result ≡ first_following }
    {
        Following {
            last: LastChange::Made { kept: 0 },
            revision: 0,
        }
    }

    fn changed(self, last: LastChange) -> Following
        ensures { result ≡ changed_by last self }
    {
        Following {
            last,
            revision: self.revision.saturating_add(1),
        }
    }

    // After a commit whose entry had so many edits before.
    pub(crate) fn commit(self, committed: Committed, kept: usize) -> Following
        ensures { result ≡ after_commit committed kept self }
    {
        match committed {
            Committed::Nothing => self,
            Committed::Entry => self.changed(LastChange::Made { kept }),
        }
    }

    // After undo, which took an entry or didn't.
    pub(crate) fn undo(self, taken: bool) -> Following
        ensures { result ≡ after_undo taken self }
    {
        if taken {
            self.changed(LastChange::Undone)
        } else {
            self
        }
    }

    // After redo, which took an entry or didn't.
    pub(crate) fn redo(self, taken: bool) -> Following
        ensures { result ≡ after_redo taken self }
    {
        if taken {
            self.changed(LastChange::Made { kept: 0 })
        } else {
            self
        }
    }
}
