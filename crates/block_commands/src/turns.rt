//! Turns on a list of nodes, each of which is done with some first members.

ghost use Rattle.edit_model.specs.Gives.{Gives, labels_of};
ghost use Rattle.inline_value.specs.EditDoc.Held.{EachHeld, Keeps};
ghost use Rattle.inline_value.specs.EditDoc.Whole.{IsOpen};
ghost use Rattle.block_commands.specs.Series.{in_turns};

use inline_value::doc::{Doc, EditFault, NodeRef};
use inline_value::wrap::turn_bound;
use std::alloc::Global;

/// What one turn does.
pub trait Turn {
    ghost use Rattle.std.specs.Prelude.{ℕ, List, ◌≤◌, ◌<◌, IfOk, length, drop};
    ghost use Rattle.edit_model.specs.Gives.{GivesAs, labels_of};
    ghost use Rattle.edit_model.specs.Run.{Run};
    ghost use Rattle.inline_value.specs.EditDoc.Held.{EachHeld, Keeps};
    ghost use Rattle.inline_value.specs.EditDoc.Whole.{IsOpen};

    // its run, which answers what is left of the list
    ghost run: { Self → List ℕ → Run (List ℕ) };

    /// Goes on with a list, and answers how many members are done with.
    fn take(&self, alloc: Global, doc: &mut Doc, list: &[NodeRef]) -> Result<usize, EditFault>
        requires open { IsOpen doc.old }
        requires list_held { EachHeld doc.old list.now }
        requires some { 0 < length list.now }
        ensures gives { GivesAs (λ count. labels_of (drop count list.now)) result doc.old.state
            doc.new.state
            (run self.now (labels_of list.now)) }
        ensures within { IfOk result (λ count. count ≤ length list.now) }
        ensures keeps { Keeps doc.old doc.new };
}

/// Takes turns until the list is done with.
#[tactic(auto, using(edit_model::proofs::Steps::whiles, edit_model::proofs::Steps::exits, crate::proofs::Counting::members_on, crate::proofs::Counting::members_off, crate::proofs::Counting::drop_more, crate::proofs::Counting::exit_count))]
pub fn in_turns<T: Turn>(
    alloc: Global,
    doc: &mut Doc,
    turn: &T,
    list: &[NodeRef],
) -> Result<(), EditFault>
    requires open { IsOpen doc.old }
    requires list_held { EachHeld doc.old list.now }
    ensures gives { Gives result doc.old.state doc.new.state
        (in_turns (T.run turn.now) (labels_of list.now)) }
    ensures keeps { Keeps doc.old doc.new }
{
    let mut left = turn_bound(doc);
    let mut at: usize = 0;
    while left > 0 && at < list.len() {
        at += turn.take(alloc, doc, &list[at..])?;
        left -= 1;
    }
    Ok(())
}
