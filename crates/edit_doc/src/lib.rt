//! A document under edits: its nodes, its live points, the overrides and flags of commands, and the
//! history that undo and redo go through.
//!
//! A command runs between [`Doc::begin`] and [`Doc::commit`] or [`Doc::roll_back`]. Its edits are
//! those of the DOM Standard, made only inside its affected editing host and on nodes that it made;
//! an edit that lies outside, or that would change nothing, is left out and answers false.
//! Contracts see the state and the history of `edit_model`.
#![tactic(auto)]

ghost use Rattle.std.specs.Prelude.{◌≡◌, ℕ, ◌<◌, IfOk};
ghost use Rattle.edit_doc.specs.Whole.{HasNoLoose, first_doc};

mod changes;
mod command;
mod commands;
mod composed;
mod confined;
mod counted_arena;
mod edits;
mod extracting;
mod giving_up;
mod history;
mod log_recorder;
mod logged;
mod making;
mod nodes;
mod numbers;
mod overrides;
mod reads;
mod selecting;
mod tree;

pub use command::EntrySpan;
use command::{Command, Kept};
use counted_arena::CountedArena;
pub use edit_model::arena::{Arena, Kind, NodeList, NodeRef};
pub use edit_model::dom::{Attributes, Chars, Name};
pub use edit_model::dom_ranges::{MarkFault, Pair, Point, Points};
pub use edit_model::{EditFault, Flags, Setting};
pub use edit_parts::Counts;
use history::History;
pub use logged::{LoggedEdit, LoggedEntry, MadeNode};
use overrides::Overrides;
use std::alloc::{AllocError, Global};
use std::marker::Model;
pub use step_edits::document;
pub use step_edits::document::{DocumentEdit, TreeNode};
pub use step_edits::history::Committed;
use tree::LiveTree;

/// A document under edits.
#[derive(Drop)]
pub struct Doc {
    alloc: Global,
    tree: LiveTree,
    history: History,
    command: Command,
}

impl Model for Doc {
    ghost use Rattle.edit_doc.specs.Whole.{Whole};

    ghost Value = { Whole };

    ghost use Rattle.edit_doc.specs.WholeCode.{whole_code};

    ghost coded = { whole_code };

    ghost use Rattle.edit_doc.specs.History.{whole_of};
    ghost use Rattle.edit_doc.specs.Live.{live};
    ghost use Rattle.edit_doc.specs.Sound.{IsSoundDoc};

    ghost view = { λ d. whole_of (live d.tree) d.command d.history };

    ghost invariant = { λ d. IsSoundDoc (live d.tree) d.command d.history };
}

impl Doc {
    /// The document of an arena, with an empty history of at most `undo_depth` entries.
    pub fn new(alloc: Global, arena: Arena, undo_depth: usize) -> Result<Doc, AllocError>
        requires depth { 0 < undo_depth }
        requires loose { HasNoLoose arena }
        ensures { IfOk result (λ d. d ≡ first_doc arena undo_depth) }
    {
        arena.valid();
        let counts = Counts {
            nodes: arena.node_count(),
            chars: arena.char_count(),
            depth: arena.page_depth(),
        };
        let flags = Flags {
            css_styling: false,
            paragraphs: false,
        };
        let points = Points::new(alloc)?;
        let kept = Kept {
            places: points.places(),
            overrides: Overrides::none(alloc)?,
            flags,
            counts,
        };
        let next = arena.next_label();
        Ok(Doc {
            alloc,
            tree: LiveTree {
                nodes: CountedArena { arena, counts },
                points,
                overrides: Overrides::none(alloc)?,
                flags,
            },
            history: History::new(alloc, undo_depth)?,
            command: Command::none(alloc, next, kept),
        })
    }
}
