//! Acts, and why a line is none.

ghost use Rattle.std.specs.Prelude.{◌≡◌, IfOk};

use dom_model::{Chars, Items, Name};
use html_names::QueryKind;
use std::alloc::{AllocError, AllocFailed, Global};
use std::marker::Copy;
use thiserror::Error;

/// The way from the document to a node: the index of a child in each node on the way. The
/// document's own is empty.
pub type Path = Items<u32>;

/// A point: a node by its path, and an offset in it.
#[derive(Drop)]
pub struct Place {
    pub path: Path,
    pub offset: u32,
}

/// What a line asks for.
#[derive(Drop)]
pub enum Act {
    /// `select POINT POINT`
    Select {
        anchor: Place,
        focus: Place,
    },
    /// `unselect`
    Unselect,
    /// `mark NAME POINT POINT`
    Mark {
        name: Name,
        anchor: Place,
        focus: Place,
    },
    /// `unmark NAME`
    Unmark {
        name: Name,
    },
    /// `exec NAME` or `exec NAME VALUE`. The value is empty where the line has none.
    Exec {
        name: Name,
        value: Chars,
    },
    /// `query KIND NAME`
    Query {
        kind: QueryKind,
        name: Name,
    },
    /// `undo N`, N from 1
    Undo {
        count: u32,
    },
    /// `redo N`, N from 1
    Redo {
        count: u32,
    },
    /// `probe PATH`
    Probe {
        path: Path,
    },
    /// `html`
    Html,
    /// `tree`
    Tree,
    /// `points`
    Points,
    /// `stat`
    Stat,
    /// `log`
    Log,
}

/// Why a line is no act. The number is the one that is printed.
#[derive(Clone, Copy, PartialEq, Eq, Debug, Error)]
pub enum LineFault {
    /// Its first word is an act's, and the line is outside the grammar of that act, or outside
    /// UTF-8.
    #[error("the line is outside the grammar of its act")]
    Syntax = 1,
    /// Its first word, up to the first space, is no act's.
    #[error("the first word of the line is no act")]
    UnknownAct = 2,
    /// It has more than 8,192 bytes.
    #[error("the line has more than 8192 bytes")]
    LongLine = 3,
    /// There was no memory for the act.
    #[error("out of memory")]
    Memory = 4,
}

impl From<AllocError> for LineFault {
    ghost use Rattle.script_read.specs.declared.act.LineFault.TheVariants.{Memory};

    ghost from_gives = { λ _ fault. fault ≡ Memory };

    fn from(_fault: AllocError) -> LineFault {
        LineFault::Memory
    }
}

impl<T: Drop> From<AllocFailed<T>> for LineFault {
    ghost use Rattle.script_read.specs.declared.act.LineFault.TheVariants.{Memory};

    ghost from_gives = { λ _ fault. fault ≡ Memory };

    fn from(_fault: AllocFailed<T>) -> LineFault {
        LineFault::Memory
    }
}
