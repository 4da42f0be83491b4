//! What an editor answers, and why it refuses.

use inline_value::doc::{EditFault, MarkFault};
use std::alloc::AllocError;
use step_text::script::Path;
use thiserror::Error;

/// The answer of a command (HTML Editing APIs, "execCommand()").
#[derive(Clone, Copy, PartialEq, Eq, Debug)]
pub enum Answer {
    /// The command was executed.
    Yes,
    /// The command isn't supported, isn't enabled, or refuses the value.
    No,
}

/// Why a command failed. The editor is unchanged.
#[derive(Clone, Copy, PartialEq, Eq, Debug, Error)]
pub enum ExecFault {
    /// A node that it makes would have a label that isn't below the cap.
    #[error("no label is left below the cap")]
    Full = 1,
    /// The document has more than 250 levels.
    #[error("the document is too deep")]
    Deep = 2,
    /// Memory ran out.
    #[error("out of memory")]
    Memory = 3,
}

impl From<AllocError> for ExecFault {
    ghost use Rattle.std.specs.Prelude.{◌≡◌};
    ghost use Rattle.edit_engine.specs.declared.answers.ExecFault.TheVariants.{Memory};

    ghost from_gives = { λ _ fault. fault ≡ Memory };

    fn from(_: AllocError) -> ExecFault {
        ExecFault::Memory
    }
}

impl From<EditFault> for ExecFault {
    ghost use Rattle.std.specs.Prelude.{◌≡◌};
    ghost use Rattle.edit_engine.specs.Faults.{exec_fault};

    ghost from_gives = { λ fault out. out ≡ exec_fault fault };

    fn from(fault: EditFault) -> ExecFault {
        match fault {
            EditFault::Full => ExecFault::Full,
            EditFault::Memory => ExecFault::Memory,
        }
    }
}

/// Why a command on a range failed. The editor is unchanged.
#[derive(Clone, Copy, PartialEq, Eq, Debug, Error)]
pub enum RangeFault {
    /// An end of the range is in no node of the document, or past its length.
    #[error("the document has no such place")]
    BadPlace = 1,
    /// A node that it makes would have a label that isn't below the cap.
    #[error("no label is left below the cap")]
    Full = 2,
    /// The document has more than 250 levels.
    #[error("the document is too deep")]
    Deep = 3,
    /// Memory ran out.
    #[error("out of memory")]
    Memory = 4,
}

impl From<ExecFault> for RangeFault {
    ghost use Rattle.edit_engine.specs.Faults.{range_fault};
    ghost use Rattle.std.specs.Prelude.{◌≡◌};

    ghost from_gives = { λ fault out. out ≡ range_fault fault };

    fn from(fault: ExecFault) -> RangeFault {
        match fault {
            ExecFault::Full => RangeFault::Full,
            ExecFault::Deep => RangeFault::Deep,
            ExecFault::Memory => RangeFault::Memory,
        }
    }
}

/// Why the log of an editor can't be printed.
#[derive(Clone, Copy, PartialEq, Eq, Debug, Error)]
pub enum LogFault {
    /// An undo step was dropped as the oldest since the editor was made.
    #[error("the oldest entries of the log are gone")]
    LogCut = 1,
    /// Memory ran out.
    #[error("out of memory")]
    Memory = 2,
}

impl From<AllocError> for LogFault {
    ghost use Rattle.std.specs.Prelude.{◌≡◌};
    ghost use Rattle.edit_engine.specs.declared.answers.LogFault.TheVariants.{Memory};

    ghost from_gives = { λ _ fault. fault ≡ Memory };

    fn from(_: AllocError) -> LogFault {
        LogFault::Memory
    }
}

/// Why a selection or a marker can't be set.
#[derive(Clone, Copy, PartialEq, Eq, Debug, Error)]
pub enum PlaceFault {
    /// A path names no node, or an offset is past its length.
    #[error("the document has no such place")]
    BadPlace = 1,
    /// There are 16 markers of other names.
    #[error("16 marks of other names are there already")]
    TooManyMarks = 2,
    /// Memory ran out.
    #[error("out of memory")]
    Memory = 3,
}

impl From<MarkFault> for PlaceFault {
    ghost use Rattle.edit_engine.specs.Faults.{place_fault};
    ghost use Rattle.std.specs.Prelude.{◌≡◌};

    ghost from_gives = { λ fault out. out ≡ place_fault fault };

    fn from(fault: MarkFault) -> PlaceFault {
        match fault {
            MarkFault::TooManyMarks => PlaceFault::TooManyMarks,
            MarkFault::Memory => PlaceFault::Memory,
        }
    }
}

/// The views of an editor.
#[derive(Drop)]
pub enum ViewKind {
    /// The HTML of the document.
    Html,
    /// A line for each node.
    Tree,
    /// The selection and the markers.
    Points,
    /// The counts of the document and of the history.
    Stat,
    /// The answers of the tests of nodes for the node at a path.
    Probe { path: Path },
}

/// Why a view of an editor can't be printed.
#[derive(Clone, Copy, PartialEq, Eq, Debug, Error)]
pub enum ViewFault {
    /// The path names no node.
    #[error("the document has no such node")]
    BadPlace = 1,
    /// Memory ran out.
    #[error("out of memory")]
    Memory = 2,
}

impl From<AllocError> for ViewFault {
    ghost use Rattle.std.specs.Prelude.{◌≡◌};
    ghost use Rattle.edit_engine.specs.declared.answers.ViewFault.TheVariants.{Memory};

    ghost from_gives = { λ _ fault. fault ≡ Memory };

    fn from(_: AllocError) -> ViewFault {
        ViewFault::Memory
    }
}
