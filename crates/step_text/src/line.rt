//! The steps that lines stand for.

ghost use Rattle.std.specs.Prelude.{◌≡◌};

use page_grammar::dom::{Attributes, Chars, Name};
use std::alloc::AllocError;
use thiserror::Error;

/// What a node is made with.
#[derive(Drop)]
pub enum Made {
    Element { name: Name, attributes: Attributes },
    Words { words: Chars },
}

/// A step of a log, as one line stands for it. Nodes are named by their labels, and `before` is the
/// child before which a node goes, or nothing for the end.
#[derive(Drop)]
pub enum StepLine {
    /// A new entry begins.
    Entry,
    /// A loose node is made.
    Make {
        label: u32,
        made: Made,
    },
    /// A loose tree goes under a parent.
    Insert {
        label: u32,
        parent: u32,
        before: Option<u32>,
    },
    /// A tree becomes loose.
    Remove {
        label: u32,
    },
    /// A tree goes to another place, where `before` is found with the tree taken out.
    Move {
        label: u32,
        parent: u32,
        before: Option<u32>,
    },
    /// A text node has these characters now.
    Words {
        label: u32,
        words: Chars,
    },
    /// An element has these attributes now; the name is its own.
    Tag {
        label: u32,
        name: Name,
        attributes: Attributes,
    },
}

/// Why a line isn't read, or a step isn't applied.
#[derive(Clone, Copy, PartialEq, Eq, Debug, Error)]
pub enum StepFault {
    /// The line isn't one of a step.
    #[error("the line is no step")]
    Syntax = 1,
    /// A label that is drawn already or isn't below the cap, or one that no node has.
    #[error("the label is taken, unknown or not below the cap")]
    BadLabel = 2,
    /// A node that can't go there, or isn't of the kind.
    #[error("the node can't go there, or isn't of the kind")]
    BadPlace = 3,
    /// The document would be too deep.
    #[error("the document would be too deep")]
    TooDeep = 4,
    /// There is no memory for it.
    #[error("out of memory")]
    Memory = 5,
}

impl From<AllocError> for StepFault {
    ghost use Rattle.step_text.specs.declared.line.StepFault.TheVariants.{Memory};

    ghost from_gives = { λ _ fault. fault ≡ Memory };

    fn from(_fault: AllocError) -> StepFault {
        StepFault::Memory
    }
}
