//! The laws of what commands and questions don't look at: the marks, the history and the cap. Each
//! is the contract of a function that does nothing.
#![tactic(auto)]

mod editors;
mod runs;

pub use editors::{
    caps_only_refuse, marks_are_ignored, marks_are_ignored_at_ranges,
    marks_are_ignored_where_denied, questions_ignore_marks,
};
pub use runs::{actions_ignore_marks, commands_ignore_marks};
