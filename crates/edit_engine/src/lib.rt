//! An editor of a document: commands, questions about them, the selection and marks, undo and redo,
//! and what is printed.
//!
//! A command (HTML Editing APIs, "execCommand()") is taken whole or not at all. Contracts see an
//! editor as the state of its document, the history of views that undo and redo go through, and the
//! nodes that are held.
#![tactic(auto)]

mod actions;
mod answers;
mod commands;
mod editor;
mod following;
mod going;
mod laws;
mod log;
mod places;
mod probe;
mod queries;
mod texts;
mod turning;
mod views;

pub use answers::{Answer, ExecFault, LogFault, PlaceFault, RangeFault, ViewFault, ViewKind};
pub use editor::{Editor, ExecOptions};
pub use inline_value::query::Reply;
pub use laws::{
    gone_labels_stay, history_is_ignored, locked_span_is_island, refusals_leave_the_state,
    runs_are_plain,
};
pub use turning::Turn;
