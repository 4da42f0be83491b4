//! Toggling lists: the lines of the active range become items of ordered or unordered lists, or
//! leave them. This is the algorithm of the commands insertOrderedList and insertUnorderedList of
//! the W3C's *HTML Editing APIs*, over a document under edits.
//!
//! The call is proved to make one run of elementary edits, which its definition composes step by
//! step.
#![tactic(auto)]

mod collecting;
mod converting;
mod ranges;
mod toggling;

pub use inline_value::doc::{Doc, EditFault};
pub use toggling::{ListKind, toggle_lists};
