//! Inserting text and paragraphs, as actions on a document under edits: between a command's begin
//! and its end. Each answers whether the command was taken (HTML Editing APIs, "action").
//!
//! Each call is proved to make one run of elementary edits, which its definition composes step by
//! step.
#![tactic(auto)]

mod containers;
mod entries;
mod halves;
mod lines;
mod paragraph;
mod start;
mod typing;

pub use entries::{is_entry, rename_stray};
pub use inline_value::doc::{Doc, EditFault, NodeRef};
pub use paragraph::insert_paragraph;
pub use start::{cuts_text, erase, has_chars, insert_at_start, start_inside};
pub use typing::insert_text;
