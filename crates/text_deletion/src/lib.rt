//! The command delete, as an action on a document under edits: between a command's begin and its
//! end. It answers whether the command was taken (HTML Editing APIs, "action"). The actions of
//! insertText and insertParagraph are handed on from `text_insertion`.
//!
//! Each call is proved to make one run of elementary edits, which its definition composes step by
//! step.
#![tactic(auto)]

mod approach;
mod deleting;
mod entries;
mod erasing;
mod joining;
mod outdents;
mod places;

pub use deleting::delete;
pub use text_insertion::{insert_paragraph, insert_text};
