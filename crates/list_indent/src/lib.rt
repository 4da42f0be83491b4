//! Indenting and outdenting: lists and indentation elements come to stand around lines of a
//! document under edits, and go again. These are the algorithms on lists of the W3C's *HTML Editing
//! APIs*, and the commands indent and outdent.
//!
//! Each call is proved to make one run of elementary edits, which its definition composes step by
//! step.
#![tactic(auto)]

mod commands;
mod gathering;
mod indenting;
mod levels;
mod lists;
mod outdenting;
mod sublists;

pub use commands::{indent, normalize_each, normalize_range, outdent, split_items};
pub use gathering::{has_editable_below, push_items};
pub use indenting::{fix, indent_list};
pub use lists::{is_in_list, is_item, is_list};
pub use outdenting::outdent_node;
pub use sublists::normalize_sublists;
