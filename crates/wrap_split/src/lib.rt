//! Wrapping and splitting: the algorithms on line breaks and lists of siblings that the commands of
//! the W3C's *HTML Editing APIs* have in common, over a document under edits.
//!
//! Each call is proved to make one run of elementary edits, which its definition composes step by
//! step. The nodes of a list need only be held; those that have no parent, or another parent than
//! the first that has one, are left out of it.
#![tactic(auto)]

mod answers;
mod breaks;
mod filling;
mod listing;
mod rule;
mod siblings;
mod split;
mod target;
mod walks;
mod wrapping;

pub use answers::{
    CopyMade, IndentationSibling, NamedSibling, NoSibling, NothingMade, SameValueSibling,
    is_without_attributes,
};
pub use breaks::{breaks_at_end, breaks_before, breaks_from, last_below};
pub use command_value as values;
pub use command_value::{css, properties, styles};
pub use edit_actions as actions;
pub use edit_actions::doc::{Doc, EditFault, NodeList, NodeRef};
pub use edit_actions::{doc, document, questions};
pub use filling::{append_break, is_inline};
pub use listing::{break_next, first_visible};
pub use rule::{Blank, Criterion, Makes, Meets, Recipe, WrapRule};
pub use split::{is_void_thing, remove_keeping_children, split_around, split_parent};
pub use walks::turn_bound;
pub use wrapping::wrap;
