//! Deleting: canonical whitespace, equivalent points, and deleting the selection (W3C, *HTML
//! Editing APIs*), over a document under edits.
//!
//! Each call is proved to make one run of elementary edits, which its definition composes step by
//! step.
#![tactic(auto)]

mod blanks;
mod deletion;
mod ends;
mod equivalent;
mod erasing;
mod inner;
mod laying;
mod lines;
mod lists;
mod merging;
mod outer;
mod places;
mod scanning;
mod spaces;
mod stepping;
mod trimming;
mod whitespace;

pub use deletion::{Manner, delete_selection};
pub use ends::{canonicalize_end, canonicalize_start, collapse_selection, select};
pub use equivalent::{first_equivalent, last_equivalent};
pub use erasing::shows_child;
pub use inline_value::Overrides;
pub use inline_value::doc::{Doc, EditFault, Point};
pub use merging::fill_empty;
pub use places::{after_node, before_node, child_at, child_before, end_in, start_in};
pub use spaces::canonical_spaces;
pub use whitespace::canonicalize;
