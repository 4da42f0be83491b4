//! What the algorithms of editing commands have in common, over a document under edits: lists of
//! siblings, moves and insertions beside a node, copies of an element's name and attributes, and
//! the ends and the host of the active range.
//!
//! Tests that only read are those of `node_tests`; the edits themselves are calls of [`Doc`].
#![tactic(auto)]

mod active_range;
mod elements;
mod moves;
mod siblings;

pub use active_range::{affected_host, ends_of};
pub use edit_doc as doc;
pub use edit_doc::{Doc, EditFault, NodeRef, document};
pub use elements::{attributes_of, tag_of};
pub use moves::{
    insert_after, insert_before, make_break, move_after, move_all_after, move_all_before,
    move_all_first, move_before, move_first, unwrap,
};
pub use node_tests as questions;
pub use siblings::{children_before, ends_in, first_parent, is_among, is_same, members, starts_in};
