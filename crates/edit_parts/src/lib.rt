//! The parts of a document under edits that look at its trees and its live points alone: the
//! numbers of a tree and what it bears, what edits replace of contents, how the points follow an
//! edit, and the overrides, which are unset where the active range changes.
#![tactic(auto)]

mod following;
mod overrides;
mod texts;
mod trees;

pub use edit_model as model;
pub use edit_model::boundary;
pub use following::{
    Removal, add_counts, adjust_inserted, adjust_moved, moving_from, removal_of, stands_at,
    take_counts,
};
pub use overrides::{
    ActiveRange, Watch, copy_overrides, no_overrides, place_of, unset_overrides,
    unset_overrides_if_range_changed, watch_range,
};
pub use texts::{TextPart, fault_of, has_value, replaced_part, tail_of};
pub use trees::{has_no_kept_leaves, is_in_document, tree_counts};

/// How many nodes and characters a tree has; only the characters of texts count. `depth` is its
/// height: how deep its deepest node is below its root. Of a document under edits it is a bound on
/// that.
#[derive(Clone, Copy, PartialEq, Eq, Debug)]
pub struct Counts {
    pub nodes: u32,
    pub chars: u64,
    pub depth: u32,
}
