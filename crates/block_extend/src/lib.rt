//! The block-extended range, and the nodes of a range that a block command goes over. The terms are
//! those of the W3C's *HTML Editing APIs*. Block extension takes no memory; it goes from place to
//! place by links.
#![tactic(auto)]

mod descendants;
mod extending;
mod fitting;
mod gathering;
mod places;
mod prohibited;
mod series;

pub use descendants::{begins_with, has_descendant};
pub use extending::block_extend;
pub use fitting::{allowed_in_div, allowed_in_item, allowed_in_span};
pub use gathering::{Choice, gather_in};
pub use node_paths as node_place;
pub use node_tests as questions;
pub use prohibited::{is_above_prohibited, is_prohibited};
pub use series::{Link, count_series, is_next};
