//! Tests of nodes that look at what stands round them: collapsed whitespace, line breaks that show
//! no line, what is visible, where blocks start and end, and what a range contains. The terms are
//! those of the W3C's *HTML Editing APIs* and of the DOM Standard. A test takes no memory; it walks
//! from node to node by links.
//!
//! The crate hands on the tests of `node_arena`, `node_styles` and `point_order`, so that a caller
//! has all tests of nodes in one place.
#![tactic(auto)]

mod affected;
mod block_points;
mod breaks;
mod listing;
mod neighbours;
mod props;
mod ranges;
mod sides;
mod visible;
mod whitespace;

pub use affected::{affected_host, editing_host};
pub use block_points::{
    child_at, child_before, ends_before, is_block_boundary, is_block_end, is_block_start, is_root,
    starts_after,
};
pub use breaks::{follows_break, precedes_break};
pub use listing::{contained_nodes, effective_nodes};
pub use neighbours::{is_collapsed_break, is_extraneous_break, is_words};
pub use node_styles as styles;
pub use node_styles::arena::{has_name, is_break, is_image};
pub use node_styles::{
    allowed_in, allowed_in_name, element_names, is_block, is_editable, is_element,
    is_format_candidate, is_formattable_block, is_host, is_indentation, is_non_list_single_line,
    is_simple_indentation, is_single_line, is_whitespace, name_allowed_in, resolved,
};
pub use point_order as boundary;
pub use point_order::{dom_ranges, is_ancestor, is_within};
pub use props::is_block_prop;
pub use ranges::{is_contained, is_effectively_contained};
pub use visible::{is_formattable, is_visible};
pub use whitespace::is_collapsed_whitespace;
