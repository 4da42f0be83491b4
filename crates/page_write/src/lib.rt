//! Writes a document as HTML, as a listing of its nodes, and the points that are kept in it.
#![tactic(auto)]

mod html;
mod listing;
mod points;

pub use escaped_text as escapes;
pub use html::{push_start_tag, write_html};
pub use html_names as element_names;
pub use listing::write_tree;
pub use live_range as dom_ranges;
pub use node_paths as node_place;
pub use points::write_points;
