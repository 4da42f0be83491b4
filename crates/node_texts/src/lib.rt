//! What is written of nodes: the path to a node, its HTML and its plain text, and where characters
//! occur in it.
#![tactic(auto)]

mod between;
mod html;
mod occurrences;
mod plain;
mod walk;
mod ways;

pub use html::{node_html, range_html};
pub use node_styles as styles;
pub use node_styles::{css, properties};
pub use occurrences::find;
pub use plain::{plain_text, range_text};
pub use ways::path_of;
