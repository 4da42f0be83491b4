//! Questions about commands (HTML Editing APIs, "queryCommandIndeterm()", "queryCommandState()",
//! "queryCommandValue()"), as a running command asks them: with its editing host, and without a
//! look at whether the command asked for is supported or enabled.
//!
//! Inline commands are asked of the formattable nodes in the active range, formatBlock and the
//! justify commands of the visible editable nodes without children in the block-extended one, and
//! the list commands of the list members of that. A question costs the nodes from the start to the
//! end of that range, those above them, and the children of these; its list of nodes takes memory,
//! and so does a text.
#![tactic(auto)]

mod block_types;
mod carets;
mod formattable;
mod gathered;
mod inside;
mod leaves;
mod list_states;
mod listed;
mod queries;
mod reply;
mod rows;
mod sought;

pub use block_extend as extend;
pub use block_extend::node_place;
pub use carets::is_caret;
pub use formattable::{first_formattable, formattable_nodes};
pub use gathered::{extended, outermost};
pub use inside::is_editable_inside;
pub use leaves::nodes_in;
pub use list_states::{ListState, is_child_of, is_list_of, list_members, list_name, list_state};
pub use queries::{query, query_state, query_value};
pub use reply::{Reply, no_reply};
pub use rows::{container_bytes, legacy_text};
