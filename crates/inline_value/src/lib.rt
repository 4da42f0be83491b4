//! The values of inline commands, changed: cleared, pushed down, forced, recorded and restored, and
//! set on the selection. These are the algorithms of the W3C's *HTML Editing APIs* that inline
//! commands, block commands and deletion share, over a document under edits.
//!
//! Each call is proved to make one run of elementary edits, which its definition composes step by
//! step.
#![tactic(auto)]

mod ancestors;
mod clearing;
mod forcing;
mod lineages;
mod overrides;
mod pushing;
mod recording;
mod reordering;
mod selections;
mod styling;
mod wrappers;

pub use ancestors::{
    container_name, fix_ancestors, has_place, is_description, is_prohibited, split_out,
};
pub use clearing::clear_value;
pub use edit_query as query;
pub use edit_query::{extend, node_place};
pub use forcing::force;
pub use overrides::{Override, Overrides, record_overrides, record_states};
pub use pushing::push_down;
pub use recording::{Value, Values, record_values, restore_values};
pub use reordering::reorder;
pub use selections::{editable_in_range, set_value, split_ends};
pub use styling::{set_style, unset_style};
pub use wrap_split as wrap;
pub use wrap_split::doc::{Doc, EditFault, NodeList, NodeRef};
pub use wrap_split::{actions, css, doc, document, properties, questions, styles, values};
pub use wrappers::bare;
