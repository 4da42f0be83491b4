//! What HTML and its editing commands say of names alone, in tables. The name of an element or of a
//! style property is in lower case.
#![tactic(auto)]

mod activated;
mod boxes;
mod children;
mod commands;
mod elements;
mod query;

pub use activated::activated_values;
pub use boxes::{box_names, is_box_name, is_margin_name};
pub use children::allowed_child;
pub use commands::Command;
pub use elements::{
    has_inline_contents, is_formattable_block, is_heading, is_non_list_single_line_container,
    is_prohibited_child, is_remove_format_candidate, is_single_line_container, is_supported,
    is_void,
};
pub use query::QueryKind;
