//! The laws of commands, and of the algorithms that they share, each the contract of a function
//! that does nothing.
#![tactic(auto)]

mod blocks;
mod deletion;
mod indents;
mod inline;
mod line_breaks;
mod list_toggles;
mod objects;
mod splits;
mod typing;
mod wraps;

pub use blocks::{
    format_block_is_steady, format_block_keeps_order, justify_is_steady, justify_keeps_order,
};
pub use deletion::{delete_is_steady, delete_selection_is_steady};
pub use indents::{indent_is_steady, indent_keeps_order, outdent_is_steady, outdent_keeps_order};
pub use inline::{
    apply_value_is_steady, apply_value_keeps_order, create_link_is_steady, create_link_keeps_order,
    fix_ancestors_is_steady, fix_ancestors_keeps_order, remove_format_is_steady,
    remove_format_keeps_order, restore_states_is_steady, restore_states_keeps_order,
    toggle_script_is_steady, toggle_script_keeps_order, toggle_style_is_steady,
    toggle_style_keeps_order, unlink_is_steady, unlink_keeps_order,
};
pub use line_breaks::{breaks_at_end_go, breaks_before_go, breaks_from_go};
pub use list_toggles::{toggle_lists_is_steady, toggle_lists_keeps_order};
pub use objects::{
    insert_horizontal_rule_is_steady, insert_image_is_steady, insert_line_break_is_steady,
};
pub use splits::{nodes_go_and_children_stay, parent_of_one_splits, parents_split, splits_steady};
pub use typing::{insert_paragraph_is_steady, insert_text_is_steady};
pub use wraps::{lists_wrap, one_wraps, taken_wrap, wraps_steady};
