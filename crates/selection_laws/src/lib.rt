//! The laws of commands that after each of them both points of the selection stand at or below the
//! host in which it ran. Each is the contract of a function that does nothing.
#![tactic(auto)]

mod blocks;
mod editing;
mod hosts;
mod inline;

pub use blocks::{
    format_block_stays, indent_stays, justify_stays, outdent_stays, toggle_lists_stays,
};
pub use editing::{
    delete_selection_stays, delete_stays, insert_horizontal_rule_stays, insert_image_stays,
    insert_line_break_stays, insert_paragraph_stays, insert_text_stays,
};
pub use hosts::{hosts_hold, hosts_of_pairs_hold};
pub use inline::{
    apply_value_stays, create_link_stays, remove_format_stays, restore_states_stays,
    toggle_script_stays, toggle_style_stays, unlink_stays,
};
