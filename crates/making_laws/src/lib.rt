//! The laws of what commands bring into a document: the names of the elements that they make and of
//! the attributes that they set, and the characters of its texts. Each is the contract of a function
//! that does nothing.
#![tactic(auto)]

mod blocks;
mod inline;
mod insertion;
mod known;
mod lists;

pub use blocks::{format_block_is_tame, justify_is_tame};
pub use inline::{
    apply_value_is_tame, create_link_is_tame, fix_ancestors_is_tame, remove_format_is_tame,
    restore_states_is_tame, toggle_script_is_tame, toggle_style_is_tame, unlink_is_tame,
};
pub use insertion::{
    delete_is_tame, insert_horizontal_rule_is_tame, insert_image_is_tame,
    insert_line_break_is_tame, insert_paragraph_is_tame, insert_text_is_tame,
};
pub use known::{commands_make_known, known_stays, none_comes, own_are_known};
pub use lists::{indent_is_tame, outdent_is_tame, toggle_lists_is_tame};
