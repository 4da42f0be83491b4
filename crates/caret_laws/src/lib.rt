//! What commands at a caret make of a document, and that an algorithm which is one action here is
//! the single edits of the standard. Each law is the contract of a function that does nothing.
#![tactic(auto)]

mod erasing;
mod images;
mod line_breaks;
mod paragraphs;
mod rules;
mod tails;
mod typing;

pub use erasing::erasing_keeps;
pub use images::insert_image_adds;
pub use line_breaks::{insert_line_break_keeps, line_breaks_keep};
pub use paragraphs::{
    insert_paragraph_keeps, paragraphs_extract_singly, parting_keeps, parts_extract_singly,
};
pub use rules::{fitting_rules_spare, insert_horizontal_rule_adds};
pub use tails::{tails_are_runs, tails_are_single_edits, tails_keep_order, tails_of_nothing};
pub use typing::{insert_char_adds, insert_line_feed_keeps, insert_text_adds, insert_text_keeps};
