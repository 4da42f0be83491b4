//! Commands that insert an object: a line break, a rule, an image. They are actions on a document
//! under edits: between a command's begin and its end. Each answers whether the command was taken
//! (HTML Editing APIs, "action").
//!
//! Each call is proved to make one run of elementary edits, which its definition composes step by
//! step.
#![tactic(auto)]

mod image;
mod line_break;
mod putting;
mod rule;

pub use image::insert_image;
pub use line_break::insert_line_break;
pub use rule::insert_horizontal_rule;
