//! Commands on blocks, as actions on a document under edits: between a command's begin and its end.
//! Each answers whether the command was taken (HTML Editing APIs, "action").
#![tactic(auto)]

mod aligned;
mod formatting;
mod gathered;
mod justifying;
mod lines;
mod names;
mod turns;

pub use formatting::format_block;
pub use gathered::{chosen_of, contained_in};
pub use justifying::justify;
pub use turns::{Turn, in_turns};
