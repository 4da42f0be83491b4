//! Commands on links and inline values, as actions on a document under edits: between a command's
//! begin and its end. Each answers whether the command was taken (HTML Editing APIs, "action").
//!
//! Each call is proved to make one run of elementary edits, which its definition composes step by
//! step. A call that takes a command answers false to one that it isn't for.
#![tactic(auto)]

mod clearing;
mod formats;
mod linking;
mod links;
mod ranges;
mod restoring;
mod toggling;
mod values;

pub use clearing::unlink;
pub use formats::remove_format;
pub use inline_value::split_ends;
pub use linking::create_link;
pub use restoring::restore_states;
pub use toggling::{toggle_script, toggle_style};
pub use values::apply_value;
