//! The log of an editor as text: one line a step, read, printed, and applied to the nodes of a
//! page.
#![tactic(auto)]

mod apply;
pub mod laws;
mod line;
mod names;
mod print;
mod read;
mod replay;
mod room;
mod tag;

pub use apply::apply_step;
pub use edit_parts as parts;
pub use edit_parts::model;
pub use laws::lines_have_one_step;
pub use line::{Made, StepFault, StepLine};
pub use page_grammar::dom::{Attributes, Chars, Name};
pub use page_write as writer;
pub use page_write::{dom_ranges, element_names, escapes};
pub use print::{print_step, push_step};
pub use read::read_step;
pub use replay::Replay;
pub use script_read as script;
