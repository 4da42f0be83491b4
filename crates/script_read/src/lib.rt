//! Lines of a session, read into acts. [`read_line`] is the whole grammar, and [`read_number`] that
//! of its numbers.
#![tactic(auto)]

mod act;
mod laws;
mod line;
mod parts;
mod place;
mod value;
mod verb;

pub use act::{Act, LineFault, Path, Place};
pub use dom_model as dom;
pub use laws::printed_texts_are_read_back;
pub use line::read_line;
pub use parts::{cut, is_name, read_number};
pub use value::read_printed;
pub use verb::Verb;
