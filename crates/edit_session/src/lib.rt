//! A session over any source and sink: an HTML page and the acts on it are read, and the answers
//! written.
//!
//! [`run_session`] takes the words of a command line: `run` reads a page and the acts on it,
//! `replay` a page and the steps of a log, and `check` a bare page; `bulk N` reads nothing, and
//! makes a session of its own. Its contract says what is written, and which status ends the run.
#![tactic(auto)]

mod acts;
mod block;
mod bulk;
mod denials;
mod laws;
mod replay;
mod reply;
mod session;
mod words;

pub use block::{PageBlock, after_line, line_end, read_block};
pub use denials::read_gate;
pub use laws::prefixes_answer;
pub use session::{Status, run_session};
pub use words::{Limits, Order, read_words};
