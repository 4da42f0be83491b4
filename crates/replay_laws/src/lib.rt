//! That the log of an editor replays, whatever calls it had: its steps, and its text, on the page that
//! it began with. Each law is the contract of a function that does nothing.
#![tactic(auto)]

mod laws;

pub use laws::{
    clauses_are_calls, documents_read_back, lines_are_calls, log_texts_replay,
    logs_begin_with_the_page, logs_replay, session_logs_replay, sessions_read_back,
    steps_are_lines,
};
