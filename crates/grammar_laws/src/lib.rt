//! The laws of the names and characters that commands bring into a document: they are those of the
//! grammar of pages. Each is the contract of a function that does nothing.
#![tactic(auto)]

mod runs;

pub use runs::{
    block_runs_are_proper, inline_runs_are_proper, insertion_runs_are_proper, runs_stay_proper,
};
