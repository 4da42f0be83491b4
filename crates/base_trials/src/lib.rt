//! Tests of the libraries below pages and documents, of what no session of the program shows:
//! sources and sinks that fail, the calls of an undo log in any order, points that follow single
//! edits, tables of names, and what faults print. They stand in a crate of their own, since a crate
//! with tests is proved twice.
//!
//! A module a library or two: `names` for `html_names`, `streams` for `edit_io`, `points` for
//! `live_range`, `logs` for `undo_log`, `faults` for what the faults of all of them print. `rows`
//! names the row of a table that is not met.
//!
//! The proof that a value is let go is made again on each way out of the function that owns it, and
//! of points it takes long. So a function here owns one such value, calls what is tested by
//! reference, and ends on one way; the tests answer whether all is as it should.
#![tactic(auto)]

#[cfg(test)]
mod tests;
