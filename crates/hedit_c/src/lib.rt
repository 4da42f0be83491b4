//! hedit for programs in C and in languages that call C: a static library.
//!
//! Each export calls a function of the crates below, and states its clauses again. What crosses is
//! numbers, slices, each of them a pointer and a length, and an editor's handle.
#![tactic(auto)]

mod editor;
mod reading;
mod session;
