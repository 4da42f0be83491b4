//! Inverse edits of an arena, as the steps of an undo log: each takes back one edit, and once it is
//! applied it is the step that makes the edit again.
//!
//! A step is a change of the labelled nested list that a contract sees of an arena. What changes do
//! to forests that have more or fewer trees is stated in [`laws`].
#![tactic(auto)]

pub mod laws;
mod splice;
mod step;

pub use forest_changes::history;
pub use node_arena as arena;
pub use splice::Splice;
pub use step::Step;
