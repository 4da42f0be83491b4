//! A gate before the commands of an editor: a host program may deny commands by their names. Case
//! doesn't matter.
//!
//! A gate holds a question, which is of a type that tells, to contracts alone, what it answers, and
//! whose method is proved to answer it. That it answers true exactly for the names of the policy is
//! asked where the gate is made, and kept by the gate.
#![tactic(auto)]

mod gate;
mod names;

pub use gate::{Asks, Gate, Policy};
pub use names::NameList;
