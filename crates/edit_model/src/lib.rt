//! The definitions of editing: the state of a document under edits, the edits and which of them are
//! made, runs of an algorithm over the state, and the history that undo goes through. The code is a
//! few plain types; what is defined stands in specs/, and laws of the definitions are the contracts
//! of functions that do nothing.
//!
//! The state is a labelled nested list with its live points (DOM Standard, "live ranges"), the
//! overrides of commands and the flags (HTML Editing APIs), and what is known of the running
//! command.
#![tactic(auto)]

ghost use Rattle.std.specs.Prelude.{◌≡◌};

mod laws;
mod settings;

pub use html_names as element_names;
pub use laws::{
    cap_stays_passed, commands_are_confined, edits_are_listed, edits_follow, islands_leave,
    islands_stay, kept_stays, labels_rise, marks_stay, nodes_are_listed, outside_stays,
    tails_are_possible, tails_end, tails_stay, things_stay, valid_stays,
};
pub use point_order as boundary;
pub use point_order::{arena, dom, dom_ranges, stepping};
pub use settings::{EditFault, Flags, Setting};
