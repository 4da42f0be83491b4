//! Steps of an undo log over an arena, told as edits of its document alone (crate `document_edits`,
//! which says how a change is told), to one who looks on as they are applied.
#![tactic(auto)]

mod recorder;
mod splicing;
mod telling;
mod trees;

pub use document_edits as document;
pub use edit_steps as steps;
pub use edit_steps::history;
pub use recorder::EditRecorder;
pub use splicing::spliced_words;
pub use trees::copy_content;
