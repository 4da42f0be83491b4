//! The values that inline commands have at a node, and the elements that such commands may change.
//! The terms are those of the W3C's *HTML Editing APIs*: a value is a text or null. Only the calls
//! that answer texts take memory.
#![tactic(auto)]

mod alignments;
mod effective_values;
mod equivalence;
mod matching;
mod modifiable;
mod specified_values;
mod subject;
mod value;
mod worked_values;

pub use alignments::alignment;
pub use effective_values::{effective, effective_value, is_link};
pub use equivalence::{alike, equivalent};
pub use matching::{has_alike_value, is_activated, meets_value, specifies, specifies_other};
pub use modifiable::{
    is_modifiable, is_modifiable_element, is_simple_modifiable, is_simple_modifiable_element,
};
pub use node_styles as styles;
pub use node_styles::{css, properties};
pub use specified_values::{specified, specified_value};
pub use subject::{Subject, relevant_property, subject_of};
pub use value::Value;
pub use worked_values::{bold_values, script_values, size_values};
