//! The laws of order: what algorithms that keep contents make of the characters, images and rules
//! of a document. Then which runs leave the states of contenteditable and the selection
//! (`Steady`). And what a command leaves, seen from outside commands: what lies outside its host,
//! the marks there, the islands, the kinds of nodes, and the selection.
#![tactic(auto)]

mod commands;
mod compositions;
mod in_host;
mod laws;
mod moves;
mod steady;

pub use commands::{
    islands_stay_at_rest, kinds_stay_at_rest, marks_stay_at_rest, order_stays_at_rest,
    outside_stays_at_rest, range_stays_in_host_at_rest, selection_stays_at_rest,
    selection_stays_in_host_at_rest,
};
pub use compositions::{split_texts_keep, tag_names_keep, unwraps_keep};
pub use in_host::{
    answers_stay, calm_acts_stay, chooses_stay, follows_stay, for_each_stays, given_stays,
    looks_stay, split_texts_stay, while_stays,
};
pub use laws::{
    bare_inserts_keep, keeping_stays, order_follows, order_preserving_acts,
    order_preserving_answers, order_preserving_chooses, order_preserving_follows,
    order_preserving_for_each, order_preserving_given, order_preserving_looks,
    order_preserving_new_elements, order_preserving_while, order_preserving_with_chooses,
    order_preserving_with_follows, order_preserving_with_given, order_preserving_with_inserts,
    order_preserving_with_looks, quiet_actions_keep,
};
pub use moves::{
    children_part, children_stay, first_children_go_before, first_children_go_over,
    last_children_go_after, moves_out_are_left_out, next_goes_over, next_siblings_go_in,
    next_takes_in, nodes_change_places, previous_siblings_go_in,
};
pub use steady::{
    split_texts_steady, steady_acts, steady_answers, steady_chooses, steady_copies, steady_follows,
    steady_for_each, steady_given, steady_looks, steady_while, tag_names_steady, unwraps_steady,
};
