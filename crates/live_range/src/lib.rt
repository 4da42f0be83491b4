//! The live points of a document: the selection, named marks and one scratch pair, each a pair of
//! points that edits of the tree move along (DOM Standard, "live ranges").
//!
//! A point names its node by the node's label and says an offset in it. The crate knows no tree:
//! after each edit the caller says what the edit was, by the labels of the nodes that it touched.
//! An edit that takes a node from one place to another is one call of its own, since the points
//! inside the node and at both sides of it go along.
#![tactic(auto)]

mod adjust;
mod listing;
mod marks;
mod names;
mod nodes;
mod pairs;
mod places;
mod points;
mod rows;
mod standing;

pub use places::{MarkPlace, Pair, Places, Point};
pub use points::{MarkFault, Points};
pub use standing::Labels;
