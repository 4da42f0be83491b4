//! The tests of nodes, over the nodes of a page and over those of a document under edits.

mod breaks;
mod loose;
mod ranges;
