//! Extracting a tail is one action here, and single edits in the standard. It keeps the order of what
//! the document bears.

ghost use Rattle.caret_laws.specs.TailLaws.{TailsAreSingleEdits, TailsOfNothing, TailsAreRuns, TailsKeepOrder};

/// Where a tail may be extracted, the action is the single edits of the standard, and none of them
/// is left out.
pub fn tails_are_single_edits()
    ensures { TailsAreSingleEdits }
{}

/// Where the point stands outside the node whose tail it would begin, both leave everything as it
/// is.
pub fn tails_of_nothing()
    ensures { TailsOfNothing }
{}

/// Where each node that goes may be removed by itself, as where no island goes along, a run of
/// edits with the tests that they have everywhere ends in the same state.
pub fn tails_are_runs()
    ensures { TailsAreRuns }
{}

/// Where the target stands just after the node, without children, and bears nothing, and no image
/// or rule holds the point, the document bears the same afterwards, in the same order.
pub fn tails_keep_order()
    ensures { TailsKeepOrder }
{}
