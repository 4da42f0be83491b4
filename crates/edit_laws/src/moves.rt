//! The laws of order of loops of moves, each the contract of a function that does nothing. Of a
//! loop all moves are made or none, and the order is kept either way.

ghost use Rattle.edit_laws.specs.MoveLaws.{FirstChildrenGoBefore, LastChildrenGoAfter, FirstChildrenGoOver, NextSiblingsGoIn, PreviousSiblingsGoIn, NextGoesOver, NextTakesIn, NodesChangePlaces, MovesOutAreLeftOut, ChildrenPart, ChildrenStay};

/// The first children of a bare node go to just before it.
pub fn first_children_go_before()
    ensures { FirstChildrenGoBefore }
{}

/// The last children of a node go to just after it.
pub fn last_children_go_after()
    ensures { LastChildrenGoAfter }
{}

/// The first children of a bare node go to the end of the sibling just before it.
pub fn first_children_go_over()
    ensures { FirstChildrenGoOver }
{}

/// The siblings just after a node go to its end.
pub fn next_siblings_go_in()
    ensures { NextSiblingsGoIn }
{}

/// The siblings just before a bare node go to its front.
pub fn previous_siblings_go_in()
    ensures { PreviousSiblingsGoIn }
{}

/// A node goes over the one before it, whose tree bears nothing.
pub fn next_goes_over()
    ensures { NextGoesOver }
{}

/// A node goes to the end of the one after it, whose tree bears nothing.
pub fn next_takes_in()
    ensures { NextTakesIn }
{}

/// A bare node comes out from below another one, to just after it, and takes it in.
pub fn nodes_change_places()
    ensures { NodesChangePlaces }
{}

/// Any nodes go to the end of a node that is not in the document.
pub fn moves_out_are_left_out()
    ensures { MovesOutAreLeftOut }
{}

/// The first children of a bare node go to a made one before it, and those after them to just
/// before the node.
pub fn children_part()
    ensures { ChildrenPart }
{}

/// None of them goes where the made one isn't in the document and the node's parent isn't open.
pub fn children_stay()
    ensures { ChildrenStay }
{}
