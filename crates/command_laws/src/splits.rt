//! The laws of splitting the parent of a list, and of removing a node while its children stay.

ghost use Rattle.command_laws.specs.SplitLaws.{ParentsSplit, ParentOfOneSplits, NodesGoAndChildrenStay, SplitsSteady};

/// Splitting the parent of a list keeps the order of characters, images and rules, where the list
/// has consecutive children of a node.
pub fn parents_split()
    ensures { ParentsSplit }
{}

/// Splitting the parent of one node keeps that order.
pub fn parent_of_one_splits()
    ensures { ParentOfOneSplits }
{}

/// Removing a node while its children stay keeps that order.
pub fn nodes_go_and_children_stay()
    ensures { NodesGoAndChildrenStay }
{}

/// Splitting the parent of a list gives no node a state of contenteditable, and takes none away.
pub fn splits_steady()
    ensures { SplitsSteady }
{}
