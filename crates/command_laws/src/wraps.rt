//! The laws of wrapping a list.

ghost use Rattle.command_laws.specs.WrapLaws.{ListsWrap, TakenWrap, OneWraps, WrapsSteady};

/// Wrapping a list keeps the order of characters, images and rules, where the list has consecutive
/// children of a node, and neither a name that a criterion wants nor that of a new element is img
/// or hr.
pub fn lists_wrap()
    ensures { ListsWrap }
{}

/// Wrapping a list keeps that order, where the nodes that are taken of it are consecutive children
/// of a node.
pub fn taken_wrap()
    ensures { TakenWrap }
{}

/// Wrapping one node keeps that order.
pub fn one_wraps()
    ensures { OneWraps }
{}

/// Wrapping a list gives no node a state of contenteditable, and takes none away, where a new
/// element has none.
pub fn wraps_steady()
    ensures { WrapsSteady }
{}
