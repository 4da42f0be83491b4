//! The laws of commands, seen from outside commands, each the contract of a function that does
//! nothing.

ghost use Rattle.edit_laws.specs.CommandsAtRest.{OutsideStays, MarksStay, IslandsStay, OrderStays, KindsStay, SelectionStays, SelectionStaysInHost, RangeStaysInHost};

/// What lies outside the host stays.
pub fn outside_stays_at_rest()
    ensures { OutsideStays }
{}

/// A mark whose points both stand apart from the host stays where it is.
pub fn marks_stay_at_rest()
    ensures { MarksStay }
{}

/// An island stays below the host with its tree, or it goes with a tree whose root is editable or
/// made by the command.
pub fn islands_stay_at_rest()
    ensures { IslandsStay }
{}

/// Where the order of the document is kept, that of what is below the host is.
pub fn order_stays_at_rest()
    ensures { OrderStays }
{}

/// A node that stays keeps its kind, and an element its name. Every other node of the document has
/// a label that the command drew.
pub fn kinds_stay_at_rest()
    ensures { KindsStay }
{}

/// A selection stays one, where no action of the command gives it up.
pub fn selection_stays_at_rest()
    ensures { SelectionStays }
{}

/// The points of the selection stay at or below the host, where the command's run leaves them
/// there.
pub fn selection_stays_in_host_at_rest<A>()
    ensures { SelectionStaysInHost A }
{}

/// So they do where the command first selects a range that stands there.
pub fn range_stays_in_host_at_rest<A>()
    ensures { RangeStaysInHost A }
{}
