//! The laws of editing. Each is the contract of a function that does nothing, over every way that
//! actions lead from one state to another: the end of every run is reached so.

ghost use Rattle.edit_model.specs.Laws.{LabelsRise, ThingsStay, CapStaysPassed, EditsAreListed, NodesAreListed, EditsFollow, ValidStays, OutsideStays, CommandsAreConfined, IslandsLeave, IslandsStay, MarksStay, KeptStays, TailsArePossible, TailsEnd, TailsStay};

/// The next label never falls.
pub fn labels_rise()
    ensures { LabelsRise }
{}

/// A run past the cap stays past it.
pub fn cap_stays_passed()
    ensures { CapStaysPassed }
{}

/// A state has the changes of the edits that were made on the way to it, one for each.
pub fn edits_are_listed()
    ensures { EditsAreListed }
{}

/// And the nodes that were made on the way, as they were made.
pub fn nodes_are_listed()
    ensures { NodesAreListed }
{}

/// A run after another makes the edits of both, in order.
pub fn edits_follow()
    ensures { EditsFollow }
{}

/// Every action keeps a state valid.
pub fn valid_stays()
    ensures { ValidStays }
{}

/// What lies outside the affected host stays.
pub fn outside_stays()
    ensures { OutsideStays }
{}

/// A command that begins in a valid state changes nothing outside its affected host.
pub fn commands_are_confined()
    ensures { CommandsAreConfined }
{}

/// An island of the affected host keeps its tree, below the host or out of the document with a tree
/// that holds it.
pub fn islands_stay()
    ensures { IslandsStay }
{}

/// Where no state of contenteditable changes, an island leaves the document only below a root that
/// is editable or made.
pub fn islands_leave()
    ensures { IslandsLeave }
{}

/// A mark whose points both stand apart from the affected host stays where it is.
pub fn marks_stay()
    ensures { MarksStay }
{}

/// The structure of the trees allows each step of a tail that is extracted, though not all that
/// goes is editable.
pub fn tails_are_possible()
    ensures { TailsArePossible }
{}

/// The steps of a tail don't depend on how far they may nest.
pub fn tails_end()
    ensures { TailsEnd }
{}

/// Extracting a tail takes no node out of the document.
pub fn tails_stay()
    ensures { TailsStay }
{}

/// A command that keeps contents removes no tree with an image, a rule or a visible character.
pub fn kept_stays()
    ensures { KeptStays }
{}

/// A command that keeps contents loses no image and no rule of the document.
pub fn things_stay()
    ensures { ThingsStay }
{}
