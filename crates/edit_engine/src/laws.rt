//! The laws of commands. Each is the contract of a function that does nothing.

ghost use Rattle.edit_engine.specs.Independence.{HistoryIsIgnored};
ghost use Rattle.edit_engine.specs.KeptLabels.{StayGone};
ghost use Rattle.edit_engine.specs.PlainRuns.{RunsArePlain};
ghost use Rattle.edit_engine.specs.Refusals.{RefusalsLeave};
ghost use Rattle.edit_engine.specs.WorkedIslands.{LockedSpanIsIsland};

/// States that a command's action that answers false leaves the state as it was, so that rolling
/// the command back loses nothing.
pub fn refusals_leave_the_state()
    ensures { RefusalsLeave }
{}

/// States of `<div contenteditable=""><p>a<span contenteditable="false">i</span></p></div>` with a
/// caret in the first text node: the affected host is the `div`, and the `span` is an island of it.
pub fn locked_span_is_island()
    ensures { LockedSpanIsIsland }
{}

/// States that an algorithm makes only elements and text nodes, and changes the characters of text
/// nodes only.
pub fn runs_are_plain()
    ensures { RunsArePlain }
{}

/// States that a command doesn't depend on the history: in two editors in one state it fails in
/// both for one cause, or answers the same and leaves both in one state.
pub fn history_is_ignored()
    ensures { HistoryIsIgnored }
{}

/// States that if no document that undo and redo lead to has a node of a label, and no edit of a
/// kept undo step names it, this holds after undo and redo too.
pub fn gone_labels_stay()
    ensures { StayGone }
{}
