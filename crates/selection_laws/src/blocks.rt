//! The laws of the commands on blocks and lists.

ghost use Rattle.selection_laws.specs.Commands.{BlocksStay, JustifyingStays, IndentStays, OutdentStays, ListTogglesStay};

/// Formatting blocks leaves the selection at or below the host.
pub fn format_block_stays()
    ensures { BlocksStay }
{}

/// Justifying does.
pub fn justify_stays()
    ensures { JustifyingStays }
{}

/// Indent does.
pub fn indent_stays()
    ensures { IndentStays }
{}

/// Outdent does.
pub fn outdent_stays()
    ensures { OutdentStays }
{}

/// Toggling lists does.
pub fn toggle_lists_stays()
    ensures { ListTogglesStay }
{}
