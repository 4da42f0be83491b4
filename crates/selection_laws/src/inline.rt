//! The laws of the inline commands.

ghost use Rattle.selection_laws.specs.Commands.{StylesStay, ScriptsStay, LinkingStays, UnlinkStays, FormatGoes, ValuesStay, StatesComeBack};

/// Bold, italic, underline and strikethrough leave the selection at or below the host.
pub fn toggle_style_stays()
    ensures { StylesStay }
{}

/// Subscript and superscript do.
pub fn toggle_script_stays()
    ensures { ScriptsStay }
{}

/// Making a link does.
pub fn create_link_stays()
    ensures { LinkingStays }
{}

/// Unlink does.
pub fn unlink_stays()
    ensures { UnlinkStays }
{}

/// Removing the format does.
pub fn remove_format_stays()
    ensures { FormatGoes }
{}

/// The commands that set a font, a size or a colour do.
pub fn apply_value_stays()
    ensures { ValuesStay }
{}

/// Restoring states and values does.
pub fn restore_states_stays()
    ensures { StatesComeBack }
{}
