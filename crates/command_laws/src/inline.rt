//! The laws of the inline commands, and of what other commands take from them.

ghost use Rattle.command_laws.specs.Inline.{StylesKeepOrder, StylesAreSteady, ScriptsKeepOrder, ScriptsAreSteady, LinkingKeepsOrder, LinkingIsSteady, UnlinkKeepsOrder, UnlinkIsSteady, FormatGoesInOrder, FormatGoesSteady, ValuesKeepOrder, ValuesAreSteady, AncestorsAreFixedInOrder, AncestorsAreFixedSteady, StatesComeBackInOrder, StatesComeBackSteady};

/// Bold, italic, underline and strikethrough keep the order of characters, images and rules.
pub fn toggle_style_keeps_order()
    ensures { StylesKeepOrder }
{}

/// Bold, italic, underline and strikethrough give no node a state of contenteditable, and take none
/// away.
pub fn toggle_style_is_steady()
    ensures { StylesAreSteady }
{}

/// Subscript and superscript keep the order of characters, images and rules.
pub fn toggle_script_keeps_order()
    ensures { ScriptsKeepOrder }
{}

/// Subscript and superscript give no node a state of contenteditable, and take none away.
pub fn toggle_script_is_steady()
    ensures { ScriptsAreSteady }
{}

/// Making links keeps the order of characters, images and rules.
pub fn create_link_keeps_order()
    ensures { LinkingKeepsOrder }
{}

/// Making links gives no node a state of contenteditable, and takes none away.
pub fn create_link_is_steady()
    ensures { LinkingIsSteady }
{}

/// Unlink keeps the order of characters, images and rules.
pub fn unlink_keeps_order()
    ensures { UnlinkKeepsOrder }
{}

/// Unlink gives no node a state of contenteditable, and takes none away.
pub fn unlink_is_steady()
    ensures { UnlinkIsSteady }
{}

/// Removing the format keeps the order of characters, images and rules.
pub fn remove_format_keeps_order()
    ensures { FormatGoesInOrder }
{}

/// Removing the format gives no node a state of contenteditable, and takes none away.
pub fn remove_format_is_steady()
    ensures { FormatGoesSteady }
{}

/// Fonts, sizes and colours keep the order of characters, images and rules.
pub fn apply_value_keeps_order()
    ensures { ValuesKeepOrder }
{}

/// Fonts, sizes and colours give no node a state of contenteditable, and take none away.
pub fn apply_value_is_steady()
    ensures { ValuesAreSteady }
{}

/// Fixing disallowed ancestors keeps the order of characters, images and rules.
pub fn fix_ancestors_keeps_order()
    ensures { AncestorsAreFixedInOrder }
{}

/// Fixing disallowed ancestors gives no node a state of contenteditable, and takes none away.
pub fn fix_ancestors_is_steady()
    ensures { AncestorsAreFixedSteady }
{}

/// Restoring states and values keeps the order of characters, images and rules.
pub fn restore_states_keeps_order()
    ensures { StatesComeBackInOrder }
{}

/// Restoring states and values gives no node a state of contenteditable, and takes none away.
pub fn restore_states_is_steady()
    ensures { StatesComeBackSteady }
{}
