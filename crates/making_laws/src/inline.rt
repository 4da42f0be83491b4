//! The laws of the inline commands, and of what other commands take from them.

ghost use Rattle.making_laws.specs.Inline.{StylesAreTame, ScriptsAreTame, LinkingIsTame, UnlinkIsTame, FormatGoesTame, ValuesAreTame, AncestorsAreFixedTame, StatesComeBackTame};

/// Bold, italic, underline and strikethrough make known elements alone, and set no attributes but
/// those that commands set.
pub fn toggle_style_is_tame()
    ensures { StylesAreTame }
{}

/// So it is with subscript and superscript.
pub fn toggle_script_is_tame()
    ensures { ScriptsAreTame }
{}

/// So it is with making links, whatever the value.
pub fn create_link_is_tame()
    ensures { LinkingIsTame }
{}

/// So it is with unlink.
pub fn unlink_is_tame()
    ensures { UnlinkIsTame }
{}

/// So it is with removing the format.
pub fn remove_format_is_tame()
    ensures { FormatGoesTame }
{}

/// So it is with fonts, sizes and colours, whatever the value.
pub fn apply_value_is_tame()
    ensures { ValuesAreTame }
{}

/// So it is with fixing disallowed ancestors.
pub fn fix_ancestors_is_tame()
    ensures { AncestorsAreFixedTame }
{}

/// So it is with restoring states and values, whatever was recorded.
pub fn restore_states_is_tame()
    ensures { StatesComeBackTame }
{}
