//! The laws of the commands for lists.

ghost use Rattle.making_laws.specs.Lists.{IndentIsTame, OutdentIsTame, ListTogglesAreTame};

/// Indenting makes known elements alone, and sets no attributes but those that commands set.
pub fn indent_is_tame()
    ensures { IndentIsTame }
{}

/// So it is with outdenting.
pub fn outdent_is_tame()
    ensures { OutdentIsTame }
{}

/// So it is with toggling ordered and unordered lists.
pub fn toggle_lists_is_tame()
    ensures { ListTogglesAreTame }
{}
