//! The laws of order of removing line breaks.

ghost use Rattle.command_laws.specs.BreakLaws.{BreaksBeforeGo, BreaksAtEndGo, BreaksFromGo};

/// Removing the line breaks before a node keeps the order of characters, images and rules.
pub fn breaks_before_go()
    ensures { BreaksBeforeGo }
{}

/// Removing the line breaks at the end of a node keeps that order.
pub fn breaks_at_end_go()
    ensures { BreaksAtEndGo }
{}

/// Removing the line breaks before a node and at its end keeps that order.
pub fn breaks_from_go()
    ensures { BreaksFromGo }
{}
