//! The laws of sessions. Each is the contract of a function that does nothing.

ghost use Rattle.edit_session.specs.Prefixes.{PrefixesAnswer};

/// What a session writes begins with what it would write without its last acts. So a session can be
/// answered line by line.
pub fn prefixes_answer()
    ensures { PrefixesAnswer }
{}
