//! What tame runs bring into a document.

ghost use Rattle.making_laws.specs.Laws.{KnownStays, OwnAreKnown, CommandsMakeKnown, NoneComes};

/// Where all nodes of a document are known, a tame run leaves them so.
pub fn known_stays()
    ensures { KnownStays }
{}

/// A document knows its own nodes.
pub fn own_are_known()
    ensures { OwnAreKnown }
{}

/// After a command each element has a name of the list or one that an element had before it, and
/// each of its attributes has a name of the list or is one that an element had before it. Each
/// character of a Text or a Comment was in one before it, or in the value, or is a blank.
pub fn commands_make_known()
    ensures { CommandsMakeKnown }
{}

/// A document that has no attribute of a name gets none, where commands don't set that name.
pub fn none_comes()
    ensures { NoneComes }
{}
