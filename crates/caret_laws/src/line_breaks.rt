//! Inserting a line break.

ghost use Rattle.caret_laws.specs.LineBreakLaws.{LineBreaksKeep, InsertLineBreakKeeps};

/// From a caret on, once what is selected is erased, inserting a line break keeps the order of
/// characters, images and rules: a text is split, and a br or two come.
pub fn line_breaks_keep()
    ensures { LineBreaksKeep }
{}

/// At a caret, inserting a line break loses no image, no rule and no character other than tab, LF,
/// CR, space and U+00A0, keeps their order, and brings no other.
pub fn insert_line_break_keeps()
    ensures { InsertLineBreakKeeps }
{}
