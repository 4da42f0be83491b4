//! Inserting a text.

ghost use Rattle.caret_laws.specs.TypingLaws.{InsertCharAdds, InsertLineFeedKeeps, InsertTextAdds, InsertTextKeeps};

/// At a caret of the host, outside comments, inserting a text without line feeds adds its
/// characters other than blanks, in order and together, at one place, and loses no image, no rule
/// and no character other than tab, LF, CR, space and U+00A0, keeps their order, and brings no
/// other.
pub fn insert_text_adds()
    ensures { InsertTextAdds }
{}

/// At a caret of the host, outside comments, inserting one character other than a line feed, with
/// whatever overrides, adds it at one place, unless it's a blank, and loses no image, no rule and
/// no character other than tab, LF, CR, space and U+00A0, keeps their order, and brings no other,
/// where nothing that it removes after the erasing bears one.
pub fn insert_char_adds()
    ensures { InsertCharAdds }
{}

/// At any caret, inserting a text without line feeds, with whatever overrides, loses no image, no
/// rule and no character other than tab, LF, CR, space and U+00A0, keeps their order, and brings no
/// other but characters of the text, each at one place, where nothing that it removes after the
/// erasing bears one.
pub fn insert_text_keeps()
    ensures { InsertTextKeeps }
{}

/// At a caret that stands in no image and no rule, inserting a line feed, by itself, loses no
/// image, no rule and no character other than tab, LF, CR, space and U+00A0, keeps their order, and
/// brings no other, where nothing that it removes after the erasing bears one.
pub fn insert_line_feed_keeps()
    ensures { InsertLineFeedKeeps }
{}
