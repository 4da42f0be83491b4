//! The laws of deleting and inserting.

ghost use Rattle.making_laws.specs.Insertion.{DeleteIsTame, InsertTextIsTame, InsertParagraphIsTame, InsertLineBreakIsTame, InsertHorizontalRuleIsTame, InsertImageIsTame};

/// Deleting makes known elements alone, and sets no attributes but those that commands set. The
/// characters that it puts are blanks.
pub fn delete_is_tame()
    ensures { DeleteIsTame }
{}

/// So it is with inserting text, but that it puts the characters of the value too.
pub fn insert_text_is_tame()
    ensures { InsertTextIsTame }
{}

/// So it is with inserting a paragraph: its second half has the name and the attributes of an
/// element that is there, but for the id, or a name that commands make.
pub fn insert_paragraph_is_tame()
    ensures { InsertParagraphIsTame }
{}

/// So it is with inserting a line break.
pub fn insert_line_break_is_tame()
    ensures { InsertLineBreakIsTame }
{}

/// So it is with inserting a rule.
pub fn insert_horizontal_rule_is_tame()
    ensures { InsertHorizontalRuleIsTame }
{}

/// So it is with inserting an image, which has a source alone, whatever the value.
pub fn insert_image_is_tame()
    ensures { InsertImageIsTame }
{}
