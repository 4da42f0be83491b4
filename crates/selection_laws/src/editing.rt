//! The laws of deleting and inserting.

ghost use Rattle.selection_laws.specs.Commands.{SelectionGoes, DeleteStays, InsertTextStays, InsertParagraphStays, InsertLineBreakStays, InsertHorizontalRuleStays, InsertImageStays};

/// Deleting the selection leaves what is then selected at or below the host.
pub fn delete_selection_stays()
    ensures { SelectionGoes }
{}

/// Delete does.
pub fn delete_stays()
    ensures { DeleteStays }
{}

/// Inserting text does.
pub fn insert_text_stays()
    ensures { InsertTextStays }
{}

/// Inserting a paragraph does.
pub fn insert_paragraph_stays()
    ensures { InsertParagraphStays }
{}

/// Inserting a line break does.
pub fn insert_line_break_stays()
    ensures { InsertLineBreakStays }
{}

/// Inserting a rule does.
pub fn insert_horizontal_rule_stays()
    ensures { InsertHorizontalRuleStays }
{}

/// Inserting an image does.
pub fn insert_image_stays()
    ensures { InsertImageStays }
{}
