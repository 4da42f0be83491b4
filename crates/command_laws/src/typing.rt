//! The laws of inserting text and paragraphs.

ghost use Rattle.command_laws.specs.Typing.{InsertTextIsSteady, InsertParagraphIsSteady};

/// Inserting text gives no node a state of contenteditable, and takes none away.
pub fn insert_text_is_steady()
    ensures { InsertTextIsSteady }
{}

/// Inserting a paragraph gives no node a state of contenteditable, and takes none away: its second
/// half takes the attributes of a container that has no state.
pub fn insert_paragraph_is_steady()
    ensures { InsertParagraphIsSteady }
{}
