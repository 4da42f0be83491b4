//! The laws of inserting line breaks, rules and images.

ghost use Rattle.command_laws.specs.Objects.{InsertLineBreakIsSteady, InsertHorizontalRuleIsSteady, InsertImageIsSteady};

/// Inserting a line break gives no node a state of contenteditable, and takes none away.
pub fn insert_line_break_is_steady()
    ensures { InsertLineBreakIsSteady }
{}

/// Inserting a rule gives and takes no state of contenteditable.
pub fn insert_horizontal_rule_is_steady()
    ensures { InsertHorizontalRuleIsSteady }
{}

/// An image has a source, and no state of contenteditable.
pub fn insert_image_is_steady()
    ensures { InsertImageIsSteady }
{}
