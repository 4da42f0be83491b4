//! The laws of indent and outdent.

ghost use Rattle.command_laws.specs.Indents.{IndentKeepsOrder, IndentIsSteady, OutdentKeepsOrder, OutdentIsSteady};

/// Indent keeps the order of characters, images and rules.
pub fn indent_keeps_order()
    ensures { IndentKeepsOrder }
{}

/// Indent gives no node a state of contenteditable, and takes none away.
pub fn indent_is_steady()
    ensures { IndentIsSteady }
{}

/// Outdent keeps the order of characters, images and rules.
pub fn outdent_keeps_order()
    ensures { OutdentKeepsOrder }
{}

/// Outdent gives no node a state of contenteditable, and takes none away.
pub fn outdent_is_steady()
    ensures { OutdentIsSteady }
{}
