//! The laws of the block commands.

ghost use Rattle.command_laws.specs.Blocks.{BlocksKeepOrder, BlocksAreSteady, JustifyingKeepsOrder, JustifyingIsSteady};

/// Formatting blocks keeps the order of characters, images and rules.
pub fn format_block_keeps_order()
    ensures { BlocksKeepOrder }
{}

/// Formatting blocks gives no node a state of contenteditable, and takes none away.
pub fn format_block_is_steady()
    ensures { BlocksAreSteady }
{}

/// Justifying keeps the order of characters, images and rules.
pub fn justify_keeps_order()
    ensures { JustifyingKeepsOrder }
{}

/// Justifying gives no node a state of contenteditable, and takes none away.
pub fn justify_is_steady()
    ensures { JustifyingIsSteady }
{}
