//! The laws of the block commands.

ghost use Rattle.making_laws.specs.Blocks.{BlocksAreTame, JustifyingIsTame};

/// Formatting blocks makes known elements alone, whatever the value: it takes the name of a
/// formattable block, and refuses every other one.
pub fn format_block_is_tame()
    ensures { BlocksAreTame }
{}

/// Justifying makes known elements alone, and sets no attributes but those that commands set.
pub fn justify_is_tame()
    ensures { JustifyingIsTame }
{}
