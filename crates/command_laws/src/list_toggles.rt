//! The laws of toggling lists.

ghost use Rattle.command_laws.specs.ListToggles.{ListTogglesKeepOrder, ListTogglesAreSteady};

/// Toggling lists keeps the order of characters, images and rules.
pub fn toggle_lists_keeps_order()
    ensures { ListTogglesKeepOrder }
{}

/// Toggling lists gives no node a state of contenteditable, and takes none away.
pub fn toggle_lists_is_steady()
    ensures { ListTogglesAreSteady }
{}
