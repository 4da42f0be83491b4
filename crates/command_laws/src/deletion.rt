//! The laws of deleting.

ghost use Rattle.command_laws.specs.Deletion.{SelectionGoesSteady, DeleteIsSteady};

/// Deleting the selection gives no node a state of contenteditable, and takes none away.
pub fn delete_selection_is_steady()
    ensures { SelectionGoesSteady }
{}

/// Delete gives and takes no state of contenteditable.
pub fn delete_is_steady()
    ensures { DeleteIsSteady }
{}
