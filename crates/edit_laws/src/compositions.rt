//! The laws of order of compositions of edits that the standards name, each the contract of a
//! function that does nothing.

ghost use Rattle.edit_laws.specs.CompositionLaws.{UnwrapsKeep, TagNamesKeep, SplitTextsKeep};

/// Putting the children of a bare node in its place keeps the order.
pub fn unwraps_keep()
    ensures { UnwrapsKeep }
{}

/// Setting the tag name of a bare node, to one that is neither img nor hr, keeps the order.
pub fn tag_names_keep()
    ensures { TagNamesKeep }
{}

/// Splitting a text keeps the order, where a text of the document is editable.
pub fn split_texts_keep()
    ensures { SplitTextsKeep }
{}
