//! Carets.

ghost use Rattle.std.specs.Prelude.{◌≡◌};
ghost use Rattle.edit_query.specs.Carets.{is_caret};

use edit_actions::doc::Doc;

/// Whether the selection is a caret: both its points are at one place.
#[tactic(auto, unfolding(crate::specs::Carets::is_caret))]
pub fn is_caret(doc: &Doc) -> bool
    ensures { result ≡ is_caret doc.now.state }
{
    match doc.points().selection() {
        Some(pair) => {
            pair.anchor.label == pair.focus.label && pair.anchor.offset == pair.focus.offset
        }
        None => false,
    }
}
