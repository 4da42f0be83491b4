//! The visible children of a node.

ghost use Rattle.edit_model.specs.DomModel.Forest.{children_of};
ghost use Rattle.edit_actions.specs.EditDoc.Held.{Holds, Finds};
ghost use Rattle.wrap_split.specs.Wrap.{first_visible, last_visible};

use edit_actions::doc::{Doc, NodeRef};
use edit_actions::questions::is_visible;

// The first child of a node that is visible.
pub(crate) fn first_visible_child(doc: &Doc, node: NodeRef) -> Option<NodeRef>
    requires { Holds doc.now node }
    ensures { Finds doc.now result
        (first_visible doc.now.state (children_of doc.now.state.trees node.label)) }
{
    doc.valid();
    let mut at = doc.first_child(node);
    while let Some(child) = at {
        if is_visible(doc, child) {
            return Some(child);
        }
        at = doc.next(child);
    }
    None
}

// The last child of a node that is visible.
pub(crate) fn last_visible_child(doc: &Doc, node: NodeRef) -> Option<NodeRef>
    requires { Holds doc.now node }
    ensures { Finds doc.now result
        (last_visible doc.now.state (children_of doc.now.state.trees node.label)) }
{
    doc.valid();
    let mut at = doc.last_child(node);
    while let Some(child) = at {
        if is_visible(doc, child) {
            return Some(child);
        }
        at = doc.prev(child);
    }
    None
}
