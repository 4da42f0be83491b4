//! The ancestors of a node.

ghost use Rattle.std.specs.Prelude.{◌≡◌, IfOk};
ghost use Rattle.edit_model.specs.Gives.{labels_of};
ghost use Rattle.wrap_split.specs.EditDoc.Held.{Holds, EachHeld};
ghost use Rattle.inline_value.specs.Forcing.{ancestors};

use std::alloc::{AllocError, Global};
use wrap_split::doc::{Doc, NodeRef};

/// The ancestors of a node, the nearest first.
pub(crate) fn ancestors(alloc: Global, doc: &Doc, node: NodeRef) -> Result<Vec<NodeRef>, AllocError>
    requires { Holds doc.now node }
    ensures held { IfOk result (λ list. EachHeld doc.now list.items) }
    ensures labels { IfOk result (λ list. labels_of list.items
        ≡ ancestors doc.now.state.trees node.label) }
{
    doc.valid();
    let mut list = Vec::new(alloc);
    let mut at = doc.parent(node);
    while let Some(above) = at {
        list.push(above)?;
        at = doc.parent(above);
    }
    Ok(list)
}
