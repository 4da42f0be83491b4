//! Copies of the parts of an element.

ghost use Rattle.std.specs.Prelude.{◌≡◌, IfOk};
ghost use Rattle.edit_model.specs.Compositions.{tag_of, attribute_list_of};
ghost use Rattle.edit_doc.specs.Held.{Holds};

use edit_doc::{Attributes, Doc, Name, NodeRef};
use edit_model::dom::Content;
use std::alloc::{AllocError, Global};

/// A copy of the name of an element; of another node the empty one.
pub fn tag_of(alloc: Global, doc: &Doc, node: NodeRef) -> Result<Name, AllocError>
    requires { Holds doc.now node }
    ensures { IfOk result (λ name. name ≡ tag_of doc.now.state.trees node.label) }
{
    match doc.content(node) {
        Content::Element {
            name,
            attributes: _,
        } => name.clone(),
        _ => Name::from_slice(alloc, b""),
    }
}

/// A copy of the attributes of an element; of another node none.
pub fn attributes_of(alloc: Global, doc: &Doc, node: NodeRef) -> Result<Attributes, AllocError>
    requires { Holds doc.now node }
    ensures { IfOk result (λ list. list ≡ attribute_list_of doc.now.state.trees node.label) }
{
    match doc.content(node) {
        Content::Element {
            name: _,
            attributes,
        } => attributes.copy(),
        _ => Ok(Attributes::new(alloc)),
    }
}
