//! Lists, items, and what their children are.

ghost use Rattle.std.specs.Prelude.{◌≡◌};
ghost use Rattle.std.specs.List.{list_any};
ghost use Rattle.edit_model.specs.DomModel.Forest.{children_of};
ghost use Rattle.inline_value.specs.EditDoc.Held.{Holds};
ghost use Rattle.list_indent.specs.Sublists.{is_list, is_item, is_in_list, is_blank};

use edit_model::dom::Content;
use inline_value::doc::{Doc, NodeRef};
use inline_value::questions::has_name;
use inline_value::styles::are_spaces;

/// Whether a node is an ol or ul.
#[tactic(auto, unfolding(crate::specs::Sublists::is_list))]
pub fn is_list(doc: &Doc, node: NodeRef) -> bool
    requires { Holds doc.now node }
    ensures { result ≡ is_list doc.now.state node.label }
{
    has_name(doc, node, b"ol") || has_name(doc, node, b"ul")
}

/// Whether a node is an li.
pub fn is_item(doc: &Doc, node: NodeRef) -> bool
    requires { Holds doc.now node }
    ensures { result ≡ is_item doc.now.state node.label }
{
    has_name(doc, node, b"li")
}

/// Whether the parent of a node is an ol or ul.
#[tactic(auto, unfolding(crate::specs::Sublists::is_in_list))]
pub fn is_in_list(doc: &Doc, node: NodeRef) -> bool
    requires { Holds doc.now node }
    ensures { result ≡ is_in_list doc.now.state node.label }
{
    match doc.parent(node) {
        Some(parent) => is_list(doc, parent),
        None => false,
    }
}

// Whether a node is Words of space characters alone.
#[tactic(auto, unfolding(crate::specs::Sublists::is_blank))]
pub(crate) fn is_blank(doc: &Doc, node: NodeRef) -> bool
    requires { Holds doc.now node }
    ensures { result ≡ is_blank doc.now.state node.label }
{
    match doc.content(node) {
        Content::Words(chars) => are_spaces(chars.as_slice()),
        _ => false,
    }
}

// Whether an ol or ul is among the children of a node.
pub(crate) fn has_list(doc: &Doc, node: NodeRef) -> bool
    requires { Holds doc.now node }
    ensures { result
        ≡ list_any (is_list doc.now.state) (children_of doc.now.state.trees node.label) }
{
    doc.valid();
    let mut at = doc.first_child(node);
    while let Some(child) = at {
        if is_list(doc, child) {
            return true;
        }
        at = doc.next(child);
    }
    false
}
