//! Entries of lists. The steps are those of docs/ALGORITHMS.md.

ghost use Rattle.std.specs.Prelude.{◌≡◌, IfOk};
ghost use Rattle.edit_model.specs.Gives.{Gives, GivesNode};
ghost use Rattle.inline_value.specs.EditDoc.Whole.{IsOpen};
ghost use Rattle.inline_value.specs.EditDoc.Held.{Holds, Keeps};
ghost use Rattle.text_insertion.specs.Entries as entries;

use delete_core::fill_empty;
use inline_value::doc::{Doc, EditFault, NodeList, NodeRef};
use inline_value::questions::{has_name, is_break};
use inline_value::wrap::split_parent;
use inline_value::{container_name, fix_ancestors, has_place, is_description};
use std::alloc::Global;

/// Whether a node is an li, dt or dd.
#[tactic(auto, unfolding(crate::specs::Entries::is_entry))]
pub fn is_entry(doc: &Doc, node: NodeRef) -> bool
    requires { Holds doc.now node }
    ensures { result ≡ entries.is_entry doc.now.state node.label }
{
    has_name(doc, node, b"li") || is_description(doc, node)
}

// Whether a node is a dt or dd that has no place any more.
#[tactic(auto, unfolding(crate::specs::Entries::is_stray))]
fn is_stray(doc: &Doc, node: NodeRef) -> bool
    requires { Holds doc.now node }
    ensures { result ≡ entries.is_stray doc.now.state node.label }
{
    is_description(doc, node) && !has_place(doc, node)
}

/// Renames a dt or dd that may stand in none of its ancestors inside to a default single-line
/// container (insert a paragraph, step 6). Answers the node that then stands there.
#[tactic(auto, using(edit_model::proofs::Steps::steps, edit_model::proofs::Steps::exits), unfolding(crate::specs::Entries::rename_stray))]
pub fn rename_stray(alloc: Global, doc: &mut Doc, node: NodeRef) -> Result<NodeRef, EditFault>
    requires open { IsOpen doc.old }
    requires node_held { Holds doc.old node }
    ensures gives { GivesNode result doc.old.state doc.new.state (entries.rename_stray node.label) }
    ensures held { IfOk result (λ kept. Holds doc.new kept) }
    ensures keeps { Keeps doc.old doc.new }
{
    if !is_stray(doc, node) {
        return Ok(node);
    }
    let name = container_name(alloc, doc.flags().paragraphs)?;
    doc.set_tag_name(node, &name)
}

// Insert a paragraph, step 6: whether the one child of a node is a br.
#[tactic(auto, unfolding(crate::specs::Entries::has_sole_break))]
fn has_sole_break(doc: &Doc, node: NodeRef) -> bool
    requires { Holds doc.now node }
    ensures { result ≡ entries.has_sole_break doc.now.state node.label }
{
    match doc.first_child(node) {
        Some(child) => is_break(doc, child) && doc.next(child).is_none(),
        None => false,
    }
}

/// Insert a paragraph, step 6: whether an entry has no child, or a br alone.
#[tactic(auto, unfolding(crate::specs::Entries::is_empty_entry))]
pub(crate) fn is_empty_entry(doc: &Doc, node: NodeRef) -> bool
    requires { Holds doc.now node }
    ensures { result ≡ entries.is_empty_entry doc.now.state node.label }
{
    is_entry(doc, node) && (doc.first_child(node).is_none() || has_sole_break(doc, node))
}

/// Insert a paragraph, step 6: an entry leaves its list.
#[tactic(auto, using(edit_model::proofs::Steps::steps, edit_model::proofs::Steps::exits), unfolding(crate::specs::Entries::leave_list))]
pub(crate) fn leave_list(alloc: Global, doc: &mut Doc, node: NodeRef) -> Result<(), EditFault>
    requires open { IsOpen doc.old }
    requires node_held { Holds doc.old node }
    ensures gives { Gives result doc.old.state doc.new.state (entries.leave_list node.label) }
    ensures keeps { Keeps doc.old doc.new }
{
    let list = NodeList::from_slice(alloc, &[node])?;
    split_parent(alloc, doc, &list)?;
    fill_empty(alloc, doc, node)?;
    let kept = rename_stray(alloc, doc, node)?;
    fix_ancestors(alloc, doc, kept)
}
