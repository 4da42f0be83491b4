//! The types of nodes: the names of the blocks that they stand in.

ghost use Rattle.std.specs.Prelude.{◌≡◌, true, not, Some, bytes_eq};
ghost use Rattle.edit_model.specs.DomModel.Forest.{parent_of};
ghost use Rattle.edit_model.specs.Compositions.{tag_of};
ghost use Rattle.edit_model.specs.Gives.{labels_of};
ghost use Rattle.edit_actions.specs.EditDoc.Held.{Holds, EachHeld};
ghost use Rattle.edit_query.specs.Inside.{is_in_host};
ghost use Rattle.edit_query.specs.BlockTypes.{goes_up, block_at, is_typed, type_in, type_of, has_other_type, have_other_types};

use crate::inside::is_editable_within;
use block_extend::is_above_prohibited;
use block_extend::questions::{is_editable, is_formattable_block};
use edit_actions::doc::{Doc, NodeRef};
use edit_model::dom::Content;

// Whether the parent of a node is editable, and the node is no element with a formattable block
// name.
#[tactic(auto, unfolding(crate::specs::BlockTypes::goes_up))]
fn goes_up(doc: &Doc, host: NodeRef, node: NodeRef, inside: bool, parent: NodeRef) -> bool
    requires host_held { Holds doc.now host }
    requires node_held { Holds doc.now node }
    requires parent_held { Holds doc.now parent }
    requires above { parent_of doc.now.state.trees node.label ≡ Some parent.label }
    requires known { inside ≡ true → is_in_host doc.now.state.trees host.label parent.label ≡ true }
    ensures { result ≡ goes_up doc.now.state.trees host.label node.label }
{
    !is_formattable_block(doc, node) && is_editable_within(doc, host, inside, parent)
}

// Up from a node, for as long as it goes.
fn block_at(doc: &Doc, host: NodeRef, node: NodeRef) -> NodeRef
    requires host_held { Holds doc.now host }
    requires node_held { Holds doc.now node }
    ensures held { Holds doc.now result }
    ensures block { block_at doc.now.state.trees host.label node.label ≡ Some result.label }
{
    doc.valid();
    let mut at = node;
    let mut inside = false;
    while let Some(parent) = doc.parent(at) {
        if !goes_up(doc, host, at, inside, parent) {
            return at;
        }
        at = parent;
        inside = true;
    }
    at
}

// Whether a node is an editable element with a formattable block name, and no prohibited paragraph
// child below it.
#[tactic(auto, unfolding(crate::specs::BlockTypes::is_typed))]
fn is_typed(doc: &Doc, host: NodeRef, block: NodeRef) -> bool
    requires host_held { Holds doc.now host }
    requires block_held { Holds doc.now block }
    ensures { result ≡ is_typed doc.now.state.trees host.label block.label }
{
    is_editable(doc, host, block)
        && is_formattable_block(doc, block)
        && !is_above_prohibited(doc, block)
}

// The name of an element; of another node the empty one.
fn tag_of(doc: &Doc, node: NodeRef) -> &[u8]
    requires { Holds doc.now node }
    ensures { result.now ≡ tag_of doc.now.state.trees node.label }
{
    match doc.content(node) {
        Content::Element {
            name,
            attributes: _,
        } => name.as_slice(),
        _ => &[],
    }
}

// What the nodes have as their type that stand in this block.
#[tactic(auto, unfolding(crate::specs::BlockTypes::type_in))]
fn type_in(doc: &Doc, host: NodeRef, block: NodeRef) -> &[u8]
    requires host_held { Holds doc.now host }
    requires block_held { Holds doc.now block }
    ensures { result.now ≡ type_in doc.now.state.trees host.label block.label }
{
    if is_typed(doc, host, block) {
        tag_of(doc, block)
    } else {
        &[]
    }
}

/// The type of a node: the name of the block with a formattable block name that it is or stands in,
/// unless a prohibited paragraph child stands below that block; else the empty text (HTML Editing
/// APIs, "the formatBlock command").
#[tactic(auto, unfolding(crate::specs::BlockTypes::type_of))]
pub(crate) fn type_of(doc: &Doc, host: NodeRef, node: NodeRef) -> &[u8]
    requires host_held { Holds doc.now host }
    requires node_held { Holds doc.now node }
    ensures { result.now ≡ type_of doc.now.state.trees host.label node.label }
{
    type_in(doc, host, block_at(doc, host, node))
}

// Whether what nodes have as their type in a block is another than this, which it is in the block
// of the node before.
#[tactic(auto, using(crate::proofs::Typing::same_text))]
fn is_other(doc: &Doc, host: NodeRef, block: NodeRef, before: NodeRef, wanted: &[u8]) -> bool
    requires host_held { Holds doc.now host }
    requires block_held { Holds doc.now block }
    requires before { type_in doc.now.state.trees host.label before.label ≡ wanted.now }
    ensures { result
        ≡ not (bytes_eq (type_in doc.now.state.trees host.label block.label) wanted.now) }
{
    block.label != before.label && type_in(doc, host, block) != wanted
}

// Whether the type of a node of a list is another than that in this block. Nodes of one block
// mostly stand together: what is below it is looked at once for them.
fn has_other_type(doc: &Doc, host: NodeRef, first: NodeRef, list: &[NodeRef]) -> bool
    requires host_held { Holds doc.now host }
    requires first_held { Holds doc.now first }
    requires list_held { EachHeld doc.now list.now }
    ensures { result ≡ has_other_type doc.now.state.trees host.label
        (type_in doc.now.state.trees host.label first.label) (labels_of list.now) }
{
    let wanted = type_in(doc, host, first);
    let mut before = first;
    for node in list {
        let block = block_at(doc, host, *node);
        if is_other(doc, host, block, before, wanted) {
            return true;
        }
        before = block;
    }
    false
}

/// Whether the type of a node of a list is another than that of the first.
#[tactic(auto, unfolding(crate::specs::BlockTypes::type_of))]
pub(crate) fn have_other_types(doc: &Doc, host: NodeRef, list: &[NodeRef]) -> bool
    requires host_held { Holds doc.now host }
    requires list_held { EachHeld doc.now list.now }
    ensures { result ≡ have_other_types doc.now.state.trees host.label (labels_of list.now) }
{
    match list {
        [] => false,
        [first, others @ ..] => {
            let block = block_at(doc, host, *first);
            has_other_type(doc, host, block, others)
        }
    }
}
