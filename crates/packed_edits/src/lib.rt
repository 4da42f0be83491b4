//! What changed in a document as bytes, which hosts in other languages read without a parser of
//! text.
#![tactic(auto)]

ghost use Rattle.std.specs.Prelude.{◌≡◌, ◌++◌, OnOk, IfOk, Some, slice_get};
ghost use Rattle.std.specs.Prelude.{encode_utf8_all};
ghost use Rattle.document_edits.specs.DomModel.declared.attributes.Attribute.{Attribute};
ghost use Rattle.packed_edits.specs.Packed as spec;

use document_edits::dom::{Attributes, Content};
use document_edits::{DocumentEdit, TreeNode};
use page_write::escapes::push_chars;
pub use page_write::{element_names, escapes};
use std::alloc::{AllocError, Global};

/// The label that stands where there is none: no node has it.
pub const NO_LABEL: u32 = u32::MAX;

#[tactic(auto, unfolding(crate::specs::Packed::number))]
fn push_number(bytes: &mut Vec<u8>, number: u64) -> Result<(), AllocError>
    ensures ok { OnOk result (bytes.new.items ≡ bytes.old.items ++ spec.number number) }
{
    bytes.extend_from_slice(&number.to_le_bytes())?;
    Ok(())
}

#[tactic(auto, unfolding(crate::specs::Packed::label_or_none))]
fn push_label_or_none(bytes: &mut Vec<u8>, label: Option<u32>) -> Result<(), AllocError>
    ensures ok { OnOk result (bytes.new.items ≡ bytes.old.items ++ spec.label_or_none label) }
{
    push_number(bytes, u64::from(label.unwrap_or(NO_LABEL)))
}

#[tactic(auto, unfolding(crate::specs::Packed::sized))]
fn push_sized(bytes: &mut Vec<u8>, text: &[u8]) -> Result<(), AllocError>
    ensures ok { OnOk result (bytes.new.items ≡ bytes.old.items ++ spec.sized text.now) }
{
    push_number(bytes, text.len() as u64)?;
    bytes.extend_from_slice(text)?;
    Ok(())
}

// Characters in UTF-8, after the count of their bytes.
fn push_text(alloc: Global, bytes: &mut Vec<u8>, text: &[char]) -> Result<(), AllocError>
    ensures ok { OnOk result (bytes.new.items ≡ bytes.old.items
        ++ spec.sized (encode_utf8_all text.now)) }
{
    let mut coded = Vec::new(alloc);
    push_chars(&mut coded, text)?;
    push_sized(bytes, &coded)
}

#[tactic(auto, unfolding(crate::specs::Packed::attribute_bytes))]
fn push_attribute(
    alloc: Global,
    bytes: &mut Vec<u8>,
    list: &Attributes,
    place: usize,
) -> Result<(), AllocError>
    ensures ok { OnOk result ((a : Attribute) → slice_get list.now place ≡ Some a → bytes.new.items
        ≡ bytes.old.items ++ spec.attribute_bytes a) }
{
    match list.at(place) {
        Some((name, value)) => {
            push_sized(bytes, name)?;
            push_text(alloc, bytes, value.as_slice())
        }
        None => Ok(()),
    }
}

#[tactic(auto, unfolding(crate::specs::Packed::each_attribute))]
fn push_each_attribute(
    alloc: Global,
    bytes: &mut Vec<u8>,
    list: &Attributes,
) -> Result<(), AllocError>
    ensures ok { OnOk result (bytes.new.items ≡ bytes.old.items ++ spec.each_attribute list.now) }
{
    for place in 0..list.len() {
        push_attribute(alloc, bytes, list, place)?;
    }
    Ok(())
}

#[tactic(auto, unfolding(crate::specs::Packed::attributes_bytes))]
fn push_attributes(alloc: Global, bytes: &mut Vec<u8>, list: &Attributes) -> Result<(), AllocError>
    ensures ok { OnOk result (bytes.new.items ≡ bytes.old.items ++ spec.attributes_bytes list.now) }
{
    push_number(bytes, list.len() as u64)?;
    push_each_attribute(alloc, bytes, list)
}

fn push_element(
    alloc: Global,
    bytes: &mut Vec<u8>,
    name: &[u8],
    attributes: &Attributes,
) -> Result<(), AllocError>
    ensures ok { OnOk result (bytes.new.items ≡ bytes.old.items
        ++ spec.element_bytes name.now attributes.now) }
{
    push_number(bytes, 1)?;
    push_sized(bytes, name)?;
    push_attributes(alloc, bytes, attributes)
}

fn push_characters(
    alloc: Global,
    bytes: &mut Vec<u8>,
    kind: u64,
    text: &[char],
) -> Result<(), AllocError>
    ensures ok { OnOk result (bytes.new.items ≡ bytes.old.items
        ++ spec.chars_bytes kind text.now) }
{
    push_number(bytes, kind)?;
    push_text(alloc, bytes, text)
}

// The kind of a node, with the number that DOM gives it, and what a node of the kind has.
fn push_content(alloc: Global, bytes: &mut Vec<u8>, content: &Content) -> Result<(), AllocError>
    ensures ok { OnOk result (bytes.new.items ≡ bytes.old.items ++ spec.content_bytes content.now) }
{
    match content {
        Content::Document => push_number(bytes, 9),
        Content::Element { name, attributes } => {
            push_element(alloc, bytes, name.as_slice(), attributes)
        }
        Content::Words(text) => push_characters(alloc, bytes, 3, text.as_slice()),
        Content::Remark(text) => push_characters(alloc, bytes, 8, text.as_slice()),
    }
}

#[tactic(auto, unfolding(crate::specs::Packed::node_bytes))]
fn push_node(alloc: Global, bytes: &mut Vec<u8>, node: &TreeNode) -> Result<(), AllocError>
    ensures ok { OnOk result (bytes.new.items ≡ bytes.old.items ++ spec.node_bytes node.now) }
{
    push_number(bytes, u64::from(node.level))?;
    push_number(bytes, u64::from(node.label))?;
    push_content(alloc, bytes, &node.content)
}

#[tactic(auto, unfolding(crate::specs::Packed::each_node))]
fn push_each_node(alloc: Global, bytes: &mut Vec<u8>, nodes: &[TreeNode]) -> Result<(), AllocError>
    ensures ok { OnOk result (bytes.new.items ≡ bytes.old.items ++ spec.each_node nodes.now) }
{
    for node in nodes {
        push_node(alloc, bytes, node)?;
    }
    Ok(())
}

#[tactic(auto, unfolding(crate::specs::Packed::nodes_bytes))]
fn push_nodes(alloc: Global, bytes: &mut Vec<u8>, nodes: &[TreeNode]) -> Result<(), AllocError>
    ensures ok { OnOk result (bytes.new.items ≡ bytes.old.items ++ spec.nodes_bytes nodes.now) }
{
    push_number(bytes, nodes.len() as u64)?;
    push_each_node(alloc, bytes, nodes)
}

fn push_removed(bytes: &mut Vec<u8>, node: u32) -> Result<(), AllocError>
    ensures ok { OnOk result (bytes.new.items ≡ bytes.old.items ++ spec.removed_bytes node) }
{
    push_number(bytes, 1)?;
    push_number(bytes, u64::from(node))
}

fn push_inserted(
    alloc: Global,
    bytes: &mut Vec<u8>,
    tree: &[TreeNode],
    parent: u32,
    before: Option<u32>,
) -> Result<(), AllocError>
    ensures ok { OnOk result (bytes.new.items ≡ bytes.old.items
        ++ spec.inserted_bytes tree.now parent before) }
{
    push_number(bytes, 2)?;
    push_number(bytes, u64::from(parent))?;
    push_label_or_none(bytes, before)?;
    push_nodes(alloc, bytes, tree)
}

fn push_moved(
    bytes: &mut Vec<u8>,
    node: u32,
    parent: u32,
    before: Option<u32>,
) -> Result<(), AllocError>
    ensures ok { OnOk result (bytes.new.items ≡ bytes.old.items
        ++ spec.moved_bytes node parent before) }
{
    push_number(bytes, 3)?;
    push_number(bytes, u64::from(node))?;
    push_number(bytes, u64::from(parent))?;
    push_label_or_none(bytes, before)
}

fn push_replaced(
    alloc: Global,
    bytes: &mut Vec<u8>,
    node: u32,
    at: u32,
    taken: u32,
    put: &[char],
) -> Result<(), AllocError>
    ensures ok { OnOk result (bytes.new.items ≡ bytes.old.items
        ++ spec.replaced_bytes node at taken put.now) }
{
    push_number(bytes, 4)?;
    push_number(bytes, u64::from(node))?;
    push_number(bytes, u64::from(at))?;
    push_number(bytes, u64::from(taken))?;
    push_text(alloc, bytes, put)
}

fn push_set(
    alloc: Global,
    bytes: &mut Vec<u8>,
    node: u32,
    attributes: &Attributes,
) -> Result<(), AllocError>
    ensures ok { OnOk result (bytes.new.items ≡ bytes.old.items
        ++ spec.set_bytes node attributes.now) }
{
    push_number(bytes, 5)?;
    push_number(bytes, u64::from(node))?;
    push_attributes(alloc, bytes, attributes)
}

// Which edit it is, and then what the edit needs.
fn push_edit(alloc: Global, bytes: &mut Vec<u8>, edit: &DocumentEdit) -> Result<(), AllocError>
    ensures ok { OnOk result (bytes.new.items ≡ bytes.old.items ++ spec.edit_bytes edit.now) }
{
    match edit {
        DocumentEdit::Remove { node } => push_removed(bytes, *node),
        DocumentEdit::Insert {
            tree,
            parent,
            before,
        } => push_inserted(alloc, bytes, tree.as_slice(), *parent, *before),
        DocumentEdit::Move {
            node,
            parent,
            before,
        } => push_moved(bytes, *node, *parent, *before),
        DocumentEdit::Replace {
            node,
            at,
            taken,
            put,
        } => push_replaced(alloc, bytes, *node, *at, *taken, put.as_slice()),
        DocumentEdit::SetAttributes { node, attributes } => {
            push_set(alloc, bytes, *node, attributes)
        }
    }
}

/// The edits as bytes, one after another: numbers of eight bytes, the lowest first, and texts in
/// UTF-8, each after the count of its bytes.
#[tactic(auto, unfolding(crate::specs::Packed::packed))]
pub fn pack(alloc: Global, edits: &[DocumentEdit]) -> Result<Vec<u8>, AllocError>
    ensures { IfOk result (λ bytes. bytes.items ≡ spec.packed edits.now) }
{
    let mut bytes = Vec::new(alloc);
    for edit in edits {
        push_edit(alloc, &mut bytes, edit)?;
    }
    Ok(bytes)
}
