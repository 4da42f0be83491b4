//! What C reads of the nodes of an editor, by their labels.

ghost use Rattle.std.specs.Prelude.{◌≡◌};
ghost use Rattle.node_texts.specs.NodeHtml.{node_html};
ghost use Rattle.hedit_c.specs.Calls.{editing_of, Asks};
ghost use Rattle.hedit_c.specs.Nodes.{NodeTells, LabelTells, PathTells, value_text, NameTells, TextTells, attribute_value, AttributeNameTells, AttributeTells};
ghost use Rattle.hedit_c.specs.Subtrees.{SubtreeTells, FindTells, plain_bytes};

use crate::editor::handle::Handle;
use crate::editor::nodes::{
    NodeFacts, attribute_name, attribute_value, label_at, node, node_name, node_value, path_of,
};
use crate::editor::status::Status;
use crate::editor::subtrees::{PointFacts, find, node_html, node_text};
use std::alloc::Global;

/// Returns the node of a label: its kind, its length, and the labels of the nodes next to it.
#[unsafe(no_mangle)]
pub extern "C" fn hedit_node(
    alloc: Global,
    editor: &mut Handle,
    label: u32,
    facts: &mut NodeFacts,
) -> u32
    ensures stays { editor.new.value ≡ editor.old.value }
    ensures told { Asks result (editing_of editor.old.value) facts.old facts.new
        (λ status e. NodeTells status e label facts.old facts.new) }
{
    let Some(held) = editor.take(alloc) else {
        return Status::Closed.number();
    };
    let status = node(&held, label, facts);
    editor.put(held);
    status.number()
}

/// Returns the label of the node at a path.
#[unsafe(no_mangle)]
pub extern "C" fn hedit_label_at(
    alloc: Global,
    editor: &mut Handle,
    path: &[u32],
    label: &mut u32,
) -> u32
    ensures stays { editor.new.value ≡ editor.old.value }
    ensures told { Asks result (editing_of editor.old.value) label.old label.new
        (λ status e. LabelTells status e path.now label.old label.new) }
{
    let Some(held) = editor.take(alloc) else {
        return Status::Closed.number();
    };
    let status = label_at(alloc, &held, path, label);
    editor.put(held);
    status.number()
}

/// Writes the path of the node of a label into the buffer.
#[unsafe(no_mangle)]
pub extern "C" fn hedit_path_of(
    alloc: Global,
    editor: &mut Handle,
    label: u32,
    buffer: &mut [u32],
    length: &mut usize,
) -> u32
    ensures stays { editor.new.value ≡ editor.old.value }
    ensures told { Asks result (editing_of editor.old.value) buffer.old buffer.new
        (λ status e. PathTells status e label buffer.old buffer.new length.new) }
{
    let Some(held) = editor.take(alloc) else {
        return Status::Closed.number();
    };
    let status = path_of(alloc, &held, label, buffer, length);
    editor.put(held);
    status.number()
}

/// Writes the name of an element into the buffer. Another node has an empty one.
#[unsafe(no_mangle)]
pub extern "C" fn hedit_node_name(
    alloc: Global,
    editor: &mut Handle,
    label: u32,
    buffer: &mut [u8],
    length: &mut usize,
) -> u32
    ensures stays { editor.new.value ≡ editor.old.value }
    ensures told { Asks result (editing_of editor.old.value) buffer.old buffer.new
        (λ status e. NameTells status e label buffer.old buffer.new length.new) }
{
    let Some(held) = editor.take(alloc) else {
        return Status::Closed.number();
    };
    let status = node_name(&held, label, buffer, length);
    editor.put(held);
    status.number()
}

/// Writes the characters of a text node or a comment into the buffer. Another node has none.
#[unsafe(no_mangle)]
pub extern "C" fn hedit_node_value(
    alloc: Global,
    editor: &mut Handle,
    label: u32,
    buffer: &mut [u8],
    length: &mut usize,
) -> u32
    ensures stays { editor.new.value ≡ editor.old.value }
    ensures told { Asks result (editing_of editor.old.value) buffer.old buffer.new
        (λ status e. TextTells value_text status e label buffer.old buffer.new length.new) }
{
    let Some(held) = editor.take(alloc) else {
        return Status::Closed.number();
    };
    let status = node_value(alloc, &held, label, buffer, length);
    editor.put(held);
    status.number()
}

/// Writes the name of an attribute into the buffer, by its index in the list of a node. The answer
/// is false if there are no more.
#[unsafe(no_mangle)]
pub extern "C" fn hedit_attribute_name(
    alloc: Global,
    editor: &mut Handle,
    label: u32,
    place: usize,
    buffer: &mut [u8],
    length: &mut usize,
) -> u32
    ensures stays { editor.new.value ≡ editor.old.value }
    ensures told { Asks result (editing_of editor.old.value) buffer.old buffer.new
        (λ status e. AttributeNameTells status e label place
        buffer.old buffer.new length.new) }
{
    let Some(held) = editor.take(alloc) else {
        return Status::Closed.number();
    };
    let status = attribute_name(&held, label, place, buffer, length);
    editor.put(held);
    status.number()
}

/// Writes the value of an attribute into the buffer, by its index in the list of a node. The answer
/// is false if there are no more.
#[unsafe(no_mangle)]
pub extern "C" fn hedit_attribute_value(
    alloc: Global,
    editor: &mut Handle,
    label: u32,
    place: usize,
    buffer: &mut [u8],
    length: &mut usize,
) -> u32
    ensures stays { editor.new.value ≡ editor.old.value }
    ensures told { Asks result (editing_of editor.old.value) buffer.old buffer.new
        (λ status e. AttributeTells attribute_value status e label place
        buffer.old buffer.new length.new) }
{
    let Some(held) = editor.take(alloc) else {
        return Status::Closed.number();
    };
    let status = attribute_value(alloc, &held, label, place, buffer, length);
    editor.put(held);
    status.number()
}

/// Writes the HTML of a node with its descendants into the buffer; for the document, that of its
/// children.
#[unsafe(no_mangle)]
pub extern "C" fn hedit_node_html(
    alloc: Global,
    editor: &mut Handle,
    label: u32,
    buffer: &mut [u8],
    length: &mut usize,
) -> u32
    ensures stays { editor.new.value ≡ editor.old.value }
    ensures told { Asks result (editing_of editor.old.value) buffer.old buffer.new
        (λ status e. SubtreeTells node_html status e label buffer.old buffer.new length.new) }
{
    let Some(held) = editor.take(alloc) else {
        return Status::Closed.number();
    };
    let status = node_html(alloc, &held, label, buffer, length);
    editor.put(held);
    status.number()
}

/// Writes the plain text of a node with its descendants into the buffer: the characters of its text
/// nodes, a line feed for each `br`, and a line feed if a block begins or ends between two of
/// these, unless the first one is a line feed.
#[unsafe(no_mangle)]
pub extern "C" fn hedit_node_text(
    alloc: Global,
    editor: &mut Handle,
    label: u32,
    buffer: &mut [u8],
    length: &mut usize,
) -> u32
    ensures stays { editor.new.value ≡ editor.old.value }
    ensures told { Asks result (editing_of editor.old.value) buffer.old buffer.new
        (λ status e. SubtreeTells plain_bytes status e label buffer.old buffer.new length.new) }
{
    let Some(held) = editor.take(alloc) else {
        return Status::Closed.number();
    };
    let status = node_text(alloc, &held, label, buffer, length);
    editor.put(held);
    status.number()
}

/// Writes the points at which a text in UTF-8 occurs in a node and its descendants into the buffer,
/// in tree order, without overlap.
#[unsafe(no_mangle)]
pub extern "C" fn hedit_find(
    alloc: Global,
    editor: &mut Handle,
    label: u32,
    text: &[u8],
    buffer: &mut [PointFacts],
    count: &mut usize,
) -> u32
    ensures stays { editor.new.value ≡ editor.old.value }
    ensures told { Asks result (editing_of editor.old.value) buffer.old buffer.new
        (λ status e. FindTells status e label text.now buffer.old buffer.new count.new) }
{
    let Some(held) = editor.take(alloc) else {
        return Status::Closed.number();
    };
    let status = find(alloc, &held, label, text, buffer, count);
    editor.put(held);
    status.number()
}
