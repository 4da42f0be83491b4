//! What C reads of the nodes of an editor, of its selection, its marks and its numbers, by labels.

ghost use Rattle.std.specs.Prelude.{◌≡◌, [], MatchOption, encode_utf8_all, slice_get};
ghost use Rattle.std.specs.Option.{option_map};
ghost use Rattle.inline_value.specs.EditDoc.Held.{Holds};
ghost use Rattle.edit_model.specs.Gives.{label_of};
ghost use Rattle.hedit_c.specs.Nodes.{label_number, node_type, facts_of, NodeTells, LabelTells, PathTells, name_text, value_text, TextTells, NameTells, attributes_in, attribute_name, attribute_value, AttributeTells, AttributeNameTells, selection_of, SelectionTells, MarkNameTells, MarkRangeTells, numbers_of, NumbersTell};

use super::status::Status;
use super::texts::{put, put_chars};
use edit_engine::{Editor, ViewFault};
use edit_model::dom::{Attributes, Chars, Content};
use inline_value::doc::{Doc, NodeRef, Pair};
use script_read::Path;
use std::alloc::Global;

/// A node: its kind, as DOM numbers it (1 an element, 3 a text node, 8 a comment, 9 the document),
/// its length, and the labels of the nodes next to it, or 0xFFFFFFFF.
#[repr(C)]
#[derive(Clone, Copy)]
pub struct NodeFacts {
    pub kind: u32,
    pub length: u32,
    pub parent: u32,
    pub first_child: u32,
    pub last_child: u32,
    pub previous: u32,
    pub next: u32,
}

/// The two points of a selection or a marker.
#[repr(C)]
#[derive(Clone, Copy)]
pub struct SelectionFacts {
    pub anchor: u32,
    pub anchor_offset: u32,
    pub focus: u32,
    pub focus_offset: u32,
}

/// The counts of a document and of its history.
#[repr(C)]
#[derive(Clone, Copy)]
pub struct NumberFacts {
    pub nodes: u32,
    pub next_label: u32,
    pub chars: u64,
    pub edits: usize,
    pub undo: usize,
    pub redo: usize,
}

fn label_number(node: Option<NodeRef>) -> u32
    ensures { result ≡ label_number (label_of node) }
{
    match node {
        Some(node) => node.label,
        None => u32::MAX,
    }
}

fn node_type(content: &Content) -> u32
    ensures { result ≡ node_type content.now }
{
    match content {
        Content::Element { .. } => 1,
        Content::Words(_) => 3,
        Content::Remark(_) => 8,
        Content::Document => 9,
    }
}

fn facts_of(doc: &Doc, node: NodeRef) -> NodeFacts
    requires { Holds doc.now node }
    ensures { result ≡ facts_of doc.now.state.trees node.label }
{
    NodeFacts {
        kind: node_type(doc.content(node)),
        length: doc.length(node),
        parent: label_number(doc.parent(node)),
        first_child: label_number(doc.first_child(node)),
        last_child: label_number(doc.last_child(node)),
        previous: label_number(doc.prev(node)),
        next: label_number(doc.next(node)),
    }
}

/// What the node of a label is.
pub(crate) fn node(editor: &Editor, label: u32, facts: &mut NodeFacts) -> Status
    ensures { NodeTells result editor.now.editing label facts.old facts.new }
{
    let doc = editor.document();
    match doc.find(label) {
        Some(node) => {
            *facts = facts_of(doc, node);
            Status::Done
        }
        None => Status::BadPlace,
    }
}

/// The label of the node at a path.
pub(crate) fn label_at(alloc: Global, editor: &Editor, path: &[u32], label: &mut u32) -> Status
    ensures { LabelTells result editor.now.editing path.now label.old label.new }
{
    let Ok(path) = Path::from_slice(alloc, path) else {
        return Status::Memory;
    };
    match editor.label_at(&path) {
        Some(found) => {
            *label = found;
            Status::Done
        }
        None => Status::BadPlace,
    }
}

/// The path of the node of a label.
pub(crate) fn path_of(
    alloc: Global,
    editor: &Editor,
    label: u32,
    buffer: &mut [u32],
    length: &mut usize,
) -> Status
    ensures { PathTells result editor.now.editing label buffer.old buffer.new length.new }
{
    match editor.path_of(alloc, label) {
        Ok(path) => put(path.as_slice(), buffer, length),
        Err(ViewFault::BadPlace) => Status::BadPlace,
        Err(ViewFault::Memory) => Status::Memory,
    }
}

fn name_text(content: &Content) -> &[u8]
    ensures { result.now ≡ name_text content.now }
{
    match content {
        Content::Element { name, .. } => name.as_slice(),
        _ => &[],
    }
}

/// The name of an element, and an empty text for another node.
pub(crate) fn node_name(
    editor: &Editor,
    label: u32,
    buffer: &mut [u8],
    length: &mut usize,
) -> Status
    ensures { NameTells result editor.now.editing label buffer.old buffer.new length.new }
{
    let doc = editor.document();
    match doc.find(label) {
        Some(node) => put(name_text(doc.content(node)), buffer, length),
        None => Status::BadPlace,
    }
}

fn value_text(content: &Content) -> &[char]
    ensures { encode_utf8_all result.now ≡ value_text content.now }
{
    match content {
        Content::Words(chars) => chars.as_slice(),
        Content::Remark(chars) => chars.as_slice(),
        _ => &[],
    }
}

/// The characters of a text or a comment, and an empty text for another node.
pub(crate) fn node_value(
    alloc: Global,
    editor: &Editor,
    label: u32,
    buffer: &mut [u8],
    length: &mut usize,
) -> Status
    ensures { TextTells value_text result editor.now.editing label buffer.old buffer.new length.new }
{
    let doc = editor.document();
    match doc.find(label) {
        Some(node) => put_chars(alloc, value_text(doc.content(node)), buffer, length),
        None => Status::BadPlace,
    }
}

// The attributes of a node, where it can have some.
fn attributes_in(content: &Content) -> Option<&Attributes>
    ensures { MatchOption result (attributes_in content.now ≡ [])
        (λ list. list.now ≡ attributes_in content.now) }
{
    match content {
        Content::Element { attributes, .. } => Some(attributes),
        _ => None,
    }
}

// The attribute at a place of the list of a node.
fn attribute_at(content: &Content, place: usize) -> Option<(&[u8], &Chars)>
    ensures { option_map (λ pair. record {
      name = pair.0.now;
      value = pair.1.now;
    }) result ≡ slice_get (attributes_in content.now) place }
{
    match attributes_in(content) {
        Some(list) => list.at(place),
        None => None,
    }
}

/// The name of the attribute at a place of the list of a node.
pub(crate) fn attribute_name(
    editor: &Editor,
    label: u32,
    place: usize,
    buffer: &mut [u8],
    length: &mut usize,
) -> Status
    ensures { AttributeNameTells result editor.now.editing label place buffer.old buffer.new
        length.new }
{
    let doc = editor.document();
    let Some(node) = doc.find(label) else {
        return Status::BadPlace;
    };
    match attribute_at(doc.content(node), place) {
        Some((name, _)) => put(name, buffer, length),
        None => Status::No,
    }
}

/// The value of the attribute at a place of the list of a node.
pub(crate) fn attribute_value(
    alloc: Global,
    editor: &Editor,
    label: u32,
    place: usize,
    buffer: &mut [u8],
    length: &mut usize,
) -> Status
    ensures { AttributeTells attribute_value result editor.now.editing label place
        buffer.old buffer.new length.new }
{
    let doc = editor.document();
    let Some(node) = doc.find(label) else {
        return Status::BadPlace;
    };
    match attribute_at(doc.content(node), place) {
        Some((_, value)) => put_chars(alloc, value.as_slice(), buffer, length),
        None => Status::No,
    }
}

fn pair_facts(pair: Pair) -> SelectionFacts
    ensures { result ≡ selection_of pair }
{
    SelectionFacts {
        anchor: pair.anchor.label,
        anchor_offset: pair.anchor.offset,
        focus: pair.focus.label,
        focus_offset: pair.focus.offset,
    }
}

/// The points of the selection, if there is one.
pub(crate) fn selection(editor: &Editor, facts: &mut SelectionFacts) -> Status
    ensures { SelectionTells result editor.now.editing facts.old facts.new }
{
    match editor.document().points().selection() {
        Some(pair) => {
            *facts = pair_facts(pair);
            Status::Done
        }
        None => Status::No,
    }
}

/// The name of the mark at a place of the list of marks.
pub(crate) fn mark_name(
    editor: &Editor,
    place: usize,
    buffer: &mut [u8],
    length: &mut usize,
) -> Status
    ensures { MarkNameTells result editor.now.editing place buffer.old buffer.new length.new }
{
    match editor.document().points().mark_at(place) {
        Some((name, _)) => put(name, buffer, length),
        None => Status::No,
    }
}

/// The points of the mark at a place of the list of marks.
pub(crate) fn mark_range(editor: &Editor, place: usize, facts: &mut SelectionFacts) -> Status
    ensures { MarkRangeTells result editor.now.editing place facts.old facts.new }
{
    match editor.document().points().mark_at(place) {
        Some((_, pair)) => {
            *facts = pair_facts(pair);
            Status::Done
        }
        None => Status::No,
    }
}

/// The numbers of the document and of its history.
pub(crate) fn numbers(editor: &Editor, facts: &mut NumberFacts) -> Status
    ensures { NumbersTell result editor.now.editing facts.new }
{
    let doc = editor.document();
    let counts = doc.counts();
    *facts = NumberFacts {
        nodes: counts.nodes,
        next_label: doc.arena().next_label(),
        chars: counts.chars,
        edits: doc.edits(),
        undo: doc.undo_len(),
        redo: doc.redo_len(),
    };
    Status::Done
}
