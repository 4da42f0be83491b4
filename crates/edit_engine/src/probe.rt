//! What the tests of nodes answer of a node, on one line.

ghost use Rattle.std.specs.Prelude.{◌≡◌, ◌++◌, OnOk, IfOk};
ghost use Rattle.edit_model.specs.DomModel.Contents.{is_element_at};
ghost use Rattle.edit_model.specs.DomModel.Editing.{editing_host};
ghost use Rattle.edit_model.specs.NodeArena.Held.{label};
ghost use Rattle.inline_value.specs.EditDoc.Whole.{IsClosed};
ghost use Rattle.inline_value.specs.EditDoc.Held.{Holds, IfHeld};
ghost use Rattle.edit_engine.specs.Probe.{tested, path_or_none, host_words, text_words, break_words, style_text, style_words, probe_line};

use inline_value::doc::{Doc, Kind, NodeRef};
use inline_value::node_place::push_path;
use inline_value::properties::Property;
use inline_value::questions::{
    editing_host, is_block, is_block_prop, is_collapsed_break, is_collapsed_whitespace, is_element,
    is_extraneous_break, is_visible, is_whitespace, resolved,
};
use std::alloc::{AllocError, Global};
use step_text::escapes::push_chars;

// Appends a test: its words and its answer.
fn push_test(bytes: &mut Vec<u8>, words: &[u8], answer: bool) -> Result<(), AllocError>
    ensures ok { OnOk result (bytes.new.items ≡ bytes.old.items ++ tested words.now answer) }
{
    bytes.extend_from_slice(words)?;
    bytes.extend_from_slice(if answer { b" yes" } else { b" no" })?;
    Ok(())
}

// Appends the path of a node, if there is one.
fn push_node(
    alloc: Global,
    bytes: &mut Vec<u8>,
    doc: &Doc,
    node: Option<NodeRef>,
) -> Result<(), AllocError>
    requires closed { IsClosed doc.now }
    requires held { IfHeld doc.now node }
    ensures ok { OnOk result (bytes.new.items ≡ bytes.old.items
        ++ path_or_none doc.now.state.trees (label node)) }
{
    match node {
        None => bytes.extend_from_slice(b"none"),
        Some(node) => {
            doc.valid();
            let arena = doc.arena();
            arena.valid();
            push_path(alloc, bytes, arena, node)
        }
    }
}

fn push_host(
    alloc: Global,
    bytes: &mut Vec<u8>,
    doc: &Doc,
    host: Option<NodeRef>,
) -> Result<(), AllocError>
    requires closed { IsClosed doc.now }
    requires held { IfHeld doc.now host }
    ensures ok { OnOk result (bytes.new.items ≡ bytes.old.items
        ++ host_words doc.now.state.trees (label host)) }
{
    push_test(bytes, b"editable", host.is_some())?;
    bytes.extend_from_slice(b" host ")?;
    push_node(alloc, bytes, doc, host)
}

#[tactic(auto, unfolding(crate::specs::Probe::text_words))]
fn push_text_tests(bytes: &mut Vec<u8>, doc: &Doc, node: NodeRef) -> Result<(), AllocError>
    requires { Holds doc.now node }
    ensures ok { OnOk result (bytes.new.items ≡ bytes.old.items
        ++ text_words doc.now.state.trees node.label) }
{
    push_test(bytes, b" block", is_block(doc, node))?;
    push_test(bytes, b" visible", is_visible(doc, node))?;
    push_test(bytes, b" whitespace", is_whitespace(doc, node))?;
    push_test(
        bytes,
        b" collapsed-whitespace",
        is_collapsed_whitespace(doc, node),
    )?;
    Ok(())
}

#[tactic(auto, unfolding(crate::specs::Probe::break_words))]
fn push_break_tests(bytes: &mut Vec<u8>, doc: &Doc, node: NodeRef) -> Result<(), AllocError>
    requires { Holds doc.now node }
    ensures ok { OnOk result (bytes.new.items ≡ bytes.old.items
        ++ break_words doc.now.state.trees node.label) }
{
    push_test(bytes, b" extraneous", is_extraneous_break(doc, node))?;
    push_test(bytes, b" collapsed-break", is_collapsed_break(doc, node))?;
    push_test(bytes, b" prop", is_block_prop(doc, node))?;
    Ok(())
}

#[tactic(auto, unfolding(crate::specs::Probe::style_text))]
fn push_style(
    alloc: Global,
    bytes: &mut Vec<u8>,
    doc: &Doc,
    node: NodeRef,
    property: Property,
) -> Result<(), AllocError>
    requires { Holds doc.now node }
    ensures ok { OnOk result (bytes.new.items ≡ bytes.old.items
        ++ style_text doc.now.state.trees node.label property) }
{
    if !is_element(doc, node) {
        return bytes.extend_from_slice(b"-");
    }
    let text = resolved(alloc, doc, node, property)?;
    push_chars(bytes, text.as_slice())
}

#[tactic(auto, unfolding(crate::specs::Probe::style_words))]
fn push_styles(
    alloc: Global,
    bytes: &mut Vec<u8>,
    doc: &Doc,
    node: NodeRef,
) -> Result<(), AllocError>
    requires { Holds doc.now node }
    ensures ok { OnOk result (bytes.new.items ≡ bytes.old.items
        ++ style_words doc.now.state.trees node.label) }
{
    bytes.extend_from_slice(b" display ")?;
    push_style(alloc, bytes, doc, node, Property::Display)?;
    bytes.extend_from_slice(b" white-space ")?;
    push_style(alloc, bytes, doc, node, Property::WhiteSpace)?;
    Ok(())
}

/// What the tests answer of a node.
#[tactic(auto, unfolding(crate::specs::Probe::probe_line))]
pub(crate) fn probe_line(alloc: Global, doc: &Doc, node: NodeRef) -> Result<Vec<u8>, AllocError>
    requires closed { IsClosed doc.now }
    requires held { Holds doc.now node }
    ensures { IfOk result (λ text. text.items ≡ probe_line doc.now.state.trees node.label) }
{
    let mut bytes = Vec::new(alloc);
    push_host(alloc, &mut bytes, doc, editing_host(doc, node))?;
    push_text_tests(&mut bytes, doc, node)?;
    push_break_tests(&mut bytes, doc, node)?;
    push_styles(alloc, &mut bytes, doc, node)?;
    bytes.push(b'\n')?;
    Ok(bytes)
}
