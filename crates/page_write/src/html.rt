//! HTML text (HTML Standard, "Serializing HTML fragments").

ghost use Rattle.std.specs.Prelude.{◌≡◌, ◌+◌, ◌<◌, ◌^◌, ◌++◌, OnOk, IfOk, IfSome, IsSome, Some, slice_get};
ghost use Rattle.node_paths.specs.DomModel.declared.attributes.Attribute.{Attribute};
ghost use Rattle.node_paths.specs.NodeArena.Held.{Holds, label};
ghost use Rattle.node_paths.specs.Onward.{onward_at, IsInner};
ghost use Rattle.page_write.specs.Html.{text_char, value_char, text_html, value_html, attribute_html, attributes_html, start_tag, end_tag, comment_html, opening, closing, html_of, document_html};

use escaped_text::{push_char, push_chars};
use html_names::is_void;
use node_paths::arena::{Arena, NodeRef};
use node_paths::dom::{Attributes, Chars, Content, Name};
use std::alloc::{AllocError, Global};

fn push_text_char(bytes: &mut Vec<u8>, c: char) -> Result<(), AllocError>
    ensures ok { OnOk result (bytes.new.items ≡ bytes.old.items ++ text_char c) }
{
    match c {
        '&' => bytes.extend_from_slice(b"&amp;")?,
        '<' => bytes.extend_from_slice(b"&lt;")?,
        '>' => bytes.extend_from_slice(b"&gt;")?,
        '\u{a0}' => bytes.extend_from_slice(b"&nbsp;")?,
        _ => push_char(bytes, c)?,
    }
    Ok(())
}

fn push_value_char(bytes: &mut Vec<u8>, c: char) -> Result<(), AllocError>
    ensures ok { OnOk result (bytes.new.items ≡ bytes.old.items ++ value_char c) }
{
    if c == '"' {
        bytes.extend_from_slice(b"&quot;")?;
    } else {
        push_text_char(bytes, c)?;
    }
    Ok(())
}

#[tactic(auto, unfolding(crate::specs::Html::text_html))]
fn push_text(bytes: &mut Vec<u8>, text: &[char]) -> Result<(), AllocError>
    ensures ok { OnOk result (bytes.new.items ≡ bytes.old.items ++ text_html text.now) }
{
    for c in text {
        push_text_char(bytes, *c)?;
    }
    Ok(())
}

#[tactic(auto, unfolding(crate::specs::Html::value_html))]
fn push_value(bytes: &mut Vec<u8>, value: &[char]) -> Result<(), AllocError>
    ensures ok { OnOk result (bytes.new.items ≡ bytes.old.items ++ value_html value.now) }
{
    for c in value {
        push_value_char(bytes, *c)?;
    }
    Ok(())
}

fn push_attribute(bytes: &mut Vec<u8>, name: &[u8], value: &[char]) -> Result<(), AllocError>
    ensures ok { OnOk result (bytes.new.items ≡ bytes.old.items ++ attribute_html (record {
      name = name.now;
      value = value.now;
    })) }
{
    bytes.extend_from_slice(b" ")?;
    bytes.extend_from_slice(name)?;
    bytes.extend_from_slice(b"=\"")?;
    push_value(bytes, value)?;
    bytes.extend_from_slice(b"\"")?;
    Ok(())
}

fn push_attribute_at(bytes: &mut Vec<u8>, list: &Attributes, place: usize) -> Result<(), AllocError>
    ensures ok { OnOk result ((a : Attribute) → slice_get list.now place ≡ Some a → bytes.new.items
        ≡ bytes.old.items ++ attribute_html a) }
{
    match list.at(place) {
        Some((name, value)) => push_attribute(bytes, name, value.as_slice()),
        None => Ok(()),
    }
}

#[tactic(auto, unfolding(crate::specs::Html::attributes_html))]
fn push_attributes(bytes: &mut Vec<u8>, list: &Attributes) -> Result<(), AllocError>
    ensures ok { OnOk result (bytes.new.items ≡ bytes.old.items ++ attributes_html list.now) }
{
    for place in 0..list.len() {
        push_attribute_at(bytes, list, place)?;
    }
    Ok(())
}

/// Appends a start tag, in which each attribute has its value in `"`. After an `Err` a part of it
/// stands in the bytes.
pub fn push_start_tag(bytes: &mut Vec<u8>, name: &Name, list: &Attributes) -> Result<(), AllocError>
    ensures ok { OnOk result (bytes.new.items ≡ bytes.old.items ++ start_tag name.now list.now) }
{
    bytes.extend_from_slice(b"<")?;
    bytes.extend_from_slice(name.as_slice())?;
    push_attributes(bytes, list)?;
    bytes.extend_from_slice(b">")?;
    Ok(())
}

fn push_end_tag(bytes: &mut Vec<u8>, name: &Name) -> Result<(), AllocError>
    ensures ok { OnOk result (bytes.new.items ≡ bytes.old.items ++ end_tag name.now) }
{
    if !is_void(name.as_slice()) {
        bytes.extend_from_slice(b"</")?;
        bytes.extend_from_slice(name.as_slice())?;
        bytes.extend_from_slice(b">")?;
    }
    Ok(())
}

fn push_comment(bytes: &mut Vec<u8>, text: &Chars) -> Result<(), AllocError>
    ensures ok { OnOk result (bytes.new.items ≡ bytes.old.items ++ comment_html text.now) }
{
    bytes.extend_from_slice(b"<!--")?;
    push_chars(bytes, text.as_slice())?;
    bytes.extend_from_slice(b"-->")?;
    Ok(())
}

// What stands before the children of a node. It has a frame of its own, and so that of `push_trees`,
// of which there is one for each level, is small.
#[inline(never)]
fn push_opening(bytes: &mut Vec<u8>, content: &Content) -> Result<(), AllocError>
    ensures ok { OnOk result (bytes.new.items ≡ bytes.old.items ++ opening content.now) }
{
    match content {
        Content::Document => Ok(()),
        Content::Element { name, attributes } => push_start_tag(bytes, name, attributes),
        Content::Words(text) => push_text(bytes, text.as_slice()),
        Content::Remark(text) => push_comment(bytes, text),
    }
}

// What stands after the children of a node.
#[inline(never)]
fn push_closing(bytes: &mut Vec<u8>, content: &Content) -> Result<(), AllocError>
    ensures ok { OnOk result (bytes.new.items ≡ bytes.old.items ++ closing content.now) }
{
    match content {
        Content::Element { name, .. } => push_end_tag(bytes, name),
        _ => Ok(()),
    }
}

// The trees from a node on: its own and those of its later siblings.
fn push_trees(bytes: &mut Vec<u8>, arena: &Arena, first: Option<NodeRef>) -> Result<(), AllocError>
    requires held { IfSome first (λ r. Holds arena.now r) }
    requires inner { IsInner arena.now.trees (label first) }
    ensures ok { OnOk result (bytes.new.items ≡ bytes.old.items
        ++ html_of (onward_at arena.now.trees (label first))) }
{
    arena.valid();
    let mut at = first;
    while let Some(node) = at {
        let content = arena.content(node);
        push_opening(bytes, content)?;
        push_trees(bytes, arena, arena.first_child(node))?;
        push_closing(bytes, content)?;
        at = arena.next(node);
    }
    Ok(())
}

/// The document as HTML text, in UTF-8: the nodes below the Document in tree order. Its calls go as
/// deep as the tree.
pub fn write_html(alloc: Global, arena: &Arena) -> Result<Vec<u8>, AllocError>
    ensures { IfOk result (λ bytes. bytes.items ≡ document_html arena.now.trees) }
{
    arena.valid();
    let mut bytes = Vec::new(alloc);
    push_trees(&mut bytes, arena, arena.first_child(arena.document()))?;
    Ok(bytes)
}
