//! The HTML of a node (HTML Standard, "Serializing HTML fragments").

ghost use Rattle.std.specs.Prelude.{◌≡◌, ◌<◌, ◌++◌, OnOk, IfOk};
ghost use Rattle.page_write.specs.Html.{text_char, text_html, end_tag, comment_html, opening, closing};
ghost use Rattle.node_styles.specs.DomModel.Forest.{count_of};
ghost use Rattle.node_texts.specs.NodeHtml.{node_html, range_html};

use crate::between::{PartVisitor, chars_part, walk_range};
use crate::walk::{Visitor, walk};
use node_styles::arena::{NodeRef, Nodes};
use node_styles::dom::{Content, Name};
use page_write::element_names::is_void;
use page_write::escapes::{push_char, push_chars};
use page_write::push_start_tag;
use point_order::dom_ranges::Point;
use std::alloc::{AllocError, Global};
use std::marker::Model;

/// What is written of nodes that are shown.
#[derive(Drop)]
struct Writer {
    bytes: Vec<u8>,
}

impl Model for Writer {
    ghost use Rattle.std.specs.Prelude.{ℕ, List};

    ghost Value = { List ℕ };

    ghost view = { λ writer. writer.bytes.items };
}

impl Visitor for Writer {
    ghost entered = { λ bytes _ content. bytes ++ opening content };

    ghost left = { λ bytes _ content. bytes ++ closing content };

    fn enter(&mut self, _label: u32, content: &Content) -> Result<(), AllocError> {
        push_opening(&mut self.bytes, content)
    }

    fn leave(&mut self, _label: u32, content: &Content) -> Result<(), AllocError> {
        push_closing(&mut self.bytes, content)
    }
}

impl PartVisitor for Writer {
    ghost use Rattle.std.proofs.Common.{ap};
    ghost use Rattle.node_texts.specs.Parts.{closing_of_part};

    #[tactic(auto, unfolding(crate::specs::Between::part_of))]
    fn enter_part(
        &mut self,
        _label: u32,
        content: &Content,
        from: u32,
        to: Option<u32>,
    ) -> Result<(), AllocError> {
        let bytes = &mut self.bytes;
        match content {
            Content::Words(text) => push_text(bytes, chars_part(text.as_slice(), from, to)),
            Content::Remark(text) => push_comment(bytes, chars_part(text.as_slice(), from, to)),
            _ => push_opening(bytes, content),
        }
    }

    ghost leaves_parts = { λ bytes l from to content.
        ap (λ end. bytes ++ end) (closing_of_part from to content) };
}

fn push_text_char(bytes: &mut Vec<u8>, c: char) -> Result<(), AllocError>
    ensures ok { OnOk result (bytes.new.items ≡ bytes.old.items ++ text_char c) }
{
    match c {
        '&' => bytes.extend_from_slice(b"&amp;")?,
        '<' => bytes.extend_from_slice(b"&lt;")?,
        '>' => bytes.extend_from_slice(b"&gt;")?,
        '\u{a0}' => bytes.extend_from_slice(b"&nbsp;")?,
        _ => push_char(bytes, c)?,
    }
    Ok(())
}

#[tactic(auto, unfolding(page_write::specs::Html::text_html))]
fn push_text(bytes: &mut Vec<u8>, text: &[char]) -> Result<(), AllocError>
    ensures ok { OnOk result (bytes.new.items ≡ bytes.old.items ++ text_html text.now) }
{
    for c in text {
        push_text_char(bytes, *c)?;
    }
    Ok(())
}

fn push_end_tag(bytes: &mut Vec<u8>, name: &Name) -> Result<(), AllocError>
    ensures ok { OnOk result (bytes.new.items ≡ bytes.old.items ++ end_tag name.now) }
{
    if !is_void(name.as_slice()) {
        bytes.extend_from_slice(b"</")?;
        bytes.extend_from_slice(name.as_slice())?;
        bytes.extend_from_slice(b">")?;
    }
    Ok(())
}

fn push_comment(bytes: &mut Vec<u8>, text: &[char]) -> Result<(), AllocError>
    ensures ok { OnOk result (bytes.new.items ≡ bytes.old.items ++ comment_html text.now) }
{
    bytes.extend_from_slice(b"<!--")?;
    push_chars(bytes, text)?;
    bytes.extend_from_slice(b"-->")?;
    Ok(())
}

// What stands before the children of a node.
fn push_opening(bytes: &mut Vec<u8>, content: &Content) -> Result<(), AllocError>
    ensures ok { OnOk result (bytes.new.items ≡ bytes.old.items ++ opening content.now) }
{
    match content {
        Content::Document => Ok(()),
        Content::Element { name, attributes } => push_start_tag(bytes, name, attributes),
        Content::Words(text) => push_text(bytes, text.as_slice()),
        Content::Remark(text) => push_comment(bytes, text.as_slice()),
    }
}

// What stands after the children of a node.
fn push_closing(bytes: &mut Vec<u8>, content: &Content) -> Result<(), AllocError>
    ensures ok { OnOk result (bytes.new.items ≡ bytes.old.items ++ closing content.now) }
{
    match content {
        Content::Element { name, .. } => push_end_tag(bytes, name),
        _ => Ok(()),
    }
}

/// The HTML of a node with all that stands below it, in UTF-8; that of the document is the HTML of
/// its children. Its calls go as deep as the tree.
pub fn node_html<N: Nodes>(alloc: Global, nodes: &N, node: NodeRef) -> Result<Vec<u8>, AllocError>
    requires { N.holds nodes.now node }
    ensures { IfOk result (λ bytes. bytes.items ≡ node_html (N.trees nodes.now) node.label) }
{
    let mut writer = Writer {
        bytes: Vec::new(alloc),
    };
    walk(nodes, node, &mut writer)?;
    Ok(writer.bytes)
}

/// The HTML of the contents of a range, in UTF-8 (DOM Standard, "clone the contents" of a range): of
/// the children of the innermost node that holds both points, from the first point to the second.
/// Its calls go as deep as the tree.
pub fn range_html<N: Nodes>(
    alloc: Global,
    nodes: &N,
    range: (Point, Point),
) -> Result<Vec<u8>, AllocError>
    requires start { 0 < count_of (N.trees nodes.now) range.0.label }
    requires end { 0 < count_of (N.trees nodes.now) range.1.label }
    ensures { IfOk result (λ bytes. bytes.items ≡ range_html (N.trees nodes.now) range.0 range.1) }
{
    let mut writer = Writer {
        bytes: Vec::new(alloc),
    };
    walk_range(nodes, range, &mut writer)?;
    Ok(writer.bytes)
}
