//! The plain text of a node.

ghost use Rattle.std.specs.Prelude.{◌≡◌, ◌<◌, ◌^◌, ◌++◌, ◌||◌, OnOk, IfOk};
ghost use Rattle.node_texts.specs.Between.{part_of};
ghost use Rattle.node_texts.specs.PlainText.{own_text, is_line_start, with_text, plain_text, range_text};
ghost use Rattle.node_styles.specs.DomModel.Forest.{count_of};

use crate::between::{PartVisitor, chars_part, walk_range};
use crate::walk::{Visitor, walk};
use node_styles::arena::{NodeRef, Nodes};
use node_styles::dom::Content;
use node_styles::{is_block_content, is_element_named};
use point_order::dom_ranges::Point;
use std::alloc::{AllocError, Global};
use std::marker::Model;

/// The plain text of the nodes that were shown: its characters, and whether a block has begun or
/// ended since the last of them.
#[derive(Drop)]
struct PlainText {
    chars: Vec<char>,
    is_at_edge: bool,
}

impl Model for PlainText {
    ghost use Rattle.std.specs.Prelude.{ℕ, List, Bool};

    ghost Value = { List ℕ × Bool };

    ghost view = { λ plain. (plain.chars.items, plain.is_at_edge) };
}

impl Visitor for PlainText {
    ghost use Rattle.node_texts.specs.PlainText.{text_entered, text_left};

    ghost entered = { text_entered };

    ghost left = { text_left };

    fn enter(&mut self, _label: u32, content: &Content) -> Result<(), AllocError> {
        self.is_at_edge |= is_block_content(content);
        self.push(own_text(content))
    }

    fn leave(&mut self, _label: u32, content: &Content) -> Result<(), AllocError> {
        self.is_at_edge |= is_block_content(content);
        Ok(())
    }
}

impl PartVisitor for PlainText {
    ghost use Rattle.std.proofs.Common.{ap};
    ghost use Rattle.node_texts.specs.Parts.{block_of_part};
    ghost use Rattle.node_texts.specs.PlainText.{with_edge};

    #[tactic(auto, using(crate::specs::Parts::block_of_part))]
    fn enter_part(
        &mut self,
        _label: u32,
        content: &Content,
        from: u32,
        to: Option<u32>,
    ) -> Result<(), AllocError> {
        self.is_at_edge |= is_block_content(content);
        self.push(part_text(content, from, to))
    }

    ghost leaves_parts = { λ plain l from to content.
        ap (λ is_edge. with_edge plain is_edge) (block_of_part from to content) };
}

impl PlainText {
    // Appends characters, on a line of their own where a block has begun or ended before them.
    fn push(&mut self, text: &[char]) -> Result<(), AllocError>
        ensures ok { OnOk result (self.new ≡ with_text self.old text.now) }
    {
        if text.is_empty() {
            return Ok(());
        }
        if self.is_at_edge && !is_line_start(&self.chars) {
            self.chars.push('\n')?;
        }
        self.chars.extend_from_slice(text)?;
        self.is_at_edge = false;
        Ok(())
    }
}

// Whether the next character would begin a line.
fn is_line_start(chars: &[char]) -> bool
    ensures { result ≡ is_line_start chars.now }
{
    match chars.last() {
        Some(last) => *last == '\n',
        None => true,
    }
}

// The characters that a node itself has.
#[tactic(auto, unfolding(crate::specs::PlainText::own_text))]
fn own_text(content: &Content) -> &[char]
    ensures { result.now ≡ own_text content.now }
{
    match content {
        Content::Words(chars) => chars.as_slice(),
        _ if is_element_named(content, b"br") => &['\n'],
        _ => &[],
    }
}

// The same of a part of a text or a comment.
#[tactic(auto, unfolding(crate::specs::PlainText::own_text, crate::specs::Between::part_of, node_styles::specs::OwnStyles::is_named))]
fn part_text(content: &Content, from: u32, to: Option<u32>) -> &[char]
    ensures { result.now ≡ own_text (part_of from to content.now) }
{
    match content {
        Content::Words(chars) => chars_part(chars.as_slice(), from, to),
        Content::Document | Content::Remark(_) => &[],
        Content::Element { .. } => own_text(content),
    }
}

/// The plain text of a node with all that stands below it: the characters of its texts and a line
/// feed for each br, in tree order. Where a block begins or ends between two of these characters, a
/// line feed comes between them, unless the first one is a line feed. Its calls go as deep as the
/// tree.
pub fn plain_text<N: Nodes>(
    alloc: Global,
    nodes: &N,
    node: NodeRef,
) -> Result<Vec<char>, AllocError>
    requires { N.holds nodes.now node }
    ensures { IfOk result (λ chars. chars.items ≡ plain_text (N.trees nodes.now) node.label) }
{
    let mut plain = PlainText {
        chars: Vec::new(alloc),
        is_at_edge: false,
    };
    walk(nodes, node, &mut plain)?;
    Ok(plain.chars)
}

/// The plain text of the contents of a range, as `plain_text` has it of a node. Its calls go as deep
/// as the tree.
pub fn range_text<N: Nodes>(
    alloc: Global,
    nodes: &N,
    range: (Point, Point),
) -> Result<Vec<char>, AllocError>
    requires start { 0 < count_of (N.trees nodes.now) range.0.label }
    requires end { 0 < count_of (N.trees nodes.now) range.1.label }
    ensures { IfOk result (λ chars. chars.items ≡ range_text (N.trees nodes.now) range.0 range.1) }
{
    let mut plain = PlainText {
        chars: Vec::new(alloc),
        is_at_edge: false,
    };
    walk_range(nodes, range, &mut plain)?;
    Ok(plain.chars)
}
