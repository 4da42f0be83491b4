//! Block nodes, hidden nodes, and whitespace nodes.

ghost use Rattle.std.specs.Prelude.{◌≡◌, IfSome};
ghost use Rattle.std.specs.List.{list_all};
ghost use Rattle.node_arena.specs.Held.{label};
ghost use Rattle.node_arena.specs.Reads.{Names};
ghost use Rattle.node_styles.specs.Blocks as blocks;

use crate::lineage::{Trait, has_in_lineage, nearest};
use crate::own::own_display;
use crate::values::white_space;
use css_value::{Display, WhiteSpace};
use node_arena::{Content, NodeRef, Nodes};

/// The `display` of an element, which no ancestor changes; that of all else is `inline`.
#[tactic(auto, unfolding(crate::specs::Blocks::own_or_inline))]
pub fn own_or_inline(content: &Content) -> Display
    ensures { result ≡ blocks.own_or_inline content.now }
{
    match own_display(content) {
        Some(value) => value,
        None => Display::Inline,
    }
}

// Whether an element of this display is a block.
fn is_block_display(display: Display) -> bool
    ensures { result ≡ blocks.is_block_display display }
{
    match display {
        Display::Block | Display::ListItem | Display::Table => true,
        Display::Inline | Display::InlineBlock | Display::InlineTable | Display::NoBox => false,
    }
}

/// Whether a content is that of a block node.
#[tactic(auto, unfolding(crate::specs::Blocks::is_block_content))]
pub fn is_block_content(content: &Content) -> bool
    ensures { result ≡ blocks.is_block_content content.now }
{
    match content {
        Content::Document => true,
        Content::Element { .. } => is_block_display(own_or_inline(content)),
        _ => false,
    }
}

/// Whether a content is that of an element with `display: none`.
#[tactic(auto, unfolding(crate::specs::Blocks::has_no_box))]
pub fn has_no_box(content: &Content) -> bool
    ensures { result ≡ blocks.has_no_box content.now }
{
    match own_or_inline(content) {
        Display::NoBox => true,
        _ => false,
    }
}

/// Whether a node is a block node: the Document, or an element whose `display` isn't `inline`,
/// `inline-block`, `inline-table` or `none`.
#[tactic(auto, unfolding(crate::specs::Blocks::is_block))]
pub fn is_block<N: Nodes>(nodes: &N, node: NodeRef) -> bool
    requires { N.holds nodes.now node }
    ensures { result ≡ blocks.is_block (N.trees nodes.now) node.label }
{
    is_block_content(nodes.content(node))
}

/// The nearest proper ancestor of a node that is a block node.
#[tactic(auto, unfolding(crate::specs::Blocks::nearest_block))]
pub fn nearest_block<N: Nodes>(nodes: &N, node: NodeRef) -> Option<NodeRef>
    requires { N.holds nodes.now node }
    ensures { Names (N.holds nodes.now) result
        (blocks.nearest_block (N.trees nodes.now) node.label) }
{
    let parent = nodes.parent(node)?;
    nearest(nodes, parent, &Trait::Block)
}

/// Whether a node or an ancestor of it has `display: none`.
#[tactic(auto, unfolding(crate::specs::Blocks::is_hidden))]
pub fn is_hidden<N: Nodes>(nodes: &N, node: NodeRef) -> bool
    requires { N.holds nodes.now node }
    ensures { result ≡ blocks.is_hidden (N.trees nodes.now) node.label }
{
    has_in_lineage(nodes, node, &Trait::NoBox)
}

// Whether the character collapses under this white-space.
#[tactic(auto, unfolding(crate::specs::Blocks::collapses))]
fn collapses(white_space: WhiteSpace, character: char) -> bool
    ensures { result ≡ blocks.collapses white_space character }
{
    match white_space {
        WhiteSpace::Normal | WhiteSpace::NoWrap => { matches!(character, '\t' | '\n' | '\r' | ' ') }
        WhiteSpace::PreLine => matches!(character, '\t' | '\r' | ' '),
        WhiteSpace::Pre | WhiteSpace::PreWrap => false,
    }
}

fn all_collapse(white_space: WhiteSpace, chars: &[char]) -> bool
    ensures { result ≡ list_all (blocks.collapses white_space) chars.now }
{
    chars.iter().all(|c| collapses(white_space, *c))
}

// Whether Words under this parent is whitespace.
fn is_whitespace_under<N: Nodes>(nodes: &N, parent: Option<NodeRef>, chars: &[char]) -> bool
    requires { IfSome parent (λ p. N.holds nodes.now p) }
    ensures { result ≡ blocks.is_whitespace_under (label parent) (N.trees nodes.now) chars.now }
{
    if chars.is_empty() {
        return true;
    }
    match parent {
        None => false,
        Some(parent) => all_collapse(white_space(nodes, parent), chars),
    }
}

/// Whether a node is a whitespace node: Words that is empty, or that has only tabs, LF, CR and
/// spaces where its parent's `white-space` is `normal` or `nowrap`, or only tabs, CR and spaces
/// where it is `pre-line`.
#[tactic(auto, unfolding(crate::specs::Blocks::is_whitespace))]
pub fn is_whitespace<N: Nodes>(nodes: &N, node: NodeRef) -> bool
    requires { N.holds nodes.now node }
    ensures { result ≡ blocks.is_whitespace (N.trees nodes.now) node.label }
{
    match nodes.content(node) {
        Content::Words(chars) => is_whitespace_under(nodes, nodes.parent(node), chars.as_slice()),
        _ => false,
    }
}
