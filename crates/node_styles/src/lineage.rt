//! Walks from a node up through its ancestors, and the editing hosts on them.

ghost use Rattle.std.specs.Prelude.{◌≡◌, Bool, Some, None, IfSome, IfNone};
ghost use Rattle.node_arena.specs.DomModel.Contents.{is_element_at};
ghost use Rattle.node_arena.specs.DomModel.Editing as editing;
ghost use Rattle.node_arena.specs.DomModel.Forest.{content_of};
ghost use Rattle.std.specs.Option.{option_map_or};
ghost use Rattle.node_styles.specs.Lineage as line;
ghost use Rattle.css_value.specs.HtmlNames.ElementNames as names;
ghost use Rattle.node_styles.specs.Allowed.{has_name};
ghost use Rattle.node_styles.specs.OwnStyles as own;
ghost use Rattle.node_styles.specs.Traits.{has_trait, IsNearest};
ghost use Rattle.node_styles.specs.TurnBound as bound;

use crate::blocks::{has_no_box, is_block_content};
use crate::own::{has_own, is_element_named};
use css_value::element_names::{has_inline_contents, is_heading};
use node_arena::{Content, Kind, NodeRef, Nodes};
use style_table::Property;

/// How many turns a loop of an algorithm or a test takes at most: two for each node of the
/// document, one for each character, and two.
pub fn turn_bound<N: Nodes>(nodes: &N) -> u128
    ensures { result ≡ bound.turn_bound (N.trees nodes.now) }
{
    2 * nodes.node_count() as u128 + nodes.char_count() as u128 + 2
}

/// A test of the content of nodes.
pub trait Test {
    ghost use Rattle.std.specs.Prelude.{Bool};
    ghost use Rattle.node_arena.specs.DomModel.declared.Content.{Content};

    // which contents pass
    ghost test: { Self → Content → Bool };

    /// Whether a content passes.
    fn passes(&self, content: &Content) -> bool
        ensures { result ≡ test self.now content.now };
}

/// What is looked for among a node and its ancestors.
#[derive(Clone, Copy)]
pub(crate) enum Trait {
    /// A value of its own of a property.
    Own(Property),
    /// `display: none`.
    NoBox,
    Block,
    /// The name `a`.
    Link,
    /// A name of an element that has inline contents alone.
    InlineContents,
    Heading,
}

impl Test for Trait {
    ghost test = { λ wanted. has_trait wanted };

    fn passes(&self, content: &Content) -> bool {
        match *self {
            Trait::Own(property) => has_own(content, property),
            Trait::NoBox => has_no_box(content),
            Trait::Block => is_block_content(content),
            Trait::Link => is_element_named(content, b"a"),
            Trait::InlineContents => has_inline_name(content),
            Trait::Heading => has_heading_name(content),
        }
    }
}

fn has_inline_name(content: &Content) -> bool
    ensures { result ≡ has_name names.has_inline_contents content.now }
{
    match content {
        Content::Element { name, .. } => has_inline_contents(name.as_slice()),
        _ => false,
    }
}

fn has_heading_name(content: &Content) -> bool
    ensures { result ≡ has_name names.is_heading content.now }
{
    match content {
        Content::Element { name, .. } => is_heading(name.as_slice()),
        _ => false,
    }
}

/// The innermost of a node and its ancestors that passes a test.
pub fn nearest<N: Nodes, T: Test>(nodes: &N, node: NodeRef, wanted: &T) -> Option<NodeRef>
    requires { N.holds nodes.now node }
    ensures found { IfSome result (λ r.
        IsNearest (T.test wanted.now) (N.holds nodes.now) (N.trees nodes.now)
        node.label r) }
    ensures none { IfNone result (line.nearest (T.test wanted.now) (N.trees nodes.now) node.label
        ≡ None) }
{
    nodes.valid();
    let mut at = node;
    while !wanted.passes(nodes.content(at)) {
        match nodes.parent(at) {
            Some(parent) => at = parent,
            None => return None,
        }
    }
    Some(at)
}

/// Whether a node or an ancestor of it passes a test.
#[tactic(auto, using(crate::proofs::Finding::found_any))]
pub fn has_in_lineage<N: Nodes, T: Test>(nodes: &N, node: NodeRef, wanted: &T) -> bool
    requires { N.holds nodes.now node }
    ensures { result ≡ line.has_in_lineage (T.test wanted.now) (N.trees nodes.now) node.label }
{
    nearest(nodes, node, wanted).is_some()
}

/// Whether a node is an element of this name.
pub fn is_named<N: Nodes>(nodes: &N, node: NodeRef, name: &[u8]) -> bool
    requires { N.holds nodes.now node }
    ensures { result
        ≡ option_map_or (own.is_named name.now) (content_of (N.trees nodes.now) node.label)
        Bool.false }
{
    is_element_named(nodes.content(node), name)
}

/// Whether a node is an element.
pub fn is_element<N: Nodes>(nodes: &N, node: NodeRef) -> bool
    requires { N.holds nodes.now node }
    ensures { result ≡ is_element_at (N.trees nodes.now) node.label }
{
    matches!(nodes.kind(node), Kind::Element)
}

/// Whether a node is an editing host.
pub fn is_host<N: Nodes>(nodes: &N, node: NodeRef) -> bool
    requires { N.holds nodes.now node }
    ensures { result ≡ editing.is_host (N.trees nodes.now) node.label }
{
    nodes.is_host(node)
}

/// Whether a node is editable with `host` as its editing host.
pub fn is_editable<N: Nodes>(nodes: &N, host: NodeRef, node: NodeRef) -> bool
    requires host_held { N.holds nodes.now host }
    requires node_held { N.holds nodes.now node }
    ensures { result ≡ editing.is_editable (N.trees nodes.now) host.label node.label }
{
    nodes.is_editable(host, node)
}
