//! Which node may stand in which.

ghost use Rattle.std.specs.Prelude.{◌≡◌, ◌&&◌, Bool, bytes_eq};
ghost use Rattle.std.specs.List.{list_any};
ghost use Rattle.std.specs.Option.{option_map_or};
ghost use Rattle.css_value.specs.StyleText.{is_space};
ghost use Rattle.node_arena.specs.DomModel.Contents.{name_of};
ghost use Rattle.node_styles.specs.Allowed as allowed;
ghost use Rattle.node_styles.specs.Lineage as line;
ghost use Rattle.node_styles.specs.Traits.{has_trait};

use crate::lineage::{Trait, has_in_lineage};
use css_value::element_names::{allowed_child, is_heading, is_prohibited_child};
use node_arena::{Content, NodeRef, Nodes};

static TEXTLESS_NAMES: [&[u8]; 6] = [b"colgroup", b"table", b"tbody", b"tfoot", b"thead", b"tr"];

// Whether a table has a row.
pub(crate) fn is_one_of(table: &[&[u8]], name: &[u8]) -> bool
    ensures { result ≡ list_any (λ row. bytes_eq row.now name.now) table.now }
{
    table.iter().any(|row| *row == name)
}

// Whether no text but spaces stands in an element of this name.
#[tactic(auto, unfolding(crate::specs::Allowed::is_textless, crate::specs::Allowed::textless_names))]
fn is_textless(name: &[u8]) -> bool
    ensures { result ≡ allowed.is_textless name.now }
{
    is_one_of(&TEXTLESS_NAMES, name)
}

fn is_space(c: char) -> bool
    ensures { result ≡ is_space c }
{
    matches!(c, '\t' | '\n' | '\x0c' | '\r' | ' ')
}

/// Whether a text is ASCII whitespace alone, or empty (Infra, "ASCII whitespace").
#[tactic(auto, unfolding(crate::specs::Allowed::are_spaces))]
pub fn are_spaces(chars: &[char]) -> bool
    ensures { result ≡ allowed.are_spaces chars.now }
{
    chars.iter().all(|c| is_space(*c))
}

// Whether a child of which this is true is barred by an element among the parent and its ancestors.
fn is_barred_below<N: Nodes>(nodes: &N, is_such: bool, parent: NodeRef, wanted: Trait) -> bool
    requires { N.holds nodes.now parent }
    ensures { result
        ≡ (is_such && line.has_in_lineage (has_trait wanted) (N.trees nodes.now) parent.label) }
{
    is_such && has_in_lineage(nodes, parent, &wanted)
}

// Whether the parent or an ancestor of it bars an element of this name.
#[tactic(auto, unfolding(crate::specs::Allowed::is_barred))]
fn is_barred<N: Nodes>(nodes: &N, child: &[u8], parent: NodeRef) -> bool
    requires { N.holds nodes.now parent }
    ensures { result ≡ allowed.is_barred child.now (N.trees nodes.now) parent.label }
{
    let is_link = child == b"a".as_slice();
    if is_barred_below(nodes, is_link, parent, Trait::Link) {
        return true;
    }
    if is_barred_below(
        nodes,
        is_prohibited_child(child),
        parent,
        Trait::InlineContents,
    ) {
        return true;
    }
    is_barred_below(nodes, is_heading(child), parent, Trait::Heading)
}

/// Whether an element of this name is an allowed child of a node.
#[tactic(auto, unfolding(crate::specs::Allowed::name_allowed_in))]
pub fn name_allowed_in<N: Nodes>(nodes: &N, child: &[u8], parent: NodeRef) -> bool
    requires { N.holds nodes.now parent }
    ensures { result ≡ allowed.name_allowed_in child.now (N.trees nodes.now) parent.label }
{
    match nodes.content(parent) {
        Content::Element { name, .. } => {
            !is_barred(nodes, child, parent) && allowed_child(child, name.as_slice())
        }
        _ => false,
    }
}

/// Whether a node is an allowed child of an element of this name.
#[tactic(auto, unfolding(crate::specs::Allowed::allowed_in_name))]
pub fn allowed_in_name<N: Nodes>(nodes: &N, child: NodeRef, parent: &[u8]) -> bool
    requires { N.holds nodes.now child }
    ensures { result ≡ allowed.allowed_in_name (N.trees nodes.now) child.label parent.now }
{
    match nodes.content(child) {
        Content::Element { name, .. } => allowed_child(name.as_slice(), parent),
        Content::Words(chars) => are_spaces(chars.as_slice()) || !is_textless(parent),
        _ => true,
    }
}

// Whether a node is an element in which no text but spaces stands.
fn is_textless_node<N: Nodes>(nodes: &N, node: NodeRef) -> bool
    requires { N.holds nodes.now node }
    ensures { result
        ≡ option_map_or allowed.is_textless (name_of (N.trees nodes.now) node.label) Bool.false }
{
    match nodes.content(node) {
        Content::Element { name, .. } => is_textless(name.as_slice()),
        _ => false,
    }
}

/// Whether a node is an allowed child of a node.
#[tactic(auto, unfolding(crate::specs::Allowed::allowed_in))]
pub fn allowed_in<N: Nodes>(nodes: &N, child: NodeRef, parent: NodeRef) -> bool
    requires child_held { N.holds nodes.now child }
    requires parent_held { N.holds nodes.now parent }
    ensures { result ≡ allowed.allowed_in (N.trees nodes.now) child.label parent.label }
{
    match nodes.content(child) {
        Content::Element { name, .. } => name_allowed_in(nodes, name.as_slice(), parent),
        Content::Words(chars) => {
            are_spaces(chars.as_slice()) || !is_textless_node(nodes, parent)
        }
        _ => true,
    }
}
