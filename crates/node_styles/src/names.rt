//! The classes of elements that editing commands speak of.

ghost use Rattle.std.specs.Prelude.{◌≡◌, Bool};
ghost use Rattle.std.specs.List.{list_all};
ghost use Rattle.std.specs.Option.{option_map_or};
ghost use Rattle.node_arena.specs.DomModel.Contents.{attributes_in};
ghost use Rattle.node_styles.specs.NameClasses as classes;

use crate::own::{declared, is_element_named};
use css_value::element_names::{
    is_formattable_block as is_formattable_block_name, is_non_list_single_line_container,
    is_remove_format_candidate, is_single_line_container,
};
use css_value::{Only, sets_only};
use node_arena::{Attributes, Content, NodeRef, Nodes};

/// Whether a node is a non-list single-line container.
#[tactic(auto, unfolding(crate::specs::NameClasses::is_non_list_single_line))]
pub fn is_non_list_single_line<N: Nodes>(nodes: &N, node: NodeRef) -> bool
    requires { N.holds nodes.now node }
    ensures { result ≡ classes.is_non_list_single_line (N.trees nodes.now) node.label }
{
    match nodes.content(node) {
        Content::Element { name, .. } => is_non_list_single_line_container(name.as_slice()),
        _ => false,
    }
}

/// Whether a node is a single-line container: a non-list one, or an li, dt or dd.
#[tactic(auto, unfolding(crate::specs::NameClasses::is_single_line))]
pub fn is_single_line<N: Nodes>(nodes: &N, node: NodeRef) -> bool
    requires { N.holds nodes.now node }
    ensures { result ≡ classes.is_single_line (N.trees nodes.now) node.label }
{
    match nodes.content(node) {
        Content::Element { name, .. } => is_single_line_container(name.as_slice()),
        _ => false,
    }
}

/// Whether a node is an element with a formattable block name.
#[tactic(auto, unfolding(crate::specs::NameClasses::is_formattable_block))]
pub fn is_formattable_block<N: Nodes>(nodes: &N, node: NodeRef) -> bool
    requires { N.holds nodes.now node }
    ensures { result ≡ classes.is_formattable_block (N.trees nodes.now) node.label }
{
    match nodes.content(node) {
        Content::Element { name, .. } => is_formattable_block_name(name.as_slice()),
        _ => false,
    }
}

// Whether the style sets a margin.
#[tactic(auto, unfolding(crate::specs::NameClasses::sets_margin, crate::specs::Below::margin_names))]
fn sets_margin(content: &Content) -> bool
    ensures { result ≡ classes.sets_margin content.now }
{
    declared(content, b"margin").is_some()
        || declared(content, b"margin-top").is_some()
        || declared(content, b"margin-right").is_some()
        || declared(content, b"margin-bottom").is_some()
        || declared(content, b"margin-left").is_some()
}

#[tactic(auto, unfolding(crate::specs::NameClasses::is_indentation_content))]
fn is_indentation_content(content: &Content) -> bool
    ensures { result ≡ classes.is_indentation_content content.now }
{
    is_element_named(content, b"blockquote")
        || (is_element_named(content, b"div") && sets_margin(content))
}

/// Whether a node is an indentation element: a blockquote, or a div whose style sets a margin.
#[tactic(auto, unfolding(crate::specs::NameClasses::is_indentation))]
pub fn is_indentation<N: Nodes>(nodes: &N, node: NodeRef) -> bool
    requires { N.holds nodes.now node }
    ensures { result ≡ classes.is_indentation (N.trees nodes.now) node.label }
{
    is_indentation_content(nodes.content(node))
}

// Whether an attribute is dir, or a style that sets nothing but margins, paddings and borders.
#[tactic(auto, unfolding(crate::specs::NameClasses::is_plain_attribute))]
fn is_plain_attribute(name: &[u8], value: &[char]) -> bool
    ensures { result ≡ classes.is_plain_attribute (record { name = name.now; value = value.now }) }
{
    name == b"dir".as_slice() || (name == b"style".as_slice() && sets_only(value, Only::BoxNames))
}

fn are_plain(attributes: &Attributes) -> bool
    ensures { result ≡ list_all classes.is_plain_attribute attributes.now }
{
    for place in 0..attributes.len() {
        if let Some((name, value)) = attributes.at(place) {
            if !is_plain_attribute(name, value.as_slice()) {
                return false;
            }
        }
    }
    true
}

fn has_plain_attributes(content: &Content) -> bool
    ensures { result
        ≡ option_map_or (list_all classes.is_plain_attribute) (attributes_in content.now)
        Bool.false }
{
    match content {
        Content::Element { attributes, .. } => are_plain(attributes),
        _ => false,
    }
}

/// Whether a node is a simple indentation element: an indentation element whose attributes are only
/// `dir` and a style that sets nothing but margins, paddings and borders.
#[tactic(auto, unfolding(crate::specs::NameClasses::is_simple_indentation, crate::specs::NameClasses::is_simple_indentation_content))]
pub fn is_simple_indentation<N: Nodes>(nodes: &N, node: NodeRef) -> bool
    requires { N.holds nodes.now node }
    ensures { result ≡ classes.is_simple_indentation (N.trees nodes.now) node.label }
{
    let content = nodes.content(node);
    is_indentation_content(content) && has_plain_attributes(content)
}

/// Whether a node is a removeFormat candidate: editable with `host` as its editing host, and of a
/// name that the command takes out.
#[tactic(auto, unfolding(crate::specs::NameClasses::is_format_candidate))]
pub fn is_format_candidate<N: Nodes>(nodes: &N, host: NodeRef, node: NodeRef) -> bool
    requires host_held { N.holds nodes.now host }
    requires node_held { N.holds nodes.now node }
    ensures { result ≡ classes.is_format_candidate (N.trees nodes.now) host.label node.label }
{
    match nodes.content(node) {
        Content::Element { name, .. } => {
            is_remove_format_candidate(name.as_slice()) && nodes.is_editable(host, node)
        }
        _ => false,
    }
}
