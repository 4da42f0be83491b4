//! Modifiable and simple modifiable elements.

ghost use Rattle.std.specs.Prelude.{◌≡◌, Bool, Ok};
ghost use Rattle.std.specs.List.{list_all, list_any};
ghost use Rattle.std.specs.Str.{bytes_eq};
ghost use Rattle.command_value.specs.Modifiable as spec;

use crate::specified_values::{is_named_in, is_one_of};
use node_styles::arena::{Content, NodeRef, Nodes};
use node_styles::css::{Only, find, has_codes, sets_only};
use node_styles::dom::Attributes;
use node_styles::is_element_named;
use std::alloc::AllocError;

// Whether an attribute is a style that sets this and nothing else.
fn is_style_of(name: &[u8], value: &[char], group: Only) -> bool
    ensures { result ≡ spec.is_style_of group (record { name = name.now; value = value.now }) }
{
    name == b"style".as_slice() && sets_only(value, group)
}

fn has_inline_name(content: &Content) -> bool
    ensures { result ≡ spec.has_inline_name content.now }
{
    is_named_in(
        content,
        &[
            b"a", b"b", b"em", b"font", b"i", b"s", b"span", b"strike", b"strong", b"sub", b"sup",
            b"u",
        ],
    )
}

fn is_bare(content: &Content, name: &[u8], value: &[char]) -> bool
    ensures { result ≡ spec.is_bare content.now (record { name = name.now; value = value.now }) }
{
    has_inline_name(content) && is_style_of(name, value, Only::Nothing)
}

fn is_plain_link(content: &Content, name: &[u8]) -> bool
    ensures { result ≡ spec.is_plain_link content.now name.now }
{
    is_element_named(content, b"a") && name == b"href".as_slice()
}

fn is_plain_font(content: &Content, name: &[u8]) -> bool
    ensures { result ≡ spec.is_plain_font content.now name.now }
{
    is_element_named(content, b"font") && is_one_of(&[b"color", b"face", b"size"], name)
}

fn is_styled_bold(content: &Content, name: &[u8], value: &[char]) -> bool
    ensures { result
        ≡ spec.is_styled_bold content.now (record { name = name.now; value = value.now }) }
{
    is_named_in(content, &[b"b", b"strong"]) && is_style_of(name, value, Only::FontWeight)
}

fn is_styled_italic(content: &Content, name: &[u8], value: &[char]) -> bool
    ensures { result
        ≡ spec.is_styled_italic content.now (record { name = name.now; value = value.now }) }
{
    is_named_in(content, &[b"i", b"em"]) && is_style_of(name, value, Only::FontStyle)
}

// A style that sets one property other than text-decoration.
fn is_styled_span(content: &Content, name: &[u8], value: &[char]) -> bool
    ensures { result
        ≡ spec.is_styled_span content.now (record { name = name.now; value = value.now }) }
{
    is_named_in(content, &[b"a", b"font", b"span"])
        && is_style_of(name, value, Only::AnyOne)
        && !is_style_of(name, value, Only::TextDecoration)
}

fn is_line_word(text: &[char]) -> bool
    ensures { result ≡ spec.is_line_word text.now }
{
    has_codes(text, b"line-through")
        || has_codes(text, b"underline")
        || has_codes(text, b"overline")
        || has_codes(text, b"none")
}

// Whether the text-decoration of a style is line-through, underline, overline or none.
fn is_one_line(style: &[char]) -> bool
    ensures { result ≡ spec.is_one_line style.now }
{
    match find(style, b"text-decoration") {
        None => false,
        Some(lines) => is_line_word(lines),
    }
}

// A style that sets text-decoration alone, to one word.
fn is_styled_line(content: &Content, name: &[u8], value: &[char]) -> bool
    ensures { result
        ≡ spec.is_styled_line content.now (record { name = name.now; value = value.now }) }
{
    is_named_in(content, &[b"a", b"font", b"s", b"span", b"strike", b"u"])
        && is_style_of(name, value, Only::TextDecoration)
        && is_one_line(value)
}

// Whether an element with this one attribute is simple modifiable.
#[tactic(auto, unfolding(crate::specs::Modifiable::is_simple_with))]
fn is_simple_with(content: &Content, name: &[u8], value: &[char]) -> bool
    ensures { result
        ≡ spec.is_simple_with content.now (record { name = name.now; value = value.now }) }
{
    is_bare(content, name, value)
        || is_plain_link(content, name)
        || is_plain_font(content, name)
        || is_styled_bold(content, name, value)
        || is_styled_italic(content, name, value)
        || is_styled_span(content, name, value)
        || is_styled_line(content, name, value)
}

fn is_simple_in(content: &Content, attributes: &Attributes) -> bool
    ensures { result ≡ spec.is_simple_in content.now attributes.now }
{
    match attributes.len() {
        0 => has_inline_name(content),
        1 => match attributes.at(0) {
            Some((name, value)) => is_simple_with(content, name, value.as_slice()),
            None => false,
        },
        _ => false,
    }
}

#[tactic(auto, unfolding(crate::specs::Modifiable::is_simple_modifiable_content))]
fn is_simple_content(content: &Content) -> bool
    ensures { result ≡ spec.is_simple_modifiable_content content.now }
{
    match content {
        Content::Element { attributes, .. } => is_simple_in(content, attributes),
        _ => false,
    }
}

// Whether each attribute has one of these names.
fn has_only(names: &[&[u8]], attributes: &Attributes) -> bool
    ensures { result
        ≡ list_all (λ a. list_any (λ row. bytes_eq row.now a.name) names.now) attributes.now }
{
    for place in 0..attributes.len() {
        if let Some((name, value)) = attributes.at(place) {
            if !is_one_of(names, name) {
                return false;
            }
        }
    }
    true
}

fn is_modifiable_plain(content: &Content, attributes: &Attributes) -> bool
    ensures { result ≡ spec.is_modifiable_plain content.now attributes.now }
{
    is_named_in(
        content,
        &[
            b"b", b"em", b"i", b"s", b"span", b"strike", b"strong", b"sub", b"sup", b"u",
        ],
    ) && has_only(&[b"style"], attributes)
}

fn is_modifiable_font(content: &Content, attributes: &Attributes) -> bool
    ensures { result ≡ spec.is_modifiable_font content.now attributes.now }
{
    is_element_named(content, b"font")
        && has_only(&[b"style", b"color", b"face", b"size"], attributes)
}

fn is_modifiable_link(content: &Content, attributes: &Attributes) -> bool
    ensures { result ≡ spec.is_modifiable_link content.now attributes.now }
{
    is_element_named(content, b"a") && has_only(&[b"style", b"href"], attributes)
}

fn is_modifiable_in(content: &Content, attributes: &Attributes) -> bool
    ensures { result ≡ spec.is_modifiable_in content.now attributes.now }
{
    is_modifiable_plain(content, attributes)
        || is_modifiable_font(content, attributes)
        || is_modifiable_link(content, attributes)
}

#[tactic(auto, unfolding(crate::specs::Modifiable::is_modifiable_content))]
fn is_modifiable_content(content: &Content) -> bool
    ensures { result ≡ spec.is_modifiable_content content.now }
{
    match content {
        Content::Element { attributes, .. } => is_modifiable_in(content, attributes),
        _ => false,
    }
}

/// Whether a node is a modifiable element.
#[tactic(auto, unfolding(crate::specs::Modifiable::is_modifiable))]
pub fn is_modifiable_element<N: Nodes>(nodes: &N, node: NodeRef) -> bool
    requires { N.holds nodes.now node }
    ensures { result ≡ spec.is_modifiable (N.trees nodes.now) node.label }
{
    is_modifiable_content(nodes.content(node))
}

/// Whether a node is a simple modifiable element.
#[tactic(auto, unfolding(crate::specs::Modifiable::is_simple_modifiable))]
pub fn is_simple_modifiable_element<N: Nodes>(nodes: &N, node: NodeRef) -> bool
    requires { N.holds nodes.now node }
    ensures { result ≡ spec.is_simple_modifiable (N.trees nodes.now) node.label }
{
    is_simple_content(nodes.content(node))
}

/// [`is_modifiable_element`] as a result, which is always `Ok`: it takes no memory.
pub fn is_modifiable<N: Nodes>(nodes: &N, node: NodeRef) -> Result<bool, AllocError>
    requires { N.holds nodes.now node }
    ensures { result ≡ Ok (spec.is_modifiable (N.trees nodes.now) node.label) }
{
    Ok(is_modifiable_element(nodes, node))
}

/// [`is_simple_modifiable_element`] as a result, which is always `Ok`: it takes no memory.
pub fn is_simple_modifiable<N: Nodes>(nodes: &N, node: NodeRef) -> Result<bool, AllocError>
    requires { N.holds nodes.now node }
    ensures { result ≡ Ok (spec.is_simple_modifiable (N.trees nodes.now) node.label) }
{
    Ok(is_simple_modifiable_element(nodes, node))
}
