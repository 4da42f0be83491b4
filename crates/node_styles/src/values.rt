//! The resolved values of the properties of a node.

ghost use Rattle.std.specs.Prelude.{◌≡◌, None, IfOk};
ghost use Rattle.std.specs.Fn.{FnOnceReturnsAt};
ghost use Rattle.std.specs.Option.{MatchOption};
ghost use Rattle.node_styles.specs.Families.{family_text};
ghost use Rattle.node_styles.specs.Lineage.{nearest};
ghost use Rattle.node_styles.specs.Resolved as resolved;
ghost use Rattle.node_styles.specs.Traits.{has_own};

use crate::lineage::{Trait, nearest};
use crate::own::{
    DecorationText, Family, own_background_color, own_color, own_decoration_text, own_display,
    own_font_family, own_font_size, own_font_style, own_font_weight, own_text_align,
    own_text_decoration, own_white_space,
};
use css_value::{
    Colour, Display, FontStyle, TextAlign, TextDecoration, WhiteSpace, print_font_size,
    print_font_weight,
};
use node_arena::{Chars, Content, NodeRef, Nodes};
use std::alloc::{AllocError, Global};
use style_table::Property;

const BLACK: Colour = Colour {
    red: 0,
    green: 0,
    blue: 0,
    clear: false,
};

const TRANSPARENT: Colour = Colour {
    red: 0,
    green: 0,
    blue: 0,
    clear: true,
};

const NO_LINES: TextDecoration = TextDecoration {
    underline: false,
    overline: false,
    line_through: false,
};

// The value that the innermost of a node and its ancestors which has one gives itself.
fn inherited<'a, N: Nodes, V, F: FnOnce(&'a Content) -> Option<V>>(
    nodes: &'a N,
    node: NodeRef,
    property: Property,
    own: F,
) -> Option<V>
    requires node_held { N.holds nodes.now node }
    requires callable { F.IsAlwaysCallable own }
    ensures { MatchOption (nearest (has_own property) (N.trees nodes.now) node.label) (result
        ≡ None)
        (λ owner. FnOnceReturnsAt F.FnOnce own owner.content result) }
{
    let owner = nearest(nodes, node, &Trait::Own(property))?;
    own(nodes.content(owner))
}

/// The resolved `display`.
#[tactic(auto, unfolding(crate::specs::Resolved::display))]
pub fn display<N: Nodes>(nodes: &N, node: NodeRef) -> Display
    requires node_held { N.holds nodes.now node }
    ensures { result ≡ resolved.display (N.trees nodes.now) node.label }
{
    own_display(nodes.content(node)).unwrap_or(Display::Inline)
}

/// The resolved `white-space`.
#[tactic(auto, unfolding(crate::specs::Resolved::white_space))]
pub fn white_space<N: Nodes>(nodes: &N, node: NodeRef) -> WhiteSpace
    requires node_held { N.holds nodes.now node }
    ensures { result ≡ resolved.white_space (N.trees nodes.now) node.label }
{
    inherited(nodes, node, Property::WhiteSpace, own_white_space).unwrap_or(WhiteSpace::Normal)
}

/// The resolved `font-weight`, 100 to 900.
#[tactic(auto, unfolding(crate::specs::Resolved::font_weight))]
pub fn font_weight<N: Nodes>(nodes: &N, node: NodeRef) -> u16
    requires node_held { N.holds nodes.now node }
    ensures { result ≡ resolved.font_weight (N.trees nodes.now) node.label }
{
    inherited(nodes, node, Property::FontWeight, own_font_weight).unwrap_or(400)
}

/// The resolved `font-style`.
#[tactic(auto, unfolding(crate::specs::Resolved::font_style))]
pub fn font_style<N: Nodes>(nodes: &N, node: NodeRef) -> FontStyle
    requires node_held { N.holds nodes.now node }
    ensures { result ≡ resolved.font_style (N.trees nodes.now) node.label }
{
    inherited(nodes, node, Property::FontStyle, own_font_style).unwrap_or(FontStyle::Normal)
}

/// The resolved `font-family`.
#[tactic(auto, unfolding(crate::specs::Resolved::font_family))]
pub fn font_family<N: Nodes>(nodes: &N, node: NodeRef) -> Family<'_>
    requires node_held { N.holds nodes.now node }
    ensures { family_text result ≡ resolved.font_family (N.trees nodes.now) node.label }
{
    inherited(nodes, node, Property::FontFamily, own_font_family).unwrap_or(Family::Serif)
}

/// The resolved `font-size` in pixels.
#[tactic(auto, unfolding(crate::specs::Resolved::font_size))]
pub fn font_size<N: Nodes>(nodes: &N, node: NodeRef) -> u16
    requires node_held { N.holds nodes.now node }
    ensures { result ≡ resolved.font_size (N.trees nodes.now) node.label }
{
    inherited(nodes, node, Property::FontSize, own_font_size).unwrap_or(16)
}

/// The resolved `color`.
#[tactic(auto, unfolding(crate::specs::Resolved::color))]
pub fn color<N: Nodes>(nodes: &N, node: NodeRef) -> Colour
    requires node_held { N.holds nodes.now node }
    ensures { result ≡ resolved.color (N.trees nodes.now) node.label }
{
    inherited(nodes, node, Property::Color, own_color).unwrap_or(BLACK)
}

/// The resolved `background-color`. It isn't inherited.
#[tactic(auto, unfolding(crate::specs::Resolved::background_color))]
pub fn background_color<N: Nodes>(nodes: &N, node: NodeRef) -> Colour
    requires node_held { N.holds nodes.now node }
    ensures { result ≡ resolved.background_color (N.trees nodes.now) node.label }
{
    own_background_color(nodes.content(node)).unwrap_or(TRANSPARENT)
}

/// The resolved `text-decoration`. It isn't inherited.
#[tactic(auto, unfolding(crate::specs::Resolved::text_decoration))]
pub fn text_decoration<N: Nodes>(nodes: &N, node: NodeRef) -> TextDecoration
    requires node_held { N.holds nodes.now node }
    ensures { result ≡ resolved.text_decoration (N.trees nodes.now) node.label }
{
    own_text_decoration(nodes.content(node)).unwrap_or(NO_LINES)
}

/// The resolved `text-align`.
#[tactic(auto, unfolding(crate::specs::Resolved::text_align))]
pub fn text_align<N: Nodes>(nodes: &N, node: NodeRef) -> TextAlign
    requires node_held { N.holds nodes.now node }
    ensures { result ≡ resolved.text_align (N.trees nodes.now) node.label }
{
    inherited(nodes, node, Property::TextAlign, own_text_align).unwrap_or(TextAlign::Left)
}

// The characters of a word.
fn chars_of(alloc: Global, word: &[u8]) -> Result<Vec<char>, AllocError>
    ensures { IfOk result (λ text. text.items ≡ word.now) }
{
    word.iter().map(|b| *b as char).collect(alloc)
}

fn print_font_family(alloc: Global, family: Family) -> Result<Vec<char>, AllocError>
    ensures { IfOk result (λ text. text.items ≡ family_text family.entry) }
{
    match family {
        Family::Written(text) => text.to_vec(alloc),
        Family::Monospace => chars_of(alloc, b"monospace"),
        Family::Serif => chars_of(alloc, b"serif"),
    }
}

#[tactic(auto, unfolding(crate::specs::Resolved::decoration_text))]
fn print_text_decoration<N: Nodes>(
    alloc: Global,
    nodes: &N,
    node: NodeRef,
) -> Result<Vec<char>, AllocError>
    requires node_held { N.holds nodes.now node }
    ensures { IfOk result (λ text. text.items
        ≡ resolved.decoration_text (N.trees nodes.now) node.label) }
{
    match own_decoration_text(nodes.content(node)) {
        Some(DecorationText::Written(text)) => text.to_vec(alloc),
        Some(DecorationText::Named(word)) => chars_of(alloc, word.as_bytes()),
        None => chars_of(alloc, b"none"),
    }
}

/// The resolved value of a property as a text: a weight as a number, a size as `Npx`, a colour as
/// `rgb(r, g, b)` or, for `transparent`, as `rgba(0, 0, 0, 0)`, a valid `text-decoration` as it is
/// written.
#[tactic(auto, unfolding(crate::specs::Resolved::resolved))]
pub fn resolved<N: Nodes>(
    alloc: Global,
    nodes: &N,
    node: NodeRef,
    property: Property,
) -> Result<Chars, AllocError>
    requires node_held { N.holds nodes.now node }
    ensures { IfOk result (λ text. text
        ≡ resolved.resolved (N.trees nodes.now) node.label property) }
{
    let text = match property {
        Property::Display => display(nodes, node).print(alloc),
        Property::WhiteSpace => white_space(nodes, node).print(alloc),
        Property::FontWeight => print_font_weight(alloc, font_weight(nodes, node)),
        Property::FontStyle => font_style(nodes, node).print(alloc),
        Property::FontFamily => print_font_family(alloc, font_family(nodes, node)),
        Property::FontSize => print_font_size(alloc, font_size(nodes, node)),
        Property::Color => color(nodes, node).print(alloc),
        Property::BackgroundColor => background_color(nodes, node).print(alloc),
        Property::TextDecoration => print_text_decoration(alloc, nodes, node),
        Property::TextAlign => text_align(nodes, node).print(alloc),
    };
    Chars::from_vec(text?)
}
