//! Effective command values.

ghost use Rattle.std.specs.Prelude.{◌≡◌, IfOk};
ghost use Rattle.std.specs.List.{list_any};
ghost use Rattle.std.specs.Option.{option_copied};
ghost use Rattle.node_styles.specs.NodeArena.Reads.{Names};
ghost use Rattle.node_styles.specs.Lineage.{lineage, has_in_lineage};
ghost use Rattle.node_styles.specs.OwnStyles.{is_named};
ghost use Rattle.node_styles.specs.Resolved.{font_family};
ghost use Rattle.node_styles.specs.TurnBound.{turn_bound};
ghost use Rattle.command_value.specs.EffectiveValues as effective;
ghost use Rattle.command_value.specs.Lines.{is_inline_end};
ghost use Rattle.command_value.specs.ValueTexts.{value_text};

use crate::specified_values::line_chars;
use crate::subject::{Subject, subject_of};
use crate::value::Value;
use node_styles::arena::{Content, Kind, NodeRef, Nodes};
use node_styles::css::{Colour, DecorationLine};
use node_styles::dom::Chars;
use node_styles::element_names::Command;
use node_styles::{
    Family, Test, attribute, background_color, color, font_family, font_size, font_style,
    font_weight, has_in_lineage, is_block_content, is_element, is_element_named, nearest,
    own_text_decoration, turn_bound,
};
use std::alloc::{AllocError, Global};

/// Whether a content is that of an a with the attribute href.
pub fn is_link(content: &Content) -> bool
    ensures { result ≡ effective.is_link content.now }
{
    is_element_named(content, b"a") && attribute(content, b"href").is_some()
}

// An a with the attribute href.
#[derive(Clone, Copy)]
struct LinkTest;

impl Test for LinkTest {
    ghost test = { λ s. effective.is_link };

    fn passes(&self, content: &Content) -> bool {
        is_link(content)
    }
}

// A block, or an element of the name.
#[derive(Clone, Copy)]
struct InlineEndTest {
    name: &'static [u8],
}

impl Test for InlineEndTest {
    ghost test = { λ s. is_inline_end s.name.now };

    fn passes(&self, content: &Content) -> bool {
        is_element_named(content, self.name) || is_block_content(content)
    }
}

// An element that draws the line.
#[derive(Clone, Copy)]
struct LineTest {
    line: DecorationLine,
}

impl Test for LineTest {
    ghost test = { λ s. effective.draws s.line };

    fn passes(&self, content: &Content) -> bool {
        match own_text_decoration(content) {
            None => false,
            Some(drawn) => match self.line {
                DecorationLine::Underline => drawn.underline,
                DecorationLine::LineThrough => drawn.line_through,
                DecorationLine::Overline => drawn.overline,
            },
        }
    }
}

// The node where it is an element, else its parent where that is one.
#[tactic(auto, unfolding(crate::specs::EffectiveValues::element_of))]
pub(crate) fn element_of<N: Nodes>(nodes: &N, node: NodeRef) -> Option<NodeRef>
    requires { N.holds nodes.now node }
    ensures { Names (N.holds nodes.now) result
        (effective.element_of (N.trees nodes.now) node.label) }
{
    nodes.valid();
    if is_element(nodes, node) {
        Some(node)
    } else {
        parent_element(nodes, node)
    }
}

// The href of the nearest a that has one.
pub(crate) fn link_value<N: Nodes>(nodes: &N, element: NodeRef) -> Option<&[char]>
    requires { N.holds nodes.now element }
    ensures { option_copied result ≡ effective.link_at (N.trees nodes.now) element.label }
{
    match nearest(nodes, element, &LinkTest) {
        Some(link) => attribute(nodes.content(link), b"href"),
        None => None,
    }
}

// How many turns a walk from a node takes at most. In the document it comes to the Document before
// that many, so only outside it do the nodes and characters of the document have to be counted.
fn turns<N: Nodes>(nodes: &N, node: NodeRef) -> u128
    requires { N.holds nodes.now node }
    ensures { effective.background_at result (N.trees nodes.now) node.label
        ≡ effective.background_at (turn_bound (N.trees nodes.now)) (N.trees nodes.now) node.label }
{
    nodes.valid();
    if nodes.is_within(nodes.document(), node) {
        nodes.next_label() as u128
    } else {
        turn_bound(nodes)
    }
}

// The parent, where it is an element.
fn parent_element<N: Nodes>(nodes: &N, node: NodeRef) -> Option<NodeRef>
    requires { N.holds nodes.now node }
    ensures { Names (N.holds nodes.now) result (effective.element_above (N.trees nodes.now) node.label) }
{
    let parent = nodes.parent(node)?;
    if is_element(nodes, parent) {
        Some(parent)
    } else {
        None
    }
}

// The background that shows behind an element, as far as its ancestors are elements.
pub(crate) fn background_value<N: Nodes>(nodes: &N, element: NodeRef) -> Colour
    requires { N.holds nodes.now element }
    ensures { result ≡ effective.background_at (turn_bound (N.trees nodes.now))
        (N.trees nodes.now) element.label }
{
    nodes.valid();
    let mut left = turns(nodes, element);
    let mut at = element;
    'walk: while left > 0 {
        let colour = background_color(nodes, at);
        if !colour.clear {
            return colour;
        }
        match parent_element(nodes, at) {
            Some(parent) => at = parent,
            None => return colour,
        }
        left -= 1;
    }
    background_color(nodes, at)
}

// Whether an element of a name stands among an element and its ancestors as long as they are
// inline.
pub(crate) fn is_among_inline<N: Nodes>(nodes: &N, element: NodeRef, name: &'static [u8]) -> bool
    requires { N.holds nodes.now element }
    ensures { result ≡ list_any (λ k. is_named name.now k.content)
        (effective.inline_part (lineage (N.trees nodes.now) element.label)) }
{
    match nearest(nodes, element, &InlineEndTest { name }) {
        Some(found) => !is_block_content(nodes.content(found)),
        None => false,
    }
}

#[tactic(auto, unfolding(crate::specs::EffectiveValues::script_at))]
pub(crate) fn script_value<N: Nodes>(nodes: &N, element: NodeRef) -> Option<&[char]>
    requires { N.holds nodes.now element }
    ensures { option_copied result ≡ effective.script_at (N.trees nodes.now) element.label }
{
    let is_sub = is_among_inline(nodes, element, b"sub");
    let is_sup = is_among_inline(nodes, element, b"sup");
    match (is_sub, is_sup) {
        (true, true) => Some(&['m', 'i', 'x', 'e', 'd']),
        (true, false) => Some(&['s', 'u', 'b', 's', 'c', 'r', 'i', 'p', 't']),
        (false, true) => Some(&['s', 'u', 'p', 'e', 'r', 's', 'c', 'r', 'i', 'p', 't']),
        (false, false) => None,
    }
}

// Whether an element or an ancestor of it draws a line.
pub(crate) fn draws_line<N: Nodes>(nodes: &N, element: NodeRef, line: DecorationLine) -> bool
    requires { N.holds nodes.now element }
    ensures { result
        ≡ has_in_lineage (effective.draws line) (N.trees nodes.now) element.label }
{
    has_in_lineage(nodes, element, &LineTest { line })
}

#[tactic(auto, unfolding(crate::specs::EffectiveValues::line_at))]
pub(crate) fn line_value<N: Nodes>(
    nodes: &N,
    element: NodeRef,
    line: DecorationLine,
) -> Option<&[char]>
    requires { N.holds nodes.now element }
    ensures { option_copied result ≡ effective.line_at line (N.trees nodes.now) element.label }
{
    if draws_line(nodes, element, line) {
        Some(line_chars(line))
    } else {
        None
    }
}

pub(crate) fn family_value<N: Nodes>(nodes: &N, element: NodeRef) -> &[char]
    requires { N.holds nodes.now element }
    ensures { result.now ≡ font_family (N.trees nodes.now) element.label }
{
    match font_family(nodes, element) {
        Family::Written(text) => text,
        Family::Monospace => &['m', 'o', 'n', 'o', 's', 'p', 'a', 'c', 'e'],
        Family::Serif => &['s', 'e', 'r', 'i', 'f'],
    }
}

pub(crate) fn value_if(text: Option<&[char]>) -> Value<'_>
    ensures { value_text result ≡ option_copied text.entry }
{
    match text {
        Some(text) => Value::Text(text),
        None => Value::Null,
    }
}

// The value of a subject at an element.
pub(crate) fn element_value<N: Nodes>(nodes: &N, element: NodeRef, subject: Subject) -> Value<'_>
    requires { N.holds nodes.now element }
    ensures { value_text result ≡ effective.value_at (N.trees nodes.now) element.label subject }
{
    match subject {
        Subject::Link => value_if(link_value(nodes, element)),
        Subject::Background => Value::Shade(background_value(nodes, element)),
        Subject::Script => value_if(script_value(nodes, element)),
        Subject::Line(line) => value_if(line_value(nodes, element, line)),
        Subject::Weight => Value::Weight(font_weight(nodes, element)),
        Subject::Slant => Value::Slant(font_style(nodes, element)),
        Subject::Family => Value::Text(family_value(nodes, element)),
        Subject::Size => Value::Pixels(font_size(nodes, element)),
        Subject::Foreground => Value::Shade(color(nodes, element)),
        Subject::Nothing => Value::Null,
    }
}

/// The effective command value of a node, not yet printed.
pub fn effective_value<N: Nodes>(nodes: &N, node: NodeRef, command: Command) -> Value<'_>
    requires { N.holds nodes.now node }
    ensures { value_text result ≡ effective.effective (N.trees nodes.now) node.label command }
{
    nodes.valid();
    match element_of(nodes, node) {
        Some(element) => element_value(nodes, element, subject_of(command)),
        None => Value::Null,
    }
}

/// The effective command value of a node; `None` is null.
pub fn effective<N: Nodes>(
    alloc: Global,
    nodes: &N,
    node: NodeRef,
    command: Command,
) -> Result<Option<Chars>, AllocError>
    requires { N.holds nodes.now node }
    ensures { IfOk result (λ text. text
        ≡ effective.effective (N.trees nodes.now) node.label command) }
{
    effective_value(nodes, node, command).print(alloc)
}
