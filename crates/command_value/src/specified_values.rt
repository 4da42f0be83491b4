//! Specified command values.

ghost use Rattle.std.specs.Prelude.{◌≡◌, Bool, IfOk};
ghost use Rattle.std.specs.Option.{option_copied, option_map_or};
ghost use Rattle.std.specs.List.{list_any};
ghost use Rattle.std.specs.Str.{bytes_eq};
ghost use Rattle.node_styles.specs.DomModel.Contents.{name_in};
ghost use Rattle.node_styles.specs.CssValue.Colours.{colour_of};
ghost use Rattle.node_styles.specs.CssValue.TextDecoration.{line_word};
ghost use Rattle.command_value.specs.SpecifiedValues as specified;

use crate::subject::{Subject, subject_of};
use node_styles::arena::{Content, NodeRef, Nodes};
use node_styles::css::{
    Colour, DecorationLine, Display, has_line, read_font_size, read_font_style, read_font_weight,
    size_keyword,
};
use node_styles::dom::Chars;
use node_styles::element_names::Command;
use node_styles::{
    attribute, declared, family_hint, font_attribute, is_element_named, own_or_inline,
    read_legacy_size,
};
use std::alloc::{AllocError, Global};

// Whether a table has a row.
pub(crate) fn is_one_of(table: &[&[u8]], name: &[u8]) -> bool
    ensures { result ≡ list_any (λ row. bytes_eq row.now name.now) table.now }
{
    table.iter().any(|row| *row == name)
}

// Whether a node is an element of one of these names.
pub(crate) fn is_named_in(content: &Content, names: &[&[u8]]) -> bool
    ensures { result ≡ option_map_or (λ name. list_any (λ row. bytes_eq row.now name) names.now)
        (name_in content.now) Bool.false }
{
    match content {
        Content::Element { name, .. } => is_one_of(names, name.as_slice()),
        _ => false,
    }
}

// The text, where it is a colour.
fn if_colour(text: Option<&[char]>) -> Option<&[char]>
    ensures { option_copied result ≡ specified.if_read colour_of (option_copied text.entry) }
{
    let text = text?;
    if Colour::read(text).is_some() {
        Some(text)
    } else {
        None
    }
}

fn given_link(content: &Content) -> Option<&[char]>
    ensures { option_copied result ≡ specified.link_of content.now }
{
    if is_element_named(content, b"a") {
        attribute(content, b"href")
    } else {
        None
    }
}

fn given_background(content: &Content) -> Option<&[char]>
    ensures { option_copied result ≡ specified.background_of content.now }
{
    match own_or_inline(content) {
        Display::Inline => if_colour(declared(content, b"background-color")),
        _ => None,
    }
}

fn given_script(content: &Content) -> Option<&[char]>
    ensures { option_copied result ≡ specified.script_of content.now }
{
    if is_element_named(content, b"sub") {
        Some(&['s', 'u', 'b', 's', 'c', 'r', 'i', 'p', 't'])
    } else if is_element_named(content, b"sup") {
        Some(&['s', 'u', 'p', 'e', 'r', 's', 'c', 'r', 'i', 'p', 't'])
    } else {
        None
    }
}

// Whether the element's name stands for the line.
fn is_line_element(content: &Content, line: DecorationLine) -> bool
    ensures { result ≡ specified.is_line_element line content.now }
{
    match line {
        DecorationLine::LineThrough => is_named_in(content, &[b"s", b"strike"]),
        DecorationLine::Underline => is_element_named(content, b"u"),
        DecorationLine::Overline => false,
    }
}

// The word that names a line.
pub(crate) fn line_chars<'a>(line: DecorationLine) -> &'a [char]
    ensures { result.now ≡ line_word line }
{
    match line {
        DecorationLine::Underline => &['u', 'n', 'd', 'e', 'r', 'l', 'i', 'n', 'e'],
        DecorationLine::Overline => &['o', 'v', 'e', 'r', 'l', 'i', 'n', 'e'],
        DecorationLine::LineThrough => {
            &['l', 'i', 'n', 'e', '-', 't', 'h', 'r', 'o', 'u', 'g', 'h']
        }
    }
}

fn given_line(content: &Content, line: DecorationLine) -> Option<&[char]>
    ensures { option_copied result ≡ specified.line_of line content.now }
{
    let is_given = match declared(content, b"text-decoration") {
        Some(text) => has_line(text, line),
        None => is_line_element(content, line),
    };
    if is_given {
        Some(line_chars(line))
    } else {
        None
    }
}

fn given_weight(content: &Content) -> Option<&[char]>
    ensures { option_copied result ≡ specified.weight_of content.now }
{
    if let Some(text) = declared(content, b"font-weight") {
        if read_font_weight(text).is_some() {
            return Some(text);
        }
    }
    if is_named_in(content, &[b"b", b"strong"]) {
        Some(&['b', 'o', 'l', 'd'])
    } else {
        None
    }
}

fn given_slant(content: &Content) -> Option<&[char]>
    ensures { option_copied result ≡ specified.slant_of content.now }
{
    if let Some(text) = declared(content, b"font-style") {
        if read_font_style(text).is_some() {
            return Some(text);
        }
    }
    if is_named_in(content, &[b"i", b"em"]) {
        Some(&['i', 't', 'a', 'l', 'i', 'c'])
    } else {
        None
    }
}

fn given_family(content: &Content) -> Option<&[char]>
    ensures { option_copied result ≡ specified.family_in content.now }
{
    if let Some(text) = declared(content, b"font-family") {
        if !text.is_empty() {
            return Some(text);
        }
    }
    family_hint(content)
}

// The keyword of the size that a font's attribute gives.
fn hinted_size(content: &Content) -> Option<&[char]>
    ensures { option_copied result ≡ specified.hinted_size content.now }
{
    let size = read_legacy_size(font_attribute(content, b"size")?)?;
    Some(size_keyword(size))
}

fn given_size(content: &Content) -> Option<&[char]>
    ensures { option_copied result ≡ specified.size_of content.now }
{
    if let Some(text) = declared(content, b"font-size") {
        if read_font_size(text).is_some() {
            return Some(text);
        }
    }
    hinted_size(content)
}

fn given_foreground(content: &Content) -> Option<&[char]>
    ensures { option_copied result ≡ specified.foreground_of content.now }
{
    match if_colour(declared(content, b"color")) {
        Some(text) => Some(text),
        None => if_colour(font_attribute(content, b"color")),
    }
}

// The value that an element gives a subject.
fn given_value(content: &Content, subject: Subject) -> Option<&[char]>
    ensures { option_copied result ≡ specified.given_by subject content.now }
{
    match subject {
        Subject::Link => given_link(content),
        Subject::Background => given_background(content),
        Subject::Script => given_script(content),
        Subject::Line(line) => given_line(content, line),
        Subject::Weight => given_weight(content),
        Subject::Slant => given_slant(content),
        Subject::Family => given_family(content),
        Subject::Size => given_size(content),
        Subject::Foreground => given_foreground(content),
        Subject::Nothing => None,
    }
}

// The value that a content gives a command.
#[tactic(auto, unfolding(crate::specs::SpecifiedValues::specified_in))]
fn specified_in(content: &Content, command: Command) -> Option<&[char]>
    ensures { option_copied result ≡ specified.specified_in content.now command }
{
    match content {
        Content::Element { .. } => given_value(content, subject_of(command)),
        _ => None,
    }
}

/// The specified command value of a node, as its style, its attributes or its name have it; `None`
/// is null.
#[tactic(auto, unfolding(crate::specs::SpecifiedValues::specified))]
pub fn specified_value<N: Nodes>(nodes: &N, node: NodeRef, command: Command) -> Option<&[char]>
    requires { N.holds nodes.now node }
    ensures { option_copied result ≡ specified.specified (N.trees nodes.now) node.label command }
{
    specified_in(nodes.content(node), command)
}

/// The specified command value of a node as a text of its own; `None` is null.
pub fn specified<N: Nodes>(
    alloc: Global,
    nodes: &N,
    node: NodeRef,
    command: Command,
) -> Result<Option<Chars>, AllocError>
    requires { N.holds nodes.now node }
    ensures { IfOk result (λ text. text
        ≡ specified.specified (N.trees nodes.now) node.label command) }
{
    match specified_value(nodes, node, command) {
        Some(text) => Ok(Some(Chars::from_slice(alloc, text)?)),
        None => Ok(None),
    }
}
