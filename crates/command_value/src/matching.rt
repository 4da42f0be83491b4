//! Whether a node has a value, or gives one.

ghost use Rattle.std.specs.Prelude.{◌≡◌, Bool, is_some, bytes_eq, decimal, Some};
ghost use Rattle.std.specs.Option.{option_map_or, option_copied};
ghost use Rattle.node_styles.specs.CssValue.Colours.{colour_text};
ghost use Rattle.node_styles.specs.CssValue.Values.{font_style_keyword, pixels_text};
ghost use Rattle.node_styles.specs.HtmlNames.ActivatedValues.{activated_values};
ghost use Rattle.node_styles.specs.HtmlNames.ElementNames.{is_one_of};
ghost use Rattle.node_styles.specs.HtmlNames.declared.commands.Command.TheVariants as command;
ghost use Rattle.command_value.specs.EffectiveValues as effective;
ghost use Rattle.command_value.specs.Equivalence as equivalence;
ghost use Rattle.command_value.specs.Lines.{is_heavy, is_named_weight};
ghost use Rattle.command_value.specs.Modifiable as modifiable;
ghost use Rattle.command_value.specs.SpecifiedValues as specified;
ghost use Rattle.command_value.specs.Subjects.{subject};

use crate::effective_values::{
    background_value, draws_line, effective_value, element_of, family_value, is_among_inline,
    line_value, link_value, script_value,
};
use crate::equivalence::{are_alike, components, is_equivalent, is_same_colour};
use crate::modifiable::is_simple_modifiable_element;
use crate::specified_values::specified_value;
use node_styles::arena::{NodeRef, Nodes};
use node_styles::css::{
    Colour, DecorationLine, FontStyle, has_codes, is_decimal, is_pixels, keyword_size,
};
use node_styles::element_names::Command;
use node_styles::{color, font_size, font_style, font_weight};

fn is_heavy(weight: u16) -> bool
    ensures { result ≡ is_heavy weight }
{
    weight == 600 || weight == 700 || weight == 800 || weight == 900
}

// Whether a weight is one at which bold counts as on.
fn is_bold_weight(weight: u16) -> bool
    ensures { result ≡ is_one_of (activated_values command.Bold) (decimal weight) }
{
    is_heavy(weight)
}

fn is_slanted(slant: FontStyle) -> bool
    ensures { result ≡ is_one_of (activated_values command.Italic) (font_style_keyword slant) }
{
    matches!(slant, FontStyle::Italic | FontStyle::Oblique)
}

// Whether a command counts as on at an element.
#[tactic(auto, using(crate::proofs::Shown::under_on, crate::proofs::Shown::through_on, crate::proofs::Shown::sub_on, crate::proofs::Shown::sup_on), unfolding(crate::specs::EffectiveValues::script_at))]
fn is_on<N: Nodes>(nodes: &N, element: NodeRef, command: Command) -> bool
    requires { N.holds nodes.now element }
    ensures { result ≡ option_map_or (is_one_of (activated_values command))
        (effective.value_at (N.trees nodes.now) element.label (subject command)) Bool.false }
{
    match command {
        Command::Bold => is_bold_weight(font_weight(nodes, element)),
        Command::Italic => is_slanted(font_style(nodes, element)),
        Command::Underline => draws_line(nodes, element, DecorationLine::Underline),
        Command::Strikethrough => draws_line(nodes, element, DecorationLine::LineThrough),
        Command::Subscript => {
            is_among_inline(nodes, element, b"sub") && !is_among_inline(nodes, element, b"sup")
        }
        Command::Superscript => {
            is_among_inline(nodes, element, b"sup") && !is_among_inline(nodes, element, b"sub")
        }
        _ => false,
    }
}

/// Whether a command counts as on at a node: its effective value is one of the activated values.
#[tactic(auto, unfolding(crate::specs::EffectiveValues::is_activated))]
pub fn is_activated<N: Nodes>(nodes: &N, node: NodeRef, command: Command) -> bool
    requires { N.holds nodes.now node }
    ensures { result ≡ effective.is_activated (N.trees nodes.now) node.label command }
{
    nodes.valid();
    match element_of(nodes, node) {
        Some(element) => is_on(nodes, element, command),
        None => false,
    }
}

// Whether a text is the name of a weight.
fn is_named_weight(weight: u16, text: &[char]) -> bool
    ensures { result ≡ is_named_weight weight text.now }
{
    (weight == 700 && has_codes(text, b"bold")) || (weight == 400 && has_codes(text, b"normal"))
}

// Whether a text of bold is alike to a weight.
fn is_alike_weight(weight: u16, text: &[char]) -> bool
    ensures { result ≡ equivalence.are_alike command.Bold (decimal weight) text.now }
{
    is_decimal(text, weight) || is_named_weight(weight, text)
}

#[tactic(auto, unfolding(crate::specs::Equivalence::are_alike, crate::specs::Equivalence::are_equivalent))]
fn is_alike_slant(slant: FontStyle, text: &[char]) -> bool
    ensures { result ≡ equivalence.are_alike command.Italic (font_style_keyword slant) text.now }
{
    has_codes(text, slant.keyword())
}

// Whether a text of fontSize is alike to a size in pixels.
fn is_alike_size(px: u16, text: &[char]) -> bool
    ensures { result ≡ equivalence.are_alike command.FontSize (pixels_text px) text.now }
{
    if is_pixels(text, px) {
        return true;
    }
    match keyword_size(text) {
        Some(size) => size == px,
        None => false,
    }
}

// The components of a colour's text. Those that are clear have one text.
fn shown(colour: Colour) -> Colour
    ensures { equivalence.components (colour_text colour) ≡ Some result }
{
    if colour.clear {
        Colour {
            red: 0,
            green: 0,
            blue: 0,
            clear: true,
        }
    } else {
        colour
    }
}

// Whether a text of a command on colours is alike to a colour.
fn is_alike_colour(command: Command, colour: Colour, text: &[char]) -> bool
    requires { equivalence.is_colour_command command ≡ Bool.true }
    ensures { result ≡ equivalence.are_alike command (colour_text colour) text.now }
{
    let own = shown(colour);
    match components(text) {
        Some(found) => is_same_colour(own, found),
        None => false,
    }
}

fn is_alike_text(command: Command, value: Option<&[char]>, text: &[char]) -> bool
    ensures { result ≡ option_map_or (λ own. equivalence.are_alike command own text.now)
        (option_copied value.entry) Bool.false }
{
    match value {
        Some(own) => are_alike(command, own, text),
        None => false,
    }
}

// Whether the effective value of an element is alike to a text.
#[tactic(auto, using(crate::proofs::Shown::under_on, crate::proofs::Shown::through_on, crate::proofs::Shown::sub_on, crate::proofs::Shown::sup_on), unfolding(crate::specs::EffectiveValues::script_at))]
fn is_alike<N: Nodes>(nodes: &N, element: NodeRef, command: Command, text: &[char]) -> bool
    requires { N.holds nodes.now element }
    ensures { result ≡ option_map_or (λ own. equivalence.are_alike command own text.now)
        (effective.value_at (N.trees nodes.now) element.label (subject command)) Bool.false }
{
    match command {
        Command::Bold => is_alike_weight(font_weight(nodes, element), text),
        Command::Italic => is_alike_slant(font_style(nodes, element), text),
        Command::Underline => {
            is_alike_text(
                command,
                line_value(nodes, element, DecorationLine::Underline),
                text,
            )
        }
        Command::Strikethrough => {
            is_alike_text(
                command,
                line_value(nodes, element, DecorationLine::LineThrough),
                text,
            )
        }
        Command::Subscript | Command::Superscript => {
            is_alike_text(command, script_value(nodes, element), text)
        }
        Command::CreateLink | Command::Unlink => {
            is_alike_text(command, link_value(nodes, element), text)
        }
        Command::FontName => are_alike(command, family_value(nodes, element), text),
        Command::FontSize => is_alike_size(font_size(nodes, element), text),
        Command::ForeColor => is_alike_colour(command, color(nodes, element), text),
        Command::BackColor | Command::HiliteColor => {
            is_alike_colour(command, background_value(nodes, element), text)
        }
        _ => false,
    }
}

// Whether the effective value of a node is alike to a text.
fn is_alike_at<N: Nodes>(nodes: &N, node: NodeRef, command: Command, text: &[char]) -> bool
    requires { N.holds nodes.now node }
    ensures { result ≡ option_map_or (λ own. equivalence.are_alike command own text.now)
        (effective.effective (N.trees nodes.now) node.label command) Bool.false }
{
    nodes.valid();
    match element_of(nodes, node) {
        Some(element) => is_alike(nodes, element, command, text),
        None => false,
    }
}

/// Whether the effective value of a node is alike to a value of the command; `None` is null.
#[tactic(auto, using(crate::proofs::Shown::alike_some, crate::proofs::Shown::alike_none))]
pub fn has_alike_value<N: Nodes>(
    nodes: &N,
    node: NodeRef,
    command: Command,
    value: Option<&[char]>,
) -> bool
    requires { N.holds nodes.now node }
    ensures { result
        ≡ equivalence.alike command (effective.effective (N.trees nodes.now) node.label command)
        (option_copied value.entry) }
{
    match value {
        Some(text) => is_alike_at(nodes, node, command, text),
        None => effective_value(nodes, node, command).is_null(),
    }
}

/// Whether a node gives the command a value: its specified command value isn't null.
pub fn specifies<N: Nodes>(nodes: &N, node: NodeRef, command: Command) -> bool
    requires { N.holds nodes.now node }
    ensures { result ≡ is_some (specified.specified (N.trees nodes.now) node.label command) }
{
    specified_value(nodes, node, command).is_some()
}

/// Whether a node gives the command another value than this one: its specified command value is
/// neither null nor equivalent to it.
#[tactic(auto, unfolding(crate::specs::Modifiable::specifies_other))]
pub fn specifies_other<N: Nodes>(
    nodes: &N,
    node: NodeRef,
    command: Command,
    value: Option<&[char]>,
) -> bool
    requires { N.holds nodes.now node }
    ensures { result
        ≡ modifiable.specifies_other (N.trees nodes.now) node.label command
        (option_copied value.entry) }
{
    let own = specified_value(nodes, node, command);
    own.is_some() && !is_equivalent(command, own, value)
}

/// Whether a node is a simple modifiable element whose specified command value is equivalent to
/// this one, and whose effective command value is alike to it.
#[tactic(auto, unfolding(crate::specs::Modifiable::meets_value))]
pub fn meets_value<N: Nodes>(nodes: &N, node: NodeRef, command: Command, value: &[char]) -> bool
    requires { N.holds nodes.now node }
    ensures { result ≡ modifiable.meets_value (N.trees nodes.now) node.label command value.now }
{
    is_simple_modifiable_element(nodes, node)
        && is_equivalent(command, specified_value(nodes, node, command), Some(value))
        && has_alike_value(nodes, node, command, Some(value))
}
