//! Which values of a command are the same.

ghost use Rattle.std.specs.Prelude.{◌≡◌, ◌&&◌, ◌||◌, bytes_eq, map};
ghost use Rattle.std.specs.Option.{option_copied};
ghost use Rattle.node_styles.specs.CssValue.Colours.{colour_text};
ghost use Rattle.command_value.specs.Equivalence as spec;

use node_styles::css::{Colour, has_codes, is_pixels, keyword_size};
use node_styles::dom::Chars;
use node_styles::element_names::Command;

// Whether two texts are bold and 700, or normal and 400.
fn are_bold(a: &[char], b: &[char]) -> bool
    ensures { result ≡ spec.are_bold a.now b.now }
{
    (has_codes(a, b"bold") && has_codes(b, b"700"))
        || (has_codes(a, b"normal") && has_codes(b, b"400"))
}

// The components of a colour.
#[tactic(auto, unfolding(crate::specs::Equivalence::components))]
pub(crate) fn components(text: &[char]) -> Option<Colour>
    ensures { result ≡ spec.components text.now }
{
    if has_codes(text, b"rgba(0, 0, 0, 0)") {
        return Some(Colour {
            red: 0,
            green: 0,
            blue: 0,
            clear: true,
        });
    }
    Colour::read(text)
}

// Whether two colours have the same components.
pub(crate) fn is_same_colour(a: Colour, b: Colour) -> bool
    ensures { result ≡ spec.is_same_colour a b }
{
    a.red == b.red && a.green == b.green && a.blue == b.blue && a.clear == b.clear
}

// Whether both texts are colours, and of the same components.
fn are_same_colours(a: &[char], b: &[char]) -> bool
    ensures { result ≡ spec.are_same_colours (spec.components a.now) (spec.components b.now) }
{
    match (components(a), components(b)) {
        (Some(a), Some(b)) => is_same_colour(a, b),
        _ => false,
    }
}

// Whether two texts are equivalent.
#[tactic(auto, unfolding(crate::specs::Equivalence::are_equivalent))]
pub(crate) fn are_equivalent(command: Command, a: &[char], b: &[char]) -> bool
    ensures { result ≡ spec.are_equivalent command a.now b.now }
{
    if a == b {
        return true;
    }
    match command {
        Command::Bold => are_bold(a, b) || are_bold(b, a),
        Command::ForeColor | Command::BackColor | Command::HiliteColor => are_same_colours(a, b),
        _ => false,
    }
}

// Whether a text is a keyword of a size, and the other one is that size in pixels.
fn is_keyword_of(keyword: &[char], size: &[char]) -> bool
    ensures { result ≡ spec.is_keyword_of keyword.now size.now }
{
    match keyword_size(keyword) {
        Some(px) => is_pixels(size, px),
        None => false,
    }
}

// Whether two texts are alike.
#[tactic(auto, unfolding(crate::specs::Equivalence::are_alike))]
pub(crate) fn are_alike(command: Command, a: &[char], b: &[char]) -> bool
    ensures { result ≡ spec.are_alike command a.now b.now }
{
    if are_equivalent(command, a, b) {
        return true;
    }
    match command {
        Command::FontSize => is_keyword_of(a, b) || is_keyword_of(b, a),
        _ => false,
    }
}

#[tactic(auto, unfolding(crate::specs::Equivalence::equivalent))]
pub(crate) fn is_equivalent(command: Command, a: Option<&[char]>, b: Option<&[char]>) -> bool
    ensures { result ≡ spec.equivalent command (option_copied a.entry) (option_copied b.entry) }
{
    match (a, b) {
        (None, None) => true,
        (Some(a), Some(b)) => are_equivalent(command, a, b),
        _ => false,
    }
}

/// Whether two values of a command are equivalent; `None` is null.
#[tactic(auto, unfolding(crate::specs::Equivalence::equivalent))]
pub fn equivalent(command: Command, a: Option<&Chars>, b: Option<&Chars>) -> bool
    ensures { result ≡ spec.equivalent command (option_copied a.entry) (option_copied b.entry) }
{
    match (a, b) {
        (None, None) => true,
        (Some(a), Some(b)) => are_equivalent(command, a.as_slice(), b.as_slice()),
        _ => false,
    }
}

/// Whether two values of a command are alike ("loosely equivalent"): equivalent, or for fontSize a
/// keyword and its size in pixels.
#[tactic(auto, unfolding(crate::specs::Equivalence::alike))]
pub fn alike(command: Command, a: Option<&Chars>, b: Option<&Chars>) -> bool
    ensures { result ≡ spec.alike command (option_copied a.entry) (option_copied b.entry) }
{
    match (a, b) {
        (None, None) => true,
        (Some(a), Some(b)) => are_alike(command, a.as_slice(), b.as_slice()),
        _ => false,
    }
}
