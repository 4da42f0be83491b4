//! The attributes of `font` and the attribute `align` as hints of styles, and the sizes 1 to 7.

ghost use Rattle.std.specs.Prelude.{◌≡◌, ◌≤◌, Bool, bytes_eq, map, min};
ghost use Rattle.std.specs.Option.{option_map, option_map_or, option_copied};
ghost use Rattle.std.specs.Char.{to_ascii_lowercase};
ghost use Rattle.node_arena.specs.DomModel.Contents.{name_in};
ghost use Rattle.css_value.specs.HtmlNames.ElementNames as names;
ghost use Rattle.node_styles.specs.LegacySizes as sizes;
ghost use Rattle.node_styles.specs.OwnStyles as own;

use crate::allowed::is_one_of;
use crate::own::{attribute, family_in, is_element_named};
use css_value::{Colour, TextAlign, trimmed};
use node_arena::Content;

// The number of one or more digits; at most 100 of it is told.
fn number(digits: &[char]) -> Option<u8>
    ensures { result ≡ option_map (λ n. min 100 n) (sizes.number_of digits.now) }
{
    if digits.is_empty() {
        return None;
    }
    let mut number: u8 = 0;
    for digit in digits {
        if !digit.is_ascii_digit() {
            return None;
        }
        let next = number as u32 * 10 + (*digit as u32 - 48);
        number = next.min(100) as u8;
    }
    Some(number)
}

fn within_sizes(number: u8) -> u8
    requires { number ≤ 103 }
    ensures { result ≡ sizes.within_sizes number }
{
    number.clamp(1, 7)
}

/// The size 1 to 7 that the attribute `size` of a font, or the value of the command fontSize,
/// stands for: digits, or a sign and digits, which are relative to 3; what is past 1 or 7 is 1 or
/// 7.
#[tactic(auto, unfolding(crate::specs::LegacySizes::legacy_size_of))]
pub fn read_legacy_size(text: &[char]) -> Option<u8>
    ensures { result ≡ sizes.legacy_size_of text.now }
{
    match trimmed(text) {
        ['+', digits @ ..] => Some(within_sizes(3 + number(digits)?)),
        ['-', digits @ ..] => Some(within_sizes(3u8.saturating_sub(number(digits)?))),
        digits => Some(within_sizes(number(digits)?)),
    }
}

/// The pixels of a size from 1 to 7.
#[tactic(auto, unfolding(crate::specs::LegacySizes::pixels_of))]
pub fn pixels_of(size: u8) -> u16
    ensures { result ≡ sizes.pixels_of size }
{
    match size {
        1 => 10,
        2 => 13,
        3 => 16,
        4 => 18,
        5 => 24,
        6 => 32,
        _ => 48,
    }
}

/// The value of an attribute of a font.
pub fn font_attribute<'a>(content: &'a Content, name: &[u8]) -> Option<&'a [char]>
    ensures { option_copied result ≡ own.font_attribute content.now name.now }
{
    if is_element_named(content, b"font") {
        attribute(content, name)
    } else {
        None
    }
}

#[tactic(auto, unfolding(crate::specs::OwnStyles::color_hint))]
pub(crate) fn color_hint(content: &Content) -> Option<Colour>
    ensures { result ≡ own.color_hint content.now }
{
    Colour::read(font_attribute(content, b"color")?)
}

/// The family that the attribute `face` of a font gives.
#[tactic(auto, unfolding(crate::specs::OwnStyles::family_hint))]
pub fn family_hint(content: &Content) -> Option<&[char]>
    ensures { option_copied result ≡ own.family_hint content.now }
{
    family_in(font_attribute(content, b"face")?)
}

#[tactic(auto, unfolding(crate::specs::OwnStyles::size_hint))]
pub(crate) fn size_hint(content: &Content) -> Option<u16>
    ensures { result ≡ own.size_hint content.now }
{
    let size = read_legacy_size(font_attribute(content, b"size")?)?;
    Some(pixels_of(size))
}

static ALIGNED_NAMES: [&[u8]; 10] = [
    b"div", b"p", b"h1", b"h2", b"h3", b"h4", b"h5", b"h6", b"td", b"th",
];

// Whether the text is the word in any case.
fn spells(text: &[char], word: &[u8]) -> bool
    ensures { result ≡ bytes_eq word.now (map to_ascii_lowercase text.now) }
{
    match (text, word) {
        ([], []) => true,
        ([first, text @ ..], [byte, word @ ..]) => {
            first.to_ascii_lowercase() as u32 == *byte as u32 && spells(text, word)
        }
        _ => false,
    }
}

#[tactic(auto, unfolding(crate::specs::OwnStyles::hinted_alignment))]
fn hinted_alignment(text: &[char]) -> Option<TextAlign>
    ensures { result ≡ own.hinted_alignment text.now }
{
    if spells(text, b"left") {
        Some(TextAlign::Left)
    } else if spells(text, b"right") {
        Some(TextAlign::Right)
    } else if spells(text, b"center") {
        Some(TextAlign::Center)
    } else if spells(text, b"justify") {
        Some(TextAlign::Justify)
    } else {
        None
    }
}

// Whether the attribute align of this element is a hint.
#[tactic(auto, unfolding(crate::specs::OwnStyles::aligned_names))]
fn takes_align(content: &Content) -> bool
    ensures { result
        ≡ option_map_or (names.is_one_of own.aligned_names) (name_in content.now) Bool.false }
{
    match content {
        Content::Element { name, .. } => is_one_of(&ALIGNED_NAMES, name.as_slice()),
        _ => false,
    }
}

#[tactic(auto, unfolding(crate::specs::OwnStyles::align_hint))]
pub(crate) fn align_hint(content: &Content) -> Option<TextAlign>
    ensures { result ≡ own.align_hint content.now }
{
    if takes_align(content) {
        hinted_alignment(attribute(content, b"align")?)
    } else {
        None
    }
}
