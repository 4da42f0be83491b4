//! The values of the properties of a style, other than colours.

ghost use Rattle.std.specs.Prelude.{◌≡◌, Some, IfOk, IfSome, IsTrue};
ghost use Rattle.css_value.specs.Values as spec;

use crate::sizes::number;
use crate::style_text::has_codes;
use crate::value_text::chars_of;
use std::alloc::{AllocError, Global};

/// The values of `display`.
#[derive(Clone, Copy, PartialEq, Eq, Debug)]
pub enum Display {
    Block,
    Inline,
    InlineBlock,
    InlineTable,
    ListItem,
    Table,
    /// `none`.
    NoBox,
}

impl Display {
    /// The keyword of the value.
    #[tactic(auto, unfolding(crate::specs::Values::display_of))]
    pub fn keyword(self) -> &'static [u8]
        ensures keyword { result.now ≡ spec.display_keyword self }
        ensures read_back { spec.display_of result.now ≡ Some self }
    {
        match self {
            Display::Block => b"block",
            Display::Inline => b"inline",
            Display::InlineBlock => b"inline-block",
            Display::InlineTable => b"inline-table",
            Display::ListItem => b"list-item",
            Display::Table => b"table",
            Display::NoBox => b"none",
        }
    }

    /// The characters of the keyword.
    pub fn print(self, alloc: Global) -> Result<Vec<char>, AllocError>
        ensures text { IfOk result (λ text. text.items ≡ spec.display_keyword self) }
        ensures read_back { IfOk result (λ text. spec.display_of text.items ≡ Some self) }
    {
        chars_of(alloc, self.keyword())
    }
}

/// The values of `white-space`.
#[derive(Clone, Copy, PartialEq, Eq, Debug)]
pub enum WhiteSpace {
    Normal,
    NoWrap,
    Pre,
    PreWrap,
    PreLine,
}

impl WhiteSpace {
    /// The keyword of the value.
    #[tactic(auto, unfolding(crate::specs::Values::white_space_of))]
    pub fn keyword(self) -> &'static [u8]
        ensures keyword { result.now ≡ spec.white_space_keyword self }
        ensures read_back { spec.white_space_of result.now ≡ Some self }
    {
        match self {
            WhiteSpace::Normal => b"normal",
            WhiteSpace::NoWrap => b"nowrap",
            WhiteSpace::Pre => b"pre",
            WhiteSpace::PreWrap => b"pre-wrap",
            WhiteSpace::PreLine => b"pre-line",
        }
    }

    /// The characters of the keyword.
    pub fn print(self, alloc: Global) -> Result<Vec<char>, AllocError>
        ensures text { IfOk result (λ text. text.items ≡ spec.white_space_keyword self) }
        ensures read_back { IfOk result (λ text. spec.white_space_of text.items ≡ Some self) }
    {
        chars_of(alloc, self.keyword())
    }
}

/// The values of `font-style`.
#[derive(Clone, Copy, PartialEq, Eq, Debug)]
pub enum FontStyle {
    Normal,
    Italic,
    Oblique,
}

impl FontStyle {
    /// The keyword of the value.
    #[tactic(auto, unfolding(crate::specs::Values::font_style_of))]
    pub fn keyword(self) -> &'static [u8]
        ensures keyword { result.now ≡ spec.font_style_keyword self }
        ensures read_back { spec.font_style_of result.now ≡ Some self }
    {
        match self {
            FontStyle::Normal => b"normal",
            FontStyle::Italic => b"italic",
            FontStyle::Oblique => b"oblique",
        }
    }

    /// The characters of the keyword.
    pub fn print(self, alloc: Global) -> Result<Vec<char>, AllocError>
        ensures text { IfOk result (λ text. text.items ≡ spec.font_style_keyword self) }
        ensures read_back { IfOk result (λ text. spec.font_style_of text.items ≡ Some self) }
    {
        chars_of(alloc, self.keyword())
    }
}

/// The resolved values of `text-align`.
#[derive(Clone, Copy, PartialEq, Eq, Debug)]
pub enum TextAlign {
    Left,
    Right,
    Center,
    Justify,
}

impl TextAlign {
    /// The keyword of the value.
    #[tactic(auto, unfolding(crate::specs::Values::text_align_of))]
    pub fn keyword(self) -> &'static [u8]
        ensures keyword { result.now ≡ spec.text_align_keyword self }
        ensures read_back { spec.text_align_of result.now ≡ Some self }
    {
        match self {
            TextAlign::Left => b"left",
            TextAlign::Right => b"right",
            TextAlign::Center => b"center",
            TextAlign::Justify => b"justify",
        }
    }

    /// The characters of the keyword.
    pub fn print(self, alloc: Global) -> Result<Vec<char>, AllocError>
        ensures text { IfOk result (λ text. text.items ≡ spec.text_align_keyword self) }
        ensures read_back { IfOk result (λ text. spec.text_align_of text.items ≡ Some self) }
    {
        chars_of(alloc, self.keyword())
    }
}

/// The value of `display` that a text is.
#[tactic(auto, unfolding(crate::specs::Values::display_of))]
pub fn read_display(text: &[char]) -> Option<Display>
    ensures { result ≡ spec.display_of text.now }
{
    if has_codes(text, b"block") {
        Some(Display::Block)
    } else if has_codes(text, b"inline") {
        Some(Display::Inline)
    } else if has_codes(text, b"inline-block") {
        Some(Display::InlineBlock)
    } else if has_codes(text, b"inline-table") {
        Some(Display::InlineTable)
    } else if has_codes(text, b"list-item") {
        Some(Display::ListItem)
    } else if has_codes(text, b"table") {
        Some(Display::Table)
    } else if has_codes(text, b"none") {
        Some(Display::NoBox)
    } else {
        None
    }
}

/// The value of `white-space` that a text is.
#[tactic(auto, unfolding(crate::specs::Values::white_space_of))]
pub fn read_white_space(text: &[char]) -> Option<WhiteSpace>
    ensures { result ≡ spec.white_space_of text.now }
{
    if has_codes(text, b"normal") {
        Some(WhiteSpace::Normal)
    } else if has_codes(text, b"nowrap") {
        Some(WhiteSpace::NoWrap)
    } else if has_codes(text, b"pre") {
        Some(WhiteSpace::Pre)
    } else if has_codes(text, b"pre-wrap") {
        Some(WhiteSpace::PreWrap)
    } else if has_codes(text, b"pre-line") {
        Some(WhiteSpace::PreLine)
    } else {
        None
    }
}

/// The value of `font-style` that a text is.
#[tactic(auto, unfolding(crate::specs::Values::font_style_of))]
pub fn read_font_style(text: &[char]) -> Option<FontStyle>
    ensures { result ≡ spec.font_style_of text.now }
{
    if has_codes(text, b"normal") {
        Some(FontStyle::Normal)
    } else if has_codes(text, b"italic") {
        Some(FontStyle::Italic)
    } else if has_codes(text, b"oblique") {
        Some(FontStyle::Oblique)
    } else {
        None
    }
}

/// The value of `text-align` that a text is; `start` is left and `end` is right.
#[tactic(auto, unfolding(crate::specs::Values::text_align_of))]
pub fn read_text_align(text: &[char]) -> Option<TextAlign>
    ensures { result ≡ spec.text_align_of text.now }
{
    if has_codes(text, b"left") || has_codes(text, b"start") {
        Some(TextAlign::Left)
    } else if has_codes(text, b"right") || has_codes(text, b"end") {
        Some(TextAlign::Right)
    } else if has_codes(text, b"center") {
        Some(TextAlign::Center)
    } else if has_codes(text, b"justify") {
        Some(TextAlign::Justify)
    } else {
        None
    }
}

/// The weight that a value of `font-weight` gives, 100 to 900: `normal` is 400 and `bold` 700.
#[tactic(auto, unfolding(crate::specs::Values::font_weight_of))]
pub fn read_font_weight(text: &[char]) -> Option<u16>
    ensures value { result ≡ spec.font_weight_of text.now }
    ensures hundreds { IfSome result (λ weight. IsTrue (spec.is_weight weight)) }
{
    if has_codes(text, b"normal") || has_codes(text, b"400") {
        Some(400)
    } else if has_codes(text, b"bold") || has_codes(text, b"700") {
        Some(700)
    } else if has_codes(text, b"100") {
        Some(100)
    } else if has_codes(text, b"200") {
        Some(200)
    } else if has_codes(text, b"300") {
        Some(300)
    } else if has_codes(text, b"500") {
        Some(500)
    } else if has_codes(text, b"600") {
        Some(600)
    } else if has_codes(text, b"800") {
        Some(800)
    } else if has_codes(text, b"900") {
        Some(900)
    } else {
        None
    }
}

/// The size in pixels of a keyword of `font-size`.
pub fn keyword_size(text: &[char]) -> Option<u16>
    ensures { result ≡ spec.keyword_size text.now }
{
    if has_codes(text, b"x-small") {
        Some(10)
    } else if has_codes(text, b"small") {
        Some(13)
    } else if has_codes(text, b"medium") {
        Some(16)
    } else if has_codes(text, b"large") {
        Some(18)
    } else if has_codes(text, b"x-large") {
        Some(24)
    } else if has_codes(text, b"xx-large") {
        Some(32)
    } else if has_codes(text, b"xxx-large") {
        Some(48)
    } else {
        None
    }
}

/// The size in pixels that a value of `font-size` gives: whole `Npx` to 9999 without leading zeros,
/// or a keyword.
#[tactic(auto, unfolding(crate::specs::Values::font_size_of))]
pub fn read_font_size(text: &[char]) -> Option<u16>
    ensures { result ≡ spec.font_size_of text.now }
{
    let (number_text, unit) = text.split_at(text.len().saturating_sub(2));
    if has_codes(unit, b"px") {
        number(number_text, 9999)
    } else {
        keyword_size(text)
    }
}
