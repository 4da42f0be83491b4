//! The values that an element itself gives a property.

ghost use Rattle.std.specs.Prelude.{◌≡◌, codes};
ghost use Rattle.std.specs.Option.{option_map, option_copied, option_and_then, option_or};
ghost use Rattle.css_value.specs.Values as values;
ghost use Rattle.css_value.specs.Colours.{colour_of};
ghost use Rattle.css_value.specs.TextDecoration.{text_decoration_of};
ghost use Rattle.style_table.specs.declared.Property.TheVariants as property;
ghost use Rattle.node_styles.specs.Families.{family_text};
ghost use Rattle.node_styles.specs.WrittenDecorations.{decoration_text};
ghost use Rattle.node_styles.specs.OwnStyles as own;
ghost use Rattle.node_styles.specs.TableTexts as table;
ghost use Rattle.node_styles.specs.Traits as traits;

use crate::hints::{align_hint, color_hint, family_hint, size_hint};
use css_value::{
    Colour, Display, FontStyle, TextAlign, TextDecoration, WhiteSpace, find, read_display,
    read_font_size, read_font_style, read_font_weight, read_text_align, read_text_decoration,
    read_white_space,
};
use node_arena::Content;
use style_table::{Property, default_of};

// The colour of links.
const BLUE: Colour = Colour {
    red: 0,
    green: 0,
    blue: 238,
    clear: false,
};

// The background of what is marked.
const YELLOW: Colour = Colour {
    red: 255,
    green: 255,
    blue: 0,
    clear: false,
};

/// The value of an attribute of an element.
#[tactic(auto, unfolding(crate::specs::OwnStyles::attribute))]
pub fn attribute<'a>(content: &'a Content, name: &[u8]) -> Option<&'a [char]>
    ensures { option_copied result ≡ own.attribute content.now name.now }
{
    match content {
        Content::Element { attributes, .. } => match attributes.get(name) {
            Some(value) => Some(value.as_slice()),
            None => None,
        },
        _ => None,
    }
}

/// Whether a content is that of an element of this name.
#[tactic(auto, unfolding(crate::specs::OwnStyles::is_named))]
pub fn is_element_named(content: &Content, name: &[u8]) -> bool
    ensures { result ≡ own.is_named name.now content.now }
{
    match content {
        Content::Element { name: own, .. } => own.as_slice() == name,
        _ => false,
    }
}

/// What the attribute `style` of an element declares of a property, valid or not.
#[tactic(auto, unfolding(crate::specs::OwnStyles::declared))]
pub fn declared<'a>(content: &'a Content, name: &[u8]) -> Option<&'a [char]>
    ensures { option_copied result ≡ own.declared content.now name.now }
{
    find(attribute(content, b"style")?, name)
}

// The text of the default by the element's name.
#[tactic(auto, unfolding(crate::specs::OwnStyles::defaulted))]
fn defaulted(content: &Content, property: Property) -> Option<&'static str>
    ensures { option_copied result ≡ own.defaulted content.now property }
{
    match content {
        Content::Element { name, .. } => {
            let has_href = attribute(content, b"href").is_some();
            match default_of(name.as_slice(), has_href, property) {
                Some(row) => Some(row.text),
                None => None,
            }
        }
        _ => None,
    }
}

// The display that a text of the table stands for.
#[tactic(auto, unfolding(css_value::specs::Values::display_of))]
fn display_named(text: &str) -> Option<Display>
    ensures { result ≡ values.display_of text.now }
{
    match text {
        "block" => Some(Display::Block),
        "inline" => Some(Display::Inline),
        "inline-block" => Some(Display::InlineBlock),
        "inline-table" => Some(Display::InlineTable),
        "list-item" => Some(Display::ListItem),
        "table" => Some(Display::Table),
        "none" => Some(Display::NoBox),
        _ => None,
    }
}

#[tactic(auto, unfolding(crate::specs::OwnStyles::own_display))]
pub(crate) fn own_display(content: &Content) -> Option<Display>
    ensures { result ≡ own.own_display content.now }
{
    declared(content, b"display")
        .and_then(|text| read_display(text))
        .or_else(|| display_named(defaulted(content, Property::Display)?))
}

// The white-space that a text of the table stands for.
#[tactic(auto, unfolding(css_value::specs::Values::white_space_of))]
fn white_space_named(text: &str) -> Option<WhiteSpace>
    ensures { result ≡ values.white_space_of text.now }
{
    match text {
        "normal" => Some(WhiteSpace::Normal),
        "nowrap" => Some(WhiteSpace::NoWrap),
        "pre" => Some(WhiteSpace::Pre),
        "pre-wrap" => Some(WhiteSpace::PreWrap),
        "pre-line" => Some(WhiteSpace::PreLine),
        _ => None,
    }
}

#[tactic(auto, unfolding(crate::specs::OwnStyles::own_white_space))]
pub(crate) fn own_white_space(content: &Content) -> Option<WhiteSpace>
    ensures { result ≡ own.own_white_space content.now }
{
    declared(content, b"white-space")
        .and_then(|text| read_white_space(text))
        .or_else(|| white_space_named(defaulted(content, Property::WhiteSpace)?))
}

#[tactic(auto, using(crate::proofs::Defaults::weight_default), unfolding(crate::specs::OwnStyles::own_font_weight))]
pub(crate) fn own_font_weight(content: &Content) -> Option<u16>
    ensures { result ≡ own.own_font_weight content.now }
{
    declared(content, b"font-weight")
        .and_then(|text| read_font_weight(text))
        .or_else(|| defaulted(content, Property::FontWeight).map(|_| 700))
}

#[tactic(auto, using(crate::proofs::Defaults::style_default), unfolding(crate::specs::OwnStyles::own_font_style))]
pub(crate) fn own_font_style(content: &Content) -> Option<FontStyle>
    ensures { result ≡ own.own_font_style content.now }
{
    declared(content, b"font-style")
        .and_then(|text| read_font_style(text))
        .or_else(|| defaulted(content, Property::FontStyle).map(|_| FontStyle::Italic))
}

// The family that a text gives.
pub(crate) fn family_in(text: &[char]) -> Option<&[char]>
    ensures { option_copied result ≡ own.family_of text.now }
{
    if text.is_empty() { None } else { Some(text) }
}

/// A family's name as the page has it, the one that the table gives, or the initial one.
#[derive(Clone, Copy)]
pub enum Family<'a> {
    Written(&'a [char]),
    Monospace,
    Serif,
}

// The family that the style or a hint gives.
fn written_font_family(content: &Content) -> Option<&[char]>
    ensures { option_copied result ≡ option_or (option_and_then own.family_of
        (own.declared content.now (codes "font-family"))) (own.family_hint content.now) }
{
    declared(content, b"font-family")
        .and_then(|text| family_in(text))
        .or_else(|| family_hint(content))
}

#[tactic(auto, using(crate::proofs::Defaults::family_default), unfolding(crate::specs::OwnStyles::own_font_family))]
pub(crate) fn own_font_family(content: &Content) -> Option<Family<'_>>
    ensures { option_map family_text result ≡ own.own_font_family content.now }
{
    match written_font_family(content) {
        Some(text) => Some(Family::Written(text)),
        None => defaulted(content, Property::FontFamily).map(|_| Family::Monospace),
    }
}

// The pixels of a size that the table gives.
fn size_named(text: &str) -> Option<u16>
    ensures { result ≡ table.pixels_of text.now }
{
    match text {
        "32px" => Some(32),
        "24px" => Some(24),
        "19px" => Some(19),
        "16px" => Some(16),
        "13px" => Some(13),
        "11px" => Some(11),
        "18px" => Some(18),
        _ => None,
    }
}

#[tactic(auto, using(crate::proofs::Defaults::size_default), unfolding(crate::specs::OwnStyles::own_font_size))]
pub(crate) fn own_font_size(content: &Content) -> Option<u16>
    ensures { result ≡ own.own_font_size content.now }
{
    declared(content, b"font-size")
        .and_then(|text| read_font_size(text))
        .or_else(|| size_hint(content))
        .or_else(|| size_named(defaulted(content, Property::FontSize)?))
}

#[tactic(auto, using(crate::proofs::Defaults::color_default), unfolding(crate::specs::OwnStyles::own_color))]
pub(crate) fn own_color(content: &Content) -> Option<Colour>
    ensures { result ≡ own.own_color content.now }
{
    declared(content, b"color")
        .and_then(|text| Colour::read(text))
        .or_else(|| color_hint(content))
        .or_else(|| defaulted(content, Property::Color).map(|_| BLUE))
}

/// The `background-color` that an element gives itself, by its style or by its name.
#[tactic(auto, using(crate::proofs::Defaults::background_default), unfolding(crate::specs::OwnStyles::own_background_color, crate::specs::OwnStyles::declared))]
pub fn own_background_color(content: &Content) -> Option<Colour>
    ensures { result ≡ own.own_background_color content.now }
{
    declared(content, b"background-color")
        .and_then(|text| Colour::read(text))
        .or_else(|| defaulted(content, Property::BackgroundColor).map(|_| YELLOW))
}

// The lines that a text of the table stands for.
fn lines_named(text: &str) -> Option<TextDecoration>
    ensures { result ≡ table.lines_of text.now }
{
    match text {
        "underline" => Some(TextDecoration {
            underline: true,
            overline: false,
            line_through: false,
        }),
        "line-through" => Some(TextDecoration {
            underline: false,
            overline: false,
            line_through: true,
        }),
        _ => None,
    }
}

/// The `text-decoration` that an element gives itself, by its style or by its name.
#[tactic(auto, using(crate::proofs::Defaults::decoration_default), unfolding(crate::specs::OwnStyles::own_text_decoration, crate::specs::OwnStyles::declared))]
pub fn own_text_decoration(content: &Content) -> Option<TextDecoration>
    ensures { result ≡ own.own_text_decoration content.now }
{
    declared(content, b"text-decoration")
        .and_then(|text| read_text_decoration(text))
        .or_else(|| lines_named(defaulted(content, Property::TextDecoration)?))
}

// The text of a `text-decoration` that an element gives itself.
pub(crate) enum DecorationText<'a> {
    Written(&'a [char]),
    Named(&'static str),
}

// The valid value that the style declares.
#[tactic(auto, unfolding(crate::specs::OwnStyles::declared, crate::specs::OwnStyles::valid_decoration))]
fn written_decoration(content: &Content) -> Option<&[char]>
    ensures { option_copied result ≡ option_and_then own.valid_decoration
        (own.declared content.now (codes "text-decoration")) }
{
    let text = declared(content, b"text-decoration")?;
    if read_text_decoration(text).is_some() {
        Some(text)
    } else {
        None
    }
}

// The `text-decoration` that an element gives itself, as it is written.
#[tactic(auto, using(crate::proofs::Defaults::decoration_text_default), unfolding(crate::specs::OwnStyles::own_decoration_text))]
pub(crate) fn own_decoration_text(content: &Content) -> Option<DecorationText<'_>>
    ensures { option_map decoration_text result ≡ own.own_decoration_text content.now }
{
    match written_decoration(content) {
        Some(text) => Some(DecorationText::Written(text)),
        None => {
            let word = defaulted(content, Property::TextDecoration)?;
            Some(DecorationText::Named(word))
        }
    }
}

#[tactic(auto, using(crate::proofs::Defaults::align_default), unfolding(crate::specs::OwnStyles::own_text_align))]
pub(crate) fn own_text_align(content: &Content) -> Option<TextAlign>
    ensures { result ≡ own.own_text_align content.now }
{
    declared(content, b"text-align")
        .and_then(|text| read_text_align(text))
        .or_else(|| align_hint(content))
        .or_else(|| defaulted(content, Property::TextAlign).map(|_| TextAlign::Center))
}

// Whether the element gives the property a value.
pub(crate) fn has_own(content: &Content, property: Property) -> bool
    ensures { result ≡ traits.has_own property content.now }
{
    match property {
        Property::Display => own_display(content).is_some(),
        Property::WhiteSpace => own_white_space(content).is_some(),
        Property::FontWeight => own_font_weight(content).is_some(),
        Property::FontStyle => own_font_style(content).is_some(),
        Property::FontFamily => own_font_family(content).is_some(),
        Property::FontSize => own_font_size(content).is_some(),
        Property::Color => own_color(content).is_some(),
        Property::BackgroundColor => own_background_color(content).is_some(),
        Property::TextDecoration => own_text_decoration(content).is_some(),
        Property::TextAlign => own_text_align(content).is_some(),
    }
}
