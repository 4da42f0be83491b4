//! The names of the style properties that make the box of an element.
ghost use Rattle.std.specs.Prelude.{◌≡◌, map};
ghost use Rattle.std.specs.List.{list_any};
ghost use Rattle.std.specs.Str.{bytes_eq};
ghost use Rattle.html_names.specs.BoxNames as properties;

use crate::elements::is_one_of;

static MARGIN_NAMES: [&[u8]; 5] = [
    b"margin",
    b"margin-top",
    b"margin-right",
    b"margin-bottom",
    b"margin-left",
];

static BOX_NAMES: [&[u8]; 30] = [
    b"margin",
    b"margin-top",
    b"margin-right",
    b"margin-bottom",
    b"margin-left",
    b"padding",
    b"padding-top",
    b"padding-right",
    b"padding-bottom",
    b"padding-left",
    b"border",
    b"border-width",
    b"border-style",
    b"border-color",
    b"border-top",
    b"border-top-width",
    b"border-top-style",
    b"border-top-color",
    b"border-right",
    b"border-right-width",
    b"border-right-style",
    b"border-right-color",
    b"border-bottom",
    b"border-bottom-width",
    b"border-bottom-style",
    b"border-bottom-color",
    b"border-left",
    b"border-left-width",
    b"border-left-style",
    b"border-left-color",
];

/// Whether the property sets a margin: `margin` or that of one side.
#[tactic(auto, unfolding(crate::specs::BoxNames::is_margin_name, crate::specs::BoxNames::margin_names))]
pub fn is_margin_name(property: &[u8]) -> bool
    ensures { result ≡ properties.is_margin_name property.now }
{
    is_one_of(&MARGIN_NAMES, property)
}

/// Whether the property sets a margin, a padding or a border.
#[tactic(auto, unfolding(crate::specs::BoxNames::is_box_name, crate::specs::BoxNames::box_names, crate::specs::BoxNames::margin_names))]
pub fn is_box_name(property: &[u8]) -> bool
    ensures { result ≡ properties.is_box_name property.now }
{
    is_one_of(&BOX_NAMES, property)
}

/// The properties that set a margin, a padding or a border, in the order in which a command takes
/// them away.
#[tactic(auto, unfolding(crate::specs::BoxNames::box_names, crate::specs::BoxNames::margin_names))]
pub fn box_names() -> &'static [&'static [u8]]
    ensures { map (λ row. row.now) result.now ≡ properties.box_names }
{
    &BOX_NAMES
}
