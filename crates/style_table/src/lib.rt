//! The styles that elements have where nothing sets one, by the name of the element.
#![tactic(auto)]

ghost use Rattle.std.specs.Prelude.{◌≡◌, ℕ, false, List, map};
ghost use Rattle.std.specs.List.{list_any};
ghost use Rattle.std.specs.Option.{option_map};
ghost use Rattle.std.specs.Str.{bytes_eq};
ghost use Rattle.style_table.specs.DefaultStyles as defaults;

/// A property of CSS 2.1 that has a meaning here.
#[derive(Clone, Copy, Debug, PartialEq, Eq)]
pub enum Property {
    Display,
    WhiteSpace,
    FontWeight,
    FontStyle,
    FontFamily,
    FontSize,
    Color,
    BackgroundColor,
    TextDecoration,
    TextAlign,
}

/// A default: the value as a style prints it, a weight as a number, a size in `px`, and a colour as
/// `rgb(r, g, b)`.
#[derive(Clone, Copy, Debug, PartialEq, Eq)]
pub struct Row {
    pub text: &'static str,
}

// A value, and the names of the elements that have it by default.
#[derive(Clone, Copy)]
struct NamedRow(&'static str, &'static [&'static [u8]]);

// Blocks that most pages have, and what most have that has no display by default.
static BLOCK_NAMES: [&[u8]; 2] = [b"p", b"div"];

static PLAIN_NAMES: [&[u8]; 9] = [
    b"span", b"b", b"i", b"a", b"u", b"br", b"em", b"font", b"strong",
];

// Those that most pages have come first.
static DISPLAY_ROWS: [NamedRow; 6] = [
    NamedRow(
        "block",
        &[
            b"p",
            b"div",
            b"body",
            b"html",
            b"h1",
            b"h2",
            b"h3",
            b"ul",
            b"ol",
            b"blockquote",
            b"address",
            b"article",
            b"aside",
            b"center",
            b"dd",
            b"details",
            b"dir",
            b"dl",
            b"dt",
            b"fieldset",
            b"figcaption",
            b"figure",
            b"footer",
            b"form",
            b"h4",
            b"h5",
            b"h6",
            b"header",
            b"hgroup",
            b"hr",
            b"legend",
            b"listing",
            b"main",
            b"menu",
            b"nav",
            b"pre",
            b"section",
            b"summary",
        ],
    ),
    NamedRow(
        "block",
        &[
            b"caption",
            b"col",
            b"colgroup",
            b"tbody",
            b"td",
            b"tfoot",
            b"th",
            b"thead",
            b"tr",
        ],
    ),
    NamedRow("list-item", &[b"li"]),
    NamedRow("table", &[b"table"]),
    NamedRow("inline-block", &[b"button", b"input", b"select"]),
    NamedRow(
        "none",
        &[
            b"area", b"base", b"head", b"link", b"meta", b"param", b"source", b"track",
        ],
    ),
];

static WHITE_SPACE_ROWS: [NamedRow; 2] = [
    NamedRow("pre", &[b"listing", b"pre"]),
    NamedRow("nowrap", &[b"nobr"]),
];

static FONT_WEIGHT_ROWS: [NamedRow; 1] = [NamedRow(
    "700",
    &[
        b"b", b"strong", b"th", b"h1", b"h2", b"h3", b"h4", b"h5", b"h6",
    ],
)];

static FONT_STYLE_ROWS: [NamedRow; 1] = [NamedRow(
    "italic",
    &[b"address", b"cite", b"dfn", b"em", b"i", b"var"],
)];

static FONT_FAMILY_ROWS: [NamedRow; 1] = [NamedRow(
    "monospace",
    &[b"code", b"kbd", b"listing", b"pre", b"samp", b"tt"],
)];

static FONT_SIZE_ROWS: [NamedRow; 8] = [
    NamedRow("32px", &[b"h1"]),
    NamedRow("24px", &[b"h2"]),
    NamedRow("19px", &[b"h3"]),
    NamedRow("16px", &[b"h4"]),
    NamedRow("13px", &[b"h5"]),
    NamedRow("11px", &[b"h6"]),
    NamedRow("18px", &[b"big"]),
    NamedRow("13px", &[b"small"]),
];

static BACKGROUND_COLOR_ROWS: [NamedRow; 1] = [NamedRow("rgb(255, 255, 0)", &[b"mark"])];

static TEXT_DECORATION_ROWS: [NamedRow; 2] = [
    NamedRow("underline", &[b"u", b"ins"]),
    NamedRow("line-through", &[b"s", b"strike", b"del"]),
];

static TEXT_ALIGN_ROWS: [NamedRow; 1] = [NamedRow("center", &[b"center", b"caption", b"th"])];

// Whether one of the names is this.
fn has_name(names: &[&[u8]], name: &[u8]) -> bool
    ensures { result ≡ list_any (λ known. bytes_eq known.now name.now) names.now }
{
    names.iter().any(|known| *known == name)
}

// The value of the first row that has the name.
fn value_of(rows: &[NamedRow], name: &[u8]) -> Option<Row>
    ensures { option_map (λ row. row.text.now) result ≡ defaults.value_of
        (map (λ row. (row.0.now, map (λ known. known.now) row.1.now)) rows.now) name.now }
{
    for row in rows {
        if has_name(row.1, name) {
            return Some(Row { text: row.0 });
        }
    }
    None
}

// Whether an element is an `a` with the attribute `href`.
#[tactic(auto, unfolding(crate::specs::DefaultStyles::link_names))]
fn is_link(name: &[u8], has_href: bool) -> bool
    ensures { result ≡ defaults.is_link name.now has_href }
{
    has_href && name == b"a".as_slice()
}

// The rows of a property. What a link has besides stands in none.
#[tactic(auto, unfolding(crate::specs::DefaultStyles::default_of, crate::specs::DefaultStyles::default_display, crate::specs::DefaultStyles::display_rows, crate::specs::DefaultStyles::default_white_space, crate::specs::DefaultStyles::white_space_rows, crate::specs::DefaultStyles::default_font_weight, crate::specs::DefaultStyles::font_weight_rows, crate::specs::DefaultStyles::default_font_style, crate::specs::DefaultStyles::font_style_rows, crate::specs::DefaultStyles::default_font_family, crate::specs::DefaultStyles::font_family_rows, crate::specs::DefaultStyles::default_font_size, crate::specs::DefaultStyles::font_size_rows, crate::specs::DefaultStyles::default_background_color, crate::specs::DefaultStyles::background_color_rows, crate::specs::DefaultStyles::default_text_decoration, crate::specs::DefaultStyles::text_decoration_rows, crate::specs::DefaultStyles::default_text_align, crate::specs::DefaultStyles::text_align_rows, crate::specs::DefaultStyles::default_color, crate::specs::DefaultStyles::value_of))]
fn rows_of(property: Property) -> &'static [NamedRow]
    ensures { (name : List ℕ) → defaults.value_of
        (map (λ row. (row.0.now, map (λ known. known.now) row.1.now)) result.now) name
        ≡ defaults.default_of name false property }
{
    match property {
        Property::Display => &DISPLAY_ROWS,
        Property::WhiteSpace => &WHITE_SPACE_ROWS,
        Property::FontWeight => &FONT_WEIGHT_ROWS,
        Property::FontStyle => &FONT_STYLE_ROWS,
        Property::FontFamily => &FONT_FAMILY_ROWS,
        Property::FontSize => &FONT_SIZE_ROWS,
        Property::Color => &[],
        Property::BackgroundColor => &BACKGROUND_COLOR_ROWS,
        Property::TextDecoration => &TEXT_DECORATION_ROWS,
        Property::TextAlign => &TEXT_ALIGN_ROWS,
    }
}

// The default display. What most pages have is asked for first: a name that no row has would be
// compared with all of them.
#[tactic(auto, unfolding(crate::specs::DefaultStyles::default_of))]
fn display_of(name: &[u8]) -> Option<Row>
    ensures { option_map (λ row. row.text.now) result ≡ defaults.default_display name.now }
{
    if has_name(&BLOCK_NAMES, name) {
        return Some(Row { text: "block" });
    }
    if has_name(&PLAIN_NAMES, name) {
        return None;
    }
    value_of(rows_of(Property::Display), name)
}

/// The default of a property for an element of this name, in lower case; `has_href` says whether
/// the element has the attribute `href`. `None` where the table has no row.
#[tactic(auto, unfolding(crate::specs::DefaultStyles::default_of, crate::specs::DefaultStyles::default_color, crate::specs::DefaultStyles::default_text_decoration))]
pub fn default_of(name: &[u8], has_href: bool, property: Property) -> Option<Row>
    ensures { option_map (λ row. row.text.now) result
        ≡ defaults.default_of name.now has_href property }
{
    match property {
        Property::Display => display_of(name),
        Property::Color if is_link(name, has_href) => Some(Row {
            text: "rgb(0, 0, 238)",
        }),
        Property::TextDecoration if is_link(name, has_href) => Some(Row { text: "underline" }),
        _ => value_of(rows_of(property), name),
    }
}
