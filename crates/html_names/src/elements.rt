//! What is said of an element by its name alone, each time by one table.
ghost use Rattle.std.specs.Prelude.{◌≡◌};
ghost use Rattle.std.specs.List.{list_any};
ghost use Rattle.std.specs.Str.{bytes_eq};
ghost use Rattle.html_names.specs.ElementNames as names;

static VOID_NAMES: [&[u8]; 14] = [
    b"area", b"base", b"br", b"col", b"embed", b"hr", b"img", b"input", b"link", b"meta", b"param",
    b"source", b"track", b"wbr",
];

static REFUSED_NAMES: [&[u8]; 11] = [
    b"script",
    b"style",
    b"template",
    b"textarea",
    b"title",
    b"noscript",
    b"iframe",
    b"xmp",
    b"plaintext",
    b"svg",
    b"math",
];

static PROHIBITED_CHILD_NAMES: [&[u8]; 47] = [
    b"address",
    b"article",
    b"aside",
    b"blockquote",
    b"caption",
    b"center",
    b"col",
    b"colgroup",
    b"dd",
    b"details",
    b"dir",
    b"div",
    b"dl",
    b"dt",
    b"fieldset",
    b"figcaption",
    b"figure",
    b"footer",
    b"form",
    b"h1",
    b"h2",
    b"h3",
    b"h4",
    b"h5",
    b"h6",
    b"header",
    b"hgroup",
    b"hr",
    b"li",
    b"listing",
    b"menu",
    b"nav",
    b"ol",
    b"p",
    b"plaintext",
    b"pre",
    b"section",
    b"summary",
    b"table",
    b"tbody",
    b"td",
    b"tfoot",
    b"th",
    b"thead",
    b"tr",
    b"ul",
    b"xmp",
];

static INLINE_CONTENTS_NAMES: [&[u8]; 43] = [
    b"a", b"abbr", b"b", b"bdi", b"bdo", b"cite", b"code", b"dfn", b"em", b"h1", b"h2", b"h3",
    b"h4", b"h5", b"h6", b"i", b"kbd", b"mark", b"p", b"pre", b"q", b"rp", b"rt", b"ruby", b"s",
    b"samp", b"small", b"span", b"strong", b"sub", b"sup", b"u", b"var", b"acronym", b"listing",
    b"strike", b"xmp", b"big", b"blink", b"font", b"marquee", b"nobr", b"tt",
];

static HEADING_NAMES: [&[u8]; 6] = [b"h1", b"h2", b"h3", b"h4", b"h5", b"h6"];

static NON_LIST_CONTAINER_NAMES: [&[u8]; 12] = [
    b"address", b"div", b"h1", b"h2", b"h3", b"h4", b"h5", b"h6", b"listing", b"p", b"pre", b"xmp",
];

static LIST_CONTAINER_NAMES: [&[u8]; 3] = [b"li", b"dt", b"dd"];

static FORMATTABLE_BLOCK_NAMES: [&[u8]; 12] = [
    b"address", b"dd", b"div", b"dt", b"h1", b"h2", b"h3", b"h4", b"h5", b"h6", b"p", b"pre",
];

static FORMAT_NAMES: [&[u8]; 29] = [
    b"abbr", b"acronym", b"b", b"bdi", b"bdo", b"big", b"blink", b"cite", b"code", b"dfn", b"em",
    b"font", b"i", b"ins", b"kbd", b"mark", b"nobr", b"q", b"s", b"samp", b"small", b"span",
    b"strike", b"strong", b"sub", b"sup", b"tt", b"u", b"var",
];

// Whether a table has a row.
pub(crate) fn is_one_of(table: &[&[u8]], name: &[u8]) -> bool
    ensures { result ≡ list_any (λ row. bytes_eq row.now name.now) table.now }
{
    table.iter().any(|row| *row == name)
}

/// Whether an element of this name has no content and no end tag (HTML Standard, "Void elements").
#[tactic(auto, unfolding(crate::specs::ElementNames::is_void, crate::specs::ElementNames::void_names))]
pub fn is_void(name: &[u8]) -> bool
    ensures { result ≡ names.is_void name.now }
{
    is_one_of(&VOID_NAMES, name)
}

/// Whether an element of this name may stand in a page. Refused are the elements whose content
/// isn't markup (`script`, `style`, `textarea`, `title`, `xmp`, `plaintext`, `iframe`, `noscript`),
/// `template`, and the roots of other languages (`svg`, `math`).
#[tactic(auto, unfolding(crate::specs::ElementNames::is_supported, crate::specs::ElementNames::refused_names))]
pub fn is_supported(name: &[u8]) -> bool
    ensures { result ≡ names.is_supported name.now }
{
    !is_one_of(&REFUSED_NAMES, name)
}

/// Whether an element of this name may not stand in a paragraph (HTML Editing APIs, "prohibited
/// paragraph child name").
#[tactic(auto, unfolding(crate::specs::ElementNames::is_prohibited_child, crate::specs::ElementNames::prohibited_child_names))]
pub fn is_prohibited_child(name: &[u8]) -> bool
    ensures { result ≡ names.is_prohibited_child name.now }
{
    is_one_of(&PROHIBITED_CHILD_NAMES, name)
}

/// Whether an element of this name holds inline contents alone (HTML Editing APIs, "name of an
/// element with inline contents").
#[tactic(auto, unfolding(crate::specs::ElementNames::has_inline_contents, crate::specs::ElementNames::inline_contents_names))]
pub fn has_inline_contents(name: &[u8]) -> bool
    ensures { result ≡ names.has_inline_contents name.now }
{
    is_one_of(&INLINE_CONTENTS_NAMES, name)
}

/// Whether the name is that of a heading, `h1` to `h6`.
#[tactic(auto, unfolding(crate::specs::ElementNames::is_heading, crate::specs::ElementNames::heading_names))]
pub fn is_heading(name: &[u8]) -> bool
    ensures { result ≡ names.is_heading name.now }
{
    is_one_of(&HEADING_NAMES, name)
}

/// Whether the name is that of a non-list single-line container (HTML Editing APIs).
#[tactic(auto, unfolding(crate::specs::ElementNames::is_non_list_single_line_container, crate::specs::ElementNames::non_list_container_names))]
pub fn is_non_list_single_line_container(name: &[u8]) -> bool
    ensures { result ≡ names.is_non_list_single_line_container name.now }
{
    is_one_of(&NON_LIST_CONTAINER_NAMES, name)
}

/// Whether the name is that of a single-line container: a non-list one, `li`, `dt` or `dd` (HTML
/// Editing APIs).
#[tactic(auto, unfolding(crate::specs::ElementNames::is_single_line_container, crate::specs::ElementNames::list_container_names))]
pub fn is_single_line_container(name: &[u8]) -> bool
    ensures { result ≡ names.is_single_line_container name.now }
{
    is_non_list_single_line_container(name) || is_one_of(&LIST_CONTAINER_NAMES, name)
}

/// Whether the name is a formattable block name (HTML Editing APIs), one that the command
/// formatBlock takes.
#[tactic(auto, unfolding(crate::specs::ElementNames::is_formattable_block, crate::specs::ElementNames::formattable_block_names))]
pub fn is_formattable_block(name: &[u8]) -> bool
    ensures { result ≡ names.is_formattable_block name.now }
{
    is_one_of(&FORMATTABLE_BLOCK_NAMES, name)
}

/// Whether an editable element of this name is a removeFormat candidate (HTML Editing APIs).
#[tactic(auto, unfolding(crate::specs::ElementNames::is_remove_format_candidate, crate::specs::ElementNames::format_names))]
pub fn is_remove_format_candidate(name: &[u8]) -> bool
    ensures { result ≡ names.is_remove_format_candidate name.now }
{
    is_one_of(&FORMAT_NAMES, name)
}
