//! The element that is made to give a node a value. The steps are those of docs/ALGORITHMS.md.

ghost use Rattle.std.specs.Prelude.{◌≡◌, ◌<◌, ◌++◌, IfOk, OnOk};
ghost use Rattle.wrap_split.specs.CssValue.Colours.{colour_of};
ghost use Rattle.inline_value.specs.Wrappers as spec;

use edit_model::dom::{Attributes, Chars, Name};
use edit_model::element_names::Command;
use std::alloc::{AllocError, Global};
use wrap_split::Blank;
use wrap_split::css::{Colour, has_codes};

/// An element of a name without attributes.
pub fn bare(alloc: Global, name: &[u8]) -> Result<Blank, AllocError>
    ensures { IfOk result (λ blank. blank ≡ spec.bare name.now) }
{
    Ok(Blank {
        name: Name::from_slice(alloc, name)?,
        attributes: Attributes::new(alloc),
    })
}

// A name with one attribute.
fn with_attribute(
    alloc: Global,
    name: &[u8],
    attribute: &[u8],
    value: &[char],
) -> Result<Blank, AllocError>
    ensures { IfOk result (λ blank. blank ≡ spec.with_attribute name.now attribute.now value.now) }
{
    let mut attributes = Attributes::new(alloc);
    attributes.insert(
        Name::from_slice(alloc, attribute)?,
        Chars::from_slice(alloc, value)?,
    )?;
    Ok(Blank {
        name: Name::from_slice(alloc, name)?,
        attributes,
    })
}

// Which of the sizes 1 to 7 a keyword names.
#[tactic(auto, unfolding(crate::specs::Wrappers::size_of_keyword))]
fn size_of_keyword(value: &[char]) -> Option<u8>
    ensures { result ≡ spec.size_of_keyword value.now }
{
    if has_codes(value, b"x-small") {
        Some(1)
    } else if has_codes(value, b"small") {
        Some(2)
    } else if has_codes(value, b"medium") {
        Some(3)
    } else if has_codes(value, b"large") {
        Some(4)
    } else if has_codes(value, b"x-large") {
        Some(5)
    } else if has_codes(value, b"xx-large") {
        Some(6)
    } else if has_codes(value, b"xxx-large") {
        Some(7)
    } else {
        None
    }
}

// Force the value, step 5, line b: a font of a size, by its digit.
fn font_of_size(alloc: Global, size: u8) -> Result<Blank, AllocError>
    requires { size < 8 }
    ensures { IfOk result (λ blank. blank ≡ spec.font_of_size size) }
{
    with_attribute(alloc, b"font", b"size", &[(b'0' + size) as char])
}

// Force the value, step 5, line b.
#[tactic(auto, unfolding(crate::specs::Wrappers::size_font, crate::specs::Wrappers::size_of_keyword))]
fn size_font(alloc: Global, css: bool, value: &[char]) -> Result<Option<Blank>, AllocError>
    ensures { IfOk result (λ blank. blank ≡ spec.size_font css value.now) }
{
    let Some(size) = size_of_keyword(value) else {
        return Ok(None);
    };
    if css && size != 7 {
        return Ok(None);
    }
    Ok(Some(font_of_size(alloc, size)?))
}

// Force the value, step 5, line c.
#[tactic(auto, unfolding(crate::specs::Wrappers::script_element))]
fn script_element(alloc: Global, value: &[char]) -> Result<Option<Blank>, AllocError>
    ensures { IfOk result (λ blank. blank ≡ spec.script_element value.now) }
{
    if has_codes(value, b"subscript") {
        Ok(Some(bare(alloc, b"sub")?))
    } else if has_codes(value, b"superscript") {
        Ok(Some(bare(alloc, b"sup")?))
    } else {
        Ok(None)
    }
}

// Force the value, step 5, line d: an element of a name, where the value is its.
fn named_for(
    alloc: Global,
    word: &[u8],
    name: &[u8],
    value: &[char],
) -> Result<Option<Blank>, AllocError>
    ensures { IfOk result (λ blank. blank ≡ spec.named_for word.now name.now value.now) }
{
    if has_codes(value, word) {
        Ok(Some(bare(alloc, name)?))
    } else {
        Ok(None)
    }
}

// A digit of a number in hexadecimal, in lower case.
fn hex_digit(digit: u8) -> char
    requires { digit < 16 }
    ensures { result ≡ spec.hex_digit digit }
{
    if digit < 10 {
        (b'0' + digit) as char
    } else {
        (b'W' + digit) as char
    }
}

// Appends the two digits of a byte.
#[tactic(auto, unfolding(crate::specs::Wrappers::hex_pair))]
fn push_hex(text: &mut Vec<char>, byte: u8) -> Result<(), AllocError>
    ensures { OnOk result (text.new.items ≡ text.old.items ++ spec.hex_pair byte) }
{
    text.push(hex_digit(byte / 16))?;
    text.push(hex_digit(byte % 16))?;
    Ok(())
}

// A colour as `#rrggbb` in lower case.
#[tactic(auto, unfolding(crate::specs::Wrappers::hex_text))]
fn hex_text(alloc: Global, colour: Colour) -> Result<Vec<char>, AllocError>
    ensures { IfOk result (λ text. text.items ≡ spec.hex_text colour) }
{
    let mut text = Vec::new(alloc);
    text.push('#')?;
    push_hex(&mut text, colour.red)?;
    push_hex(&mut text, colour.green)?;
    push_hex(&mut text, colour.blue)?;
    Ok(text)
}

// Force the value, step 5, line d: a font with a colour that isn't transparent.
#[tactic(auto, unfolding(crate::specs::Wrappers::colour_font))]
fn colour_font(alloc: Global, value: &[char]) -> Result<Option<Blank>, AllocError>
    ensures { IfOk result (λ blank. blank ≡ spec.colour_font value.now) }
{
    let Some(colour) = Colour::read(value) else {
        return Ok(None);
    };
    if colour.clear {
        return Ok(None);
    }
    let text = hex_text(alloc, colour)?;
    Ok(Some(with_attribute(alloc, b"font", b"color", &text)?))
}

// A font with a face.
fn face_font(alloc: Global, value: &[char]) -> Result<Option<Blank>, AllocError>
    ensures { IfOk result (λ blank. blank ≡ spec.face_font value.now) }
{
    Ok(Some(with_attribute(alloc, b"font", b"face", value)?))
}

// Force the value, step 5, line d: what stands for a value without styles.
fn presentational(
    alloc: Global,
    command: Command,
    value: &[char],
) -> Result<Option<Blank>, AllocError>
    ensures { IfOk result (λ blank. blank ≡ spec.presentational command value.now) }
{
    match command {
        Command::Bold => named_for(alloc, b"bold", b"b", value),
        Command::Italic => named_for(alloc, b"italic", b"i", value),
        Command::Strikethrough => named_for(alloc, b"line-through", b"s", value),
        Command::Underline => named_for(alloc, b"underline", b"u", value),
        Command::ForeColor => colour_font(alloc, value),
        Command::FontName => face_font(alloc, value),
        _ => Ok(None),
    }
}

// The same, unless styles are wanted.
fn unless_css(
    alloc: Global,
    css: bool,
    command: Command,
    value: &[char],
) -> Result<Option<Blank>, AllocError>
    ensures { IfOk result (λ blank. blank ≡ spec.unless_css css command value.now) }
{
    if css {
        Ok(None)
    } else {
        presentational(alloc, command, value)
    }
}

// Force the value, step 5, line a: a link to the value.
fn link_to(alloc: Global, value: &[char]) -> Result<Option<Blank>, AllocError>
    ensures { IfOk result (λ blank. blank ≡ spec.link_to value.now) }
{
    Ok(Some(with_attribute(alloc, b"a", b"href", value)?))
}

// Force the value, step 5, lines a to d.
fn chosen(
    alloc: Global,
    css: bool,
    command: Command,
    value: &[char],
) -> Result<Option<Blank>, AllocError>
    ensures { IfOk result (λ blank. blank ≡ spec.chosen css command value.now) }
{
    match command {
        Command::CreateLink | Command::Unlink => link_to(alloc, value),
        Command::FontSize => size_font(alloc, css, value),
        Command::Subscript | Command::Superscript => script_element(alloc, value),
        _ => unless_css(alloc, css, command, value),
    }
}

/// The name and the attributes of the element that is made to give a node the value, where `css` is
/// the CSS styling flag.
#[tactic(auto, unfolding(crate::specs::Wrappers::wrapper_for))]
pub(crate) fn wrapper_for(
    alloc: Global,
    css: bool,
    command: Command,
    value: &[char],
) -> Result<Blank, AllocError>
    ensures { IfOk result (λ blank. blank ≡ spec.wrapper_for css command value.now) }
{
    match chosen(alloc, css, command, value)? {
        Some(blank) => Ok(blank),
        None => bare(alloc, b"span"),
    }
}
