//! Start tags on one line, read as they are written: where the text is no start tag, anything may
//! be read.

ghost use Rattle.std.specs.Prelude.{◌≡◌, ◌++◌, IfOk, OnOk, Some, None, true, false};
ghost use Rattle.std.specs.Str.{all_scalars};
ghost use Rattle.step_text.specs.StepLine.{AreAttributes, IsTag};
ghost use Rattle.step_text.specs.StepReading as reading;
ghost use Rattle.step_text.specs.StepReading.{Reads};

use crate::line::StepFault;
use crate::names::{read_attribute_name, read_element_name};
use page_grammar::dom::{Attributes, Chars, Name};
use page_write::escapes::push_char;
use script_read::cut;
use std::alloc::{AllocError, Global};
use std::marker::Copy;

/// Where a reader stands between two bytes of an attribute's value.
#[derive(Clone, Copy, PartialEq, Eq, Debug)]
pub(crate) enum Reference {
    /// In no reference.
    Outside,
    /// After `&`.
    Ampersand,
    /// After the first letter of a reference's name.
    Named,
}

/// What stands between the first and the last byte.
pub(crate) fn within(text: &[u8]) -> &[u8]
    ensures { result.now ≡ reading.within text.now }
{
    match text {
        [_, inner @ .., _] => inner,
        _ => b"",
    }
}

fn unescaped_byte(b: u8) -> u8
    ensures { result ≡ reading.unescaped_byte b }
{
    match b {
        b'n' => b'\n',
        b'r' => b'\r',
        b't' => b'\t',
        _ => b,
    }
}

// Appends what one byte more of a tag gives.
fn push_unescaped(bytes: &mut Vec<u8>, escaped: bool, b: u8) -> Result<(), AllocError>
    ensures ok { OnOk result (bytes.new.items ≡ bytes.old.items
        ++ reading.unescaped_gives escaped b) }
{
    if escaped {
        bytes.push(unescaped_byte(b))?;
    } else if b != b'\\' {
        bytes.push(b)?;
    }
    Ok(())
}

// Whether a byte of a tag begins an escape.
fn escapes(escaped: bool, b: u8) -> bool
    ensures { result ≡ reading.escapes escaped b }
{
    !escaped && b == b'\\'
}

// A tag without the escapes that keep it on one line.
fn unescape(alloc: Global, text: &[u8]) -> Result<Vec<u8>, AllocError>
    ensures { IfOk result (λ bytes. bytes.items ≡ reading.unescaped false text.now) }
{
    let mut bytes = Vec::new(alloc);
    let mut escaped = false;
    for b in text {
        push_unescaped(&mut bytes, escaped, *b)?;
        escaped = escapes(escaped, *b);
    }
    Ok(bytes)
}

// The character of a reference. The first letters of the names differ.
fn referenced(letter: u8) -> char
    ensures { result ≡ reading.referenced letter }
{
    match letter {
        b'a' => '&',
        b'l' => '<',
        b'g' => '>',
        b'n' => '\u{a0}',
        _ => '"',
    }
}

// Appends what one byte more of a value gives.
fn push_dereferenced(bytes: &mut Vec<u8>, state: Reference, b: u8) -> Result<(), AllocError>
    ensures ok { OnOk result (bytes.new.items ≡ bytes.old.items
        ++ reading.referenced_gives state b) }
{
    match state {
        Reference::Outside if b == b'&' => {}
        Reference::Outside => bytes.push(b)?,
        Reference::Ampersand => push_char(bytes, referenced(b))?,
        Reference::Named => {}
    }
    Ok(())
}

fn after(state: Reference, b: u8) -> Reference
    ensures { result ≡ reading.after state b }
{
    match state {
        Reference::Outside if b == b'&' => Reference::Ampersand,
        Reference::Outside => Reference::Outside,
        Reference::Ampersand => Reference::Named,
        Reference::Named if b == b';' => Reference::Outside,
        Reference::Named => Reference::Named,
    }
}

// A value without references.
fn dereference(alloc: Global, text: &[u8]) -> Result<Vec<u8>, AllocError>
    ensures { IfOk result (λ bytes. bytes.items ≡ reading.unreferenced text.now) }
{
    let mut bytes = Vec::new(alloc);
    let mut state = Reference::Outside;
    for b in text {
        push_dereferenced(&mut bytes, state, *b)?;
        state = after(state, *b);
    }
    Ok(bytes)
}

// The characters of a text in UTF-8.
fn decode(alloc: Global, bytes: &[u8]) -> Result<Chars, StepFault>
    ensures read { Reads result (reading.decoded bytes.now) }
    ensures sound { IfOk result (λ decoded. all_scalars decoded ≡ true) }
{
    match str::from_utf8(bytes) {
        Ok(text) => Ok(Chars::from_text(alloc, text)?),
        Err(_) => Err(StepFault::Syntax),
    }
}

// Adds the attribute of what stands before the opening quote, as ` name=`, and between the quotes.
#[tactic(auto, unfolding(crate::specs::StepReading::attribute_of))]
fn add_attribute(
    alloc: Global,
    attributes: &mut Attributes,
    head: &[u8],
    quoted: &[u8],
) -> Result<(), StepFault>
    requires { AreAttributes attributes.old }
    ensures read { reading.Adds result attributes.old attributes.new
        (reading.attribute_of head.now quoted.now) }
    ensures sound { AreAttributes attributes.new }
{
    let name = read_attribute_name(alloc, within(head))?;
    let bytes = dereference(alloc, quoted)?;
    let value = decode(alloc, &bytes)?;
    attributes.insert(name, value)?;
    Ok(())
}

// The attributes of what follows the name in a start tag.
fn read_attributes(alloc: Global, text: &[u8]) -> Result<Attributes, StepFault>
    ensures read { Reads result (reading.attributes_of text.now) }
    ensures sound { IfOk result AreAttributes }
{
    let mut attributes = Attributes::new(alloc);
    let mut rest = text;
    while let Some((head, after)) = cut(rest, b'"') {
        let Some((quoted, more)) = cut(after, b'"') else {
            return Err(StepFault::Syntax);
        };
        add_attribute(alloc, &mut attributes, head, quoted)?;
        rest = more;
    }
    Ok(attributes)
}

// The name in a start tag, and what follows it from the space on.
fn part_tag(text: &[u8]) -> (&[u8], &[u8])
    ensures name { result.0.now ≡ (reading.tag_parts text.now).0 }
    ensures attributes { result.1.now ≡ (reading.tag_parts text.now).1 }
{
    let inner = within(text);
    match cut(inner, b' ') {
        Some((name, _)) => {
            let (_, attributes) = inner.split_at(name.len());
            (name, attributes)
        }
        None => (inner, b""),
    }
}

#[tactic(auto, unfolding(crate::specs::StepReading::start_tag_of))]
fn read_start_tag(alloc: Global, text: &[u8]) -> Result<(Name, Attributes), StepFault>
    ensures read { Reads result (reading.start_tag_of text.now) }
    ensures sound { IfOk result (λ tag. IsTag tag.0 tag.1) }
{
    let (name, attributes) = part_tag(text);
    let name = read_element_name(alloc, name)?;
    let attributes = read_attributes(alloc, attributes)?;
    attributes.valid();
    Ok((name, attributes))
}

/// The name and the attributes of a start tag on one line.
pub(crate) fn read_tag(alloc: Global, text: &[u8]) -> Result<(Name, Attributes), StepFault>
    ensures read { Reads result (reading.tag_of text.now) }
    ensures sound { IfOk result (λ tag. IsTag tag.0 tag.1) }
{
    let bytes = unescape(alloc, text)?;
    read_start_tag(alloc, &bytes)
}
