//! Steps printed as lines.

ghost use Rattle.std.specs.Prelude.{◌≡◌, ◌++◌, IfOk, OnOk, codes};
ghost use Rattle.std.specs.Fmt.{decimal};
ghost use Rattle.step_text.specs.StepLine.{quoted, tag_byte, tag_bytes, tag_text, made_text, before_text, line_text};

use crate::line::{Made, StepLine};
use page_grammar::dom::{Attributes, Chars, Name};
use page_write::escapes::push_escaped;
use page_write::node_place::push_decimal;
use page_write::push_start_tag;
use std::alloc::{AllocError, Global};

fn push_quoted(bytes: &mut Vec<u8>, words: &Chars) -> Result<(), AllocError>
    ensures ok { OnOk result (bytes.new.items ≡ bytes.old.items ++ quoted words.now) }
{
    bytes.push(b'"')?;
    push_escaped(bytes, words.as_slice())?;
    bytes.push(b'"')?;
    Ok(())
}

fn push_tag_byte(bytes: &mut Vec<u8>, byte: u8) -> Result<(), AllocError>
    ensures ok { OnOk result (bytes.new.items ≡ bytes.old.items ++ tag_byte byte) }
{
    match byte {
        b'\\' => bytes.extend_from_slice(b"\\\\")?,
        b'\n' => bytes.extend_from_slice(b"\\n")?,
        b'\r' => bytes.extend_from_slice(b"\\r")?,
        b'\t' => bytes.extend_from_slice(b"\\t")?,
        _ => bytes.push(byte)?,
    }
    Ok(())
}

#[tactic(auto, unfolding(crate::specs::StepLine::tag_bytes))]
fn push_tag_bytes(bytes: &mut Vec<u8>, tag: &[u8]) -> Result<(), AllocError>
    ensures ok { OnOk result (bytes.new.items ≡ bytes.old.items ++ tag_bytes tag.now) }
{
    for byte in tag {
        push_tag_byte(bytes, *byte)?;
    }
    Ok(())
}

fn push_tag(bytes: &mut Vec<u8>, name: &Name, attributes: &Attributes) -> Result<(), AllocError>
    ensures ok { OnOk result (bytes.new.items ≡ bytes.old.items
        ++ tag_text name.now attributes.now) }
{
    let mut tag = Vec::new(*bytes.allocator());
    push_start_tag(&mut tag, name, attributes)?;
    push_tag_bytes(bytes, &tag)
}

fn push_made(bytes: &mut Vec<u8>, made: &Made) -> Result<(), AllocError>
    ensures ok { OnOk result (bytes.new.items ≡ bytes.old.items ++ made_text made.now) }
{
    match made {
        Made::Element { name, attributes } => push_tag(bytes, name, attributes),
        Made::Words { words } => push_quoted(bytes, words),
    }
}

// Appends a word and a label.
fn push_labelled(bytes: &mut Vec<u8>, word: &[u8], label: u32) -> Result<(), AllocError>
    ensures ok { OnOk result (bytes.new.items ≡ bytes.old.items ++ (word.now ++ decimal label)) }
{
    let alloc = *bytes.allocator();
    bytes.extend_from_slice(word)?;
    push_decimal(alloc, bytes, label)
}

// Appends a parent and the child before which a node goes.
fn push_place(bytes: &mut Vec<u8>, parent: u32, before: Option<u32>) -> Result<(), AllocError>
    ensures ok { OnOk result (bytes.new.items ≡
        bytes.old.items ++ (codes " " ++ decimal parent ++ codes " " ++ before_text before)) }
{
    push_labelled(bytes, b" ", parent)?;
    match before {
        Some(label) => push_labelled(bytes, b" ", label),
        None => bytes.extend_from_slice(b" -"),
    }
}

/// Appends the line of a step, without an LF. After an `Err` a part of it stands in the bytes.
pub fn push_step(bytes: &mut Vec<u8>, step: &StepLine) -> Result<(), AllocError>
    ensures ok { OnOk result (bytes.new.items ≡ bytes.old.items ++ line_text step.now) }
{
    match step {
        StepLine::Entry => bytes.extend_from_slice(b"entry"),
        StepLine::Make { label, made } => {
            push_labelled(bytes, b"make ", *label)?;
            bytes.push(b' ')?;
            push_made(bytes, made)
        }
        StepLine::Insert {
            label,
            parent,
            before,
        } => {
            push_labelled(bytes, b"insert ", *label)?;
            push_place(bytes, *parent, *before)
        }
        StepLine::Remove { label } => push_labelled(bytes, b"remove ", *label),
        StepLine::Move {
            label,
            parent,
            before,
        } => {
            push_labelled(bytes, b"move ", *label)?;
            push_place(bytes, *parent, *before)
        }
        StepLine::Words { label, words } => {
            push_labelled(bytes, b"words ", *label)?;
            bytes.push(b' ')?;
            push_quoted(bytes, words)
        }
        StepLine::Tag {
            label,
            name,
            attributes,
        } => {
            push_labelled(bytes, b"tag ", *label)?;
            bytes.push(b' ')?;
            push_tag(bytes, name, attributes)
        }
    }
}

/// The line of a step, without an LF.
pub fn print_step(alloc: Global, step: &StepLine) -> Result<Vec<u8>, AllocError>
    ensures { IfOk result (λ bytes. bytes.items ≡ line_text step.now) }
{
    let mut bytes = Vec::new(alloc);
    push_step(&mut bytes, step)?;
    Ok(bytes)
}
