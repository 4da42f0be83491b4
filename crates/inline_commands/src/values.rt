//! The commands that take a value. The steps are those of docs/ALGORITHMS.md.

ghost use Rattle.std.specs.Prelude.{◌≡◌, ◌∷◌, IfOk};
ghost use Rattle.std.specs.Option.{option_copied};
ghost use Rattle.edit_model.specs.Gives.{Gives};
ghost use Rattle.inline_value.specs.EditDoc.Held.{Keeps};
ghost use Rattle.inline_value.specs.EditDoc.Whole.{IsOpen};
ghost use Rattle.inline_commands.specs.ValueCommands.{size_value, colour_value, set_taken, take, apply_value};

use edit_model::element_names::Command;
use inline_value::css::{Colour, size_keyword};
use inline_value::doc::{Doc, EditFault};
use inline_value::set_value;
use inline_value::styles::read_legacy_size;
use std::alloc::{AllocError, Global};

// Apply a value, step 4.
#[tactic(auto, using(edit_model::proofs::Steps::steps, edit_model::proofs::Steps::exits), unfolding(crate::specs::ValueCommands::set_taken))]
fn set_taken(
    alloc: Global,
    doc: &mut Doc,
    value: &[char],
    command: Command,
) -> Result<bool, EditFault>
    requires open { IsOpen doc.old }
    ensures gives { Gives result doc.old.state doc.new.state (set_taken command value.now) }
    ensures keeps { Keeps doc.old doc.new }
{
    set_value(alloc, doc, Some(value), command)?;
    Ok(true)
}

// Apply a value, step 2.
#[tactic(auto, unfolding(crate::specs::ValueCommands::size_value))]
fn size_value(value: &[char]) -> Option<&'static [char]>
    ensures { option_copied result ≡ size_value value.now }
{
    let size = read_legacy_size(value)?;
    Some(size_keyword(size))
}

// Apply a value, steps 2 and 4.
#[tactic(auto, using(edit_model::proofs::Steps::steps, edit_model::proofs::Steps::exits), unfolding(crate::specs::ValueCommands::take))]
fn apply_size(
    alloc: Global,
    doc: &mut Doc,
    value: &[char],
    command: Command,
) -> Result<bool, EditFault>
    requires open { IsOpen doc.old }
    ensures gives { Gives result doc.old.state doc.new.state (take command (size_value value.now)) }
    ensures keeps { Keeps doc.old doc.new }
{
    match size_value(value) {
        Some(keyword) => set_taken(alloc, doc, keyword, command),
        None => Ok(false),
    }
}

// A value with "#" before it.
fn marked(alloc: Global, value: &[char]) -> Result<Vec<char>, AllocError>
    ensures { IfOk result (λ text. text.items ≡ 35 ∷ value.now) }
{
    let mut text = Vec::new(alloc);
    text.push('#')?;
    text.extend_from_slice(value)?;
    Ok(text)
}

// Apply a value, steps 3 and 4.
#[tactic(auto, using(edit_model::proofs::Steps::steps, edit_model::proofs::Steps::exits), unfolding(crate::specs::ValueCommands::if_colour, crate::specs::ValueCommands::colour_value, crate::specs::ValueCommands::take))]
fn apply_colour(
    alloc: Global,
    doc: &mut Doc,
    value: &[char],
    command: Command,
) -> Result<bool, EditFault>
    requires open { IsOpen doc.old }
    ensures gives { Gives result doc.old.state doc.new.state
        (take command (colour_value value.now)) }
    ensures keeps { Keeps doc.old doc.new }
{
    if Colour::read(value).is_some() {
        return set_taken(alloc, doc, value, command);
    }
    let text = marked(alloc, value)?;
    if Colour::read(&text).is_some() {
        return set_taken(alloc, doc, &text, command);
    }
    Ok(false)
}

/// The commands fontName, fontSize, foreColor, backColor and hiliteColor. fontName takes every
/// value; fontSize takes digits, with a sign relative to 3, for the keyword of the size from 1 to
/// 7; the others take a colour, or one that lacks its "#". It answers false, before it changes
/// anything, where the value is none that the command takes, and to any other command.
#[tactic(auto, using(edit_model::proofs::Steps::steps), unfolding(crate::specs::ValueCommands::take, crate::specs::ValueCommands::apply_value))]
pub fn apply_value(
    alloc: Global,
    doc: &mut Doc,
    value: &[char],
    command: Command,
) -> Result<bool, EditFault>
    requires open { IsOpen doc.old }
    ensures gives { Gives result doc.old.state doc.new.state (apply_value command value.now) }
    ensures keeps { Keeps doc.old doc.new }
{
    match command {
        Command::FontName => set_taken(alloc, doc, value, command),
        Command::FontSize => apply_size(alloc, doc, value, command),
        Command::ForeColor | Command::BackColor | Command::HiliteColor => {
            apply_colour(alloc, doc, value, command)
        }
        _ => Ok(false),
    }
}
