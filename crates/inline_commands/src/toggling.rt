//! The commands that turn a style, or a script, on and off. The steps are those of
//! docs/ALGORITHMS.md.

ghost use Rattle.std.specs.Prelude.{◌≡◌};
ghost use Rattle.std.specs.Option.{option_copied};
ghost use Rattle.edit_model.specs.Gives.{Gives};
ghost use Rattle.inline_value.specs.EditDoc.Held.{Keeps};
ghost use Rattle.inline_value.specs.EditDoc.Whole.{IsOpen};
ghost use Rattle.inline_commands.specs.Toggling.{style_on, style_off, script_on, toggle_style, toggle_script};

use edit_model::element_names::Command;
use inline_value::doc::{Doc, EditFault};
use inline_value::query::query_state;
use inline_value::set_value;
use std::alloc::Global;

// The value that turns the command on: of bold, italic, underline and strikethrough.
fn style_on(command: Command) -> Option<&'static [char]>
    ensures { option_copied result ≡ style_on command }
{
    match command {
        Command::Bold => Some(&['b', 'o', 'l', 'd']),
        Command::Italic => Some(&['i', 't', 'a', 'l', 'i', 'c']),
        Command::Underline => Some(&['u', 'n', 'd', 'e', 'r', 'l', 'i', 'n', 'e']),
        Command::Strikethrough => {
            Some(&['l', 'i', 'n', 'e', '-', 't', 'h', 'r', 'o', 'u', 'g', 'h'])
        }
        _ => None,
    }
}

// The value that turns it off.
fn style_off(command: Command) -> Option<&'static [char]>
    ensures { option_copied result ≡ style_off command }
{
    match command {
        Command::Bold | Command::Italic => Some(&['n', 'o', 'r', 'm', 'a', 'l']),
        _ => None,
    }
}

/// The commands bold, italic, underline and strikethrough: turned off where the command's state is
/// true, else turned on. It answers true, and false to any other command.
#[tactic(auto, using(edit_model::proofs::Steps::steps, edit_model::proofs::Steps::exits), unfolding(crate::specs::Toggling::toggle_style, crate::specs::Toggling::set_toggled))]
pub fn toggle_style(alloc: Global, doc: &mut Doc, command: Command) -> Result<bool, EditFault>
    requires open { IsOpen doc.old }
    ensures gives { Gives result doc.old.state doc.new.state (toggle_style command) }
    ensures keeps { Keeps doc.old doc.new }
{
    let Some(on) = style_on(command) else {
        return Ok(false);
    };
    if query_state(alloc, doc, doc.host(), command)? {
        set_value(alloc, doc, style_off(command), command)?;
    } else {
        set_value(alloc, doc, Some(on), command)?;
    }
    Ok(true)
}

// The value that turns the command on: of subscript and superscript.
fn script_on(command: Command) -> Option<&'static [char]>
    ensures { option_copied result ≡ script_on command }
{
    match command {
        Command::Subscript => Some(&['s', 'u', 'b', 's', 'c', 'r', 'i', 'p', 't']),
        Command::Superscript => Some(&['s', 'u', 'p', 'e', 'r', 's', 'c', 'r', 'i', 'p', 't']),
        _ => None,
    }
}

/// The commands subscript and superscript: turned off, and then on where the command's state was
/// false. It answers true, and false to any other command.
#[tactic(auto, using(edit_model::proofs::Steps::steps, edit_model::proofs::Steps::exits), unfolding(crate::specs::Toggling::toggle_script, crate::specs::Toggling::set_script, crate::specs::Toggling::set_unless))]
pub fn toggle_script(alloc: Global, doc: &mut Doc, command: Command) -> Result<bool, EditFault>
    requires open { IsOpen doc.old }
    ensures gives { Gives result doc.old.state doc.new.state (toggle_script command) }
    ensures keeps { Keeps doc.old doc.new }
{
    let Some(on) = script_on(command) else {
        return Ok(false);
    };
    let state = query_state(alloc, doc, doc.host(), command)?; // step 1
    set_value(alloc, doc, None, command)?; // step 2
    if !state {
        set_value(alloc, doc, Some(on), command)?; // step 3
    }
    Ok(true)
}
