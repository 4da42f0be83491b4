//! Restoring recorded states and values. The steps are those of docs/ALGORITHMS.md.

ghost use Rattle.std.specs.Prelude.{◌≡◌, ◌+◌, IfOk};
ghost use Rattle.edit_model.specs.Gives.{Gives};
ghost use Rattle.edit_model.specs.Run.{for_each};
ghost use Rattle.inline_value.specs.EditDoc.Held.{Keeps};
ghost use Rattle.inline_value.specs.EditDoc.Whole.{IsOpen};
ghost use Rattle.inline_value.specs.EditQuery.Formattable as formattable;
ghost use Rattle.inline_commands.specs.RestoringStates.{set_override, toggle_state, restore_on, restore_off, restore_shown, differs_at, is_other_value, restore_link, restore_size, restore_text, restore_entry, restore_states};

use crate::linking::create_link;
use crate::toggling::{toggle_script, toggle_style};
use crate::values::apply_value;
use edit_model::element_names::Command;
use inline_value::doc::{Chars, Doc, EditFault, Setting};
use inline_value::query::{first_formattable, legacy_text, query_state, query_value};
use inline_value::values::{equivalent, has_alike_value};
use inline_value::{Override, Overrides};
use std::alloc::{AllocError, Global};

// Restore states and values, step 2: of one entry.
#[tactic(auto, using(edit_model::proofs::Steps::actions, edit_model::proofs::Steps::exits), unfolding(crate::specs::RestoringStates::set_override))]
fn set_override(doc: &mut Doc, entry: &Override) -> Result<(), EditFault>
    requires open { IsOpen doc.old }
    ensures gives { Gives result doc.old.state doc.new.state (set_override entry.now) }
    ensures keeps { Keeps doc.old doc.new }
{
    match &entry.setting {
        Setting::On => doc.set_setting(entry.command, Setting::On),
        Setting::Off => doc.set_setting(entry.command, Setting::Off),
        Setting::Text { value } => {
            let value = value.clone()?;
            doc.set_setting(entry.command, Setting::Text { value });
        }
        Setting::Absent => {}
    }
    Ok(())
}

// Restore states and values, step 2.
#[tactic(auto, using(edit_model::proofs::Steps::steps, crate::proofs::Items::item_end, edit_model::proofs::Steps::exits))]
fn set_overrides(doc: &mut Doc, list: &[Override]) -> Result<(), EditFault>
    requires open { IsOpen doc.old }
    ensures gives { Gives result doc.old.state doc.new.state (for_each list.now set_override) }
    ensures keeps { Keeps doc.old doc.new }
{
    for entry in list {
        set_override(doc, entry)?;
    }
    Ok(())
}

// Restore states and values, step 3: the action of the command.
#[tactic(auto, using(edit_model::proofs::Steps::steps, edit_model::proofs::Steps::exits), unfolding(crate::specs::RestoringStates::toggle_state))]
fn toggle_state(alloc: Global, doc: &mut Doc, command: Command) -> Result<(), EditFault>
    requires open { IsOpen doc.old }
    ensures gives { Gives result doc.old.state doc.new.state (toggle_state command) }
    ensures keeps { Keeps doc.old doc.new }
{
    match command {
        Command::Subscript | Command::Superscript => toggle_script(alloc, doc, command)?,
        _ => toggle_style(alloc, doc, command)?,
    };
    Ok(())
}

// Restore states and values, step 3: of true.
#[tactic(auto, using(edit_model::proofs::Steps::steps, edit_model::proofs::Steps::exits), unfolding(crate::specs::RestoringStates::restore_on))]
fn restore_on(alloc: Global, doc: &mut Doc, command: Command) -> Result<(), EditFault>
    requires open { IsOpen doc.old }
    ensures gives { Gives result doc.old.state doc.new.state (restore_on command) }
    ensures keeps { Keeps doc.old doc.new }
{
    if query_state(alloc, doc, doc.host(), command)? {
        return Ok(());
    }
    toggle_state(alloc, doc, command)
}

// Restore states and values, step 3: of false.
#[tactic(auto, using(edit_model::proofs::Steps::steps, edit_model::proofs::Steps::exits), unfolding(crate::specs::RestoringStates::restore_off))]
fn restore_off(alloc: Global, doc: &mut Doc, command: Command) -> Result<(), EditFault>
    requires open { IsOpen doc.old }
    ensures gives { Gives result doc.old.state doc.new.state (restore_off command) }
    ensures keeps { Keeps doc.old doc.new }
{
    if query_state(alloc, doc, doc.host(), command)? {
        return toggle_state(alloc, doc, command);
    }
    Ok(())
}

// Restore states and values, step 4.
#[tactic(auto, using(edit_model::proofs::Steps::steps, edit_model::proofs::Steps::exits), unfolding(crate::specs::RestoringStates::restore_shown))]
fn restore_shown(
    alloc: Global,
    doc: &mut Doc,
    command: Command,
    value: &Chars,
) -> Result<(), EditFault>
    requires open { IsOpen doc.old }
    ensures gives { Gives result doc.old.state doc.new.state (restore_shown command value.now) }
    ensures keeps { Keeps doc.old doc.new }
{
    let shown = query_value(alloc, doc, doc.host(), command)?;
    if !equivalent(command, Some(value), Some(&shown)) {
        apply_value(alloc, doc, value.as_slice(), command)?;
    }
    Ok(())
}

// Whether the first formattable node has another value.
#[tactic(auto, unfolding(inline_value::specs::Forcing::has_alike))]
fn differs_at_first(
    alloc: Global,
    doc: &Doc,
    command: Command,
    value: &[char],
) -> Result<bool, AllocError>
    ensures { IfOk result (λ differs. differs ≡ differs_at doc.now.state command value.now
        (formattable.first_formattable doc.now.state doc.now.state.host)) }
{
    match first_formattable(alloc, doc, doc.host())? {
        Some(node) => Ok(!has_alike_value(doc, node, command, Some(value))),
        None => Ok(false),
    }
}

// Restore states and values, steps 5 and 6: whether the text is another than the value override or,
// without one, than that value.
#[tactic(auto, unfolding(crate::specs::RestoringStates::is_other_value))]
fn is_other_value(
    alloc: Global,
    doc: &Doc,
    command: Command,
    value: &[char],
) -> Result<bool, AllocError>
    ensures { IfOk result (λ differs. differs ≡ is_other_value doc.now.state command value.now) }
{
    match doc.setting(command) {
        Setting::Text { value: own } => Ok(own.as_slice() != value),
        _ => differs_at_first(alloc, doc, command, value),
    }
}

// Restore states and values, step 5.
#[tactic(auto, using(edit_model::proofs::Steps::steps, edit_model::proofs::Steps::exits), unfolding(crate::specs::RestoringStates::restore_link))]
fn restore_link(alloc: Global, doc: &mut Doc, value: &[char]) -> Result<(), EditFault>
    requires open { IsOpen doc.old }
    ensures gives { Gives result doc.old.state doc.new.state (restore_link value.now) }
    ensures keeps { Keeps doc.old doc.new }
{
    if is_other_value(alloc, doc, Command::CreateLink, value)? {
        create_link(alloc, doc, value)?;
    }
    Ok(())
}

// Restore states and values, step 6.
#[tactic(auto, using(edit_model::proofs::Steps::steps, edit_model::proofs::Steps::exits), unfolding(crate::specs::RestoringStates::restore_size))]
fn restore_size(alloc: Global, doc: &mut Doc, value: &[char]) -> Result<(), EditFault>
    requires open { IsOpen doc.old }
    ensures gives { Gives result doc.old.state doc.new.state (restore_size value.now) }
    ensures keeps { Keeps doc.old doc.new }
{
    if is_other_value(alloc, doc, Command::FontSize, value)? {
        let size = legacy_text(alloc, value)?;
        apply_value(alloc, doc, size.as_slice(), Command::FontSize)?;
    }
    Ok(())
}

// Restore states and values, steps 4 to 6: of a text.
#[tactic(auto, using(edit_model::proofs::Steps::steps))]
fn restore_text(
    alloc: Global,
    doc: &mut Doc,
    command: Command,
    value: &Chars,
) -> Result<(), EditFault>
    requires open { IsOpen doc.old }
    ensures gives { Gives result doc.old.state doc.new.state (restore_text command value.now) }
    ensures keeps { Keeps doc.old doc.new }
{
    match command {
        Command::FontName | Command::ForeColor | Command::HiliteColor => {
            restore_shown(alloc, doc, command, value)
        }
        Command::CreateLink => restore_link(alloc, doc, value.as_slice()),
        Command::FontSize => restore_size(alloc, doc, value.as_slice()),
        _ => Ok(()),
    }
}

// Restore states and values, steps 3 to 6: of one entry.
#[tactic(auto, using(edit_model::proofs::Steps::steps), unfolding(crate::specs::RestoringStates::restore_entry))]
fn restore_entry(alloc: Global, doc: &mut Doc, entry: &Override) -> Result<(), EditFault>
    requires open { IsOpen doc.old }
    ensures gives { Gives result doc.old.state doc.new.state (restore_entry entry.now) }
    ensures keeps { Keeps doc.old doc.new }
{
    match &entry.setting {
        Setting::On => restore_on(alloc, doc, entry.command),
        Setting::Off => restore_off(alloc, doc, entry.command),
        Setting::Text { value } => restore_text(alloc, doc, entry.command, value),
        Setting::Absent => Ok(()),
    }
}

// Restore states and values, steps 3 to 6.
#[tactic(auto, using(edit_model::proofs::Steps::steps, crate::proofs::Items::item_end, edit_model::proofs::Steps::exits))]
fn restore_entries(alloc: Global, doc: &mut Doc, list: &[Override]) -> Result<(), EditFault>
    requires open { IsOpen doc.old }
    ensures gives { Gives result doc.old.state doc.new.state (for_each list.now restore_entry) }
    ensures keeps { Keeps doc.old doc.new }
{
    for entry in list {
        restore_entry(alloc, doc, entry)?;
    }
    Ok(())
}

/// Restores recorded states and values. Where the active range effectively contains no formattable
/// node, each becomes the override of its command; otherwise the action of each command whose state
/// or value is another one is taken, in order.
#[tactic(auto, using(edit_model::proofs::Steps::steps, edit_model::proofs::Steps::exits), unfolding(crate::specs::RestoringStates::restore_states))]
pub fn restore_states(alloc: Global, doc: &mut Doc, list: &Overrides) -> Result<(), EditFault>
    requires open { IsOpen doc.old }
    ensures gives { Gives result doc.old.state doc.new.state (restore_states list.now) }
    ensures keeps { Keeps doc.old doc.new }
{
    if first_formattable(alloc, doc, doc.host())?.is_none() {
        return set_overrides(doc, list.as_slice());
    }
    restore_entries(alloc, doc, list.as_slice())
}
