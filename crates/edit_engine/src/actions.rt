//! The actions of commands, and the one frame in which they run.

ghost use Rattle.std.specs.Prelude.{◌≡◌, true, IfOk, IfSome, OnErr, Some};
ghost use Rattle.edit_model.specs.Action.{Select, acted};
ghost use Rattle.edit_model.specs.Gives.{Gives, label_of};
ghost use Rattle.edit_model.specs.Valid.{IsPlacedPair};
ghost use Rattle.inline_value.specs.EditDoc.Changes.{resumed_at};
ghost use Rattle.inline_value.specs.EditDoc.Held.{Finds, IfHeld, Keeps};
ghost use Rattle.inline_value.specs.EditDoc.Whole.{IsOpen, IsClosed, opened, with_state};
ghost use Rattle.inline_value.specs.EditActions.ActiveRange.{host_of_pair};
ghost use Rattle.edit_engine.specs.Commands.{is_value, set_css_styling, set_separator, own_action, action_of, row_of};
ghost use Rattle.edit_engine.specs.Editing.{IsJoinable};
ghost use Rattle.edit_engine.specs.Execution.{host_at, run_at};
ghost use Rattle.edit_engine.specs.Framing.{restore_at_caret, give_back, recorded_action};
ghost use Rattle.edit_engine.specs.Running.{Ran, TellsChange};

use crate::commands::{is_value, row_of};
use block_commands::{format_block, justify};
use edit_model::element_names::Command;
use inline_commands::{
    apply_value, create_link, remove_format, restore_states, toggle_script, toggle_style, unlink,
};
use inline_value::actions::{affected_host, ends_of};
use inline_value::css::TextAlign;
use inline_value::doc::{Committed, Doc, EditFault, Flags, NodeRef, Pair};
use inline_value::query::is_caret;
use inline_value::{Overrides, record_overrides};
use insert_objects::{insert_horizontal_rule, insert_image, insert_line_break};
use list_indent::{indent, outdent};
use list_toggle::{ListKind, toggle_lists};
use std::alloc::{AllocError, Global};
use text_deletion::{delete, insert_paragraph, insert_text};

// styleWithCSS and useCSS, step 1.
#[tactic(auto, using(edit_model::proofs::Steps::actions), unfolding(crate::specs::Commands::set_css_styling))]
fn set_css_styling(doc: &mut Doc, on: bool) -> Result<bool, EditFault>
    requires open { IsOpen doc.old }
    ensures gives { Gives result doc.old.state doc.new.state (set_css_styling on) }
    ensures keeps { Keeps doc.old doc.new }
{
    let flags = doc.flags();
    doc.set_flags(Flags {
        css_styling: on,
        paragraphs: flags.paragraphs,
    });
    Ok(true)
}

// defaultParagraphSeparator, steps 1 and 2: the default single-line container is p or div.
#[tactic(auto, using(edit_model::proofs::Steps::actions), unfolding(crate::specs::Commands::set_separator))]
fn set_separator(doc: &mut Doc, value: &[char]) -> Result<bool, EditFault>
    requires open { IsOpen doc.old }
    ensures gives { Gives result doc.old.state doc.new.state (set_separator value.now) }
    ensures keeps { Keeps doc.old doc.new }
{
    let paragraphs = is_value(value, b"p");
    if !paragraphs && !is_value(value, b"div") {
        return Ok(false);
    }
    let flags = doc.flags();
    doc.set_flags(Flags {
        css_styling: flags.css_styling,
        paragraphs,
    });
    Ok(true)
}

// The action of a command, an arm for each.
#[tactic(auto, using(edit_model::proofs::Steps::steps))]
fn act(alloc: Global, doc: &mut Doc, command: Command, value: &[char]) -> Result<bool, EditFault>
    requires open { IsOpen doc.old }
    ensures gives { Gives result doc.old.state doc.new.state (own_action command value.now) }
    ensures keeps { Keeps doc.old doc.new }
{
    match command {
        Command::Bold | Command::Italic | Command::Underline | Command::Strikethrough => {
            toggle_style(alloc, doc, command)
        }
        Command::Subscript | Command::Superscript => toggle_script(alloc, doc, command),
        Command::CreateLink => create_link(alloc, doc, value),
        Command::Unlink => unlink(alloc, doc),
        Command::FontName
        | Command::FontSize
        | Command::ForeColor
        | Command::BackColor
        | Command::HiliteColor => apply_value(alloc, doc, value, command),
        Command::RemoveFormat => remove_format(alloc, doc),
        Command::FormatBlock => format_block(alloc, doc, value),
        Command::JustifyLeft => justify(alloc, doc, TextAlign::Left),
        Command::JustifyCenter => justify(alloc, doc, TextAlign::Center),
        Command::JustifyRight => justify(alloc, doc, TextAlign::Right),
        Command::JustifyFull => justify(alloc, doc, TextAlign::Justify),
        Command::Indent => indent(alloc, doc),
        Command::Outdent => outdent(alloc, doc),
        Command::Delete => delete(alloc, doc),
        Command::InsertText => insert_text(alloc, doc, value),
        Command::InsertParagraph => insert_paragraph(alloc, doc),
        Command::InsertOrderedList => toggle_lists(alloc, doc, ListKind::Ordered),
        Command::InsertUnorderedList => toggle_lists(alloc, doc, ListKind::Unordered),
        Command::InsertLineBreak => insert_line_break(alloc, doc),
        Command::InsertHorizontalRule => insert_horizontal_rule(alloc, doc),
        Command::InsertImage => insert_image(alloc, doc, value),
        Command::StyleWithCss => set_css_styling(doc, !is_value(value, b"false")),
        Command::UseCss => set_css_styling(doc, is_value(value, b"false")),
        Command::DefaultParagraphSeparator => set_separator(doc, value),
    }
}

// Restores recorded overrides at a caret.
#[tactic(auto, using(edit_model::proofs::Steps::steps, edit_model::proofs::Steps::exits), unfolding(crate::specs::Framing::restore_at_caret))]
fn restore_at_caret(alloc: Global, doc: &mut Doc, list: &Overrides) -> Result<(), EditFault>
    requires open { IsOpen doc.old }
    ensures gives { Gives result doc.old.state doc.new.state (restore_at_caret list.now) }
    ensures keeps { Keeps doc.old doc.new }
{
    if is_caret(doc) {
        return restore_states(alloc, doc, list);
    }
    Ok(())
}

// Restores recorded overrides after an action that answers true.
#[tactic(auto, using(edit_model::proofs::Steps::steps, edit_model::proofs::Steps::exits))]
fn give_back(
    alloc: Global,
    doc: &mut Doc,
    list: &Overrides,
    answer: bool,
) -> Result<bool, EditFault>
    requires open { IsOpen doc.old }
    ensures gives { Gives result doc.old.state doc.new.state (give_back list.now answer) }
    ensures keeps { Keeps doc.old doc.new }
{
    if answer {
        restore_at_caret(alloc, doc, list)?;
        return Ok(true);
    }
    Ok(false)
}

// The action of a command with the overrides recorded before it.
#[tactic(auto, using(edit_model::proofs::Steps::steps, edit_model::proofs::Steps::exits), unfolding(crate::specs::Framing::recorded_action))]
fn recorded_act(
    alloc: Global,
    doc: &mut Doc,
    command: Command,
    value: &[char],
) -> Result<bool, EditFault>
    requires open { IsOpen doc.old }
    ensures gives { Gives result doc.old.state doc.new.state
        (recorded_action (own_action command value.now)) }
    ensures keeps { Keeps doc.old doc.new }
{
    let list = record_overrides(alloc, doc)?;
    let answer = act(alloc, doc, command, value)?;
    give_back(alloc, doc, &list, answer)
}

// The action of a command as it is taken.
fn take_action(
    alloc: Global,
    doc: &mut Doc,
    command: Command,
    value: &[char],
) -> Result<bool, EditFault>
    requires open { IsOpen doc.old }
    ensures gives { Gives result doc.old.state doc.new.state (action_of command value.now) }
    ensures keeps { Keeps doc.old doc.new }
{
    if row_of(command).recording {
        recorded_act(alloc, doc, command, value)
    } else {
        act(alloc, doc, command, value)
    }
}

/// The affected editing host: that of the selection, or of the range where a command is told one.
pub(crate) fn host_at(doc: &Doc, at: Option<Pair>) -> Option<NodeRef>
    requires { IfSome at (IsPlacedPair doc.now.state.trees) }
    ensures { Finds doc.now result (host_at at doc.now.state) }
{
    match at {
        Some(range) => host_of_range(doc, range),
        None => affected_host(doc),
    }
}

#[tactic(auto, using(crate::proofs::Below::placed_here), unfolding(crate::specs::Below::host_of_pair))]
fn host_of_range(doc: &Doc, range: Pair) -> Option<NodeRef>
    requires { IsPlacedPair doc.now.state.trees range }
    ensures { Finds doc.now result (host_of_pair doc.now.state.trees range) }
{
    inline_value::questions::affected_host(doc, ends_of(doc, range))
}

// Selects a range.
fn select_range(doc: &mut Doc, range: Pair)
    ensures selected { doc.new
        ≡ with_state doc.old (acted (Select range.anchor range.focus) doc.old.state) }
    ensures keeps { Keeps doc.old doc.new }
{
    doc.select(range.anchor, range.focus);
}

// The action of a command on a range, which is selected first.
#[tactic(auto, using(edit_model::proofs::Steps::steps, edit_model::proofs::Steps::exits))]
fn act_on(
    alloc: Global,
    doc: &mut Doc,
    range: Pair,
    command: Command,
    value: &[char],
) -> Result<bool, EditFault>
    requires open { IsOpen doc.old }
    ensures gives { Gives result doc.old.state doc.new.state
        (run_at (Some range) (action_of command value.now)) }
    ensures keeps { Keeps doc.old doc.new }
{
    select_range(doc, range);
    take_action(alloc, doc, command, value)
}

// The action of a command at the selection, or on a range where it is told one.
fn act_at(
    alloc: Global,
    doc: &mut Doc,
    at: Option<Pair>,
    command: Command,
    value: &[char],
) -> Result<bool, EditFault>
    requires open { IsOpen doc.old }
    ensures gives { Gives result doc.old.state doc.new.state
        (run_at at (action_of command value.now)) }
    ensures keeps { Keeps doc.old doc.new }
{
    match at {
        Some(range) => act_on(alloc, doc, range, command, value),
        None if row_of(command).recording => recorded_act(alloc, doc, command, value),
        None => act(alloc, doc, command, value),
    }
}

// Execute a command, step 4. The edits of a command that joins the last entry go there.
fn open(
    doc: &mut Doc,
    host: Option<NodeRef>,
    joining: bool,
    keeping: bool,
) -> Result<(), AllocError>
    requires closed { IsClosed doc.old }
    requires host_held { IfHeld doc.old host }
    requires joinable { joining ≡ true → IsJoinable doc.old.history }
    ensures opened { IfOk result (λ _. doc.new ≡ opened (label_of host) keeping joining doc.old) }
    ensures err { OnErr result (doc.new ≡ doc.old) }
{
    if joining {
        doc.resume(host, keeping)?;
        return Ok(());
    }
    doc.begin(host, keeping)
}

/// How many edits the entry has that those of a command join.
pub(crate) fn kept_edits(doc: &Doc, joining: bool) -> usize
    requires { IsClosed doc.now }
    ensures { result ≡ resumed_at joining doc.now.history.undo }
{
    if joining { doc.edits() } else { 0 }
}

/// Execute a command, steps 4 to 6: one command, from its begin to its end. It is taken back where
/// its action answers false, which is answered by None, and where it can't be taken.
pub(crate) fn run_command(
    alloc: Global,
    doc: &mut Doc,
    at: Option<Pair>,
    joining: bool,
    command: Command,
    value: &[char],
) -> Result<Option<Committed>, EditFault>
    requires closed { IsClosed doc.old }
    requires placed { IfSome at (IsPlacedPair doc.old.state.trees) }
    requires joinable { joining ≡ true → IsJoinable doc.old.history }
    ensures ran { Ran result doc.old doc.new (host_at at doc.old.state) joining
        (row_of command).keeping (run_at at (action_of command value.now)) }
    ensures told { TellsChange result doc.old doc.new joining }
{
    let host = host_at(doc, at);
    open(doc, host, joining, row_of(command).keeping)?;
    match act_at(alloc, doc, at, command, value) {
        Ok(true) => {
            doc.valid();
            doc.changes_lead_so_far();
            Ok(Some(doc.commit()))
        }
        Ok(false) => {
            doc.valid();
            doc.roll_back();
            Ok(None)
        }
        Err(fault) => {
            doc.roll_back();
            Err(fault)
        }
    }
}
