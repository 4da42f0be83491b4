//! Calls that change an editor.

ghost use Rattle.std.specs.Prelude.{◌≡◌, nat_lt, length, None, Some, false};
ghost use Rattle.edit_engine.specs.Changes.{CanFollow};
ghost use Rattle.edit_engine.specs.Editing.{Editing, undone, redone};
ghost use Rattle.edit_engine.specs.Execution.{Outcome, Tells, outcome_by, gated_outcome};
ghost use Rattle.edit_engine.specs.Following.{after_undo, after_redo};
ghost use Rattle.edit_engine.specs.Places.{pair_from};
ghost use Rattle.edit_engine.specs.Promises.{ExecPromises, is_yes};
ghost use Rattle.edit_model.specs.HtmlNames.Commands.{command_named};
ghost use Rattle.edit_model.specs.HtmlNames.declared.commands.Command.TheVariants.{InsertText};
ghost use Rattle.hedit_c.specs.Following.{KeepsFollowing};
ghost use Rattle.std.specs.Str.{chars};
ghost use Rattle.hedit_c.specs.Calls.{ExecAnswers, ExecTells, SelectPointsTell, answered_status, GatedTells, SelectTells, MarkTells, UnmarkTells, ReplaceAnswers, ReplaceTells, WithAnswers, WithTells, is_done, is_set, pair_there, pair_of_points, place, range_of, ranged_status, selected_status};

use super::status::Status;
use super::texts::place_of;
use command_gate::{Gate, NameList};
use edit_engine::{Answer, Editor, ExecFault, ExecOptions, PlaceFault, RangeFault, Turn};
use edit_model::dom::{Chars, Name};
use edit_session::read_gate;
use inline_value::doc::{Pair, Point};
use script_read::Place;
use std::alloc::Global;

/// How a command is executed, as C passes it. Each of the first two is no if it is 0.
#[repr(C)]
#[derive(Clone, Copy)]
pub struct CommandOptions {
    /// Whether the edits are added to the previous undo step.
    pub joined: u32,
    /// Whether the command works on the range between the two points, instead of the selection.
    pub ranged: u32,
    pub anchor: u32,
    pub anchor_offset: u32,
    pub focus: u32,
    pub focus_offset: u32,
}

fn range_of(options: &CommandOptions) -> Option<Pair>
    ensures { result ≡ range_of options.now }
{
    if options.ranged == 0 {
        return None;
    }
    Some(Pair {
        anchor: Point {
            label: options.anchor,
            offset: options.anchor_offset,
        },
        focus: Point {
            label: options.focus,
            offset: options.focus_offset,
        },
    })
}

// The status of a command's answer.
fn answered(answer: Result<Answer, ExecFault>) -> Status
    ensures status { result ≡ answered_status answer }
    ensures told { (old new : Editing) (o : Outcome) → Tells answer old new o
        → ExecAnswers result old new o }
    ensures done { is_done result ≡ is_yes answer }
{
    match answer {
        Ok(Answer::Yes) => Status::Done,
        Ok(Answer::No) => Status::No,
        Err(ExecFault::Full) => Status::Full,
        Err(ExecFault::Deep) => Status::Deep,
        Err(ExecFault::Memory) => Status::Memory,
    }
}

fn exec_chars(alloc: Global, editor: &mut Editor, joined: bool, name: &str, value: &Chars) -> Status
    ensures told { ExecAnswers result editor.old.editing editor.new.editing
        (outcome_by joined editor.old.editing name.now value.now) }
    ensures promises { ExecPromises (is_done result) None joined (command_named name.now) value.now
        editor.old editor.new }
{
    if joined {
        answered(editor.exec_joined(alloc, name, value.as_slice()))
    } else {
        answered(editor.exec(alloc, name, value.as_slice()))
    }
}

fn exec_text(alloc: Global, editor: &mut Editor, joined: bool, name: &str, value: &str) -> Status
    ensures told { ExecAnswers result editor.old.editing editor.new.editing
        (outcome_by joined editor.old.editing name.now (chars value.now)) }
    ensures promises { ExecPromises (is_done result) None joined (command_named name.now)
        (chars value.now) editor.old editor.new }
{
    match Chars::from_text(alloc, value) {
        Ok(value) => exec_chars(alloc, editor, joined, name, &value),
        Err(_) => {
            editor.promises_as_is();
            Status::Memory
        }
    }
}

/// Executes a command by its name and its value, both in UTF-8, as a joined one or not.
pub(crate) fn exec(
    alloc: Global,
    editor: &mut Editor,
    joined: bool,
    name: &[u8],
    value: &[u8],
) -> Status
    ensures told { ExecTells joined result editor.old.editing editor.new.editing name.now value.now }
    ensures promises { ExecPromises (is_done result) None joined (command_named name.now)
        (chars value.now) editor.old editor.new }
{
    match (str::from_utf8(name), str::from_utf8(value)) {
        (Ok(name), Ok(value)) => exec_text(alloc, editor, joined, name, value),
        _ => {
            editor.promises_as_is();
            Status::BadArgument
        }
    }
}

fn exec_past(
    alloc: Global,
    editor: &mut Editor,
    gate: &Gate<NameList>,
    name: &str,
    value: &str,
) -> Status
    ensures told { ExecAnswers result editor.old.editing editor.new.editing
        (gated_outcome gate.now editor.old.editing name.now (chars value.now)) }
    ensures promises { ExecPromises (is_done result) None false (command_named name.now)
        (chars value.now) editor.old editor.new }
{
    match Chars::from_text(alloc, value) {
        Ok(value) => answered(editor.exec_gated(alloc, gate, name, value.as_slice())),
        Err(_) => {
            editor.promises_as_is();
            Status::Memory
        }
    }
}

/// Executes a command by its name and its value, both in UTF-8, unless its name is denied.
pub(crate) fn exec_gated(
    alloc: Global,
    editor: &mut Editor,
    denied: &[u8],
    name: &[u8],
    value: &[u8],
) -> Status
    ensures told { GatedTells result editor.old.editing editor.new.editing denied.now name.now value.now }
    ensures promises { ExecPromises (is_done result) None false (command_named name.now)
        (chars value.now) editor.old editor.new }
{
    editor.promises_as_is();
    let (Ok(name), Ok(value)) = (str::from_utf8(name), str::from_utf8(value)) else {
        return Status::BadArgument;
    };
    match read_gate(alloc, denied) {
        Ok(Some(gate)) => exec_past(alloc, editor, &gate, name, value),
        Ok(None) => Status::BadArgument,
        Err(_) => Status::Memory,
    }
}

// The status of the answer of a call that may be told a range.
fn ranged(answer: Result<Answer, RangeFault>) -> Status
    ensures status { result ≡ ranged_status answer }
    ensures done { is_done result ≡ is_yes answer }
{
    match answer {
        Ok(answer) => match answer {
            Answer::Yes => Status::Done,
            Answer::No => Status::No,
        },
        Err(RangeFault::BadPlace) => Status::BadPlace,
        Err(RangeFault::Full) => Status::Full,
        Err(RangeFault::Deep) => Status::Deep,
        Err(RangeFault::Memory) => Status::Memory,
    }
}

fn exec_with_chars(
    alloc: Global,
    editor: &mut Editor,
    gate: &Gate<NameList>,
    options: ExecOptions,
    name: &str,
    value: &Chars,
) -> Status
    ensures told { WithAnswers result editor.old.editing editor.new.editing gate.now options.range
        options.joined name.now value.now }
    ensures promises { ExecPromises (is_done result) options.range options.joined
        (command_named name.now) value.now editor.old editor.new }
{
    ranged(editor.exec_with(alloc, gate, options, name, value.as_slice()))
}

fn exec_with_text(
    alloc: Global,
    editor: &mut Editor,
    gate: &Gate<NameList>,
    options: ExecOptions,
    name: &str,
    value: &str,
) -> Status
    ensures told { WithAnswers result editor.old.editing editor.new.editing gate.now options.range
        options.joined name.now (chars value.now) }
    ensures promises { ExecPromises (is_done result) options.range options.joined
        (command_named name.now) (chars value.now) editor.old editor.new }
{
    match Chars::from_text(alloc, value) {
        Ok(value) => exec_with_chars(alloc, editor, gate, options, name, &value),
        Err(_) => {
            editor.promises_as_is();
            Status::Memory
        }
    }
}

/// Executes a command by its name and its value, both in UTF-8, unless its name is denied: as the
/// options say, on a range or at the selection, as a joined one or not.
pub(crate) fn exec_with(
    alloc: Global,
    editor: &mut Editor,
    options: &CommandOptions,
    denied: &[u8],
    name: &[u8],
    value: &[u8],
) -> Status
    ensures told { WithTells result editor.old.editing editor.new.editing (range_of options.now)
        (is_set options.now.joined) denied.now name.now value.now }
    ensures promises { ExecPromises (is_done result) (range_of options.now)
        (is_set options.now.joined) (command_named name.now) (chars value.now)
        editor.old editor.new }
{
    editor.promises_as_is();
    let (Ok(name), Ok(value)) = (str::from_utf8(name), str::from_utf8(value)) else {
        return Status::BadArgument;
    };
    let options = ExecOptions {
        range: range_of(options),
        joined: options.joined != 0,
    };
    match read_gate(alloc, denied) {
        Ok(Some(gate)) => exec_with_text(alloc, editor, &gate, options, name, value),
        Ok(None) => Status::BadArgument,
        Err(_) => Status::Memory,
    }
}

fn replace_chars(
    alloc: Global,
    editor: &mut Editor,
    anchor: Point,
    focus: Point,
    text: &Chars,
) -> Status
    ensures told { ReplaceAnswers result editor.old.editing editor.new.editing
        (pair_of_points editor.old.editing anchor focus) text.now }
    ensures promises { ExecPromises (is_done result) (Some (pair_from anchor focus)) false
        (Some InsertText) text.now editor.old editor.new }
{
    ranged(editor.replace(alloc, anchor, focus, text.as_slice()))
}

fn replace_text(
    alloc: Global,
    editor: &mut Editor,
    anchor: Point,
    focus: Point,
    text: &str,
) -> Status
    ensures told { ReplaceAnswers result editor.old.editing editor.new.editing
        (pair_of_points editor.old.editing anchor focus) (chars text.now) }
    ensures promises { ExecPromises (is_done result) (Some (pair_from anchor focus)) false
        (Some InsertText) (chars text.now) editor.old editor.new }
{
    match Chars::from_text(alloc, text) {
        Ok(text) => replace_chars(alloc, editor, anchor, focus, &text),
        Err(_) => {
            editor.promises_as_is();
            Status::Memory
        }
    }
}

/// Puts a text in UTF-8 in place of what stands between two points.
pub(crate) fn replace(
    alloc: Global,
    editor: &mut Editor,
    anchor: Point,
    focus: Point,
    text: &[u8],
) -> Status
    ensures told { ReplaceTells result editor.old.editing editor.new.editing
        (pair_of_points editor.old.editing anchor focus) text.now }
    ensures promises { ExecPromises (is_done result) (Some (pair_from anchor focus)) false
        (Some InsertText) (chars text.now) editor.old editor.new }
{
    match str::from_utf8(text) {
        Ok(text) => replace_text(alloc, editor, anchor, focus, text),
        Err(_) => {
            editor.promises_as_is();
            Status::BadArgument
        }
    }
}

/// Takes one entry back. Nothing is counted as it runs.
pub(crate) fn undo(editor: &mut Editor) -> bool
    ensures answer { result ≡ nat_lt 0 (length editor.old.editing.history.undo) }
    ensures undone { editor.new.editing ≡ undone editor.old.editing }
    ensures followed { CanFollow editor.old editor.new }
    ensures told { editor.new.following ≡ after_undo result editor.old.following }
{
    editor.turn(Turn::Undo)
}

/// Takes one entry forth again. Nothing is counted as it runs.
pub(crate) fn redo(editor: &mut Editor) -> bool
    ensures answer { result ≡ nat_lt 0 (length editor.old.editing.history.redo) }
    ensures redone { editor.new.editing ≡ redone editor.old.editing }
    ensures followed { CanFollow editor.old editor.new }
    ensures told { editor.new.following ≡ after_redo result editor.old.following }
{
    editor.turn(Turn::Redo)
}

// The status of a selecting call.
fn selected(answer: Result<(), PlaceFault>) -> Status
    ensures { result ≡ selected_status answer }
{
    match answer {
        Ok(()) => Status::Done,
        Err(PlaceFault::BadPlace) => Status::BadPlace,
        Err(PlaceFault::TooManyMarks) => Status::TooManyMarks,
        Err(PlaceFault::Memory) => Status::Memory,
    }
}

// Selects from one place to another.
fn select_places(editor: &mut Editor, anchor: &Place, focus: &Place) -> Status
    ensures told { SelectTells result editor.old.editing editor.new.editing
        (pair_there editor.old.editing anchor.now focus.now) }
    ensures following { KeepsFollowing editor.old editor.new }
{
    selected(editor.select(anchor, focus))
}

// Gives a name to what is between two places.
fn mark_places(editor: &mut Editor, name: &Name, anchor: &Place, focus: &Place) -> Status
    ensures told { MarkTells result editor.old.editing editor.new.editing name.now
        (pair_there editor.old.editing anchor.now focus.now) }
    ensures following { KeepsFollowing editor.old editor.new }
{
    selected(editor.mark(name, anchor, focus))
}

/// Selects from one place to another.
pub(crate) fn select(
    alloc: Global,
    editor: &mut Editor,
    anchor: (&[u32], u32),
    focus: (&[u32], u32),
) -> Status
    ensures told { SelectTells result editor.old.editing editor.new.editing
        (pair_there editor.old.editing (place anchor.entry.0.now anchor.entry.1)
        (place focus.entry.0.now focus.entry.1)) }
    ensures following { KeepsFollowing editor.old editor.new }
{
    let Ok(anchor) = place_of(alloc, anchor.0, anchor.1) else {
        return Status::Memory;
    };
    let Ok(focus) = place_of(alloc, focus.0, focus.1) else {
        return Status::Memory;
    };
    select_places(editor, &anchor, &focus)
}

/// Selects from one point to another.
pub(crate) fn select_points(editor: &mut Editor, anchor: Point, focus: Point) -> Status
    ensures told { SelectPointsTell result editor.old.editing editor.new.editing
        (pair_of_points editor.old.editing anchor focus) }
    ensures following { KeepsFollowing editor.old editor.new }
{
    selected(editor.select_points(anchor, focus))
}

/// Gives a name to what is between two places.
pub(crate) fn mark(
    alloc: Global,
    editor: &mut Editor,
    name: &[u8],
    anchor: (&[u32], u32),
    focus: (&[u32], u32),
) -> Status
    ensures told { MarkTells result editor.old.editing editor.new.editing name.now
        (pair_there editor.old.editing (place anchor.entry.0.now anchor.entry.1)
        (place focus.entry.0.now focus.entry.1)) }
    ensures following { KeepsFollowing editor.old editor.new }
{
    let Ok(name) = Name::from_slice(alloc, name) else {
        return Status::Memory;
    };
    let Ok(anchor) = place_of(alloc, anchor.0, anchor.1) else {
        return Status::Memory;
    };
    let Ok(focus) = place_of(alloc, focus.0, focus.1) else {
        return Status::Memory;
    };
    mark_places(editor, &name, &anchor, &focus)
}

/// Gives a name to what is between two points.
pub(crate) fn mark_points(
    alloc: Global,
    editor: &mut Editor,
    name: &[u8],
    anchor: Point,
    focus: Point,
) -> Status
    ensures told { MarkTells result editor.old.editing editor.new.editing name.now
        (pair_of_points editor.old.editing anchor focus) }
    ensures following { KeepsFollowing editor.old editor.new }
{
    match Name::from_slice(alloc, name) {
        Ok(name) => selected(editor.mark_points(&name, anchor, focus)),
        Err(_) => Status::Memory,
    }
}

/// Takes the mark of a name out.
pub(crate) fn unmark(alloc: Global, editor: &mut Editor, name: &[u8]) -> Status
    ensures told { UnmarkTells result editor.old.editing editor.new.editing name.now }
    ensures following { KeepsFollowing editor.old editor.new }
{
    match Name::from_slice(alloc, name) {
        Ok(name) => Status::answer(editor.unmark(&name)),
        Err(_) => Status::Memory,
    }
}
