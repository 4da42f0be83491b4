//! The replies to the lines of a session.

ghost use Rattle.std.specs.Prelude.{◌≡◌, ◌&&◌, min, length, codes, IfOk, OnOk, string_bytes, true};
ghost use Rattle.script_read.specs.Acts.{is_name};
ghost use Rattle.script_read.specs.Reading.{line_of};
ghost use Rattle.edit_engine.specs.Editing.{turned_times};
ghost use Rattle.edit_engine.specs.Execution.{gated_outcome};
ghost use Rattle.edit_engine.specs.Places.{pair_at};
ghost use Rattle.edit_engine.specs.Queries.{reply_of};
ghost use Rattle.edit_engine.specs.Turning.{entries_of, turned_by};
ghost use Rattle.edit_engine.specs.Views.{view_text};
ghost use Rattle.edit_session.specs.Replies.{truth, select_reply, mark_reply, exec_reply, query_text, taken, undo_reply, redo_reply, log_reply, shown, act_reply, read_reply, line_reply, IsNamed};

use command_gate::{Gate, NameList};
use edit_engine::{
    Answer, Editor, ExecFault, LogFault, PlaceFault, Reply, Turn, ViewFault, ViewKind,
};
use edit_model::dom::{Chars, Name};
use edit_model::element_names::QueryKind;
use script_read::{Act, LineFault, Place, read_line};
use std::alloc::{AllocError, Global};
use step_text::escapes::push_escaped;

fn truth(flag: bool) -> &'static [u8]
    ensures { result.now ≡ truth flag }
{
    if flag { b"true\n" } else { b"false\n" }
}

fn select(editor: &mut Editor, anchor: &Place, focus: &Place) -> &'static [u8]
    ensures text { result.now ≡ (select_reply editor.old.editing
        (pair_at editor.old.editing.state.trees anchor.now focus.now)).text }
    ensures after { editor.new.editing ≡ (select_reply editor.old.editing
        (pair_at editor.old.editing.state.trees anchor.now focus.now)).after }
{
    match editor.select(anchor, focus) {
        Ok(()) => b"ok\n",
        Err(_) => b"! 4 bad place\n",
    }
}

fn mark(
    editor: &mut Editor,
    name: &Name,
    anchor: &Place,
    focus: &Place,
) -> Result<&'static [u8], AllocError>
    ensures text { IfOk result (λ text. text.now ≡ (mark_reply editor.old.editing name.now
        (pair_at editor.old.editing.state.trees anchor.now focus.now)).text) }
    ensures after { OnOk result (editor.new.editing ≡ (mark_reply editor.old.editing name.now
        (pair_at editor.old.editing.state.trees anchor.now focus.now)).after) }
{
    match editor.mark(name, anchor, focus) {
        Ok(()) => Ok(b"ok\n"),
        Err(PlaceFault::BadPlace) => Ok(b"! 4 bad place\n"),
        Err(PlaceFault::TooManyMarks) => Ok(b"! 5 too many marks\n"),
        Err(PlaceFault::Memory) => Err(AllocError),
    }
}

// A name as text.
fn text_of(name: &Name) -> &str
    requires { is_name name.now ≡ true }
    ensures { result.now ≡ name.now }
{
    match std::str::from_utf8(name.as_slice()) {
        Ok(text) => text,
        Err(_) => unreachable!(),
    }
}

fn exec(
    alloc: Global,
    gate: &Gate<NameList>,
    editor: &mut Editor,
    name: &Name,
    value: &Chars,
) -> Result<&'static [u8], AllocError>
    requires { is_name name.now ≡ true }
    ensures text { IfOk result (λ text. text.now ≡ (exec_reply editor.old.editing
        (gated_outcome gate.now editor.old.editing name.now value.now)).text) }
    ensures after { OnOk result (editor.new.editing ≡ (exec_reply editor.old.editing
        (gated_outcome gate.now editor.old.editing name.now value.now)).after) }
{
    match editor.exec_gated(alloc, gate, text_of(name), value.as_slice()) {
        Ok(Answer::Yes) => Ok(b"true\n"),
        Ok(Answer::No) => Ok(b"false\n"),
        Err(ExecFault::Full) => Ok(b"! 6 full\n"),
        Err(ExecFault::Deep) => Ok(b"! 7 deep\n"),
        Err(ExecFault::Memory) => Err(AllocError),
    }
}

// `= ` and the escaped text.
fn wording(alloc: Global, text: &Chars) -> Result<Vec<u8>, AllocError>
    ensures { IfOk result (λ bytes. bytes.items ≡ query_text (Reply.Wording text.now)) }
{
    let mut bytes = b"= ".to_vec(alloc)?;
    push_escaped(&mut bytes, text.as_slice())?;
    bytes.push(b'\n')?;
    Ok(bytes)
}

fn query(
    alloc: Global,
    editor: &Editor,
    kind: QueryKind,
    name: &Name,
) -> Result<Vec<u8>, AllocError>
    requires { is_name name.now ≡ true }
    ensures { IfOk result (λ bytes. bytes.items
        ≡ query_text (reply_of editor.now.editing.state kind name.now)) }
{
    match editor.query(alloc, kind, text_of(name))? {
        Reply::Flag(flag) => truth(flag).to_vec(alloc),
        Reply::Wording(text) => wording(alloc, &text),
    }
}

// Undoes or redoes as many entries as are asked for and there.
fn turn_through(editor: &mut Editor, turn: Turn, count: u32) -> u32
    ensures count { result ≡ min count (length (entries_of turn editor.old.editing.history)) }
    ensures after { editor.new.editing ≡ turned_times
        (min count (length (entries_of turn editor.old.editing.history)))
        (turned_by turn) editor.old.editing }
{
    let mut taken = 0;
    while taken < count && editor.turn(turn) {
        taken += 1;
    }
    taken
}

fn undo_text(alloc: Global, count: u32) -> Result<String, AllocError>
    ensures { IfOk result (λ text. string_bytes text ≡ taken (codes "undo ") count) }
{
    format!(in alloc; "undo {count}\n")
}

fn redo_text(alloc: Global, count: u32) -> Result<String, AllocError>
    ensures { IfOk result (λ text. string_bytes text ≡ taken (codes "redo ") count) }
{
    format!(in alloc; "redo {count}\n")
}

#[tactic(auto, unfolding(crate::specs::Replies::undo_reply))]
fn answer_undo(alloc: Global, editor: &mut Editor, count: u32) -> Result<Vec<u8>, AllocError>
    ensures text { IfOk result (λ bytes. bytes.items ≡ (undo_reply editor.old.editing count).text) }
    ensures after { OnOk result (editor.new.editing ≡ (undo_reply editor.old.editing count).after) }
{
    let taken = turn_through(editor, Turn::Undo, count);
    Ok(undo_text(alloc, taken)?.into_bytes())
}

#[tactic(auto, unfolding(crate::specs::Replies::redo_reply))]
fn answer_redo(alloc: Global, editor: &mut Editor, count: u32) -> Result<Vec<u8>, AllocError>
    ensures text { IfOk result (λ bytes. bytes.items ≡ (redo_reply editor.old.editing count).text) }
    ensures after { OnOk result (editor.new.editing ≡ (redo_reply editor.old.editing count).after) }
{
    let taken = turn_through(editor, Turn::Redo, count);
    Ok(redo_text(alloc, taken)?.into_bytes())
}

fn view(alloc: Global, editor: &Editor, kind: &ViewKind) -> Result<Vec<u8>, AllocError>
    ensures { IfOk result (λ bytes. bytes.items ≡ shown (view_text editor.now.editing kind.now)) }
{
    match editor.view(alloc, kind) {
        Ok(text) => Ok(text),
        Err(ViewFault::BadPlace) => b"! 4 bad place\n".to_vec(alloc),
        Err(ViewFault::Memory) => Err(AllocError),
    }
}

#[tactic(auto, unfolding(crate::specs::Replies::log_reply))]
fn log(alloc: Global, editor: &mut Editor) -> Result<Vec<u8>, AllocError>
    ensures text { IfOk result (λ bytes. bytes.items ≡ log_reply editor.old.editing) }
    ensures after { editor.new ≡ editor.old }
{
    match editor.log(alloc) {
        Ok(text) => Ok(text),
        Err(LogFault::LogCut) => b"! 8 log cut\n".to_vec(alloc),
        Err(LogFault::Memory) => Err(AllocError),
    }
}

// Takes an act, and answers it.
fn take(
    alloc: Global,
    gate: &Gate<NameList>,
    editor: &mut Editor,
    act: Act,
) -> Result<Vec<u8>, AllocError>
    requires { IsNamed act }
    ensures text { IfOk result (λ bytes. bytes.items
        ≡ (act_reply gate.now editor.old.editing act).text) }
    ensures after { OnOk result (editor.new.editing
        ≡ (act_reply gate.now editor.old.editing act).after) }
{
    match act {
        Act::Select { anchor, focus } => select(editor, &anchor, &focus).to_vec(alloc),
        Act::Unselect => {
            editor.unselect();
            b"ok\n".to_vec(alloc)
        }
        Act::Mark {
            name,
            anchor,
            focus,
        } => mark(editor, &name, &anchor, &focus)?.to_vec(alloc),
        Act::Unmark { name } => truth(editor.unmark(&name)).to_vec(alloc),
        Act::Exec { name, value } => exec(alloc, gate, editor, &name, &value)?.to_vec(alloc),
        Act::Query { kind, name } => query(alloc, editor, kind, &name),
        Act::Undo { count } => answer_undo(alloc, editor, count),
        Act::Redo { count } => answer_redo(alloc, editor, count),
        Act::Probe { path } => view(alloc, editor, &ViewKind::Probe { path }),
        Act::Html => view(alloc, editor, &ViewKind::Html),
        Act::Tree => view(alloc, editor, &ViewKind::Tree),
        Act::Points => view(alloc, editor, &ViewKind::Points),
        Act::Stat => view(alloc, editor, &ViewKind::Stat),
        Act::Log => log(alloc, editor),
    }
}

// Answers a line that may be an act.
fn answer_act(
    alloc: Global,
    gate: &Gate<NameList>,
    editor: &mut Editor,
    line: &[u8],
) -> Result<Vec<u8>, AllocError>
    ensures text { IfOk result (λ bytes. bytes.items
        ≡ (read_reply gate.now editor.old.editing (line_of line.now)).text) }
    ensures after { OnOk result (editor.new.editing
        ≡ (read_reply gate.now editor.old.editing (line_of line.now)).after) }
{
    match read_line(alloc, line) {
        Ok(act) => take(alloc, gate, editor, act),
        Err(LineFault::Syntax) => b"! 1 syntax\n".to_vec(alloc),
        Err(LineFault::UnknownAct) => b"! 2 unknown act\n".to_vec(alloc),
        Err(LineFault::LongLine) => b"! 3 long line\n".to_vec(alloc),
        Err(LineFault::Memory) => Err(AllocError),
    }
}

/// Answers a line of a session, in which a command that the gate denies is refused. An empty line
/// is no act, and has an empty reply.
#[tactic(auto, unfolding(crate::specs::Replies::line_reply))]
pub fn answer_line(
    alloc: Global,
    gate: &Gate<NameList>,
    editor: &mut Editor,
    line: &[u8],
) -> Result<Vec<u8>, AllocError>
    ensures text { IfOk result (λ bytes. bytes.items
        ≡ (line_reply gate.now editor.old.editing line.now).text) }
    ensures after { OnOk result (editor.new.editing
        ≡ (line_reply gate.now editor.old.editing line.now).after) }
{
    if line.is_empty() {
        return Ok(Vec::new(alloc));
    }
    answer_act(alloc, gate, editor, line)
}
