//! An editor that C holds by a handle.
//!
//! C may pass what it likes, so no export requires anything but what its types say: an argument
//! without a meaning has a status of its own, and so has a handle without an editor.

ghost use Rattle.std.specs.Prelude.{◌≡◌, nat_lt, length, None, Some, IfSome, true, false};
ghost use Rattle.std.specs.Option.{option_map};
ghost use Rattle.std.specs.Str.{chars};
ghost use Rattle.edit_engine.specs.Editing.{undone, redone};
ghost use Rattle.edit_engine.specs.Following.{after_undo, after_redo};
ghost use Rattle.edit_engine.specs.Places.{pair_from, unselecting};
ghost use Rattle.edit_engine.specs.Promises.{ExecPromises};
ghost use Rattle.edit_model.specs.HtmlNames.Commands.{command_named};
ghost use Rattle.edit_model.specs.HtmlNames.declared.commands.Command.TheVariants.{InsertText};
ghost use Rattle.hedit_c.specs.Calls.{editing_of, Leaves, Asks, Answers, Opens, ExecTells, GatedTells, QueryTells, ViewTells, SelectTells, SelectPointsTell, MarkTells, UnmarkTells, ReplaceTells, WithTells, is_done, is_set, pair_there, pair_of_points, place, point, range_of, taken_status, unselect_status};
ghost use Rattle.hedit_c.specs.Following.{Between, StaysFollowed, BeginsFollowing, KeepsFollowing, ChangesTell, KeptTells, RevisionTells};
ghost use Rattle.hedit_c.specs.Nodes.{SelectionTells, MarkNameTells, MarkRangeTells, NumbersTell};
ghost use Rattle.hedit_c.specs.Statuses.{number_of};
ghost use Rattle.hedit_c.specs.Subtrees.{SelectedTells, html_selected, text_selected};

mod acts;
mod answers;
mod following;
pub(crate) mod handle;
pub(crate) mod nodes;
mod opening;
mod raw_box;
pub(crate) mod status;
pub(crate) mod subtrees;
mod texts;

use acts::{
    CommandOptions, exec, exec_gated, exec_with, mark, mark_points, redo, replace, select,
    select_points, undo, unmark,
};
use answers::{query, view};
use following::{changes, is_kept, revision};
use handle::Handle;
use inline_value::doc::Point;
use nodes::{NumberFacts, SelectionFacts, mark_name, mark_range, numbers, selection};
use opening::{Refusal, open};
use status::Status;
use std::alloc::Global;
use subtrees::{selection_html, selection_text};

/// Opens a page, and closes the editor that the handle had before.
///
/// No node gets a label from `label_cap` on, and `undo_depth` commands can be undone. Neither may
/// be 0. If the page is refused, `refusal` has the position and the kind of the error.
#[unsafe(no_mangle)]
pub extern "C" fn hedit_open(
    alloc: Global,
    editor: &mut Handle,
    page: &[u8],
    label_cap: u32,
    undo_depth: usize,
    refusal: &mut Refusal,
) -> u32
    ensures opens { Opens result (editing_of editor.new.value) refusal.new page.now label_cap
        undo_depth }
    ensures begins { IfSome editor.new.value BeginsFollowing }
{
    *editor = Handle::closed(alloc);
    match open(alloc, page, label_cap, undo_depth, refusal) {
        Ok(opened) => {
            editor.put(opened);
            Status::Done.number()
        }
        Err(status) => status.number(),
    }
}

/// Closes the editor and frees its memory. A closed handle stays closed.
#[unsafe(no_mangle)]
pub extern "C" fn hedit_close(alloc: Global, editor: &mut Handle)
    ensures { editor.new.value ≡ None }
{
    *editor = Handle::closed(alloc);
}

/// Executes a command by its name, in any case, with a value in UTF-8.
#[unsafe(no_mangle)]
pub extern "C" fn hedit_exec(alloc: Global, editor: &mut Handle, name: &[u8], value: &[u8]) -> u32
    ensures told { Leaves result (editing_of editor.old.value) (editing_of editor.new.value)
        (λ status old new. ExecTells false status old new name.now value.now) }
    ensures promises { Leaves result editor.old.value editor.new.value
        (λ status old new. ExecPromises (is_done status) None false (command_named name.now)
        (chars value.now) old new) }
{
    let Some(mut held) = editor.take(alloc) else {
        return Status::Closed.number();
    };
    let status = exec(alloc, &mut held, false, name, value);
    editor.put(held);
    status.number()
}

/// Executes a command like `hedit_exec`, but adds its edits to the previous undo step, if a command
/// made or extended that step and nothing has intervened.
#[unsafe(no_mangle)]
pub extern "C" fn hedit_exec_joined(
    alloc: Global,
    editor: &mut Handle,
    name: &[u8],
    value: &[u8],
) -> u32
    ensures told { Leaves result (editing_of editor.old.value) (editing_of editor.new.value)
        (λ status old new. ExecTells true status old new name.now value.now) }
    ensures promises { Leaves result editor.old.value editor.new.value
        (λ status old new. ExecPromises (is_done status) None true (command_named name.now)
        (chars value.now) old new) }
{
    let Some(mut held) = editor.take(alloc) else {
        return Status::Closed.number();
    };
    let status = exec(alloc, &mut held, true, name, value);
    editor.put(held);
    status.number()
}

/// Replaces the range between two points by a text in UTF-8, as one command, which continues a run
/// of typing. A point is the label of a node and an offset in it.
#[unsafe(no_mangle)]
pub extern "C" fn hedit_replace(
    alloc: Global,
    editor: &mut Handle,
    anchor: u32,
    anchor_offset: u32,
    focus: u32,
    focus_offset: u32,
    text: &[u8],
) -> u32
    ensures told { Leaves result (editing_of editor.old.value) (editing_of editor.new.value)
        (λ status old new. ReplaceTells status old new (pair_of_points old
        (point anchor anchor_offset) (point focus focus_offset)) text.now) }
    ensures promises { Leaves result editor.old.value editor.new.value
        (λ status old new. ExecPromises (is_done status)
        (Some (pair_from (point anchor anchor_offset) (point focus focus_offset))) false
        (Some InsertText) (chars text.now) old new) }
{
    let Some(mut held) = editor.take(alloc) else {
        return Status::Closed.number();
    };
    let status = replace(
        alloc,
        &mut held,
        point(anchor, anchor_offset),
        point(focus, focus_offset),
        text,
    );
    editor.put(held);
    status.number()
}

/// Executes a command like `hedit_exec`, unless its name is denied. The denied names are 1 to 16
/// different names, separated by commas, in any case, or none. Commands that a command executes
/// inside itself aren't checked.
#[unsafe(no_mangle)]
pub extern "C" fn hedit_exec_gated(
    alloc: Global,
    editor: &mut Handle,
    denied: &[u8],
    name: &[u8],
    value: &[u8],
) -> u32
    ensures told { Leaves result (editing_of editor.old.value) (editing_of editor.new.value)
        (λ status old new. GatedTells status old new denied.now name.now value.now) }
    ensures promises { Leaves result editor.old.value editor.new.value
        (λ status old new. ExecPromises (is_done status) None false (command_named name.now)
        (chars value.now) old new) }
{
    let Some(mut held) = editor.take(alloc) else {
        return Status::Closed.number();
    };
    let status = exec_gated(alloc, &mut held, denied, name, value);
    editor.put(held);
    status.number()
}

/// Executes a command like `hedit_exec_gated`, with options: on a range between two points, which
/// the command selects first, instead of the selection, and joined like `hedit_exec_joined` or not.
/// The calls above are cases of it. The selection is left where the command leaves it.
#[unsafe(no_mangle)]
pub extern "C" fn hedit_exec_with(
    alloc: Global,
    editor: &mut Handle,
    options: &CommandOptions,
    denied: &[u8],
    name: &[u8],
    value: &[u8],
) -> u32
    ensures told { Leaves result (editing_of editor.old.value) (editing_of editor.new.value)
        (λ status old new. WithTells status old new (range_of options.now)
        (is_set options.now.joined) denied.now name.now value.now) }
    ensures promises { Leaves result editor.old.value editor.new.value
        (λ status old new. ExecPromises (is_done status) (range_of options.now)
        (is_set options.now.joined) (command_named name.now) (chars value.now) old new) }
{
    let Some(mut held) = editor.take(alloc) else {
        return Status::Closed.number();
    };
    let status = exec_with(alloc, &mut held, options, denied, name, value);
    editor.put(held);
    status.number()
}

/// Undoes one step.
#[unsafe(no_mangle)]
pub extern "C" fn hedit_undo(alloc: Global, editor: &mut Handle) -> u32
    ensures status { result
        ≡ number_of (taken_status (editing_of editor.old.value) (λ e. e.history.undo)) }
    ensures undone { editing_of editor.new.value ≡ option_map undone (editing_of editor.old.value) }
    ensures followed { StaysFollowed editor.old.value editor.new.value }
    ensures following { Between editor.old.value editor.new.value
        (λ old new. new.following
        ≡ after_undo (nat_lt 0 (length old.editing.history.undo)) old.following) }
{
    let Some(mut held) = editor.take(alloc) else {
        return Status::Closed.number();
    };
    let taken = undo(&mut held);
    editor.put(held);
    Status::answer(taken).number()
}

/// Redoes one step.
#[unsafe(no_mangle)]
pub extern "C" fn hedit_redo(alloc: Global, editor: &mut Handle) -> u32
    ensures status { result
        ≡ number_of (taken_status (editing_of editor.old.value) (λ e. e.history.redo)) }
    ensures redone { editing_of editor.new.value ≡ option_map redone (editing_of editor.old.value) }
    ensures followed { StaysFollowed editor.old.value editor.new.value }
    ensures following { Between editor.old.value editor.new.value
        (λ old new. new.following
        ≡ after_redo (nat_lt 0 (length old.editing.history.redo)) old.following) }
{
    let Some(mut held) = editor.take(alloc) else {
        return Status::Closed.number();
    };
    let taken = redo(&mut held);
    editor.put(held);
    Status::answer(taken).number()
}

/// Selects from an anchor to a focus. Each is a path, the index of a child in each node from the
/// document down, and an offset, in characters of a text node or children of an element.
#[unsafe(no_mangle)]
pub extern "C" fn hedit_select(
    alloc: Global,
    editor: &mut Handle,
    anchor: &[u32],
    anchor_offset: u32,
    focus: &[u32],
    focus_offset: u32,
) -> u32
    ensures told { Leaves result (editing_of editor.old.value) (editing_of editor.new.value)
        (λ status old new. SelectTells status old new (pair_there old
        (place anchor.now anchor_offset) (place focus.now focus_offset))) }
    ensures following { Between editor.old.value editor.new.value KeepsFollowing }
{
    let Some(mut held) = editor.take(alloc) else {
        return Status::Closed.number();
    };
    let status = select(
        alloc,
        &mut held,
        (anchor, anchor_offset),
        (focus, focus_offset),
    );
    editor.put(held);
    status.number()
}

/// Selects from one point to another. A point is the label of a node and an offset in it. It takes
/// no memory.
#[unsafe(no_mangle)]
pub extern "C" fn hedit_select_points(
    alloc: Global,
    editor: &mut Handle,
    anchor: u32,
    anchor_offset: u32,
    focus: u32,
    focus_offset: u32,
) -> u32
    ensures told { Leaves result (editing_of editor.old.value) (editing_of editor.new.value)
        (λ status old new. SelectPointsTell status old new (pair_of_points old
        (point anchor anchor_offset) (point focus focus_offset))) }
    ensures following { Between editor.old.value editor.new.value KeepsFollowing }
{
    let Some(mut held) = editor.take(alloc) else {
        return Status::Closed.number();
    };
    let status = select_points(
        &mut held,
        point(anchor, anchor_offset),
        point(focus, focus_offset),
    );
    editor.put(held);
    status.number()
}

/// Removes the selection.
#[unsafe(no_mangle)]
pub extern "C" fn hedit_unselect(alloc: Global, editor: &mut Handle) -> u32
    ensures status { result ≡ number_of (unselect_status (editing_of editor.old.value)) }
    ensures unselected { editing_of editor.new.value
        ≡ option_map unselecting (editing_of editor.old.value) }
    ensures following { Between editor.old.value editor.new.value KeepsFollowing }
{
    let Some(mut held) = editor.take(alloc) else {
        return Status::Closed.number();
    };
    held.unselect();
    editor.put(held);
    Status::Done.number()
}

/// Sets the marker of a name from an anchor to a focus.
#[unsafe(no_mangle)]
pub extern "C" fn hedit_mark(
    alloc: Global,
    editor: &mut Handle,
    name: &[u8],
    anchor: &[u32],
    anchor_offset: u32,
    focus: &[u32],
    focus_offset: u32,
) -> u32
    ensures told { Leaves result (editing_of editor.old.value) (editing_of editor.new.value)
        (λ status old new. MarkTells status old new name.now (pair_there old
        (place anchor.now anchor_offset) (place focus.now focus_offset))) }
    ensures following { Between editor.old.value editor.new.value KeepsFollowing }
{
    let Some(mut held) = editor.take(alloc) else {
        return Status::Closed.number();
    };
    let status = mark(
        alloc,
        &mut held,
        name,
        (anchor, anchor_offset),
        (focus, focus_offset),
    );
    editor.put(held);
    status.number()
}

/// Sets the marker of a name from one point to another. A point is the label of a node and an
/// offset in it.
#[unsafe(no_mangle)]
pub extern "C" fn hedit_mark_points(
    alloc: Global,
    editor: &mut Handle,
    name: &[u8],
    anchor: u32,
    anchor_offset: u32,
    focus: u32,
    focus_offset: u32,
) -> u32
    ensures told { Leaves result (editing_of editor.old.value) (editing_of editor.new.value)
        (λ status old new. MarkTells status old new name.now (pair_of_points old
        (point anchor anchor_offset) (point focus focus_offset))) }
    ensures following { Between editor.old.value editor.new.value KeepsFollowing }
{
    let Some(mut held) = editor.take(alloc) else {
        return Status::Closed.number();
    };
    let status = mark_points(
        alloc,
        &mut held,
        name,
        point(anchor, anchor_offset),
        point(focus, focus_offset),
    );
    editor.put(held);
    status.number()
}

/// Removes the marker of a name.
#[unsafe(no_mangle)]
pub extern "C" fn hedit_unmark(alloc: Global, editor: &mut Handle, name: &[u8]) -> u32
    ensures told { Leaves result (editing_of editor.old.value) (editing_of editor.new.value)
        (λ status old new. UnmarkTells status old new name.now) }
    ensures following { Between editor.old.value editor.new.value KeepsFollowing }
{
    let Some(mut held) = editor.take(alloc) else {
        return Status::Closed.number();
    };
    let status = unmark(alloc, &mut held, name);
    editor.put(held);
    status.number()
}

/// Answers a query about the command of a name, in any case: 0 to 4 mean supported, enabled,
/// indeterm, state and value. The answer is a flag, or a text in the buffer.
#[unsafe(no_mangle)]
pub extern "C" fn hedit_query(
    alloc: Global,
    editor: &mut Handle,
    kind: u32,
    name: &[u8],
    flag: &mut u32,
    buffer: &mut [u8],
    length: &mut usize,
) -> u32
    ensures stays { editor.new.value ≡ editor.old.value }
    ensures told { Asks result (editing_of editor.old.value) buffer.old buffer.new
        (λ status e. QueryTells status e kind name.now flag.new buffer.old buffer.new length.new) }
{
    let Some(held) = editor.take(alloc) else {
        return Status::Closed.number();
    };
    let status = query(alloc, &held, kind, name, flag, buffer, length);
    editor.put(held);
    status.number()
}

/// Writes a view of the editor into the buffer: 0 to 3 mean its HTML, a line for each node, the
/// selection and the markers, and its counts.
#[unsafe(no_mangle)]
pub extern "C" fn hedit_view(
    alloc: Global,
    editor: &mut Handle,
    kind: u32,
    buffer: &mut [u8],
    length: &mut usize,
) -> u32
    ensures stays { editor.new.value ≡ editor.old.value }
    ensures told { Asks result (editing_of editor.old.value) buffer.old buffer.new
        (λ status e. ViewTells status e kind buffer.old buffer.new length.new) }
{
    let Some(held) = editor.take(alloc) else {
        return Status::Closed.number();
    };
    let status = view(alloc, &held, kind, buffer, length);
    editor.put(held);
    status.number()
}

/// Returns how many calls, like `hedit_exec` and `hedit_undo`, have changed the document.
#[unsafe(no_mangle)]
pub extern "C" fn hedit_revision(alloc: Global, editor: &mut Handle, number: &mut u64) -> u32
    ensures stays { editor.new.value ≡ editor.old.value }
    ensures told { Asks result editor.old.value number.old number.new
        (λ status v. RevisionTells status v number.new) }
{
    let Some(held) = editor.take(alloc) else {
        return Status::Closed.number();
    };
    let status = revision(&held, number);
    editor.put(held);
    status.number()
}

/// Writes the changes of the last call that changed something into the buffer, packed, by the
/// labels of nodes.
#[unsafe(no_mangle)]
pub extern "C" fn hedit_changes(
    alloc: Global,
    editor: &mut Handle,
    buffer: &mut [u8],
    length: &mut usize,
) -> u32
    ensures stays { editor.new.value ≡ editor.old.value }
    ensures told { Asks result editor.old.value buffer.old buffer.new
        (λ status v. ChangesTell status v buffer.old buffer.new length.new) }
{
    let Some(mut held) = editor.take(alloc) else {
        return Status::Closed.number();
    };
    let status = changes(alloc, &mut held, buffer, length);
    editor.put(held);
    status.number()
}

/// Answers whether the node of a label is in the document, or is kept for undo and redo. If the
/// answer is false, no later call restores a node of that label.
#[unsafe(no_mangle)]
pub extern "C" fn hedit_is_kept(alloc: Global, editor: &mut Handle, label: u32) -> u32
    ensures stays { editor.new.value ≡ editor.old.value }
    ensures told { Answers result editor.old.value (λ status v. KeptTells status v label) }
{
    let Some(held) = editor.take(alloc) else {
        return Status::Closed.number();
    };
    let status = is_kept(&held, label);
    editor.put(held);
    status.number()
}

/// Returns the points of the selection. The answer is false if nothing is selected.
#[unsafe(no_mangle)]
pub extern "C" fn hedit_selection(
    alloc: Global,
    editor: &mut Handle,
    facts: &mut SelectionFacts,
) -> u32
    ensures stays { editor.new.value ≡ editor.old.value }
    ensures told { Asks result (editing_of editor.old.value) facts.old facts.new
        (λ status e. SelectionTells status e facts.old facts.new) }
{
    let Some(held) = editor.take(alloc) else {
        return Status::Closed.number();
    };
    let status = selection(&held, facts);
    editor.put(held);
    status.number()
}

/// Writes the name of a marker into the buffer, by its index in the list of markers. The answer is
/// false if there are no more.
#[unsafe(no_mangle)]
pub extern "C" fn hedit_mark_name(
    alloc: Global,
    editor: &mut Handle,
    place: usize,
    buffer: &mut [u8],
    length: &mut usize,
) -> u32
    ensures stays { editor.new.value ≡ editor.old.value }
    ensures told { Asks result (editing_of editor.old.value) buffer.old buffer.new
        (λ status e. MarkNameTells status e place buffer.old buffer.new length.new) }
{
    let Some(held) = editor.take(alloc) else {
        return Status::Closed.number();
    };
    let status = mark_name(&held, place, buffer, length);
    editor.put(held);
    status.number()
}

/// Returns the points of a marker, by its index in the list of markers. The answer is false if
/// there are no more.
#[unsafe(no_mangle)]
pub extern "C" fn hedit_mark_range(
    alloc: Global,
    editor: &mut Handle,
    place: usize,
    facts: &mut SelectionFacts,
) -> u32
    ensures stays { editor.new.value ≡ editor.old.value }
    ensures told { Asks result (editing_of editor.old.value) facts.old facts.new
        (λ status e. MarkRangeTells status e place facts.old facts.new) }
{
    let Some(held) = editor.take(alloc) else {
        return Status::Closed.number();
    };
    let status = mark_range(&held, place, facts);
    editor.put(held);
    status.number()
}

/// Writes the selection as HTML into the buffer. The answer is false if nothing is selected.
#[unsafe(no_mangle)]
pub extern "C" fn hedit_selection_html(
    alloc: Global,
    editor: &mut Handle,
    buffer: &mut [u8],
    length: &mut usize,
) -> u32
    ensures stays { editor.new.value ≡ editor.old.value }
    ensures told { Asks result (editing_of editor.old.value) buffer.old buffer.new
        (λ status e. SelectedTells html_selected status e buffer.old buffer.new length.new) }
{
    let Some(held) = editor.take(alloc) else {
        return Status::Closed.number();
    };
    let status = selection_html(alloc, &held, buffer, length);
    editor.put(held);
    status.number()
}

/// Writes the selection as plain text into the buffer. The answer is false if nothing is selected.
#[unsafe(no_mangle)]
pub extern "C" fn hedit_selection_text(
    alloc: Global,
    editor: &mut Handle,
    buffer: &mut [u8],
    length: &mut usize,
) -> u32
    ensures stays { editor.new.value ≡ editor.old.value }
    ensures told { Asks result (editing_of editor.old.value) buffer.old buffer.new
        (λ status e. SelectedTells text_selected status e buffer.old buffer.new length.new) }
{
    let Some(held) = editor.take(alloc) else {
        return Status::Closed.number();
    };
    let status = selection_text(alloc, &held, buffer, length);
    editor.put(held);
    status.number()
}

/// Returns the counts of the document and of its history.
#[unsafe(no_mangle)]
pub extern "C" fn hedit_numbers(alloc: Global, editor: &mut Handle, facts: &mut NumberFacts) -> u32
    ensures stays { editor.new.value ≡ editor.old.value }
    ensures told { Asks result (editing_of editor.old.value) facts.old facts.new
        (λ status e. NumbersTell status e facts.new) }
{
    let Some(held) = editor.take(alloc) else {
        return Status::Closed.number();
    };
    let status = numbers(&held, facts);
    editor.put(held);
    status.number()
}

fn point(label: u32, offset: u32) -> Point
    ensures { result ≡ point label offset }
{
    Point { label, offset }
}

/// Returns the version of the library: a byte each for the major, the minor and the patch number.
#[unsafe(no_mangle)]
pub extern "C" fn hedit_version() -> u32
    ensures { result ≡ 2304 }
{
    0x00_09_00
}
