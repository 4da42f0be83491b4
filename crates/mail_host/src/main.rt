//! mail_host: the smallest host of the editor. It opens a mail, formats a part of it, asks what a
//! toolbar would show, undoes, and prints the mail as HTML after each step.
//!
//! A real host gets its selection and its commands from its user; in this one they are written
//! down.
#![tactic(auto)]

ghost use Rattle.std.specs.Prelude.{IfSome};
ghost use Rattle.inline_value.specs.EditDoc.Whole.{HasNoLoose};

use edit_engine::{Answer, Editor, ExecFault, Reply, Turn, ViewKind};
use edit_io::{WriteSink, write_all};
use edit_model::arena::Arena;
use edit_model::element_names::QueryKind;
use page_read::read_page;
use script_read::{Path, Place};
use std::alloc::{AllocError, Global};
use std::process::ExitCode;

const MAIL: &[u8] = b"<div contenteditable=\"true\"><h1>Plan</h1><p>Call Ann &amp; Bob.</p></div>";

// No node of the page gets a label from here on.
const LABEL_CAP: u32 = 2_000_000;

// How many commands can be undone.
const UNDO_DEPTH: usize = 100;

static BUTTONS: [&str; 3] = ["bold", "justifyCenter", "insertUnorderedList"];

// None where the page is refused.
fn page_nodes(alloc: Global, page: &[u8]) -> Option<Arena>
    ensures { IfSome result HasNoLoose }
{
    read_page(alloc, page, LABEL_CAP).ok()
}

fn open(alloc: Global, page: &[u8]) -> Option<Editor> {
    let arena = page_nodes(alloc, page)?;
    Editor::new(alloc, arena, UNDO_DEPTH).ok()
}

fn place_in(alloc: Global, text: &[u32], offset: u32) -> Result<Place, AllocError> {
    let path = Path::from_slice(alloc, text)?;
    Ok(Place { path, offset })
}

// Selects the name: the characters 5 to 8 of the paragraph's text. False where the mail has no such
// place.
fn select_name(alloc: Global, editor: &mut Editor) -> Result<bool, AllocError> {
    let anchor = place_in(alloc, &[0, 1, 0], 5)?;
    let focus = place_in(alloc, &[0, 1, 0], 8)?;
    Ok(editor.select(&anchor, &focus).is_ok())
}

// What a host tells its user of a command.
fn told(answer: Result<Answer, ExecFault>) -> &'static [u8] {
    match answer {
        Ok(Answer::Yes) => b"done\n",
        Ok(Answer::No) => b"not possible here\n",
        Err(ExecFault::Full) => b"the page is full\n",
        Err(ExecFault::Deep) => b"the page is too deep\n",
        Err(ExecFault::Memory) => b"out of memory\n",
    }
}

fn is_on(alloc: Global, editor: &Editor, button: &str) -> Result<bool, AllocError> {
    match editor.query(alloc, QueryKind::State, button)? {
        Reply::Flag(on) => Ok(on),
        Reply::Wording(_) => Ok(false),
    }
}

// Writes the mail and the toolbar, where the buttons that are on stand in brackets.
fn show(alloc: Global, editor: &Editor, screen: &mut Vec<u8>) -> Result<(), AllocError> {
    let Ok(html) = editor.view(alloc, &ViewKind::Html) else {
        return Err(AllocError);
    };
    screen.extend_from_slice(&html)?;
    screen.extend_from_slice(b"toolbar:")?;
    for button in BUTTONS {
        let word = match is_on(alloc, editor, button)? {
            true => format!(in alloc; " [{button}]")?,
            false => format!(in alloc; " {button}")?,
        };
        screen.extend_from_slice(word.as_bytes())?;
    }
    screen.push(b'\n')?;
    Ok(())
}

fn edit(alloc: Global, editor: &mut Editor, screen: &mut Vec<u8>) -> Result<(), AllocError> {
    show(alloc, editor, screen)?;
    if !select_name(alloc, editor)? {
        return Ok(());
    }
    screen.extend_from_slice(told(editor.exec(alloc, "bold", &[])))?;
    show(alloc, editor, screen)?;
    // one step of undo with the command before
    screen.extend_from_slice(told(editor.exec_joined(alloc, "insertUnorderedList", &[])))?;
    show(alloc, editor, screen)?;
    screen.extend_from_slice(told(editor.exec(alloc, "createLink", &[])))?;
    editor.turn(Turn::Undo);
    show(alloc, editor, screen)
}

fn main(rt: HostRuntime) -> ExitCode {
    let mut screen = Vec::new(rt.alloc());
    let Some(mut editor) = open(rt.alloc(), MAIL) else {
        return ExitCode::from(6);
    };
    if edit(rt.alloc(), &mut editor, &mut screen).is_err() {
        return ExitCode::from(5);
    }
    match write_all(&mut WriteSink::new(rt.stdout()), &screen) {
        Ok(()) => ExitCode::from(0),
        Err(_) => ExitCode::from(4),
    }
}
