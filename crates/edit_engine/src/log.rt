//! The entries of a history as lines of steps.

ghost use Rattle.std.specs.Prelude.{◌≡◌, ◌++◌, map, IfOk, OnOk};
ghost use Rattle.std.specs.List.{flat_map};
ghost use Rattle.edit_engine.specs.Logs.{made_steps, edit_step, entry_steps, step_line, step_lines};

use edit_model::dom::Content;
use inline_value::doc::{LoggedEdit, LoggedEntry, MadeNode};
use std::alloc::{AllocError, Global};
use step_text::{Made, StepLine, push_step};

fn push_line(bytes: &mut Vec<u8>, step: &StepLine) -> Result<(), AllocError>
    ensures { OnOk result (bytes.new.items ≡ bytes.old.items ++ step_line step.now) }
{
    push_step(bytes, step)?;
    bytes.push(b'\n')?;
    Ok(())
}

#[tactic(auto, unfolding(crate::specs::Logs::step_lines))]
fn push_made(bytes: &mut Vec<u8>, node: MadeNode) -> Result<(), AllocError>
    ensures { OnOk result (bytes.new.items ≡ bytes.old.items ++ step_lines (made_steps node)) }
{
    let label = node.label;
    let made = match node.content {
        Content::Element { name, attributes } => Made::Element { name, attributes },
        Content::Words(words) => Made::Words { words },
        Content::Document | Content::Remark(_) => return Ok(()),
    };
    push_line(bytes, &StepLine::Make { label, made })
}

fn step_of(edit: LoggedEdit) -> StepLine
    ensures { result ≡ edit_step edit }
{
    match edit {
        LoggedEdit::Remove { node } => StepLine::Remove { label: node },
        LoggedEdit::Insert {
            node,
            parent,
            before,
        } => StepLine::Insert {
            label: node,
            parent,
            before,
        },
        LoggedEdit::Move {
            node,
            parent,
            before,
        } => StepLine::Move {
            label: node,
            parent,
            before,
        },
        LoggedEdit::SetText { node, words } => StepLine::Words { label: node, words },
        LoggedEdit::SetAttributes {
            node,
            name,
            attributes,
        } => StepLine::Tag {
            label: node,
            name,
            attributes,
        },
    }
}

fn push_all_made(bytes: &mut Vec<u8>, nodes: Vec<MadeNode>) -> Result<(), AllocError>
    ensures { OnOk result (bytes.new.items ≡ bytes.old.items
        ++ step_lines (flat_map made_steps nodes.items)) }
{
    for node in nodes {
        push_made(bytes, node)?;
    }
    Ok(())
}

fn push_edits(bytes: &mut Vec<u8>, edits: Vec<LoggedEdit>) -> Result<(), AllocError>
    ensures { OnOk result (bytes.new.items ≡ bytes.old.items
        ++ step_lines (map edit_step edits.items)) }
{
    for edit in edits {
        push_line(bytes, &step_of(edit))?;
    }
    Ok(())
}

#[tactic(auto, unfolding(crate::specs::Logs::entry_steps))]
fn push_entry(bytes: &mut Vec<u8>, entry: LoggedEntry) -> Result<(), AllocError>
    ensures { OnOk result (bytes.new.items ≡ bytes.old.items ++ step_lines (entry_steps entry)) }
{
    push_line(bytes, &StepLine::Entry)?;
    let (made, edits) = entry.into_parts();
    push_all_made(bytes, made)?;
    push_edits(bytes, edits)
}

/// The lines of the steps of entries.
pub(crate) fn entry_lines(alloc: Global, entries: Vec<LoggedEntry>) -> Result<Vec<u8>, AllocError>
    ensures { IfOk result (λ bytes. bytes.items ≡ step_lines (flat_map entry_steps entries.items)) }
{
    let mut bytes = Vec::new(alloc);
    for entry in entries {
        push_entry(&mut bytes, entry)?;
    }
    Ok(bytes)
}
