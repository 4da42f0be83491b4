//! Questions about commands, as a running command asks them.

ghost use Rattle.std.specs.Prelude.{◌≡◌, IfOk};
ghost use Rattle.edit_model.specs.Gives.{label_of};
ghost use Rattle.edit_actions.specs.EditDoc.Held.{IfHeld};
ghost use Rattle.edit_query.specs.Queries.{shown_override, state_of, value_of, query_in};

use crate::reply::{Reply, no_reply};
use crate::rows::{legacy_text, own_indeterm, own_state, own_value};
use edit_actions::doc::{Doc, NodeRef, Setting};
use edit_model::dom::Chars;
use edit_model::element_names::{Command, QueryKind};
use std::alloc::{AllocError, Global};

/// The state of a command (HTML Editing APIs, "state"): its state override, or else whether it is
/// on at all formattable nodes in the active range, and where there is none at the range's start. A
/// justify command is on where there are visible editable nodes without children in the
/// block-extended range, and all have its alignment. A list command is on where all list members of
/// that range stand in its kind of list. `host` is the running command's editing host.
#[tactic(auto, unfolding(crate::specs::Queries::state_of))]
pub fn query_state(
    alloc: Global,
    doc: &Doc,
    host: Option<NodeRef>,
    command: Command,
) -> Result<bool, AllocError>
    requires { IfHeld doc.now host }
    ensures { IfOk result (λ flag. flag ≡ state_of doc.now.state (label_of host) command) }
{
    match doc.setting(command) {
        Setting::On => Ok(true),
        Setting::Off => Ok(false),
        _ => own_state(alloc, doc, host, command),
    }
}

// A value override as it is shown.
fn shown_override(alloc: Global, command: Command, value: &Chars) -> Result<Chars, AllocError>
    ensures { IfOk result (λ text. text ≡ shown_override command value.now) }
{
    match command {
        Command::FontSize => legacy_text(alloc, value.as_slice()),
        _ => value.clone(),
    }
}

/// The value of a command (HTML Editing APIs, "value"): its value override, or else the effective
/// value of the first formattable node in the active range, and where there is none that at the
/// range's start. A size of a font is shown as the legacy size, 1 to 7; no value is the empty text.
/// Of formatBlock it is the type, of a justify command the alignment, of the first visible editable
/// node without children in the block-extended range. `host` is the running command's editing host.
#[tactic(auto, unfolding(crate::specs::Queries::value_of))]
pub fn query_value(
    alloc: Global,
    doc: &Doc,
    host: Option<NodeRef>,
    command: Command,
) -> Result<Chars, AllocError>
    requires { IfHeld doc.now host }
    ensures { IfOk result (λ value. value ≡ value_of doc.now.state (label_of host) command) }
{
    match doc.setting(command) {
        Setting::Text { value } => shown_override(alloc, command, value),
        _ => own_value(alloc, doc, host, command),
    }
}

/// The answer to a question as a running command asks it, with its editing host. Whether the
/// command asked for is supported or enabled isn't looked at, and of these two kinds the answer is
/// false.
#[tactic(auto, unfolding(crate::specs::Queries::query_in))]
pub fn query(
    alloc: Global,
    doc: &Doc,
    host: Option<NodeRef>,
    kind: QueryKind,
    command: Command,
) -> Result<Reply, AllocError>
    requires { IfHeld doc.now host }
    ensures { IfOk result (λ reply. reply ≡ query_in doc.now.state (label_of host) kind command) }
{
    match kind {
        QueryKind::Indeterm => Ok(Reply::Flag(own_indeterm(alloc, doc, host, command)?)),
        QueryKind::State => Ok(Reply::Flag(query_state(alloc, doc, host, command)?)),
        QueryKind::Value => Ok(Reply::Wording(query_value(alloc, doc, host, command)?)),
        QueryKind::Enabled => Ok(no_reply(alloc, QueryKind::Enabled)),
        QueryKind::Supported => Ok(no_reply(alloc, QueryKind::Supported)),
    }
}
