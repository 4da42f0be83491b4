//! Questions about commands: when a command itself is asked.

ghost use Rattle.std.specs.Prelude.{◌≡◌, IfOk};
ghost use Rattle.edit_model.specs.Gives.{label_of};
ghost use Rattle.edit_engine.specs.Commands.{is_enabled, is_enabled_in};
ghost use Rattle.edit_engine.specs.Queries.{asked_if_enabled, reply_for, reply_of};

use crate::commands::row_of;
use edit_model::element_names::{Command, QueryKind};
use inline_value::actions::affected_host;
use inline_value::doc::{Doc, NodeRef};
use inline_value::query::{Reply, no_reply, query};
use std::alloc::{AllocError, Global};

/// Whether a command is enabled in an affected editing host, or without one.
pub(crate) fn is_enabled_in(host: Option<NodeRef>, command: Command) -> bool
    ensures { result ≡ is_enabled_in (label_of host) command }
{
    !row_of(command).needs_host || host.is_some()
}

#[tactic(auto, unfolding(crate::specs::Commands::is_enabled))]
fn is_enabled(doc: &Doc, command: Command) -> bool
    ensures { result ≡ is_enabled doc.now.state command }
{
    is_enabled_in(affected_host(doc), command)
}

// The answer of a command that is looked at first.
#[tactic(auto, unfolding(crate::specs::Queries::asked_if_enabled))]
fn asked_if_enabled(
    alloc: Global,
    doc: &Doc,
    kind: QueryKind,
    command: Command,
) -> Result<Reply, AllocError>
    ensures { IfOk result (λ reply. reply ≡ asked_if_enabled doc.now.state kind command) }
{
    if is_enabled(doc, command) {
        query(alloc, doc, affected_host(doc), kind, command)
    } else {
        Ok(no_reply(alloc, kind))
    }
}

fn reply_for(
    alloc: Global,
    doc: &Doc,
    kind: QueryKind,
    command: Command,
) -> Result<Reply, AllocError>
    ensures { IfOk result (λ reply. reply ≡ reply_for doc.now.state kind command) }
{
    match kind {
        QueryKind::Supported => Ok(Reply::Flag(true)),
        QueryKind::Enabled => Ok(Reply::Flag(is_enabled(doc, command))),
        kind => asked_if_enabled(alloc, doc, kind, command),
    }
}

/// The answer to a question about the command that a name names.
#[tactic(auto, unfolding(crate::specs::Queries::reply_of))]
pub(crate) fn ask(
    alloc: Global,
    doc: &Doc,
    kind: QueryKind,
    name: &str,
) -> Result<Reply, AllocError>
    ensures { IfOk result (λ reply. reply ≡ reply_of doc.now.state kind name.now) }
{
    match Command::named(name) {
        Some(command) => reply_for(alloc, doc, kind, command),
        None => Ok(no_reply(alloc, kind)),
    }
}
