//! Recording and restoring the values of nodes. The steps are those of docs/ALGORITHMS.md.

ghost use Rattle.std.specs.Prelude.{◌≡◌, ◌++◌, ◌∷◌, [], Bool, IfOk, IfSome, OnOk, None, is_some, map};
ghost use Rattle.std.specs.Option.{option_and_then, option_copied};
ghost use Rattle.wrap_split.specs.CommandValue.Equivalence as equivalence;
ghost use Rattle.wrap_split.specs.CommandValue.SpecifiedValues.{specified};
ghost use Rattle.edit_model.specs.Gives.{Gives, label_of, labels_of};
ghost use Rattle.wrap_split.specs.EditDoc.Whole.{IsOpen};
ghost use Rattle.wrap_split.specs.EditDoc.Held.{Holds, IfHeld, EachHeld, Keeps};
ghost use Rattle.inline_value.specs.Records.{entry_of, entries_of, nodes_of};
ghost use Rattle.inline_value.specs.Recording.{given_value, value_at, values_at, values_of, restored_to, restore_value, restore_values};

use crate::forcing::force;
use crate::pushing::push_down;
use edit_model::dom::Chars;
use edit_model::element_names::Command;
use std::alloc::{AllocError, Global};
use std::marker::Model;
use wrap_split::doc::{Doc, EditFault, NodeRef};
use wrap_split::values::{specified_value, specifies, specifies_other};

// The commands whose values are recorded, in order.
static RECORDED_COMMANDS: [Command; 9] = [
    Command::Subscript,
    Command::Bold,
    Command::FontName,
    Command::FontSize,
    Command::ForeColor,
    Command::HiliteColor,
    Command::Italic,
    Command::Strikethrough,
    Command::Underline,
];

/// The value that a node has of a command; `None` is null.
#[derive(Drop)]
pub struct Value {
    pub node: NodeRef,
    pub command: Command,
    pub value: Option<Chars>,
}

/// A list of values.
#[derive(Drop)]
pub struct Values {
    items: Vec<Value>,
}

impl Model for Values {
    ghost use Rattle.std.specs.Prelude.{List};
    ghost use Rattle.inline_value.specs.declared.recording.Value as recorded;

    ghost Value = { List recorded.Value };

    ghost view = { λ l. l.items.items };
}

impl Values {
    /// No values.
    pub fn new(alloc: Global) -> Values
        ensures { result ≡ [] }
    {
        Values {
            items: Vec::new(alloc),
        }
    }

    /// The values as a slice.
    pub fn as_slice(&self) -> &[Value]
        ensures { result.now ≡ self.now }
    {
        self.items.as_slice()
    }
}

// The nearest node, this or an ancestor, that gives a command a value.
fn giver(doc: &Doc, node: NodeRef, command: Command) -> Option<NodeRef>
    requires { Holds doc.now node }
    ensures held { IfHeld doc.now result }
    ensures value { option_and_then (λ l. specified doc.now.state.trees l command) (label_of result)
        ≡ given_value doc.now.state.trees node.label command }
    ensures some { IfSome result (λ r. is_some (specified doc.now.state.trees r.label command)
        ≡ Bool.true) }
{
    doc.valid();
    let mut at = node;
    while !specifies(doc, at, command) {
        match doc.parent(at) {
            Some(parent) => at = parent,
            None => return None,
        }
    }
    Some(at)
}

// The value that it gives.
fn given_value(doc: &Doc, node: NodeRef, command: Command) -> Option<&[char]>
    requires { Holds doc.now node }
    ensures { option_copied result ≡ given_value doc.now.state.trees node.label command }
{
    match giver(doc, node, command) {
        Some(giver) => specified_value(doc, giver, command),
        None => None,
    }
}

// Whether a value is given, and which one doesn't matter.
fn is_given(doc: &Doc, node: NodeRef, command: Command) -> bool
    requires { Holds doc.now node }
    ensures { result ≡ is_some (given_value doc.now.state.trees node.label command) }
{
    giver(doc, node, command).is_some()
}

// Whether the value that is given is equivalent to this one.
fn is_given_as(doc: &Doc, node: NodeRef, command: Command, value: &[char]) -> bool
    requires { Holds doc.now node }
    ensures { result ≡ equivalence.equivalent command
        (given_value doc.now.state.trees node.label command) (Some value.now) }
{
    match giver(doc, node, command) {
        Some(giver) => !specifies_other(doc, giver, command, Some(value)),
        None => false,
    }
}

// ---- recording

// The value of a node and a command.
#[tactic(auto, unfolding(crate::specs::Recording::value_at, crate::specs::Records::entry_of))]
fn value_at(alloc: Global, doc: &Doc, node: NodeRef, command: Command) -> Result<Value, AllocError>
    requires { Holds doc.now node }
    ensures node { IfOk result (λ entry. entry.node ≡ node) }
    ensures value { IfOk result (λ entry. entry_of entry
        ≡ value_at doc.now.state node.label command) }
{
    let value = match given_value(doc, node, command) {
        Some(text) => Some(Chars::from_slice(alloc, text)?),
        None => None,
    };
    Ok(Value {
        node,
        command,
        value,
    })
}

// Puts the values of a node and each of these commands behind those found before.
fn push_values(
    alloc: Global,
    doc: &Doc,
    node: NodeRef,
    commands: &[Command],
    found: &mut Vec<Value>,
) -> Result<(), AllocError>
    requires node_held { Holds doc.now node }
    requires found_held { EachHeld doc.now (nodes_of found.old.items) }
    ensures values { OnOk result (entries_of found.new.items ≡ entries_of found.old.items ++ map
        (value_at doc.now.state node.label) commands.now) }
    ensures held { OnOk result (EachHeld doc.now (nodes_of found.new.items)) }
{
    for command in commands {
        found.push(value_at(alloc, doc, node, *command)?)?;
    }
    Ok(())
}

/// Of each node in order, the values that it has of nine commands, each from the nearest element
/// that gives one.
pub fn record_values(alloc: Global, doc: &Doc, list: &[NodeRef]) -> Result<Values, AllocError>
    requires list_held { EachHeld doc.now list.now }
    ensures values { IfOk result (λ values. entries_of values
        ≡ values_of doc.now.state (labels_of list.now)) }
    ensures held { IfOk result (λ values. EachHeld doc.now (nodes_of values)) }
{
    let mut items = Vec::new(alloc);
    for node in list {
        push_values(alloc, doc, *node, &RECORDED_COMMANDS, &mut items)?;
    }
    Ok(Values { items })
}

// ---- restoring

// Restore the values, step 1, where null was recorded: a value that is given now is pushed down.
#[tactic(auto, using(edit_model::proofs::Steps::steps, edit_model::proofs::Steps::exits))]
fn restore_null(
    alloc: Global,
    doc: &mut Doc,
    node: NodeRef,
    command: Command,
) -> Result<(), EditFault>
    requires open { IsOpen doc.old }
    requires node_held { Holds doc.old node }
    ensures gives { Gives result doc.old.state doc.new.state
        (restored_to command node.label None (given_value doc.old.state.trees node.label command)) }
    ensures keeps { Keeps doc.old doc.new }
{
    if is_given(doc, node, command) {
        push_down(alloc, doc, None, node, command)?;
    }
    Ok(())
}

// Restore the values, step 1, where a text was recorded: it is forced where another value is given
// now, or none.
#[tactic(auto, using(edit_model::proofs::Steps::steps, edit_model::proofs::Steps::exits))]
fn restore_text(
    alloc: Global,
    doc: &mut Doc,
    value: &[char],
    node: NodeRef,
    command: Command,
) -> Result<(), EditFault>
    requires open { IsOpen doc.old }
    requires node_held { Holds doc.old node }
    ensures gives { Gives result doc.old.state doc.new.state
        (restored_to command node.label (Some value.now)
        (given_value doc.old.state.trees node.label command)) }
    ensures keeps { Keeps doc.old doc.new }
{
    if !is_given_as(doc, node, command, value) {
        force(alloc, doc, Some(value), node, command)?;
    }
    Ok(())
}

// Restore the values, step 1.
#[tactic(auto, using(edit_model::proofs::Steps::steps, edit_model::proofs::Steps::exits), unfolding(crate::specs::Recording::restore_value, crate::specs::Records::entry_of))]
fn restore_value(alloc: Global, doc: &mut Doc, entry: &Value) -> Result<(), EditFault>
    requires open { IsOpen doc.old }
    requires node_held { Holds doc.old entry.now.node }
    ensures gives { Gives result doc.old.state doc.new.state (restore_value (entry_of entry.now)) }
    ensures keeps { Keeps doc.old doc.new }
{
    match &entry.value {
        Some(value) => restore_text(alloc, doc, value.as_slice(), entry.node, entry.command),
        None => restore_null(alloc, doc, entry.node, entry.command),
    }
}

// Restore the values, step 1: each entry, in order.
#[tactic(auto, using(edit_model::proofs::Steps::steps, edit_model::proofs::Steps::exits), unfolding(crate::specs::Recording::restore_values))]
fn restore_each(alloc: Global, doc: &mut Doc, list: &[Value]) -> Result<(), EditFault>
    requires open { IsOpen doc.old }
    requires list_held { EachHeld doc.old (nodes_of list.now) }
    ensures gives { Gives result doc.old.state doc.new.state
        (restore_values (entries_of list.now)) }
    ensures keeps { Keeps doc.old doc.new }
{
    for entry in list {
        restore_value(alloc, doc, entry)?;
    }
    Ok(())
}

/// Gives each node the recorded value again where it has another one now (HTML Editing APIs,
/// "restore the values").
pub fn restore_values(alloc: Global, doc: &mut Doc, values: &Values) -> Result<(), EditFault>
    requires open { IsOpen doc.old }
    requires values_held { EachHeld doc.old (nodes_of values.now) }
    ensures gives { Gives result doc.old.state doc.new.state
        (restore_values (entries_of values.now)) }
    ensures keeps { Keeps doc.old doc.new }
{
    restore_each(alloc, doc, values.as_slice())
}
