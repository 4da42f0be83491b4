//! Recording the overrides of commands, and the states and values of the first formattable node.
//! The steps are those of docs/ALGORITHMS.md.

ghost use Rattle.std.specs.Prelude.{◌≡◌, ◌++◌, ◌∷◌, [], IfOk, OnOk, map};
ghost use Rattle.wrap_split.specs.EditDoc.Held.{Holds};
ghost use Rattle.inline_value.specs.Overrides.{override, is_set, overrides_among, overrides_of, text_setting, on_or_off, on_at, override_at, answered, states_at, states_of};

use edit_model::dom::Chars;
use edit_model::element_names::Command;
use edit_query::{first_formattable, query_value};
use std::alloc::{AllocError, Global};
use std::marker::Model;
use wrap_split::doc::{Doc, NodeRef, Setting};
use wrap_split::values::{effective, is_activated};

// The commands whose overrides are recorded, in order.
static OVERRIDING_COMMANDS: [Command; 11] = [
    Command::CreateLink,
    Command::Bold,
    Command::Italic,
    Command::Strikethrough,
    Command::Subscript,
    Command::Superscript,
    Command::Underline,
    Command::FontName,
    Command::FontSize,
    Command::ForeColor,
    Command::HiliteColor,
];

// The commands of which it is recorded whether they are on, and those whose answers are recorded,
// in order.
static STATE_COMMANDS: [Command; 6] = [
    Command::Bold,
    Command::Italic,
    Command::Strikethrough,
    Command::Subscript,
    Command::Superscript,
    Command::Underline,
];

static ANSWERED_COMMANDS: [Command; 3] = [
    Command::FontName,
    Command::ForeColor,
    Command::HiliteColor,
];

/// A command and its override; `Setting::Absent` stands for null.
#[derive(Drop)]
pub struct Override {
    pub command: Command,
    pub setting: Setting,
}

/// A list of overrides.
#[derive(Drop)]
pub struct Overrides {
    items: Vec<Override>,
}

impl Model for Overrides {
    ghost use Rattle.std.specs.Prelude.{List};
    ghost use Rattle.inline_value.specs.declared.overrides.Override.{Override};

    ghost Value = { List Override };

    ghost view = { λ l. l.items.items };
}

impl Overrides {
    /// No overrides.
    pub fn new(alloc: Global) -> Overrides
        ensures { result ≡ [] }
    {
        Overrides {
            items: Vec::new(alloc),
        }
    }

    /// The overrides as a slice.
    pub fn as_slice(&self) -> &[Override]
        ensures { result.now ≡ self.now }
    {
        self.items.as_slice()
    }
}

// ---- the overrides that are set

fn is_set(setting: &Setting) -> bool
    ensures { result ≡ is_set setting.now }
{
    !matches!(setting, Setting::Absent)
}

// Puts the override of a command behind those found before, where it is set.
fn push_override(doc: &Doc, command: Command, found: &mut Vec<Override>) -> Result<(), AllocError>
    ensures { OnOk result (found.new.items ≡ found.old.items
        ++ overrides_among doc.now.state (command ∷ [])) }
{
    let setting = doc.setting(command);
    if is_set(setting) {
        let setting = setting.clone()?;
        found.push(Override { command, setting })?;
    }
    Ok(())
}

// The overrides that are set among those of some commands, in their order.
fn overrides_among(
    alloc: Global,
    doc: &Doc,
    commands: &[Command],
) -> Result<Vec<Override>, AllocError>
    ensures { IfOk result (λ found. found.items ≡ overrides_among doc.now.state commands.now) }
{
    let mut found = Vec::new(alloc);
    for command in commands {
        push_override(doc, *command, &mut found)?;
    }
    Ok(found)
}

/// The overrides that are set, of the commands that have any, in a fixed order.
#[tactic(auto, unfolding(crate::specs::Overrides::overrides_of, crate::specs::Overrides::overriding_commands))]
pub fn record_overrides(alloc: Global, doc: &Doc) -> Result<Overrides, AllocError>
    ensures { IfOk result (λ list. list ≡ overrides_of doc.now.state) }
{
    let items = overrides_among(alloc, doc, &OVERRIDING_COMMANDS)?;
    Ok(Overrides { items })
}

// ---- the states and values of a node

// Whether a command is on at a node.
fn on_at(doc: &Doc, node: NodeRef, command: Command) -> Override
    requires { Holds doc.now node }
    ensures { result ≡ on_at doc.now.state.trees node.label command }
{
    let setting = if is_activated(doc, node, command) {
        Setting::On
    } else {
        Setting::Off
    };
    Override { command, setting }
}

// The value of a command at a node.
fn override_at(
    alloc: Global,
    doc: &Doc,
    node: NodeRef,
    command: Command,
) -> Result<Override, AllocError>
    requires { Holds doc.now node }
    ensures { IfOk result (λ own. own ≡ override_at doc.now.state.trees node.label command) }
{
    let setting = match effective(alloc, doc, node, command)? {
        Some(value) => Setting::Text { value },
        None => Setting::Absent,
    };
    Ok(Override { command, setting })
}

// The value that a command answers.
fn answered(alloc: Global, doc: &Doc, command: Command) -> Result<Override, AllocError>
    ensures { IfOk result (λ own. own ≡ answered doc.now.state command) }
{
    let value = query_value(alloc, doc, doc.host(), command)?;
    Ok(Override {
        command,
        setting: Setting::Text { value },
    })
}

// Puts the states of commands at a node behind what was found before.
fn push_states(
    doc: &Doc,
    node: NodeRef,
    commands: &[Command],
    found: &mut Vec<Override>,
) -> Result<(), AllocError>
    requires { Holds doc.now node }
    ensures { OnOk result
        (found.new.items ≡ found.old.items
        ++ map (on_at doc.now.state.trees node.label) commands.now) }
{
    for command in commands {
        found.push(on_at(doc, node, *command))?;
    }
    Ok(())
}

// Puts the answers of commands behind what was found before.
fn push_answers(
    alloc: Global,
    doc: &Doc,
    commands: &[Command],
    found: &mut Vec<Override>,
) -> Result<(), AllocError>
    ensures { OnOk result (found.new.items ≡ found.old.items
        ++ map (answered doc.now.state) commands.now) }
{
    for command in commands {
        found.push(answered(alloc, doc, *command)?)?;
    }
    Ok(())
}

// Record current states and values, step 2.
#[tactic(auto, unfolding(crate::specs::Overrides::states_at))]
fn states_at(alloc: Global, doc: &Doc, node: NodeRef) -> Result<Overrides, AllocError>
    requires { Holds doc.now node }
    ensures { IfOk result (λ list. list ≡ states_at doc.now.state node.label) }
{
    let mut items = Vec::new(alloc);
    items.push(override_at(alloc, doc, node, Command::CreateLink)?)?;
    push_states(doc, node, &STATE_COMMANDS, &mut items)?;
    push_answers(alloc, doc, &ANSWERED_COMMANDS, &mut items)?;
    items.push(override_at(alloc, doc, node, Command::FontSize)?)?;
    Ok(Overrides { items })
}

/// The states and values of the first formattable node that the active range effectively contains;
/// none without such a node.
#[tactic(auto, unfolding(crate::specs::Overrides::states_of))]
pub fn record_states(alloc: Global, doc: &Doc) -> Result<Overrides, AllocError>
    ensures { IfOk result (λ list. list ≡ states_of doc.now.state) }
{
    match first_formattable(alloc, doc, doc.host())? {
        Some(node) => states_at(alloc, doc, node),
        None => Ok(Overrides::new(alloc)),
    }
}
