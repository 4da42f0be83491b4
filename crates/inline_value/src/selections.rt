//! Setting a value on the selection. The steps are those of docs/ALGORITHMS.md.

ghost use Rattle.std.specs.Prelude.{◌≡◌, ◌<◌, IfOk, Some, bytes_eq, filter};
ghost use Rattle.std.specs.List.{list_any};
ghost use Rattle.std.specs.Option.{option_copied, option_map_or};
ghost use Rattle.edit_model.specs.DomModel.Contents.{is_element_at};
ghost use Rattle.edit_model.specs.DomModel.Forest.{count_of};
ghost use Rattle.edit_model.specs.HtmlNames.ActivatedValues as activated;
ghost use Rattle.edit_model.specs.HtmlNames.ElementNames.{is_one_of};
ghost use Rattle.edit_model.specs.Confined.{is_editable_for};
ghost use Rattle.edit_model.specs.Gives.{Gives, labels_of};
ghost use Rattle.edit_model.specs.Valid.{IsPlacedPair};
ghost use Rattle.edit_model.specs.Run.{done, for_each, given, set_setting};
ghost use Rattle.wrap_split.specs.EditDoc.Whole.{IsOpen};
ghost use Rattle.wrap_split.specs.EditDoc.Held.{Holds, EachHeld, Keeps};
ghost use Rattle.inline_value.specs.Selections.{is_amid, at_least, with_start, set_start, start_text, split_at_start, split_at_end, split_start, split_end, split_ends, nodes_by, editable_in_range, elements_in_range, state_setting, value_setting, override_for, unset_rival, set_overrides, clear_one, clear_elements, give_node, set_value};

use crate::clearing::clear_value;
use crate::forcing::force;
use crate::pushing::push_down;
use edit_model::boundary::{comes_before, node_of};
use edit_model::dom::Chars;
use edit_model::element_names::{Command, activated_values};
use edit_query::extend::allowed_in_span;
use edit_query::first_formattable;
use std::alloc::{AllocError, Global};
use wrap_split::actions::ends_of;
use wrap_split::css::has_codes;
use wrap_split::doc::{Doc, EditFault, Kind, NodeRef, Pair, Point, Setting};
use wrap_split::questions::{effective_nodes, is_element};

// ---- splitting the texts at the ends of the range

// Whether a point lies amid the characters of an editable text.
#[tactic(auto, unfolding(crate::specs::Selections::is_amid, crate::specs::Below::is_words))]
fn is_amid(doc: &Doc, at: Point) -> bool
    requires { 0 < count_of doc.now.state.trees at.label }
    ensures { result ≡ is_amid doc.now.state at }
{
    let node = node_of(doc, at);
    doc.kind(node) == Kind::Words
        && doc.is_editable_for(node)
        && at.offset != 0
        && at.offset != doc.length(node)
}

// The later of two points.
fn at_least(doc: &Doc, other: Point, at: Point) -> Point
    requires other_there { 0 < count_of doc.now.state.trees other.label }
    requires there { 0 < count_of doc.now.state.trees at.label }
    ensures { result ≡ at_least doc.now.state.trees other at }
{
    if comes_before(doc, other, at) {
        at
    } else {
        other
    }
}

// Split the ends, step 1: sets the start of the range of a pair. An end before it goes along.
#[tactic(auto, using(edit_model::proofs::Steps::actions))]
fn set_start_of(doc: &mut Doc, pair: Pair, at: Point) -> Result<(), EditFault>
    requires open { IsOpen doc.old }
    requires placed { IsPlacedPair doc.old.state.trees pair }
    requires there { 0 < count_of doc.old.state.trees at.label }
    ensures gives { Gives result doc.old.state doc.new.state
        (with_start doc.old.state.trees pair at) }
    ensures keeps { Keeps doc.old doc.new }
{
    if doc.is_before(pair.focus, pair.anchor) {
        let anchor = at_least(doc, pair.anchor, at);
        doc.select(anchor, at);
    } else {
        let focus = at_least(doc, pair.focus, at);
        doc.select(at, focus);
    }
    Ok(())
}

// Split the ends, step 1: sets the start of the active range (DOM Standard, "set the start").
#[tactic(auto, using(edit_model::proofs::Steps::steps, edit_model::proofs::Steps::exits), unfolding(crate::specs::Selections::set_start))]
fn set_start(doc: &mut Doc, at: Point) -> Result<(), EditFault>
    requires open { IsOpen doc.old }
    requires there { 0 < count_of doc.old.state.trees at.label }
    ensures gives { Gives result doc.old.state doc.new.state (set_start at) }
    ensures keeps { Keeps doc.old doc.new }
{
    doc.valid();
    match doc.points().selection() {
        Some(pair) => set_start_of(doc, pair, at),
        None => Ok(()),
    }
}

// Split the ends, step 1, at the start of the range.
#[tactic(auto, using(edit_model::proofs::Steps::steps, edit_model::proofs::Steps::exits), unfolding(crate::specs::Selections::split_at_start, crate::specs::Selections::start_text))]
fn split_at_start(doc: &mut Doc, at: Point) -> Result<(), EditFault>
    requires open { IsOpen doc.old }
    requires there { 0 < count_of doc.old.state.trees at.label }
    ensures gives { Gives result doc.old.state doc.new.state (split_at_start at) }
    ensures keeps { Keeps doc.old doc.new }
{
    if !is_amid(doc, at) {
        return Ok(());
    }
    let node = node_of(doc, at);
    let tail = doc.split_words(node, at.offset)?;
    let start = Point {
        label: tail.label,
        offset: 0,
    };
    set_start(doc, start)
}

// Split the ends, step 2, at the end of the range.
#[tactic(auto, using(edit_model::proofs::Steps::steps, edit_model::proofs::Steps::exits), unfolding(crate::specs::Selections::split_at_end))]
fn split_at_end(doc: &mut Doc, at: Point) -> Result<(), EditFault>
    requires open { IsOpen doc.old }
    requires there { 0 < count_of doc.old.state.trees at.label }
    ensures gives { Gives result doc.old.state doc.new.state (split_at_end at) }
    ensures keeps { Keeps doc.old doc.new }
{
    if is_amid(doc, at) {
        let node = node_of(doc, at);
        doc.split_words(node, at.offset)?;
    }
    Ok(())
}

// Split the ends, step 1.
#[tactic(auto, using(edit_model::proofs::Steps::steps, edit_model::proofs::Steps::exits, crate::proofs::Below::placed_here), unfolding(crate::specs::Selections::split_start))]
fn split_start(doc: &mut Doc) -> Result<(), EditFault>
    requires open { IsOpen doc.old }
    ensures gives { Gives result doc.old.state doc.new.state split_start }
    ensures keeps { Keeps doc.old doc.new }
{
    doc.valid();
    match doc.points().selection() {
        Some(pair) => {
            let (start, _end) = ends_of(doc, pair);
            split_at_start(doc, start)
        }
        None => Ok(()),
    }
}

// Split the ends, step 2.
#[tactic(auto, using(edit_model::proofs::Steps::steps, edit_model::proofs::Steps::exits, crate::proofs::Below::placed_here), unfolding(crate::specs::Selections::split_end))]
fn split_end(doc: &mut Doc) -> Result<(), EditFault>
    requires open { IsOpen doc.old }
    ensures gives { Gives result doc.old.state doc.new.state split_end }
    ensures keeps { Keeps doc.old doc.new }
{
    doc.valid();
    match doc.points().selection() {
        Some(pair) => {
            let (_start, end) = ends_of(doc, pair);
            split_at_end(doc, end)
        }
        None => Ok(()),
    }
}

/// Splits the editable texts amid which the active range starts or ends.
#[tactic(auto, using(edit_model::proofs::Steps::steps, edit_model::proofs::Steps::exits), unfolding(crate::specs::Selections::split_ends))]
pub fn split_ends(_alloc: Global, doc: &mut Doc) -> Result<(), EditFault>
    requires open { IsOpen doc.old }
    ensures gives { Gives result doc.old.state doc.new.state split_ends }
    ensures keeps { Keeps doc.old doc.new }
{
    split_start(doc)?;
    split_end(doc)
}

// ---- the nodes that the active range effectively contains

// Of a list, the nodes that are editable.
fn editable_of(alloc: Global, doc: &Doc, list: &[NodeRef]) -> Result<Vec<NodeRef>, AllocError>
    requires { EachHeld doc.now list.now }
    ensures held { IfOk result (λ kept. EachHeld doc.now kept.items) }
    ensures nodes { IfOk result
        (λ kept. labels_of kept.items
        ≡ filter (is_editable_for doc.now.state) (labels_of list.now)) }
{
    let mut kept = Vec::new(alloc);
    for node in list {
        if doc.is_editable_for(*node) {
            kept.push(*node)?;
        }
    }
    Ok(kept)
}

// Of a list, the elements.
fn elements_of(alloc: Global, doc: &Doc, list: &[NodeRef]) -> Result<Vec<NodeRef>, AllocError>
    requires { EachHeld doc.now list.now }
    ensures held { IfOk result (λ kept. EachHeld doc.now kept.items) }
    ensures nodes { IfOk result
        (λ kept. labels_of kept.items
        ≡ filter (is_element_at doc.now.state.trees) (labels_of list.now)) }
{
    let mut kept = Vec::new(alloc);
    for node in list {
        if is_element(doc, *node) {
            kept.push(*node)?;
        }
    }
    Ok(kept)
}

// The editable ones of the range of a pair of points.
#[tactic(auto, using(crate::proofs::Below::placed_here, edit_query::proofs::Lists::labels_mapped, edit_query::proofs::Lists::each_held))]
fn editable_between(alloc: Global, doc: &Doc, pair: Pair) -> Result<Vec<NodeRef>, AllocError>
    requires { IsPlacedPair doc.now.state.trees pair }
    ensures held { IfOk result (λ list. EachHeld doc.now list.items) }
    ensures nodes { IfOk result (λ list. labels_of list.items ≡ filter
        (is_editable_for doc.now.state) (nodes_by doc.now.state.trees (Some pair))) }
{
    let list = effective_nodes(alloc, doc, ends_of(doc, pair))?;
    editable_of(alloc, doc, list.as_slice())
}

/// The editable nodes that the active range effectively contains, in tree order.
#[tactic(auto, unfolding(crate::specs::Selections::editable_in_range, crate::specs::Selections::nodes_in_range))]
pub fn editable_in_range(alloc: Global, doc: &Doc) -> Result<Vec<NodeRef>, AllocError>
    ensures held { IfOk result (λ list. EachHeld doc.now list.items) }
    ensures nodes { IfOk result (λ list. labels_of list.items ≡ editable_in_range doc.now.state) }
{
    doc.valid();
    match doc.points().selection() {
        Some(pair) => editable_between(alloc, doc, pair),
        None => Ok(Vec::new(alloc)),
    }
}

// Of these the elements.
#[tactic(auto, unfolding(crate::specs::Selections::elements_in_range))]
fn elements_in_range(alloc: Global, doc: &Doc) -> Result<Vec<NodeRef>, AllocError>
    ensures held { IfOk result (λ list. EachHeld doc.now list.items) }
    ensures nodes { IfOk result (λ list. labels_of list.items ≡ elements_in_range doc.now.state) }
{
    let list = editable_in_range(alloc, doc)?;
    elements_of(alloc, doc, &list)
}

// ---- set the value, step 1

// Whether a text is in a table.
fn is_in(table: &[&[u8]], text: &[char]) -> bool
    ensures { result ≡ list_any (λ row. bytes_eq row.now text.now) table.now }
{
    table.iter().any(|row| has_codes(text, row))
}

// Whether a command counts as on at a value.
fn is_activated_at(command: Command, value: &[char]) -> bool
    ensures { result ≡ is_one_of (activated.activated_values command) value.now }
{
    is_in(activated_values(command), value)
}

fn state_setting(command: Command, value: Option<&[char]>) -> Setting
    ensures { result ≡ state_setting command (option_copied value.entry) }
{
    match value {
        Some(value) if is_activated_at(command, value) => Setting::On,
        _ => Setting::Off,
    }
}

fn value_setting(alloc: Global, value: Option<&[char]>) -> Result<Setting, AllocError>
    ensures { IfOk result (λ setting. setting ≡ value_setting (option_copied value.entry)) }
{
    Ok(match value {
        Some(value) => Setting::Text {
            value: Chars::from_slice(alloc, value)?,
        },
        None => Setting::Absent,
    })
}

// The override that a command gets for a value, if it gets one.
fn override_for(
    alloc: Global,
    command: Command,
    value: Option<&[char]>,
) -> Result<Option<Setting>, AllocError>
    ensures { IfOk result (λ setting. setting ≡ override_for command (option_copied value.entry)) }
{
    match command {
        Command::Bold
        | Command::Italic
        | Command::Underline
        | Command::Strikethrough
        | Command::Subscript
        | Command::Superscript => Ok(Some(state_setting(command, value))),
        Command::CreateLink
        | Command::FontName
        | Command::FontSize
        | Command::ForeColor
        | Command::BackColor
        | Command::HiliteColor => Ok(Some(value_setting(alloc, value)?)),
        _ => Ok(if value.is_none() {
            Some(Setting::Absent)
        } else {
            None
        }),
    }
}

// Set the value, step 1: unsets the override of the script that excludes the command's.
#[tactic(auto, using(edit_model::proofs::Steps::actions))]
fn unset_rival(doc: &mut Doc, command: Command) -> Result<(), EditFault>
    requires open { IsOpen doc.old }
    ensures gives { Gives result doc.old.state doc.new.state (unset_rival command) }
    ensures keeps { Keeps doc.old doc.new }
{
    match command {
        Command::Subscript => doc.set_setting(Command::Superscript, Setting::Absent),
        Command::Superscript => doc.set_setting(Command::Subscript, Setting::Absent),
        _ => {}
    }
    Ok(())
}

// Set the value, step 1: sets the override that a command gets for a value, if it gets one.
#[tactic(auto, using(edit_model::proofs::Steps::actions, edit_model::proofs::Steps::exits))]
fn set_override(
    alloc: Global,
    doc: &mut Doc,
    value: Option<&[char]>,
    command: Command,
) -> Result<(), EditFault>
    requires open { IsOpen doc.old }
    ensures gives { Gives result doc.old.state doc.new.state
        (given (override_for command (option_copied value.entry)) done (set_setting command)) }
    ensures keeps { Keeps doc.old doc.new }
{
    match override_for(alloc, command, value)? {
        Some(setting) => {
            doc.set_setting(command, setting);
            Ok(())
        }
        None => Ok(()),
    }
}

// Set the value, step 1, where nothing formattable is contained.
#[tactic(auto, using(edit_model::proofs::Steps::steps, edit_model::proofs::Steps::exits), unfolding(crate::specs::Selections::set_overrides))]
fn set_overrides(
    alloc: Global,
    doc: &mut Doc,
    value: Option<&[char]>,
    command: Command,
) -> Result<(), EditFault>
    requires open { IsOpen doc.old }
    ensures gives { Gives result doc.old.state doc.new.state
        (set_overrides command (option_copied value.entry)) }
    ensures keeps { Keeps doc.old doc.new }
{
    set_override(alloc, doc, value, command)?;
    unset_rival(doc, command)
}

// ---- set the value, steps 3 and 4

// Set the value, step 3: one element.
#[tactic(auto, using(edit_model::proofs::Steps::steps, edit_model::proofs::Steps::exits), unfolding(crate::specs::Selections::clear_one))]
fn clear_one(alloc: Global, doc: &mut Doc, node: NodeRef, command: Command) -> Result<(), EditFault>
    requires open { IsOpen doc.old }
    requires node_held { Holds doc.old node }
    ensures gives { Gives result doc.old.state doc.new.state (clear_one command node.label) }
    ensures keeps { Keeps doc.old doc.new }
{
    clear_value(alloc, doc, node, command)?;
    Ok(())
}

// Set the value, step 3: each element, in order.
#[tactic(auto, using(edit_model::proofs::Steps::eachs, edit_model::proofs::Steps::exits))]
fn clear_each(
    alloc: Global,
    doc: &mut Doc,
    list: &[NodeRef],
    command: Command,
) -> Result<(), EditFault>
    requires open { IsOpen doc.old }
    requires list_held { EachHeld doc.old list.now }
    ensures gives { Gives result doc.old.state doc.new.state
        (for_each (labels_of list.now) (clear_one command)) }
    ensures keeps { Keeps doc.old doc.new }
{
    for node in list {
        clear_one(alloc, doc, *node, command)?;
    }
    Ok(())
}

// Set the value, step 3.
#[tactic(auto, using(edit_model::proofs::Steps::steps, edit_model::proofs::Steps::exits), unfolding(crate::specs::Selections::clear_elements))]
fn clear_elements(alloc: Global, doc: &mut Doc, command: Command) -> Result<(), EditFault>
    requires open { IsOpen doc.old }
    ensures gives { Gives result doc.old.state doc.new.state (clear_elements command) }
    ensures keeps { Keeps doc.old doc.new }
{
    let list = elements_in_range(alloc, doc)?;
    clear_each(alloc, doc, &list, command)
}

// Set the value, step 4: one node.
#[tactic(auto, using(edit_model::proofs::Steps::steps, edit_model::proofs::Steps::exits), unfolding(crate::specs::Selections::give_node, crate::specs::Selections::force_phrase))]
fn give_node(
    alloc: Global,
    doc: &mut Doc,
    value: Option<&[char]>,
    node: NodeRef,
    command: Command,
) -> Result<(), EditFault>
    requires open { IsOpen doc.old }
    requires node_held { Holds doc.old node }
    ensures gives { Gives result doc.old.state doc.new.state
        (give_node command (option_copied value.entry) node.label) }
    ensures keeps { Keeps doc.old doc.new }
{
    push_down(alloc, doc, value, node, command)?;
    if allowed_in_span(doc, node) {
        force(alloc, doc, value, node, command)?;
    }
    Ok(())
}

// Set the value, step 4: each node, in order.
#[tactic(auto, using(edit_model::proofs::Steps::eachs, edit_model::proofs::Steps::exits))]
fn give_each(
    alloc: Global,
    doc: &mut Doc,
    value: Option<&[char]>,
    list: &[NodeRef],
    command: Command,
) -> Result<(), EditFault>
    requires open { IsOpen doc.old }
    requires list_held { EachHeld doc.old list.now }
    ensures gives { Gives result doc.old.state doc.new.state
        (for_each (labels_of list.now) (give_node command (option_copied value.entry))) }
    ensures keeps { Keeps doc.old doc.new }
{
    for node in list {
        give_node(alloc, doc, value, *node, command)?;
    }
    Ok(())
}

/// Gives what the active range contains the value (HTML Editing APIs, "set the selection's value");
/// `None` is null. Where it contains nothing formattable, the command's override is set instead.
#[tactic(auto, using(edit_model::proofs::Steps::steps, edit_model::proofs::Steps::exits), unfolding(crate::specs::Selections::set_value, crate::specs::Selections::give_range, crate::specs::Selections::give_nodes))]
pub fn set_value(
    alloc: Global,
    doc: &mut Doc,
    value: Option<&[char]>,
    command: Command,
) -> Result<(), EditFault>
    requires open { IsOpen doc.old }
    ensures gives { Gives result doc.old.state doc.new.state
        (set_value command (option_copied value.entry)) }
    ensures keeps { Keeps doc.old doc.new }
{
    // step 1
    if first_formattable(alloc, doc, doc.host())?.is_none() {
        return set_overrides(alloc, doc, value, command);
    }
    split_ends(alloc, doc)?; // step 2
    clear_elements(alloc, doc, command)?; // step 3
    let list = editable_in_range(alloc, doc)?; // step 4
    give_each(alloc, doc, value, &list, command)
}
