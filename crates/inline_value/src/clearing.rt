//! Clearing the value of an element. The steps are those of docs/ALGORITHMS.md.

ghost use Rattle.std.specs.Prelude.{◌≡◌, IfOk};
ghost use Rattle.std.specs.Option.{option_copied};
ghost use Rattle.edit_model.specs.Gives.{Gives, GivesAs, labels_of};
ghost use Rattle.wrap_split.specs.EditDoc.Whole.{IsOpen};
ghost use Rattle.wrap_split.specs.EditDoc.Held.{Holds, EachHeld, Keeps};
ghost use Rattle.wrap_split.specs.CommandValue.Subjects.{subject};
ghost use Rattle.inline_value.specs.Clearing as spec;

use crate::styling::{decoration_of, set_style, unset_style};
use edit_model::dom::Name;
use edit_model::element_names::Command;
use std::alloc::Global;
use wrap_split::actions::unwrap;
use wrap_split::css::{DecorationLine, without_line};
use wrap_split::doc::{Doc, EditFault, NodeList, NodeRef};
use wrap_split::properties::Property;
use wrap_split::questions::has_name;
use wrap_split::values::{
    Subject, is_simple_modifiable_element, relevant_property, specifies, subject_of,
};

// The name of a property.
pub(crate) fn property_name(property: Property) -> &'static [u8]
    ensures { result.now ≡ spec.property_name property }
{
    match property {
        Property::Display => b"display",
        Property::WhiteSpace => b"white-space",
        Property::FontWeight => b"font-weight",
        Property::FontStyle => b"font-style",
        Property::FontFamily => b"font-family",
        Property::FontSize => b"font-size",
        Property::Color => b"color",
        Property::BackgroundColor => b"background-color",
        Property::TextDecoration => b"text-decoration",
        Property::TextAlign => b"text-align",
    }
}

// Clear the value, step 3: writes the words that are left of a text-decoration.
#[tactic(auto, using(edit_model::proofs::Steps::steps, edit_model::proofs::Steps::exits), unfolding(crate::specs::Clearing::write_words))]
fn write_words(alloc: Global, doc: &mut Doc, node: NodeRef, text: &[char]) -> Result<(), EditFault>
    requires open { IsOpen doc.old }
    requires node_held { Holds doc.old node }
    ensures gives { Gives result doc.old.state doc.new.state
        (spec.write_words node.label text.now) }
    ensures keeps { Keeps doc.old doc.new }
{
    if text.is_empty() {
        unset_style(alloc, doc, node, b"text-decoration")
    } else {
        set_style(alloc, doc, node, b"text-decoration", text)
    }
}

// Clear the value, step 3: the word of a line goes.
#[tactic(auto, using(edit_model::proofs::Steps::steps, edit_model::proofs::Steps::exits), unfolding(crate::specs::Clearing::drop_line))]
fn drop_line(
    alloc: Global,
    doc: &mut Doc,
    node: NodeRef,
    line: DecorationLine,
) -> Result<(), EditFault>
    requires open { IsOpen doc.old }
    requires node_held { Holds doc.old node }
    ensures gives { Gives result doc.old.state doc.new.state (spec.drop_line line node.label) }
    ensures keeps { Keeps doc.old doc.new }
{
    let Some(text) = decoration_of(doc, node) else {
        return Ok(());
    };
    let left = without_line(alloc, text, line)?;
    write_words(alloc, doc, node, &left)
}

// Clear the value, step 3.
#[tactic(auto, using(edit_model::proofs::Steps::steps, edit_model::proofs::Steps::exits))]
fn drop_word(alloc: Global, doc: &mut Doc, node: NodeRef, command: Command) -> Result<(), EditFault>
    requires open { IsOpen doc.old }
    requires node_held { Holds doc.old node }
    ensures gives { Gives result doc.old.state doc.new.state
        (spec.drop_word (subject command) node.label) }
    ensures keeps { Keeps doc.old doc.new }
{
    match subject_of(command) {
        Subject::Line(line) => drop_line(alloc, doc, node, line),
        _ => Ok(()),
    }
}

// Clear the value, step 4.
#[tactic(auto, using(edit_model::proofs::Steps::steps, edit_model::proofs::Steps::exits), unfolding(crate::specs::Clearing::drop_property))]
fn drop_property(
    alloc: Global,
    doc: &mut Doc,
    node: NodeRef,
    command: Command,
) -> Result<(), EditFault>
    requires open { IsOpen doc.old }
    requires node_held { Holds doc.old node }
    ensures gives { Gives result doc.old.state doc.new.state
        (spec.drop_property command node.label) }
    ensures keeps { Keeps doc.old doc.new }
{
    match relevant_property(command) {
        Some(property) => unset_style(alloc, doc, node, property_name(property)),
        None => Ok(()),
    }
}

// The attribute of a font that hints at a value.
fn hint_of(subject: Subject) -> Option<&'static [u8]>
    ensures { option_copied result ≡ spec.hint_of subject }
{
    match subject {
        Subject::Foreground => Some(b"color"),
        Subject::Family => Some(b"face"),
        Subject::Size => Some(b"size"),
        _ => None,
    }
}

// Clear the value, steps 5 and 6: takes an attribute from an element of a name.
#[tactic(auto, using(edit_model::proofs::Steps::steps, edit_model::proofs::Steps::exits), unfolding(crate::specs::Clearing::drop_attribute))]
fn drop_attribute(
    alloc: Global,
    doc: &mut Doc,
    node: NodeRef,
    name: &[u8],
    attribute: &[u8],
) -> Result<(), EditFault>
    requires open { IsOpen doc.old }
    requires node_held { Holds doc.old node }
    ensures gives { Gives result doc.old.state doc.new.state
        (spec.drop_attribute name.now attribute.now node.label) }
    ensures keeps { Keeps doc.old doc.new }
{
    if has_name(doc, node, name) {
        let attribute = Name::from_slice(alloc, attribute)?;
        doc.unset_attribute(node, &attribute)?;
    }
    Ok(())
}

// Clear the value, step 5.
#[tactic(auto, using(edit_model::proofs::Steps::steps, edit_model::proofs::Steps::exits), unfolding(crate::specs::Clearing::drop_hint))]
fn drop_hint(alloc: Global, doc: &mut Doc, node: NodeRef, command: Command) -> Result<(), EditFault>
    requires open { IsOpen doc.old }
    requires node_held { Holds doc.old node }
    ensures gives { Gives result doc.old.state doc.new.state (spec.drop_hint command node.label) }
    ensures keeps { Keeps doc.old doc.new }
{
    match hint_of(subject_of(command)) {
        Some(hint) => drop_attribute(alloc, doc, node, b"font", hint),
        None => Ok(()),
    }
}

// Clear the value, step 6.
#[tactic(auto, using(edit_model::proofs::Steps::steps, edit_model::proofs::Steps::exits))]
fn drop_link(alloc: Global, doc: &mut Doc, node: NodeRef, command: Command) -> Result<(), EditFault>
    requires open { IsOpen doc.old }
    requires node_held { Holds doc.old node }
    ensures gives { Gives result doc.old.state doc.new.state
        (spec.drop_link (subject command) node.label) }
    ensures keeps { Keeps doc.old doc.new }
{
    match subject_of(command) {
        Subject::Link => drop_attribute(alloc, doc, node, b"a", b"href"),
        _ => Ok(()),
    }
}

// Clear the value, steps 7 and 8: an element that still gives the command a value becomes a span.
#[tactic(auto, using(edit_model::proofs::Steps::steps, edit_model::proofs::Steps::exits, crate::proofs::Clears::exit_list, crate::proofs::Clears::specifies_element), unfolding(crate::specs::Clearing::span_for))]
fn span_for(
    alloc: Global,
    doc: &mut Doc,
    node: NodeRef,
    command: Command,
) -> Result<NodeList, EditFault>
    requires open { IsOpen doc.old }
    requires node_held { Holds doc.old node }
    ensures gives { GivesAs labels_of result doc.old.state doc.new.state
        (spec.span_for command node.label) }
    ensures held { IfOk result (λ list. EachHeld doc.new list) }
    ensures keeps { Keeps doc.old doc.new }
{
    if !specifies(doc, node, command) {
        return Ok(NodeList::from_slice(alloc, &[])?);
    }
    let name = Name::from_slice(alloc, b"span")?;
    let span = doc.set_tag_name(node, &name)?;
    Ok(NodeList::from_slice(alloc, &[span])?)
}

// Clear the value, steps 3 to 8.
#[tactic(auto, using(edit_model::proofs::Steps::steps, edit_model::proofs::Steps::exits, crate::proofs::Clears::exit_list), unfolding(crate::specs::Clearing::stripped))]
fn strip(
    alloc: Global,
    doc: &mut Doc,
    node: NodeRef,
    command: Command,
) -> Result<NodeList, EditFault>
    requires open { IsOpen doc.old }
    requires node_held { Holds doc.old node }
    ensures gives { GivesAs labels_of result doc.old.state doc.new.state
        (spec.stripped command node.label) }
    ensures held { IfOk result (λ list. EachHeld doc.new list) }
    ensures keeps { Keeps doc.old doc.new }
{
    drop_word(alloc, doc, node, command)?; // step 3
    drop_property(alloc, doc, node, command)?; // step 4
    drop_hint(alloc, doc, node, command)?; // step 5
    drop_link(alloc, doc, node, command)?; // step 6
    span_for(alloc, doc, node, command)
}

// Clear the value, step 2: the element gives way to its children.
#[tactic(auto, using(edit_model::proofs::Steps::steps, edit_model::proofs::Steps::exits, crate::proofs::Clears::exit_list), unfolding(crate::specs::Clearing::unwrapped))]
fn unwrapped(alloc: Global, doc: &mut Doc, node: NodeRef) -> Result<NodeList, EditFault>
    requires open { IsOpen doc.old }
    requires node_held { Holds doc.old node }
    ensures gives { GivesAs labels_of result doc.old.state doc.new.state
        (spec.unwrapped node.label) }
    ensures held { IfOk result (λ list. EachHeld doc.new list) }
    ensures keeps { Keeps doc.old doc.new }
{
    let children = doc.children_of(node)?;
    unwrap(doc, node)?;
    Ok(NodeList::from_slice(alloc, &children)?)
}

/// Clears the value that an element gives the command (HTML Editing APIs, "clear the value").
/// Answers what stands in its place: its children where it gave way to them, the span that it
/// became, or nothing where it stays.
#[tactic(auto, using(edit_model::proofs::Steps::steps, edit_model::proofs::Steps::exits, crate::proofs::Clears::exit_list), unfolding(crate::specs::Clearing::clear_value))]
pub fn clear_value(
    alloc: Global,
    doc: &mut Doc,
    node: NodeRef,
    command: Command,
) -> Result<NodeList, EditFault>
    requires open { IsOpen doc.old }
    requires node_held { Holds doc.old node }
    ensures gives { GivesAs labels_of result doc.old.state doc.new.state
        (spec.clear_value command node.label) }
    ensures held { IfOk result (λ list. EachHeld doc.new list) }
    ensures keeps { Keeps doc.old doc.new }
{
    if !doc.is_editable_for(node) || !specifies(doc, node, command) {
        return Ok(NodeList::from_slice(alloc, &[])?);
    }
    if is_simple_modifiable_element(doc, node) {
        unwrapped(alloc, doc, node)
    } else {
        strip(alloc, doc, node, command)
    }
}
