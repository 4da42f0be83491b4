//! Forcing a value on a node. The steps are those of docs/ALGORITHMS.md.

ghost use Rattle.std.specs.Prelude.{◌≡◌, IfOk, [], Some};
ghost use Rattle.std.specs.Option.{option_copied};
ghost use Rattle.wrap_split.specs.CommandValue.Subjects.{subject};
ghost use Rattle.edit_model.specs.Gives.{Gives, GivesNode, labels_of};
ghost use Rattle.edit_model.specs.Run.{for_each};
ghost use Rattle.wrap_split.specs.EditDoc.Whole.{IsOpen};
ghost use Rattle.wrap_split.specs.EditDoc.Held.{Holds, EachHeld, Keeps};
ghost use Rattle.inline_value.specs.Forcing as spec;

use crate::clearing::property_name;
use crate::lineages::ancestors;
use crate::reordering::reorder;
use crate::styling::set_style;
use crate::wrappers::wrapper_for;
use edit_model::dom::{Chars, Name};
use edit_model::element_names::Command;
use std::alloc::{AllocError, Global};
use wrap_split::actions::{insert_before, move_before};
use wrap_split::doc::{Doc, EditFault, Kind, NodeList, NodeRef};
use wrap_split::questions::{allowed_in_name, has_name, is_visible};
use wrap_split::values::{
    Subject, has_alike_value, relevant_property, specifies_other, subject_of,
};
use wrap_split::{NothingMade, SameValueSibling, WrapRule, wrap};

// Whether a node may stand in a span.
fn is_phrase(doc: &Doc, node: NodeRef) -> bool
    requires { Holds doc.now node }
    ensures { result ≡ spec.is_phrase doc.now.state node.label }
{
    allowed_in_name(doc, node, b"span")
}

// Whether the effective value of a node is alike to a value.
#[tactic(auto, unfolding(crate::specs::Forcing::has_alike))]
pub(crate) fn has_alike(doc: &Doc, value: Option<&[char]>, node: NodeRef, command: Command) -> bool
    requires { Holds doc.now node }
    ensures { result ≡ spec.has_alike doc.now.state node.label command (option_copied value.entry) }
{
    has_alike_value(doc, node, command, value)
}

// Force the value, step 2: a sibling that gives the value takes the node in.
#[tactic(auto, using(edit_model::proofs::Steps::steps, edit_model::proofs::Steps::exits), unfolding(crate::specs::Forcing::joined, crate::specs::Forcing::reorder_prev, crate::specs::Forcing::reorder_next))]
fn join(
    alloc: Global,
    doc: &mut Doc,
    value: &[char],
    node: NodeRef,
    command: Command,
) -> Result<(), EditFault>
    requires open { IsOpen doc.old }
    requires node_held { Holds doc.old node }
    ensures gives { Gives result doc.old.state doc.new.state
        (spec.joined command value.now node.label) }
    ensures keeps { Keeps doc.old doc.new }
{
    if let Some(prev) = doc.prev(node) {
        reorder(doc, prev, value, command)?;
    }
    if let Some(next) = doc.next(node) {
        reorder(doc, next, value, command)?;
    }
    let value = Chars::from_slice(alloc, value)?;
    let rule = WrapRule::new(SameValueSibling { command, value }, NothingMade);
    let list = NodeList::from_slice(alloc, &[node])?;
    wrap(alloc, doc, list, &rule)?;
    Ok(())
}

// Force the value, step 5, line a: an editable link becomes a span.
#[tactic(auto, using(edit_model::proofs::Steps::steps, edit_model::proofs::Steps::exits), unfolding(crate::specs::Forcing::rename_link))]
fn rename_link(alloc: Global, doc: &mut Doc, node: NodeRef) -> Result<(), EditFault>
    requires open { IsOpen doc.old }
    requires node_held { Holds doc.old node }
    ensures gives { Gives result doc.old.state doc.new.state (spec.rename_link node.label) }
    ensures keeps { Keeps doc.old doc.new }
{
    if doc.is_editable_for(node) && has_name(doc, node, b"a") {
        let name = Name::from_slice(alloc, b"span")?;
        doc.set_tag_name(node, &name)?;
    }
    Ok(())
}

// Force the value, step 5, line a: each of the links.
#[tactic(auto, using(edit_model::proofs::Steps::eachs, edit_model::proofs::Steps::exits))]
fn rename_each(alloc: Global, doc: &mut Doc, list: &[NodeRef]) -> Result<(), EditFault>
    requires open { IsOpen doc.old }
    requires list_held { EachHeld doc.old list.now }
    ensures gives { Gives result doc.old.state doc.new.state
        (for_each (labels_of list.now) spec.rename_link) }
    ensures keeps { Keeps doc.old doc.new }
{
    for node in list {
        rename_link(alloc, doc, *node)?;
    }
    Ok(())
}

// Force the value, step 5, line a: the links around a node become spans.
#[tactic(auto, using(edit_model::proofs::Steps::steps, edit_model::proofs::Steps::exits), unfolding(crate::specs::Forcing::rename_links))]
fn rename_links(alloc: Global, doc: &mut Doc, node: NodeRef) -> Result<(), EditFault>
    requires open { IsOpen doc.old }
    requires node_held { Holds doc.old node }
    ensures gives { Gives result doc.old.state doc.new.state (spec.rename_links node.label) }
    ensures keeps { Keeps doc.old doc.new }
{
    let list = ancestors(alloc, doc, node)?;
    rename_each(alloc, doc, &list)
}

// Force the value, step 5, line a: for createLink and unlink alone.
#[tactic(auto, using(edit_model::proofs::Steps::steps, edit_model::proofs::Steps::exits))]
fn clear_way(alloc: Global, doc: &mut Doc, node: NodeRef, command: Command) -> Result<(), EditFault>
    requires open { IsOpen doc.old }
    requires node_held { Holds doc.old node }
    ensures gives { Gives result doc.old.state doc.new.state
        (spec.clear_way (subject command) node.label) }
    ensures keeps { Keeps doc.old doc.new }
{
    match subject_of(command) {
        Subject::Link => rename_links(alloc, doc, node),
        _ => Ok(()),
    }
}

// Force the value, step 5: makes the element that is to give the value.
#[tactic(auto, using(edit_model::proofs::Steps::steps, edit_model::proofs::Steps::exits), unfolding(crate::specs::Forcing::make_wrapper))]
fn make_wrapper(
    alloc: Global,
    doc: &mut Doc,
    value: &[char],
    node: NodeRef,
    command: Command,
) -> Result<NodeRef, EditFault>
    requires open { IsOpen doc.old }
    requires node_held { Holds doc.old node }
    ensures gives { GivesNode result doc.old.state doc.new.state
        (spec.make_wrapper command value.now node.label) }
    ensures held { IfOk result (λ made. Holds doc.new made) }
    ensures keeps { Keeps doc.old doc.new }
{
    clear_way(alloc, doc, node, command)?;
    let blank = wrapper_for(alloc, doc.flags().css_styling, command, value)?;
    doc.make_element(&blank.name, &blank.attributes)
}

// Force the value, step 7: sets the relevant property, if there is one.
#[tactic(auto, using(edit_model::proofs::Steps::steps, edit_model::proofs::Steps::exits))]
fn set_property(
    alloc: Global,
    doc: &mut Doc,
    value: &[char],
    node: NodeRef,
    command: Command,
) -> Result<(), EditFault>
    requires open { IsOpen doc.old }
    requires node_held { Holds doc.old node }
    ensures gives { Gives result doc.old.state doc.new.state
        (spec.set_relevant command value.now node.label) }
    ensures keeps { Keeps doc.old doc.new }
{
    match relevant_property(command) {
        Some(property) => set_style(alloc, doc, node, property_name(property), value),
        None => Ok(()),
    }
}

// Force the value, step 7: sets what the command's subject takes.
#[tactic(auto, using(edit_model::proofs::Steps::steps, edit_model::proofs::Steps::exits))]
fn style_by(
    alloc: Global,
    doc: &mut Doc,
    value: &[char],
    node: NodeRef,
    command: Command,
) -> Result<(), EditFault>
    requires open { IsOpen doc.old }
    requires node_held { Holds doc.old node }
    ensures gives { Gives result doc.old.state doc.new.state
        (spec.style_by (subject command) command value.now node.label) }
    ensures keeps { Keeps doc.old doc.new }
{
    match subject_of(command) {
        Subject::Line(_) => set_style(alloc, doc, node, b"text-decoration", value),
        _ => set_property(alloc, doc, value, node, command),
    }
}

// Force the value, step 7: a new element that doesn't give the value gets a style.
#[tactic(auto, using(edit_model::proofs::Steps::steps, edit_model::proofs::Steps::exits), unfolding(crate::specs::Forcing::style_wrapper))]
fn style_wrapper(
    alloc: Global,
    doc: &mut Doc,
    value: &[char],
    made: NodeRef,
    command: Command,
) -> Result<(), EditFault>
    requires open { IsOpen doc.old }
    requires made_held { Holds doc.old made }
    ensures gives { Gives result doc.old.state doc.new.state
        (spec.style_wrapper command value.now made.label) }
    ensures keeps { Keeps doc.old doc.new }
{
    if has_alike(doc, Some(value), made, command) {
        Ok(())
    } else {
        style_by(alloc, doc, value, made, command)
    }
}

// Force the value, step 9: the node comes out of the new element, which goes.
#[tactic(auto, using(edit_model::proofs::Steps::steps, edit_model::proofs::Steps::exits), unfolding(crate::specs::Forcing::taken_back))]
fn take_back(doc: &mut Doc, node: NodeRef, made: NodeRef) -> Result<bool, EditFault>
    requires open { IsOpen doc.old }
    requires node_held { Holds doc.old node }
    requires made_held { Holds doc.old made }
    ensures gives { Gives result doc.old.state doc.new.state
        (spec.taken_back node.label made.label) }
    ensures keeps { Keeps doc.old doc.new }
{
    move_before(doc, made, node)?;
    doc.remove(made)?;
    Ok(true)
}

// Whether a node is an element that hasn't the value.
fn lacks(doc: &Doc, value: &[char], node: NodeRef, command: Command) -> bool
    requires { Holds doc.now node }
    ensures { result ≡ spec.lacks doc.now.state node.label command value.now }
{
    matches!(doc.kind(node), Kind::Element) && !has_alike(doc, Some(value), node, command)
}

// Force the value, step 9: an element that hasn't taken the value comes out again. Answers whether
// its children are to be given it.
#[tactic(auto, using(edit_model::proofs::Steps::steps, edit_model::proofs::Steps::exits), unfolding(crate::specs::Forcing::confirm_value))]
fn confirm_value(
    doc: &mut Doc,
    value: &[char],
    node: NodeRef,
    made: NodeRef,
    command: Command,
) -> Result<bool, EditFault>
    requires open { IsOpen doc.old }
    requires node_held { Holds doc.old node }
    requires made_held { Holds doc.old made }
    ensures gives { Gives result doc.old.state doc.new.state
        (spec.confirm_value command value.now node.label made.label) }
    ensures keeps { Keeps doc.old doc.new }
{
    if lacks(doc, value, node, command) {
        take_back(doc, node, made)
    } else {
        Ok(false)
    }
}

// Force the value, steps 5 to 9.
#[tactic(auto, using(edit_model::proofs::Steps::steps, edit_model::proofs::Steps::exits), unfolding(crate::specs::Forcing::wrapped, crate::specs::Forcing::put_in))]
fn wrap_node(
    alloc: Global,
    doc: &mut Doc,
    value: &[char],
    node: NodeRef,
    command: Command,
) -> Result<bool, EditFault>
    requires open { IsOpen doc.old }
    requires node_held { Holds doc.old node }
    ensures gives { Gives result doc.old.state doc.new.state
        (spec.wrapped command value.now node.label) }
    ensures keeps { Keeps doc.old doc.new }
{
    let made = make_wrapper(alloc, doc, value, node, command)?; // step 5
    insert_before(doc, node, made)?; // step 6
    style_wrapper(alloc, doc, value, made, command)?; // step 7
    doc.move_keeping(node, made, None)?; // step 8
    confirm_value(doc, value, node, made, command) // step 9
}

// Force the value, steps 1 to 9, for the node itself. Answers whether its children are to be given
// the value.
#[tactic(auto, using(edit_model::proofs::Steps::steps, edit_model::proofs::Steps::exits), unfolding(crate::specs::Forcing::force_self, crate::specs::Forcing::force_node, crate::specs::Forcing::unless_alike))]
fn force_self(
    alloc: Global,
    doc: &mut Doc,
    value: &[char],
    node: NodeRef,
    command: Command,
) -> Result<bool, EditFault>
    requires open { IsOpen doc.old }
    requires node_held { Holds doc.old node }
    ensures gives { Gives result doc.old.state doc.new.state
        (spec.force_self command value.now node.label) }
    ensures keeps { Keeps doc.old doc.new }
{
    if doc.parent(node).is_none() {
        return Ok(false); // step 1
    }
    if is_phrase(doc, node) {
        join(alloc, doc, value, node, command)?; // step 2
    }
    if !is_visible(doc, node) || has_alike(doc, Some(value), node, command) {
        return Ok(false); // step 3
    }
    if !is_phrase(doc, node) {
        return Ok(true); // step 4
    }
    wrap_node(alloc, doc, value, node, command)
}

// Force the value, steps 4 and 9: the children of an editable node.
#[tactic(auto, using(crate::proofs::Below::none_held), unfolding(crate::specs::Forcing::heirs))]
fn heirs(alloc: Global, doc: &Doc, node: NodeRef) -> Result<Vec<NodeRef>, AllocError>
    requires { Holds doc.now node }
    ensures held { IfOk result (λ list. EachHeld doc.now list.items) }
    ensures labels { IfOk result (λ list. labels_of list.items
        ≡ spec.heirs doc.now.state node.label) }
{
    if doc.is_editable_for(node) {
        doc.children_of(node)
    } else {
        Ok(Vec::new(alloc))
    }
}

// Force the value, steps 4 and 9: on a child, unless it gives another one.
#[cycle(nesting)]
#[tactic(auto, using(edit_model::proofs::Steps::steps, edit_model::proofs::Steps::exits), unfolding(crate::specs::Forcing::force_child))]
fn force_child(
    alloc: Global,
    doc: &mut Doc,
    fuel: u32,
    value: &[char],
    child: NodeRef,
    command: Command,
) -> Result<(), EditFault>
    requires open { IsOpen doc.old }
    requires child_held { Holds doc.old child }
    ensures gives { Gives result doc.old.state doc.new.state
        (spec.force_child (spec.forced fuel command value.now) command value.now child.label) }
    ensures keeps { Keeps doc.old doc.new }
{
    if specifies_other(doc, child, command, Some(value)) {
        return Ok(());
    }
    forced(alloc, doc, fuel, value, child, command)
}

// Force the value, steps 4 and 9: on each child, in order.
#[cycle(nesting)]
#[tactic(auto, using(edit_model::proofs::Steps::eachs, edit_model::proofs::Steps::exits))]
fn force_each(
    alloc: Global,
    doc: &mut Doc,
    fuel: u32,
    value: &[char],
    list: &[NodeRef],
    command: Command,
) -> Result<(), EditFault>
    requires open { IsOpen doc.old }
    requires list_held { EachHeld doc.old list.now }
    ensures gives { Gives result doc.old.state doc.new.state
        (for_each (labels_of list.now)
        (spec.force_child (spec.forced fuel command value.now) command value.now)) }
    ensures keeps { Keeps doc.old doc.new }
{
    for child in list {
        force_child(alloc, doc, fuel, value, *child, command)?;
    }
    Ok(())
}

// Force the value, steps 1 to 9, nested at most so deep.
#[cycle(nesting)]
#[tactic(auto, using(edit_model::proofs::Steps::steps, edit_model::proofs::Steps::exits, crate::proofs::Nested::nested))]
fn forced(
    alloc: Global,
    doc: &mut Doc,
    fuel: u32,
    value: &[char],
    node: NodeRef,
    command: Command,
) -> Result<(), EditFault>
    requires open { IsOpen doc.old }
    requires node_held { Holds doc.old node }
    ensures gives { Gives result doc.old.state doc.new.state
        (spec.forced fuel command value.now node.label) }
    ensures keeps { Keeps doc.old doc.new }
{
    if fuel == 0 {
        return Ok(());
    }
    if !force_self(alloc, doc, value, node, command)? {
        return Ok(());
    }
    let children = heirs(alloc, doc, node)?;
    force_each(alloc, doc, fuel - 1, value, &children, command)
}

/// Makes a node have a value, by an element around it or around its children (HTML Editing APIs,
/// "force the value"). A null value, `None`, is forced on no node.
#[tactic(auto, using(edit_model::proofs::Steps::steps, edit_model::proofs::Steps::exits), unfolding(crate::specs::Forcing::force, crate::specs::Forcing::force_value))]
pub fn force(
    alloc: Global,
    doc: &mut Doc,
    value: Option<&[char]>,
    node: NodeRef,
    command: Command,
) -> Result<(), EditFault>
    requires open { IsOpen doc.old }
    requires node_held { Holds doc.old node }
    ensures gives { Gives result doc.old.state doc.new.state
        (spec.force command (option_copied value.entry) node.label) }
    ensures keeps { Keeps doc.old doc.new }
{
    let Some(value) = value else {
        return Ok(());
    };
    let fuel = doc.counts().nodes;
    forced(alloc, doc, fuel, value, node, command)
}
