//! Pushing values down. The steps are those of docs/ALGORITHMS.md.

ghost use Rattle.std.specs.Prelude.{◌≡◌, ◌≤◌, ◌<◌, IfOk, Some, length, reverse, take};
ghost use Rattle.std.specs.Option.{option_copied};
ghost use Rattle.edit_model.specs.DomModel.Forest.{first_in};
ghost use Rattle.edit_model.specs.Gives.{Gives, label_of, labels_of};
ghost use Rattle.edit_model.specs.Run.{for_each};
ghost use Rattle.wrap_split.specs.EditDoc.Whole.{IsOpen};
ghost use Rattle.wrap_split.specs.EditDoc.Held.{Holds, EachHeld, IfHeld, Keeps};
ghost use Rattle.inline_value.specs.Pushing as spec;

use crate::clearing::clear_value;
use crate::forcing::{force, has_alike};
use crate::lineages::ancestors;
use edit_model::dom::Chars;
use edit_model::element_names::Command;
use std::alloc::{AllocError, Global};
use wrap_split::actions::is_same;
use wrap_split::doc::{Doc, EditFault, Kind, NodeRef};
use wrap_split::values::{specified, specifies, specifies_other};

// Whether a node is an editable element whose value isn't alike to the value.
fn is_other(doc: &Doc, value: Option<&[char]>, node: NodeRef, command: Command) -> bool
    requires { Holds doc.now node }
    ensures { result ≡ spec.is_other doc.now.state command (option_copied value.entry) node.label }
{
    doc.is_editable_for(node)
        && matches!(doc.kind(node), Kind::Element)
        && !has_alike(doc, value, node, command)
}

// Push down, step 2: of a list of ancestors, the first ones with another value.
#[tactic(auto, using(edit_model::proofs::Steps::labels_of_drop, edit_model::proofs::Steps::labels_of_end, edit_model::proofs::Steps::labels_of_push))]
fn leading_others(
    alloc: Global,
    doc: &Doc,
    value: Option<&[char]>,
    list: &[NodeRef],
    command: Command,
) -> Result<Vec<NodeRef>, AllocError>
    requires { EachHeld doc.now list.now }
    ensures held { IfOk result (λ others. EachHeld doc.now others.items) }
    ensures labels { IfOk result (λ others. labels_of others.items ≡ spec.leading
        (spec.is_other doc.now.state command (option_copied value.entry)) (labels_of list.now)) }
{
    let mut others = Vec::new(alloc);
    for node in list {
        if !is_other(doc, value, *node, command) {
            return Ok(others);
        }
        others.push(*node)?;
    }
    Ok(others)
}

// Push down, step 2: the ancestors with another value, the nearest first.
#[tactic(auto, unfolding(crate::specs::Pushing::others_above))]
fn others_above(
    alloc: Global,
    doc: &Doc,
    value: Option<&[char]>,
    node: NodeRef,
    command: Command,
) -> Result<Vec<NodeRef>, AllocError>
    requires { Holds doc.now node }
    ensures held { IfOk result (λ others. EachHeld doc.now others.items) }
    ensures labels { IfOk result (λ others. labels_of others.items
        ≡ spec.others_above doc.now.state command (option_copied value.entry) node.label) }
{
    let list = ancestors(alloc, doc, node)?;
    leading_others(alloc, doc, value, &list, command)
}

// Whether the parent of a node is an element.
fn has_element_above(doc: &Doc, node: NodeRef) -> bool
    requires { Holds doc.now node }
    ensures { result ≡ spec.has_element_above doc.now.state node.label }
{
    match doc.parent(node) {
        Some(parent) => matches!(doc.kind(parent), Kind::Element),
        None => false,
    }
}

// Push down, step 1.
#[tactic(auto, unfolding(crate::specs::Pushing::needs_none))]
fn needs_none(doc: &Doc, value: Option<&[char]>, node: NodeRef, command: Command) -> bool
    requires { Holds doc.now node }
    ensures { result
        ≡ spec.needs_none doc.now.state command (option_copied value.entry) node.label }
{
    !has_element_above(doc, node) || has_alike(doc, value, node, command)
}

// Push down, step 5: gives a child the value that its parent gave, unless it is the node, is the
// next ancestor, or gives another value.
#[tactic(auto, using(edit_model::proofs::Steps::steps, edit_model::proofs::Steps::exits), unfolding(crate::specs::Pushing::push_to, crate::specs::Pushing::is_passed))]
fn push_to(
    alloc: Global,
    doc: &mut Doc,
    value: Option<&[char]>,
    ends: (NodeRef, Option<NodeRef>),
    child: NodeRef,
    command: Command,
) -> Result<(), EditFault>
    requires open { IsOpen doc.old }
    requires child_held { Holds doc.old child }
    ensures gives { Gives result doc.old.state doc.new.state
        (spec.push_to command (option_copied value.entry) ends.0.label (label_of ends.1)
        child.label) }
    ensures keeps { Keeps doc.old doc.new }
{
    if child.label == ends.0.label
        || is_same(ends.1, child)
        || specifies_other(doc, child, command, value)
    {
        return Ok(());
    }
    force(alloc, doc, value, child, command)
}

// Push down, step 5: on each child, in order.
#[tactic(auto, using(edit_model::proofs::Steps::eachs, edit_model::proofs::Steps::exits))]
fn push_to_each(
    alloc: Global,
    doc: &mut Doc,
    value: Option<&[char]>,
    ends: (NodeRef, Option<NodeRef>),
    list: &[NodeRef],
    command: Command,
) -> Result<(), EditFault>
    requires open { IsOpen doc.old }
    requires list_held { EachHeld doc.old list.now }
    ensures gives { Gives result doc.old.state doc.new.state (for_each (labels_of list.now)
        (spec.push_to command (option_copied value.entry) ends.0.label (label_of ends.1))) }
    ensures keeps { Keeps doc.old doc.new }
{
    for child in list {
        push_to(alloc, doc, value, ends, *child, command)?;
    }
    Ok(())
}

// Push down, step 5: clears an element that gives a value.
#[tactic(auto, using(edit_model::proofs::Steps::steps, edit_model::proofs::Steps::exits), unfolding(crate::specs::Pushing::clear_level))]
fn clear_level(
    alloc: Global,
    doc: &mut Doc,
    node: NodeRef,
    command: Command,
) -> Result<(), EditFault>
    requires open { IsOpen doc.old }
    requires node_held { Holds doc.old node }
    ensures gives { Gives result doc.old.state doc.new.state (spec.clear_level command node.label) }
    ensures keeps { Keeps doc.old doc.new }
{
    if specifies(doc, node, command) {
        clear_value(alloc, doc, node, command)?;
    }
    Ok(())
}

// Push down, step 5: one turn, for the ancestor `above`, where `ends` is the node and the next
// ancestor.
#[tactic(auto, using(edit_model::proofs::Steps::steps, edit_model::proofs::Steps::exits), unfolding(crate::specs::Pushing::push_level))]
fn push_level(
    alloc: Global,
    doc: &mut Doc,
    value: Option<&[char]>,
    ends: (NodeRef, Option<NodeRef>),
    above: NodeRef,
    command: Command,
) -> Result<(), EditFault>
    requires open { IsOpen doc.old }
    requires above_held { Holds doc.old above }
    ensures gives { Gives result doc.old.state doc.new.state
        (spec.push_level command (option_copied value.entry) ends.0.label (label_of ends.1)
        above.label) }
    ensures keeps { Keeps doc.old doc.new }
{
    let children = doc.children_of(above)?;
    clear_level(alloc, doc, above, command)?;
    push_to_each(alloc, doc, value, ends, &children, command)
}

// The value of an element where it gives one, else the one from above.
fn own_or<'a>(own: &'a Option<Chars>, value: Option<&'a [char]>) -> Option<&'a [char]>
    ensures { option_copied result ≡ spec.own_or own.now (option_copied value.entry) }
{
    match own {
        Some(own) => Some(own.as_slice()),
        None => value,
    }
}

// The last of the first members of a list, so many.
#[tactic(auto, using(crate::proofs::Levels::last_of_some, crate::proofs::Levels::last_of_none))]
fn last_among(list: &[NodeRef], left: usize) -> Option<NodeRef>
    requires { left ≤ length list.now }
    ensures { label_of result ≡ first_in (reverse (labels_of (take left list.now))) }
{
    if left == 0 {
        None
    } else {
        Some(list[left - 1])
    }
}

// Push down, step 5: the first members of a list of ancestors, so many, the last one first.
#[tactic(auto, using(edit_model::proofs::Steps::steps, edit_model::proofs::Steps::exits, crate::proofs::Levels::levels))]
fn push_levels(
    alloc: Global,
    doc: &mut Doc,
    value: Option<&[char]>,
    node: NodeRef,
    list: &[NodeRef],
    left: usize,
    command: Command,
) -> Result<(), EditFault>
    requires open { IsOpen doc.old }
    requires list_held { EachHeld doc.old list.now }
    requires few { left ≤ length list.now }
    ensures gives { Gives result doc.old.state doc.new.state
        (spec.push_levels command (option_copied value.entry) node.label
        (reverse (labels_of (take left list.now)))) }
    ensures keeps { Keeps doc.old doc.new }
{
    if left == 0 {
        return Ok(());
    }
    let above = list[left - 1];
    let next = last_among(list, left - 1);
    let own = specified(alloc, doc, above, command)?;
    let value = own_or(&own, value);
    push_level(alloc, doc, value, (node, next), above, command)?;
    push_levels(alloc, doc, value, node, list, left - 1, command)
}

// Push down, step 4: whether the parent of the outermost ancestor hasn't the value.
fn lacks_above(doc: &Doc, value: Option<&[char]>, node: NodeRef, command: Command) -> bool
    requires { Holds doc.now node }
    ensures { result
        ≡ spec.lacks_above doc.now.state command (option_copied value.entry) node.label }
{
    match doc.parent(node) {
        Some(parent) => !has_alike(doc, value, parent, command),
        None => false,
    }
}

// Push down, steps 3 and 4.
#[tactic(auto, unfolding(crate::specs::Pushing::is_hopeless))]
fn is_hopeless(doc: &Doc, value: Option<&[char]>, node: NodeRef, command: Command) -> bool
    requires { Holds doc.now node }
    ensures { result
        ≡ spec.is_hopeless doc.now.state command (option_copied value.entry) node.label }
{
    value.is_some() && (!specifies(doc, node, command) || lacks_above(doc, value, node, command))
}

// Whether an ancestor of a node gives a value. Where none does, nothing is pushed down: to ask this
// first costs the depth, where the steps would go to the siblings of each ancestor.
fn is_given_above(doc: &Doc, node: NodeRef, command: Command) -> bool
    requires { Holds doc.now node }
    ensures { result ≡ spec.is_given_above doc.now.state command node.label }
{
    doc.valid();
    let mut at = node;
    while let Some(parent) = doc.parent(at) {
        if specifies(doc, parent, command) {
            return true;
        }
        at = parent;
    }
    false
}

// Push down, from step 2 on.
#[tactic(auto, using(edit_model::proofs::Steps::steps, edit_model::proofs::Steps::exits, edit_model::proofs::Steps::ends, edit_model::proofs::Steps::back_start), unfolding(crate::specs::Pushing::push_listed, crate::specs::Pushing::push_from))]
fn push_listed(
    alloc: Global,
    doc: &mut Doc,
    value: Option<&[char]>,
    node: NodeRef,
    list: &[NodeRef],
    command: Command,
) -> Result<(), EditFault>
    requires open { IsOpen doc.old }
    requires list_held { EachHeld doc.old list.now }
    ensures gives { Gives result doc.old.state doc.new.state
        (spec.push_listed command (option_copied value.entry) node.label (labels_of list.now)) }
    ensures keeps { Keeps doc.old doc.new }
{
    if list.len() == 0 {
        return Ok(());
    }
    let outer = list[list.len() - 1]; // step 2
    if is_hopeless(doc, value, outer, command) {
        return Ok(()); // steps 3 and 4
    }
    let own = specified(alloc, doc, outer, command)?; // step 5
    push_levels(
        alloc,
        doc,
        own_or(&own, None),
        node,
        list,
        list.len(),
        command,
    )
}

/// Takes from a node the values other than this one that its ancestors give it, by giving them to
/// their other children (HTML Editing APIs, "push down values"). `None` is null.
#[tactic(auto, using(edit_model::proofs::Steps::steps, edit_model::proofs::Steps::exits), unfolding(crate::specs::Pushing::push_down))]
pub fn push_down(
    alloc: Global,
    doc: &mut Doc,
    value: Option<&[char]>,
    node: NodeRef,
    command: Command,
) -> Result<(), EditFault>
    requires open { IsOpen doc.old }
    requires node_held { Holds doc.old node }
    ensures gives { Gives result doc.old.state doc.new.state
        (spec.push_down command (option_copied value.entry) node.label) }
    ensures keeps { Keeps doc.old doc.new }
{
    if !is_given_above(doc, node, command) {
        return Ok(());
    }
    if needs_none(doc, value, node, command) {
        return Ok(());
    }
    let list = others_above(alloc, doc, value, node, command)?;
    push_listed(alloc, doc, value, node, &list, command)
}
