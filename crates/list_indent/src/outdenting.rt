//! Outdenting a node. The steps are those of docs/ALGORITHMS.md.

ghost use Rattle.std.specs.Prelude.{◌≡◌, true, ◌++◌, ◌∷◌, [], IfOk};
ghost use Rattle.edit_model.specs.HtmlNames.BoxNames.{box_names};
ghost use Rattle.edit_model.specs.Confined.{is_inside};
ghost use Rattle.edit_model.specs.Gives.{Gives, label_of, labels_of};
ghost use Rattle.edit_model.specs.Run.{for_each, unset_attribute};
ghost use Rattle.inline_value.specs.EditDoc.Whole.{IsOpen};
ghost use Rattle.inline_value.specs.EditDoc.Held.{Holds, IfHeld, EachHeld, Finds, Keeps};
ghost use Rattle.inline_value.specs.Ancestors.{fix_ancestors};
ghost use Rattle.inline_value.specs.Styling.{unset_style};
ghost use Rattle.list_indent.specs.Gaps.{is_indented, keeps_place};
ghost use Rattle.list_indent.specs.Outdenting.{to_div, unindented, indents, is_passed, way_by, if_indents, way_of, released, outdent_list, outdent_node};

use crate::levels::part_levels;
use crate::lists::{is_in_list, is_list};
use edit_model::element_names::box_names;
use inline_value::doc::{Doc, EditFault, Name, NodeRef};
use inline_value::query::is_editable_inside;
use inline_value::questions::{is_element, is_indentation, is_simple_indentation};
use inline_value::wrap::{is_without_attributes, remove_keeping_children};
use inline_value::{fix_ancestors, record_values, restore_values, unset_style};
use std::alloc::{AllocError, Global};

// ---- steps 2 and 3

// Unsets the attribute of a name.
#[tactic(auto, using(edit_model::proofs::Steps::steps, edit_model::proofs::Steps::exits))]
fn unset(alloc: Global, doc: &mut Doc, node: NodeRef, name: &[u8]) -> Result<bool, EditFault>
    requires open { IsOpen doc.old }
    requires node_held { Holds doc.old node }
    ensures gives { Gives result doc.old.state doc.new.state (unset_attribute node.label name.now) }
    ensures keeps { Keeps doc.old doc.new }
{
    let name = Name::from_slice(alloc, name)?;
    doc.unset_attribute(node, &name)
}

// Steps 3 and 5: names an element div.
#[tactic(auto, using(edit_model::proofs::Steps::steps, edit_model::proofs::Steps::exits), unfolding(crate::specs::Outdenting::to_div))]
fn name_div(alloc: Global, doc: &mut Doc, node: NodeRef) -> Result<(), EditFault>
    requires open { IsOpen doc.old }
    requires node_held { Holds doc.old node }
    ensures gives { Gives result doc.old.state doc.new.state (to_div node.label) }
    ensures keeps { Keeps doc.old doc.new }
{
    if is_element(doc, node) {
        let name = Name::from_slice(alloc, b"div")?;
        doc.set_tag_name(node, &name)?;
    }
    Ok(())
}

// Step 3: unsets the box properties in the style of an element.
fn unset_boxes(alloc: Global, doc: &mut Doc, node: NodeRef) -> Result<(), EditFault>
    requires open { IsOpen doc.old }
    requires node_held { Holds doc.old node }
    ensures gives { Gives result doc.old.state doc.new.state
        (for_each box_names (unset_style node.label)) }
    ensures keeps { Keeps doc.old doc.new }
{
    let names = box_names();
    for name in names {
        unset_style(alloc, doc, node, name)?;
    }
    Ok(())
}

// Step 2 or 3, whichever applies.
#[tactic(auto, using(edit_model::proofs::Steps::steps, edit_model::proofs::Steps::exits), unfolding(crate::specs::Outdenting::unboxed, crate::specs::Outdenting::unindented))]
fn unindent(alloc: Global, doc: &mut Doc, node: NodeRef) -> Result<(), EditFault>
    requires open { IsOpen doc.old }
    requires node_held { Holds doc.old node }
    ensures gives { Gives result doc.old.state doc.new.state (unindented node.label) }
    ensures keeps { Keeps doc.old doc.new }
{
    if is_simple_indentation(doc, node) {
        return remove_keeping_children(alloc, doc, node); // step 2
    }
    if !is_indentation(doc, node) {
        return Ok(());
    }
    unset(alloc, doc, node, b"dir")?; // step 3
    unset_boxes(alloc, doc, node)?;
    name_div(alloc, doc, node)
}

// ---- step 4

// Whether a node is an indentation element; with `simple`, a simple one.
fn indents(doc: &Doc, simple: bool, node: NodeRef) -> bool
    requires { Holds doc.now node }
    ensures { result ≡ indents simple doc.now.state node.label }
{
    if simple {
        is_simple_indentation(doc, node)
    } else {
        is_indentation(doc, node)
    }
}

// Whether an ancestor is passed on the way up.
#[tactic(auto, unfolding(crate::specs::Outdenting::is_passed))]
fn is_passed(doc: &Doc, simple: bool, inside: bool, node: NodeRef) -> bool
    requires held { Holds doc.now node }
    requires known { inside ≡ true → is_inside doc.now.state node.label ≡ true }
    ensures { result ≡ is_passed simple doc.now.state node.label }
{
    is_editable_inside(doc, inside, node)
        && is_element(doc, node)
        && !indents(doc, simple, node)
        && !is_list(doc, node)
}

/// The ancestors that are passed on the way up, the nearest first, and the next one.
#[derive(Drop)]
struct Way {
    passed: Vec<NodeRef>,
    next: Option<NodeRef>,
}

// The way up to the next indentation element; with `simple`, to a simple one.
fn way_by(alloc: Global, doc: &Doc, simple: bool, node: NodeRef) -> Result<Way, AllocError>
    requires { Holds doc.now node }
    ensures held { IfOk result (λ way. EachHeld doc.now way.passed.items) }
    ensures passed { IfOk result (λ way. labels_of way.passed.items
        ≡ (way_by simple doc.now.state node.label).0) }
    ensures next { IfOk result (λ way.
        Finds doc.now way.next (way_by simple doc.now.state node.label).1) }
{
    doc.valid();
    let mut passed = Vec::new(alloc);
    let mut at = doc.parent(node);
    let mut inside = false;
    while let Some(ancestor) = at {
        if !is_passed(doc, simple, inside, ancestor) {
            return Ok(Way { passed, next: at });
        }
        passed.push(ancestor)?;
        at = doc.parent(ancestor);
        inside = true;
    }
    Ok(Way { passed, next: None })
}

// A node that may be there, if it is editable and indents.
fn if_indents(doc: &Doc, simple: bool, node: Option<NodeRef>) -> Option<NodeRef>
    requires { IfHeld doc.now node }
    ensures { Finds doc.now result (if_indents simple doc.now.state (label_of node)) }
{
    let node = node?;
    if doc.is_editable_for(node) && indents(doc, simple, node) {
        Some(node)
    } else {
        None
    }
}

// The way up to a simple indentation element, or else to any.
#[tactic(auto, unfolding(crate::specs::Outdenting::way_of))]
fn way_of(alloc: Global, doc: &Doc, node: NodeRef) -> Result<Way, AllocError>
    requires { Holds doc.now node }
    ensures held { IfOk result (λ way. EachHeld doc.now way.passed.items) }
    ensures passed { IfOk result (λ way. labels_of way.passed.items
        ≡ (way_of doc.now.state node.label).0) }
    ensures next { IfOk result (λ way.
        Finds doc.now way.next (way_of doc.now.state node.label).1) }
{
    let way = way_by(alloc, doc, true, node)?;
    if if_indents(doc, true, way.next).is_some() {
        return Ok(way);
    }
    way_by(alloc, doc, false, node)
}

// ---- step 5

// The list becomes a div, or it goes, and its children keep their values.
#[tactic(auto, using(edit_model::proofs::Steps::steps, edit_model::proofs::Steps::exits), unfolding(crate::specs::Outdenting::unwrapped, crate::specs::Outdenting::released, inline_value::specs::Recording::record_values))]
fn release(
    alloc: Global,
    doc: &mut Doc,
    node: NodeRef,
    children: &[NodeRef],
) -> Result<(), EditFault>
    requires open { IsOpen doc.old }
    requires node_held { Holds doc.old node }
    requires children_held { EachHeld doc.old children.now }
    ensures gives { Gives result doc.old.state doc.new.state
        (released node.label (labels_of children.now)) }
    ensures keeps { Keeps doc.old doc.new }
{
    if !is_without_attributes(doc, node) && !is_in_list(doc, node) {
        return name_div(alloc, doc, node);
    }
    let values = record_values(alloc, doc, children)?;
    remove_keeping_children(alloc, doc, node)?;
    restore_values(alloc, doc, &values)
}

// Outdent a node, step 5: fixes disallowed ancestors of each node of a list.
#[tactic(auto, using(edit_model::proofs::Steps::eachs, edit_model::proofs::Steps::exits))]
pub(crate) fn fix_each(alloc: Global, doc: &mut Doc, list: &[NodeRef]) -> Result<(), EditFault>
    requires open { IsOpen doc.old }
    requires list_held { EachHeld doc.old list.now }
    ensures gives { Gives result doc.old.state doc.new.state
        (for_each (labels_of list.now) fix_ancestors) }
    ensures keeps { Keeps doc.old doc.new }
{
    for node in list {
        fix_ancestors(alloc, doc, *node)?;
    }
    Ok(())
}

// Step 5: a list that stands in no indentation element.
#[tactic(auto, using(edit_model::proofs::Steps::steps, edit_model::proofs::Steps::exits), unfolding(crate::specs::Outdenting::outdent_list))]
fn outdent_list(alloc: Global, doc: &mut Doc, node: NodeRef) -> Result<(), EditFault>
    requires open { IsOpen doc.old }
    requires node_held { Holds doc.old node }
    ensures gives { Gives result doc.old.state doc.new.state (outdent_list node.label) }
    ensures keeps { Keeps doc.old doc.new }
{
    unset(alloc, doc, node, b"reversed")?;
    unset(alloc, doc, node, b"start")?;
    unset(alloc, doc, node, b"type")?;
    let children = doc.children_of(node)?;
    release(alloc, doc, node, &children)?;
    fix_each(alloc, doc, &children)
}

// ---- the whole

// Step 6: appends C to A.
fn with_end(passed: Vec<NodeRef>, end: NodeRef) -> Result<Vec<NodeRef>, AllocError>
    ensures { IfOk result (λ way. way.items ≡ passed.items ++ (end ∷ [])) }
{
    let mut way = passed;
    way.push(end)?;
    Ok(way)
}

// Whether an indentation element is among the ancestors of a node.
fn is_indented(doc: &Doc, node: NodeRef) -> bool
    requires { Holds doc.now node }
    ensures { result ≡ is_indented doc.now.state node.label }
{
    doc.valid();
    let mut at = doc.parent(node);
    while let Some(ancestor) = at {
        if is_indentation(doc, ancestor) {
            return true;
        }
        at = doc.parent(ancestor);
    }
    false
}

// Whether no step changes a node, by what it and its ancestors are. It takes longer to ask whether
// one is editable.
#[tactic(auto, unfolding(crate::specs::Gaps::keeps_place))]
fn keeps_place(doc: &Doc, node: NodeRef) -> bool
    requires { Holds doc.now node }
    ensures { result ≡ keeps_place doc.now.state node.label }
{
    !is_indentation(doc, node) && !is_list(doc, node) && !is_indented(doc, node)
}

/// Outdents a node: an indentation element goes, or is one no more; a list in none gives way to its
/// items; any other node comes out of the indentation element around it, in which what stands
/// beside it is indented again. A node that isn't editable stays as it is.
#[tactic(auto, using(edit_model::proofs::Steps::steps, edit_model::proofs::Steps::exits, crate::proofs::Downward::reversed_end), unfolding(crate::specs::Outdenting::outdent_through, crate::specs::Outdenting::outdent_along, crate::specs::Outdenting::outdent_node))]
pub fn outdent_node(alloc: Global, doc: &mut Doc, node: NodeRef) -> Result<(), EditFault>
    requires open { IsOpen doc.old }
    requires node_held { Holds doc.old node }
    ensures gives { Gives result doc.old.state doc.new.state (outdent_node node.label) }
    ensures keeps { Keeps doc.old doc.new }
{
    if keeps_place(doc, node) {
        return Ok(());
    }
    if !doc.is_editable_for(node) {
        return Ok(()); // step 1
    }
    if is_indentation(doc, node) {
        return unindent(alloc, doc, node); // steps 2 and 3
    }
    let way = way_of(alloc, doc, node)?; // step 4
    let Some(end) = if_indents(doc, false, way.next) else {
        if is_list(doc, node) {
            return outdent_list(alloc, doc, node); // step 5
        }
        return Ok(());
    };
    let levels = with_end(way.passed, end)?; // step 6
    part_levels(alloc, doc, node, &levels)?; // step 7
    unindent(alloc, doc, end) // step 8
}
