//! Fixing disallowed ancestors. The steps are those of docs/ALGORITHMS.md.

ghost use Rattle.std.specs.Prelude.{◌≡◌, ◌&&◌, IfOk, true};
ghost use Rattle.edit_model.specs.DomModel.Contents.{is_element_at};
ghost use Rattle.wrap_split.specs.NodeStyles.Allowed as allowed;
ghost use Rattle.edit_model.specs.Gives.{Gives, labels_of};
ghost use Rattle.edit_model.specs.Confined as confined;
ghost use Rattle.edit_model.specs.Run.{for_each};
ghost use Rattle.wrap_split.specs.EditDoc.Whole.{IsOpen};
ghost use Rattle.wrap_split.specs.EditDoc.Held.{Holds, EachHeld, Keeps};
ghost use Rattle.edit_query.specs.Rows.{container_name};
ghost use Rattle.inline_value.specs.Ancestors.{is_prohibited, has_place, is_misplaced, lifted, lift, is_description, wrap_description, hosts_none, split_out, part_child, part_children, lift_renamed, rename, replace_misplaced, fix_ancestors};

use crate::recording::{record_values, restore_values};
use edit_model::dom::{Attributes, Name};
use edit_query::container_bytes;
use std::alloc::{AllocError, Global};
use wrap_split::doc::{Doc, EditFault, NodeList, NodeRef};
use wrap_split::questions::{allowed_in, has_name, name_allowed_in};
use wrap_split::{
    Blank, CopyMade, NamedSibling, WrapRule, split_around, split_parent, turn_bound, wrap,
};

/// Whether a node is an element that may not stand in a paragraph.
#[tactic(auto, unfolding(crate::specs::Ancestors::is_prohibited))]
pub fn is_prohibited(doc: &Doc, node: NodeRef) -> bool
    requires { Holds doc.now node }
    ensures { result ≡ is_prohibited doc.now.state node.label }
{
    edit_query::extend::is_prohibited(doc, node)
}

// Whether an ancestor is inside, and a node may stand in it.
fn takes(doc: &Doc, node: NodeRef, ancestor: NodeRef) -> bool
    requires node_held { Holds doc.now node }
    requires ancestor_held { Holds doc.now ancestor }
    ensures { result ≡ (confined.is_inside doc.now.state ancestor.label
        && allowed.allowed_in doc.now.state.trees node.label ancestor.label) }
{
    doc.is_inside(ancestor) && allowed_in(doc, node, ancestor)
}

/// Whether a node may stand in one of its ancestors that are inside.
pub fn has_place(doc: &Doc, node: NodeRef) -> bool
    requires { Holds doc.now node }
    ensures { result ≡ has_place doc.now.state node.label }
{
    doc.valid();
    let mut at = node;
    while let Some(parent) = doc.parent(at) {
        if takes(doc, node, parent) {
            return true;
        }
        at = parent;
    }
    false
}

// Whether a node may not stand in its parent.
fn is_misplaced(doc: &Doc, node: NodeRef) -> bool
    requires { Holds doc.now node }
    ensures { result ≡ is_misplaced doc.now.state node.label }
{
    match doc.parent(node) {
        Some(parent) => !allowed_in(doc, node, parent),
        None => false,
    }
}

// ---- step 3

// Fix disallowed ancestors, step 3: splits the parent as long as the node may not stand in it.
#[tactic(auto, using(edit_model::proofs::Steps::whiles, edit_model::proofs::Steps::exits), unfolding(crate::specs::Ancestors::lifted))]
fn lift_out(alloc: Global, doc: &mut Doc, node: NodeRef) -> Result<(), EditFault>
    requires open { IsOpen doc.old }
    requires node_held { Holds doc.old node }
    ensures gives { Gives result doc.old.state doc.new.state (lifted node.label) }
    ensures keeps { Keeps doc.old doc.new }
{
    let mut turns = turn_bound(doc);
    while turns > 0 && is_misplaced(doc, node) {
        split_around(alloc, doc, node)?;
        turns -= 1;
    }
    Ok(())
}

// Fix disallowed ancestors, step 3.
#[tactic(auto, using(edit_model::proofs::Steps::steps, edit_model::proofs::Steps::exits), unfolding(crate::specs::Ancestors::lift, crate::specs::Recording::record_values))]
fn lift(alloc: Global, doc: &mut Doc, node: NodeRef) -> Result<(), EditFault>
    requires open { IsOpen doc.old }
    requires node_held { Holds doc.old node }
    ensures gives { Gives result doc.old.state doc.new.state (lift node.label) }
    ensures keeps { Keeps doc.old doc.new }
{
    let values = record_values(alloc, doc, &[node])?;
    lift_out(alloc, doc, node)?;
    restore_values(alloc, doc, &values)
}

// ---- step 2

/// Whether a node is a dd or dt.
#[tactic(auto, unfolding(crate::specs::Ancestors::is_description))]
pub fn is_description(doc: &Doc, node: NodeRef) -> bool
    requires { Holds doc.now node }
    ensures { result ≡ is_description doc.now.state node.label }
{
    has_name(doc, node, b"dd") || has_name(doc, node, b"dt")
}

// Fix disallowed ancestors, step 2 a: an item of a description list gets one.
#[tactic(auto, using(edit_model::proofs::Steps::steps, edit_model::proofs::Steps::exits), unfolding(crate::specs::Ancestors::wrap_description))]
fn wrap_description(alloc: Global, doc: &mut Doc, node: NodeRef) -> Result<(), EditFault>
    requires open { IsOpen doc.old }
    requires node_held { Holds doc.old node }
    ensures gives { Gives result doc.old.state doc.new.state (wrap_description node.label) }
    ensures keeps { Keeps doc.old doc.new }
{
    let test = NamedSibling {
        name: Name::from_slice(alloc, b"dl")?,
        bare: true,
    };
    let blank = Blank {
        name: Name::from_slice(alloc, b"dl")?,
        attributes: Attributes::new(alloc),
    };
    let rule = WrapRule::new(test, CopyMade { blank });
    let list = NodeList::from_slice(alloc, &[node])?;
    wrap(alloc, doc, list, &rule)?;
    Ok(())
}

// Fix disallowed ancestors, step 2 b: whether no paragraph may stand in the affected host.
#[tactic(auto, unfolding(crate::specs::Ancestors::hosts_none))]
fn hosts_none(doc: &Doc) -> bool
    ensures { result ≡ hosts_none doc.now.state }
{
    match doc.host() {
        Some(host) => !name_allowed_in(doc, b"p", host),
        None => true,
    }
}

/// Splits the parent of a node round it (fix disallowed ancestors, step 2 d). The node keeps its
/// values.
#[tactic(auto, using(edit_model::proofs::Steps::steps, edit_model::proofs::Steps::exits), unfolding(crate::specs::Ancestors::split_out, crate::specs::Recording::record_values))]
pub fn split_out(alloc: Global, doc: &mut Doc, child: NodeRef) -> Result<(), EditFault>
    requires open { IsOpen doc.old }
    requires child_held { Holds doc.old child }
    ensures gives { Gives result doc.old.state doc.new.state (split_out child.label) }
    ensures keeps { Keeps doc.old doc.new }
{
    let values = record_values(alloc, doc, &[child])?;
    let list = NodeList::from_slice(alloc, &[child])?;
    split_parent(alloc, doc, &list)?;
    restore_values(alloc, doc, &values)
}

// Fix disallowed ancestors, step 2 d: a child leaves the node where it may not stand in a
// paragraph.
#[tactic(auto, using(edit_model::proofs::Steps::steps, edit_model::proofs::Steps::exits), unfolding(crate::specs::Ancestors::part_child))]
fn part_child(alloc: Global, doc: &mut Doc, child: NodeRef) -> Result<(), EditFault>
    requires open { IsOpen doc.old }
    requires child_held { Holds doc.old child }
    ensures gives { Gives result doc.old.state doc.new.state (part_child child.label) }
    ensures keeps { Keeps doc.old doc.new }
{
    if is_prohibited(doc, child) {
        split_out(alloc, doc, child)?;
    }
    Ok(())
}

// Fix disallowed ancestors, step 2 d: each child, in order.
#[tactic(auto, using(edit_model::proofs::Steps::eachs, edit_model::proofs::Steps::exits))]
fn part_each(alloc: Global, doc: &mut Doc, list: &[NodeRef]) -> Result<(), EditFault>
    requires open { IsOpen doc.old }
    requires list_held { EachHeld doc.old list.now }
    ensures gives { Gives result doc.old.state doc.new.state
        (for_each (labels_of list.now) part_child) }
    ensures keeps { Keeps doc.old doc.new }
{
    for child in list {
        part_child(alloc, doc, *child)?;
    }
    Ok(())
}

// Fix disallowed ancestors, step 2 d.
#[tactic(auto, using(edit_model::proofs::Steps::steps, edit_model::proofs::Steps::exits), unfolding(crate::specs::Ancestors::part_children))]
fn part_children(alloc: Global, doc: &mut Doc, node: NodeRef) -> Result<(), EditFault>
    requires open { IsOpen doc.old }
    requires node_held { Holds doc.old node }
    ensures gives { Gives result doc.old.state doc.new.state (part_children node.label) }
    ensures keeps { Keeps doc.old doc.new }
{
    let children = doc.children_of(node)?;
    part_each(alloc, doc, &children)
}

// Fix disallowed ancestors, steps 2 c and 2 d, of the renamed node.
#[tactic(auto, using(edit_model::proofs::Steps::steps, edit_model::proofs::Steps::exits), unfolding(crate::specs::Ancestors::lift_renamed))]
fn lift_renamed(alloc: Global, doc: &mut Doc, node: NodeRef) -> Result<(), EditFault>
    requires open { IsOpen doc.old }
    requires node_held { Holds doc.old node }
    ensures gives { Gives result doc.old.state doc.new.state (lift_renamed node.label) }
    ensures keeps { Keeps doc.old doc.new }
{
    lift(alloc, doc, node)?;
    part_children(alloc, doc, node)
}

/// The name of the default single-line container.
pub fn container_name(alloc: Global, paragraphs: bool) -> Result<Name, AllocError>
    ensures { IfOk result (λ name. name ≡ container_name paragraphs) }
{
    Name::from_slice(alloc, container_bytes(paragraphs))
}

// Fix disallowed ancestors, steps 2 c and 2 d: the node becomes a default single-line container.
#[tactic(auto, using(edit_model::proofs::Steps::steps, edit_model::proofs::Steps::exits), unfolding(crate::specs::Ancestors::rename))]
fn rename(alloc: Global, doc: &mut Doc, node: NodeRef) -> Result<(), EditFault>
    requires open { IsOpen doc.old }
    requires node_held { Holds doc.old node }
    requires element { is_element_at doc.old.state.trees node.label ≡ true }
    ensures gives { Gives result doc.old.state doc.new.state (rename node.label) }
    ensures keeps { Keeps doc.old doc.new }
{
    let name = container_name(alloc, doc.flags().paragraphs)?;
    let renamed = doc.set_tag_name(node, &name)?;
    lift_renamed(alloc, doc, renamed)
}

// Fix disallowed ancestors, step 2.
#[tactic(auto, using(edit_model::proofs::Steps::steps, edit_model::proofs::Steps::exits), unfolding(crate::specs::Ancestors::replace_misplaced))]
fn replace_misplaced(alloc: Global, doc: &mut Doc, node: NodeRef) -> Result<(), EditFault>
    requires open { IsOpen doc.old }
    requires node_held { Holds doc.old node }
    ensures gives { Gives result doc.old.state doc.new.state (replace_misplaced node.label) }
    ensures keeps { Keeps doc.old doc.new }
{
    if is_description(doc, node) {
        return wrap_description(alloc, doc, node);
    }
    if hosts_none(doc) {
        return Ok(());
    }
    if !is_prohibited(doc, node) {
        return Ok(());
    }
    rename(alloc, doc, node)
}

/// Brings a node out of ancestors in which it may not stand, or renames it where it may stand in
/// none (HTML Editing APIs, "fix disallowed ancestors").
#[tactic(auto, using(edit_model::proofs::Steps::steps, edit_model::proofs::Steps::exits), unfolding(crate::specs::Ancestors::fix_ancestors))]
pub fn fix_ancestors(alloc: Global, doc: &mut Doc, node: NodeRef) -> Result<(), EditFault>
    requires open { IsOpen doc.old }
    requires node_held { Holds doc.old node }
    ensures gives { Gives result doc.old.state doc.new.state (fix_ancestors node.label) }
    ensures keeps { Keeps doc.old doc.new }
{
    // step 1
    if !doc.is_editable_for(node) {
        return Ok(());
    }
    if has_place(doc, node) {
        lift(alloc, doc, node)
    } else {
        replace_misplaced(alloc, doc, node)
    }
}
