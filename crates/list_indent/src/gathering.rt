//! The items around the active range, and the nodes of the block-extended range that indent and
//! outdent go over.

ghost use Rattle.std.specs.Prelude.{◌≡◌, ◌++◌, ◌∷◌, [], OnOk, IfOk, IfSome, true, not, codes, filter};
ghost use Rattle.edit_model.specs.DomModel.Contents.{has_name};
ghost use Rattle.edit_model.specs.PointOrder.PointOrder.{is_within};
ghost use Rattle.edit_model.specs.Confined.{is_editable_for};
ghost use Rattle.edit_model.specs.Gives.{labels_of};
ghost use Rattle.inline_value.specs.EditDoc.Held.{Holds, EachHeld};
ghost use Rattle.list_indent.specs.Gaps.{TakesHost};
ghost use Rattle.list_indent.specs.Commands.{items_over, range_items, has_editable_below};

use crate::lists::{is_in_list, is_item, is_list};
use edit_model::boundary::node_of;
use edit_model::dom::Content;
use inline_value::actions::ends_of;
use inline_value::doc::{Doc, NodeRef};
use inline_value::extend::{Choice, allowed_in_div, begins_with, has_descendant};
use inline_value::questions::{allowed_in_name, is_within};
use std::alloc::{AllocError, Global};

// Appends a node, if it is an item.
fn push_if_item(list: &mut Vec<NodeRef>, doc: &Doc, node: NodeRef) -> Result<(), AllocError>
    requires node_held { Holds doc.now node }
    requires each_held { EachHeld doc.now list.old.items }
    ensures held { EachHeld doc.now list.new.items }
    ensures ok { OnOk result (labels_of list.new.items ≡ labels_of list.old.items ++ filter
        (λ l. has_name doc.now.state.trees l (codes "li")) (node.label ∷ [])) }
{
    if is_item(doc, node) {
        list.push(node)?;
    }
    Ok(())
}

/// Appends the items among a node and its ancestors, outermost first.
pub fn push_items(list: &mut Vec<NodeRef>, doc: &Doc, node: NodeRef) -> Result<(), AllocError>
    requires node_held { Holds doc.now node }
    requires each_held { EachHeld doc.now list.old.items }
    ensures held { EachHeld doc.now list.new.items }
    ensures ok { OnOk result
        (labels_of list.new.items ≡ labels_of list.old.items
        ++ items_over doc.now.state.trees node.label) }
{
    doc.valid();
    match doc.parent(node) {
        None => push_if_item(list, doc, node),
        Some(parent) => {
            push_items(list, doc, parent)?;
            push_if_item(list, doc, node)
        }
    }
}

// Appends those items of a list that a node isn't in.
fn push_apart(
    list: &mut Vec<NodeRef>,
    doc: &Doc,
    items: &[NodeRef],
    node: NodeRef,
) -> Result<(), AllocError>
    requires node_held { Holds doc.now node }
    requires items_held { EachHeld doc.now items.now }
    requires each_held { EachHeld doc.now list.old.items }
    ensures held { EachHeld doc.now list.new.items }
    ensures ok { OnOk result (labels_of list.new.items ≡ labels_of list.old.items ++ filter
        (λ l. not (is_within doc.now.state.trees l node.label)) (labels_of items.now)) }
{
    for item in items {
        if !is_within(doc, *item, node) {
            list.push(*item)?;
        }
    }
    Ok(())
}

/// Indent and outdent, step 1: the items around the ends of the active range, those around the start
/// and then those around the end alone.
#[tactic(auto, using(crate::proofs::Below::placed_here), unfolding(crate::specs::Commands::items_around, crate::specs::Commands::range_items))]
pub(crate) fn range_items(alloc: Global, doc: &Doc) -> Result<Vec<NodeRef>, AllocError>
    ensures held { IfOk result (λ list. EachHeld doc.now list.items) }
    ensures items { IfOk result (λ list. labels_of list.items ≡ range_items doc.now.state) }
{
    doc.valid();
    let mut list = Vec::new(alloc);
    let Some(pair) = doc.points().selection() else {
        return Ok(list);
    };
    let (from, to) = ends_of(doc, pair);
    let start = node_of(doc, from);
    let end = node_of(doc, to);
    push_items(&mut list, doc, start)?;
    let mut others = Vec::new(alloc);
    push_items(&mut others, doc, end)?;
    push_apart(&mut list, doc, &others, start)?;
    Ok(list)
}

/// Indent, step 2: what is gathered.
#[derive(Clone, Copy)]
pub(crate) struct Indentable;

impl Choice<Doc> for Indentable {
    ghost use Rattle.list_indent.specs.Commands.{is_indentable};

    ghost chosen = { λ s d l. is_indentable d.state l };

    #[tactic(auto, unfolding(crate::specs::Commands::is_indentable))]
    fn chooses(&self, doc: &Doc, node: NodeRef) -> bool {
        doc.is_editable_for(node)
            && (allowed_in_div(doc, node) || allowed_in_name(doc, node, b"ol"))
    }
}

// Whether an element takes its host from its parent, whatever that is.
fn takes_host(content: &Content) -> bool
    ensures { result ≡ true → TakesHost content.now }
{
    match content {
        Content::Element {
            name: _,
            attributes,
        } => attributes.get(b"contenteditable").is_none(),
        _ => false,
    }
}

// Whether a node is the one that is known to be editable, or a child that takes its host.
#[tactic(auto, using(crate::proofs::Taking::taken_here))]
fn is_known(doc: &Doc, known: Option<NodeRef>, node: NodeRef) -> bool
    requires node_held { Holds doc.now node }
    requires known { IfSome known (λ r. is_editable_for doc.now.state r.label ≡ true) }
    ensures { result ≡ true → is_editable_for doc.now.state node.label ≡ true }
{
    doc.valid();
    let Some(known) = known else {
        return false;
    };
    if known.label == node.label {
        return true;
    }
    match doc.parent(node) {
        Some(parent) => parent.label == known.label && takes_host(doc.content(node)),
        None => false,
    }
}

// The editable nodes.
#[derive(Clone, Copy)]
struct Editable;

impl Choice<Doc> for Editable {
    ghost use Rattle.std.specs.Prelude.{◌≡◌, true};
    ghost use Rattle.edit_model.specs.Confined.{is_editable_for};

    ghost chosen = { λ s d l. is_editable_for d.state l };

    // that it is editable
    ghost knows = { λ s d r. is_editable_for d.state r.label ≡ true };

    fn chooses(&self, doc: &Doc, node: NodeRef) -> bool {
        doc.is_editable_for(node)
    }

    fn chooses_next(&self, doc: &Doc, node: NodeRef, known: &mut Option<NodeRef>) -> bool {
        if !is_known(doc, *known, node) && !doc.is_editable_for(node) {
            return false;
        }
        *known = Some(node);
        true
    }
}

/// Whether an editable node stands below a node.
#[tactic(auto, unfolding(crate::specs::Commands::has_editable_below))]
pub fn has_editable_below(doc: &Doc, node: NodeRef) -> bool
    requires { Holds doc.now node }
    ensures { result ≡ has_editable_below doc.now.state node.label }
{
    has_descendant(doc, node, &Editable)
}

/// Outdent, step 2: what is gathered.
#[derive(Clone, Copy)]
pub(crate) struct Outdentable;

impl Choice<Doc> for Outdentable {
    ghost use Rattle.std.specs.Prelude.{◌≡◌, true};
    ghost use Rattle.edit_model.specs.Confined.{is_editable_for};
    ghost use Rattle.list_indent.specs.Commands.{is_outdentable};

    ghost chosen = { λ s d l. is_outdentable d.state l };

    // that it is editable
    ghost knows = { λ s d r. is_editable_for d.state r.label ≡ true };

    fn chooses(&self, doc: &Doc, node: NodeRef) -> bool {
        let mut known = None;
        self.chooses_next(doc, node, &mut known)
    }

    #[tactic(auto, unfolding(crate::specs::Commands::has_editable_below, crate::specs::Commands::is_outdentable))]
    fn chooses_next(&self, doc: &Doc, node: NodeRef, known: &mut Option<NodeRef>) -> bool {
        if is_list(doc, node) || (is_item(doc, node) && is_in_list(doc, node)) {
            return Editable.chooses_next(doc, node, known);
        }
        !begins_with(doc, node, &Editable, known)
            && Editable.chooses_next(doc, node, known)
            && !has_editable_below(doc, node)
    }
}
