//! The nodes of a list that a question is about.

ghost use Rattle.std.specs.Prelude.{◌≡◌, ◌++◌, IfOk, OnOk};
ghost use Rattle.std.specs.List.{filter};
ghost use Rattle.block_extend.specs.NodeTests.Listing.{only_if};
ghost use Rattle.edit_model.specs.Gives.{labels_of};
ghost use Rattle.edit_actions.specs.EditDoc.Held.{Holds, EachHeld, Finds};
ghost use Rattle.edit_query.specs.Formattable.{first_in};
ghost use Rattle.edit_query.specs.Sought.{is_sought};

use crate::leaves::is_leaf;
use block_extend::questions::is_formattable;
use edit_actions::doc::{Doc, NodeRef};
use std::alloc::{AllocError, Global};

/// Which nodes a question is about.
#[derive(Clone, Copy)]
pub(crate) enum Sought {
    /// Those that inline commands format.
    Formattable,
    /// Visible editable ones without children.
    Leaf,
}

/// Whether a node is such a one, with this host as its editing host.
pub(crate) fn is_sought(doc: &Doc, host: NodeRef, sought: Sought, node: NodeRef) -> bool
    requires host_held { Holds doc.now host }
    requires node_held { Holds doc.now node }
    ensures { result ≡ is_sought sought doc.now.state.trees host.label node.label }
{
    match sought {
        Sought::Formattable => is_formattable(doc, host, node),
        Sought::Leaf => is_leaf(doc, host, node),
    }
}

// Puts a node behind those found before, where it is such a one.
#[tactic(auto, using(edit_model::proofs::Steps::labels_of_push_end, crate::proofs::Below::pushed_held))]
fn push_sought(
    doc: &Doc,
    host: NodeRef,
    sought: Sought,
    node: NodeRef,
    found: &mut Vec<NodeRef>,
) -> Result<(), AllocError>
    requires host_held { Holds doc.now host }
    requires node_held { Holds doc.now node }
    requires found_held { EachHeld doc.now found.old.items }
    ensures held { OnOk result (EachHeld doc.now found.new.items) }
    ensures nodes { OnOk result (labels_of found.new.items ≡ labels_of found.old.items ++ only_if
        (is_sought sought doc.now.state.trees host.label) node.label) }
{
    if is_sought(doc, host, sought, node) {
        found.push(node)?;
    }
    Ok(())
}

/// Of a list, such nodes.
#[tactic(auto, using(edit_model::proofs::Steps::labels_of_end))]
pub(crate) fn sought_of(
    alloc: Global,
    doc: &Doc,
    host: NodeRef,
    sought: Sought,
    list: &[NodeRef],
) -> Result<Vec<NodeRef>, AllocError>
    requires host_held { Holds doc.now host }
    requires list_held { EachHeld doc.now list.now }
    ensures held { IfOk result (λ found. EachHeld doc.now found.items) }
    ensures nodes { IfOk result (λ found. labels_of found.items ≡ filter
        (is_sought sought doc.now.state.trees host.label) (labels_of list.now)) }
{
    let mut found = Vec::new(alloc);
    for node in list {
        push_sought(doc, host, sought, *node, &mut found)?;
    }
    Ok(found)
}

/// The first such node of a list.
#[tactic(auto, using(edit_model::proofs::Steps::labels_of_drop, edit_model::proofs::Steps::labels_of_end))]
pub(crate) fn first_sought(
    doc: &Doc,
    host: NodeRef,
    sought: Sought,
    list: &[NodeRef],
) -> Option<NodeRef>
    requires host_held { Holds doc.now host }
    requires list_held { EachHeld doc.now list.now }
    ensures { Finds doc.now result
        (first_in (filter (is_sought sought doc.now.state.trees host.label) (labels_of list.now))) }
{
    for node in list {
        if is_sought(doc, host, sought, *node) {
            return Some(*node);
        }
    }
    None
}
