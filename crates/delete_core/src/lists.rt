//! Delete the selection, step 14: lists that have come to stand side by side. The steps are those
//! of docs/ALGORITHMS.md.

ghost use Rattle.std.specs.Prelude.{◌≡◌};
ghost use Rattle.edit_model.specs.Gives.{Gives};
ghost use Rattle.inline_value.specs.EditDoc.Whole.{IsOpen};
ghost use Rattle.inline_value.specs.EditDoc.Held.{Holds, Finds, Keeps};
ghost use Rattle.delete_core.specs.Merging.{is_list_before, joins_next, list_to_join, join_lists_at, join_next, join_lists};

use edit_model::arena::Nodes;
use inline_value::doc::{Doc, EditFault, NodeRef};
use inline_value::questions::has_name;
use inline_value::wrap::turn_bound;

// Whether a node is a list of this name, with another one that is inside after it.
fn is_list_before(doc: &Doc, name: &[u8], node: NodeRef) -> bool
    requires { Holds doc.now node }
    ensures { result ≡ is_list_before name.now doc.now.state node.label }
{
    if !has_name(doc, node, name) {
        return false;
    }
    match doc.next(node) {
        Some(next) => doc.is_inside(next) && has_name(doc, next, name),
        None => false,
    }
}

// Delete the selection, step 14: whether a node is a list that is inside, with a list of the same
// kind after it.
#[tactic(auto, unfolding(crate::specs::Merging::joins_next))]
fn joins_next(doc: &Doc, node: NodeRef) -> bool
    requires { Holds doc.now node }
    ensures { result ≡ joins_next doc.now.state node.label }
{
    doc.is_inside(node) && (is_list_before(doc, b"ol", node) || is_list_before(doc, b"ul", node))
}

// The deepest such list that a node is or stands in.
fn list_to_join(doc: &Doc, node: NodeRef) -> Option<NodeRef>
    requires { Holds doc.now node }
    ensures { Finds doc.now result (list_to_join doc.now.state node.label) }
{
    Nodes::valid(doc);
    let mut at = node;
    while !joins_next(doc, at) {
        match doc.parent(at) {
            Some(parent) => at = parent,
            None => return None,
        }
    }
    Some(at)
}

// Step 14: the items of the second list go to the end of the first one, and it goes.
#[tactic(auto, using(edit_model::proofs::Steps::steps, edit_model::proofs::Steps::exits), unfolding(crate::specs::Merging::join_lists_at))]
fn join_lists_at(doc: &mut Doc, list: NodeRef, next: NodeRef) -> Result<(), EditFault>
    requires open { IsOpen doc.old }
    requires list_held { Holds doc.old list }
    requires next_held { Holds doc.old next }
    ensures gives { Gives result doc.old.state doc.new.state (join_lists_at list.label next.label) }
    ensures keeps { Keeps doc.old doc.new }
{
    let children = doc.children_of(next)?;
    doc.move_each_last(&children, list)?;
    doc.remove(next)?;
    Ok(())
}

// Step 14: takes the items of the list after a list into it.
#[tactic(auto, using(edit_model::proofs::Steps::steps, edit_model::proofs::Steps::exits), unfolding(crate::specs::Merging::join_next))]
fn join_next(doc: &mut Doc, list: NodeRef) -> Result<(), EditFault>
    requires open { IsOpen doc.old }
    requires list_held { Holds doc.old list }
    ensures gives { Gives result doc.old.state doc.new.state (join_next list.label) }
    ensures keeps { Keeps doc.old doc.new }
{
    let Some(next) = doc.next(list) else {
        return Ok(());
    };
    join_lists_at(doc, list, next)
}

/// Delete the selection, step 14: joins lists of one kind that stand side by side, of those that a
/// node is or stands in.
#[tactic(auto, using(edit_model::proofs::Steps::whiles, edit_model::proofs::Steps::exits), unfolding(crate::specs::Merging::join_lists, crate::specs::Merging::join_once, crate::specs::Merging::has_list_to_join))]
pub(crate) fn join_lists(doc: &mut Doc, node: NodeRef) -> Result<(), EditFault>
    requires open { IsOpen doc.old }
    requires node_held { Holds doc.old node }
    ensures gives { Gives result doc.old.state doc.new.state (join_lists node.label) }
    ensures keeps { Keeps doc.old doc.new }
{
    let mut turns = turn_bound(doc);
    while turns > 0 {
        let Some(list) = list_to_join(doc, node) else {
            return Ok(());
        };
        join_next(doc, list)?;
        turns -= 1;
    }
    Ok(())
}
