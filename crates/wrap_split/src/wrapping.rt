//! Wrapping a list of siblings. The steps are those of docs/ALGORITHMS.md.

ghost use Rattle.std.specs.Prelude.{◌≡◌, ◌<◌, IfOk, length};
ghost use Rattle.edit_model.specs.Gives.{Gives, GivesMaybe, label_of, labels_of};
ghost use Rattle.edit_actions.specs.EditDoc.Whole.{IsOpen};
ghost use Rattle.edit_actions.specs.EditDoc.Held.{Holds, IfHeld, EachHeld, Keeps};
ghost use Rattle.wrap_split.specs.Wrap.{merge_next, filled, wrap_members, wrap};

use crate::breaks::breaks_from;
use crate::filling::{drop_parent, merge, move_in, put_before};
use crate::listing::{all_hidden, widened};
use crate::rule::{Makes, Meets, WrapRule};
use crate::target::{if_fits, target};
use edit_actions::doc::{Doc, EditFault, NodeList, NodeRef};
use edit_actions::{first_parent, members};
use std::alloc::Global;

// Wrap, step 11.
#[tactic(auto, using(edit_model::proofs::Steps::steps, edit_model::proofs::Steps::exits), unfolding(crate::specs::Wrap::merge_next))]
fn merge_next<C: Meets, M: Makes>(
    alloc: Global,
    doc: &mut Doc,
    node: NodeRef,
    rule: &WrapRule<C, M>,
) -> Result<(), EditFault>
    requires open { IsOpen doc.old }
    requires node_held { Holds doc.old node }
    ensures gives { Gives result doc.old.state doc.new.state
        (merge_next (C.criterion rule.now.test) node.label) }
    ensures keeps { Keeps doc.old doc.new }
{
    let next = doc.next(node);
    let Some(next) = if_fits(doc, next, rule) else {
        return Ok(());
    };
    merge(alloc, doc, node, next)
}

// Wrap, steps 6 to 12.
#[tactic(auto, using(edit_model::proofs::Steps::steps, edit_model::proofs::Steps::exits), unfolding(crate::specs::Wrap::filled, crate::specs::Wrap::filled_from))]
fn fill<C: Meets, M: Makes>(
    alloc: Global,
    doc: &mut Doc,
    node: NodeRef,
    list: &[NodeRef],
    first: NodeRef,
    rule: &WrapRule<C, M>,
) -> Result<Option<NodeRef>, EditFault>
    requires open { IsOpen doc.old }
    requires some { 0 < length list.now }
    requires node_held { Holds doc.old node }
    requires list_held { EachHeld doc.old list.now }
    requires first_held { Holds doc.old first }
    ensures gives { GivesMaybe result doc.old.state doc.new.state
        (filled (C.criterion rule.now.test) node.label (labels_of list.now) first.label) }
    ensures held { IfOk result (λ found. IfHeld doc.new found) }
    ensures keeps { Keeps doc.old doc.new }
{
    put_before(doc, node, first)?; // step 6
    let parent = doc.parent(first); // step 7
    move_in(alloc, doc, node, list, first)?; // steps 8 and 9
    drop_parent(doc, parent)?; // step 10
    merge_next(alloc, doc, node, rule)?; // step 11
    breaks_from(doc, node)?; // step 12
    Ok(Some(node))
}

// Wrap, from step 2 on.
#[tactic(auto, using(edit_model::proofs::Steps::steps, edit_model::proofs::Steps::exits, edit_model::proofs::Steps::ends), unfolding(crate::specs::Wrap::wrap_members, crate::specs::Wrap::wrap_list, crate::specs::Wrap::into_target, crate::specs::Wrap::wrap_ends))]
fn wrap_members<C: Meets, M: Makes>(
    alloc: Global,
    doc: &mut Doc,
    list: Vec<NodeRef>,
    rule: &WrapRule<C, M>,
) -> Result<Option<NodeRef>, EditFault>
    requires open { IsOpen doc.old }
    requires list_held { EachHeld doc.old list.items }
    ensures gives { GivesMaybe result doc.old.state doc.new.state
        (wrap_members (C.criterion rule.now.test) (M.recipe rule.now.maker)
        (labels_of list.items)) }
    ensures held { IfOk result (λ found. IfHeld doc.new found) }
    ensures keeps { Keeps doc.old doc.new }
{
    if list.len() == 0 {
        return Ok(None);
    }
    // step 2
    if all_hidden(doc, &list) {
        return Ok(None);
    }
    // steps 3 and 4
    let first = list[0];
    let last = list[list.len() - 1];
    let list = widened(doc, list, first, last)?;
    if list.len() == 0 {
        return Ok(None);
    }
    let first = list[0];
    let last = list[list.len() - 1];
    let Some(node) = target(doc, first, last, rule)? else {
        return Ok(None); // step 5
    };
    fill(alloc, doc, node, &list, first, rule)
}

/// Wraps a list of siblings in the sibling beside it that the rule allows, or else in an element
/// that the rule makes. Answers that node; None where nothing of the list shows and none is a br,
/// or where there is no such node. Of the list, the members that have a parent, and the same one as
/// the first of them, are taken.
#[tactic(auto, using(edit_model::proofs::Steps::steps, edit_model::proofs::Steps::exits), unfolding(crate::specs::Wrap::wrap))]
pub fn wrap<C: Meets, M: Makes>(
    alloc: Global,
    doc: &mut Doc,
    list: NodeList,
    rule: &WrapRule<C, M>,
) -> Result<Option<NodeRef>, EditFault>
    requires open { IsOpen doc.old }
    requires list_held { EachHeld doc.old list }
    ensures gives { GivesMaybe result doc.old.state doc.new.state
        (wrap (C.criterion rule.now.test) (M.recipe rule.now.maker) (labels_of list)) }
    ensures held { IfOk result (λ found. IfHeld doc.new found) }
    ensures keeps { Keeps doc.old doc.new }
{
    // step 1
    let Some(parent) = first_parent(doc, list.as_slice()) else {
        return Ok(None);
    };
    let kept = members(alloc, doc, parent, list.as_slice())?;
    wrap_members(alloc, doc, kept, rule)
}
