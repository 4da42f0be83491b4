//! The node that a list is wrapped in.

ghost use Rattle.std.specs.Prelude.{◌≡◌, IfOk};
ghost use Rattle.edit_model.specs.Gives.{GivesMaybe, label_of};
ghost use Rattle.edit_actions.specs.EditDoc.Whole.{IsOpen};
ghost use Rattle.edit_actions.specs.EditDoc.Held.{Holds, IfHeld, Finds, Keeps};
ghost use Rattle.wrap_split.specs.Target.{if_fits, made_by, target};

use crate::rule::{Makes, Meets, WrapRule};
use edit_actions::doc::{Doc, EditFault, NodeRef};

// The node, where it is there, editable, and meets the rule's criterion.
pub(crate) fn if_fits<C: Meets, M: Makes>(
    doc: &Doc,
    node: Option<NodeRef>,
    rule: &WrapRule<C, M>,
) -> Option<NodeRef>
    requires node_held { IfHeld doc.now node }
    ensures { Finds doc.now result
        (if_fits (C.criterion rule.now.test) doc.now.state (label_of node)) }
{
    let node = node?;
    if doc.is_editable_for(node) && rule.test.meets(doc, node) {
        Some(node)
    } else {
        None
    }
}

// Wrap, step 5: a new element by the rule's recipe.
#[tactic(auto, using(edit_model::proofs::Steps::steps, edit_model::proofs::Steps::exits), unfolding(crate::specs::Target::made_by, crate::specs::Target::made_of))]
fn made_by<C: Meets, M: Makes>(
    doc: &mut Doc,
    rule: &WrapRule<C, M>,
) -> Result<Option<NodeRef>, EditFault>
    requires open { IsOpen doc.old }
    ensures gives { GivesMaybe result doc.old.state doc.new.state
        (made_by (M.recipe rule.now.maker)) }
    ensures held { IfOk result (λ made. IfHeld doc.new made) }
    ensures keeps { Keeps doc.old doc.new }
{
    let Some(blank) = rule.maker.make()? else {
        return Ok(None);
    };
    let made = doc.make_element(&blank.name, &blank.attributes)?;
    Ok(Some(made))
}

// Wrap, step 5: the sibling beside the list that fits, or else a new element.
#[tactic(auto, using(edit_model::proofs::Steps::steps, edit_model::proofs::Steps::exits), unfolding(crate::specs::Target::target, crate::specs::Target::beside))]
pub(crate) fn target<C: Meets, M: Makes>(
    doc: &mut Doc,
    first: NodeRef,
    last: NodeRef,
    rule: &WrapRule<C, M>,
) -> Result<Option<NodeRef>, EditFault>
    requires open { IsOpen doc.old }
    requires first_held { Holds doc.old first }
    requires last_held { Holds doc.old last }
    ensures gives { GivesMaybe result doc.old.state doc.new.state
        (target (C.criterion rule.now.test) (M.recipe rule.now.maker) first.label last.label) }
    ensures held { IfOk result (λ found. IfHeld doc.new found) }
    ensures keeps { Keeps doc.old doc.new }
{
    let prev = doc.prev(first);
    if let Some(fits) = if_fits(doc, prev, rule) {
        return Ok(Some(fits));
    }
    let next = doc.next(last);
    if let Some(fits) = if_fits(doc, next, rule) {
        return Ok(Some(fits));
    }
    made_by(doc, rule)
}
