//! Toggle lists, step 3: the lists of the other kind become lists of the kind, or go into one
//! beside them.

ghost use Rattle.std.specs.Prelude.{◌≡◌, IfOk, IfSome};
ghost use Rattle.edit_model.specs.Gives.{Gives, label_of, labels_of};
ghost use Rattle.inline_value.specs.EditDoc.Held.{Holds, IfHeld, EachHeld, Keeps};
ghost use Rattle.inline_value.specs.EditDoc.Whole.{IsOpen};
ghost use Rattle.list_toggle.specs.Converting as convert;
ghost use Rattle.list_toggle.specs.Ranges.{AreThere};

use crate::ranges::{RangeEnds, extended_range, keep_range, kept_range, other_lists};
use inline_value::doc::{Doc, EditFault, Name, NodeList, NodeRef};
use inline_value::query::{is_list_of, list_name};
use inline_value::questions::is_element;
use inline_value::wrap::{Makes, Meets, NamedSibling, NothingMade, WrapRule, split_parent, wrap};
use inline_value::{record_values, restore_values};
use std::alloc::Global;

// Whether a node is there, and is an editable list of the kind.
fn is_fit(doc: &Doc, ordered: bool, node: Option<NodeRef>) -> bool
    requires { IfHeld doc.now node }
    ensures { result ≡ convert.is_fit ordered doc.now.state (label_of node) }
{
    match node {
        Some(node) => doc.is_editable_for(node) && is_list_of(doc, ordered, node),
        None => false,
    }
}

#[tactic(auto, unfolding(crate::specs::Converting::is_beside_fit))]
fn is_beside_fit(doc: &Doc, ordered: bool, node: NodeRef) -> bool
    requires { Holds doc.now node }
    ensures { result ≡ convert.is_beside_fit ordered doc.now.state node.label }
{
    doc.valid();
    is_fit(doc, ordered, doc.prev(node)) || is_fit(doc, ordered, doc.next(node))
}

/// Steps 3 and 6 c: siblings leave the list that they stand in for the one that the rule tells, and
/// keep their values.
#[tactic(auto, using(edit_model::proofs::Steps::steps, edit_model::proofs::Steps::exits), unfolding(crate::specs::Converting::move_items, crate::specs::Below::record_values))]
pub(crate) fn move_items<C: Meets, M: Makes>(
    alloc: Global,
    doc: &mut Doc,
    items: NodeList,
    rule: &WrapRule<C, M>,
) -> Result<(), EditFault>
    requires open { IsOpen doc.old }
    requires items_held { EachHeld doc.old items }
    ensures gives { Gives result doc.old.state doc.new.state
        (convert.move_items (C.criterion rule.now.test) (M.recipe rule.now.maker) (labels_of items)) }
    ensures keeps { Keeps doc.old doc.new }
{
    let values = record_values(alloc, doc, items.as_slice())?;
    split_parent(alloc, doc, &items)?;
    wrap(alloc, doc, items, rule)?;
    restore_values(alloc, doc, &values)
}

// Step 3, of one list of the other kind.
#[tactic(auto, using(edit_model::proofs::Steps::steps, edit_model::proofs::Steps::exits), unfolding(crate::specs::Converting::convert_list))]
fn convert_list(alloc: Global, doc: &mut Doc, ordered: bool, node: NodeRef) -> Result<(), EditFault>
    requires open { IsOpen doc.old }
    requires node_held { Holds doc.old node }
    ensures gives { Gives result doc.old.state doc.new.state
        (convert.convert_list ordered node.label) }
    ensures keeps { Keeps doc.old doc.new }
{
    let name = Name::from_slice(alloc, list_name(ordered))?;
    if is_beside_fit(doc, ordered, node) {
        let children = NodeList::from_slice(alloc, &doc.children_of(node)?)?;
        let rule = WrapRule::new(NamedSibling { name, bare: false }, NothingMade);
        return move_items(alloc, doc, children, &rule);
    }
    if is_element(doc, node) {
        doc.set_tag_name(node, &name)?;
    }
    Ok(())
}

// Step 3, of all of them: the range as it is afterwards. Its ends are kept as points where there is
// something to do.
#[tactic(auto, using(edit_model::proofs::Steps::eachs, edit_model::proofs::Steps::exits, edit_model::proofs::Steps::ends), unfolding(crate::specs::Converting::convert_each))]
fn convert_each(
    alloc: Global,
    doc: &mut Doc,
    ordered: bool,
    range: RangeEnds,
    lists: &[NodeRef],
) -> Result<RangeEnds, EditFault>
    requires open { IsOpen doc.old }
    requires there { IfSome range (AreThere doc.old.state.trees) }
    requires lists_held { EachHeld doc.old lists.now }
    ensures gives { Gives result doc.old.state doc.new.state
        (convert.convert_each ordered range (labels_of lists.now)) }
    ensures there { IfOk result (λ ends. IfSome ends (AreThere doc.new.state.trees)) }
    ensures keeps { Keeps doc.old doc.new }
{
    if lists.len() == 0 {
        return Ok(range);
    }
    keep_range(doc, range);
    for list in lists {
        convert_list(alloc, doc, ordered, *list)?;
    }
    Ok(kept_range(doc))
}

/// Steps 2 and 3: the range once it has no lists of the other kind.
#[tactic(auto, using(edit_model::proofs::Steps::steps, edit_model::proofs::Steps::exits), unfolding(crate::specs::Converting::convert_lists))]
pub(crate) fn convert_lists(
    alloc: Global,
    doc: &mut Doc,
    ordered: bool,
) -> Result<RangeEnds, EditFault>
    requires open { IsOpen doc.old }
    ensures gives { Gives result doc.old.state doc.new.state (convert.convert_lists ordered) }
    ensures there { IfOk result (λ ends. IfSome ends (AreThere doc.new.state.trees)) }
    ensures keeps { Keeps doc.old doc.new }
{
    let range = extended_range(doc);
    let lists = other_lists(alloc, doc, ordered, range)?;
    convert_each(alloc, doc, ordered, range, &lists)
}
