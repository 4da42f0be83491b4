//! Toggle lists, step 6 a: siblings of a list become items, series by series.

ghost use Rattle.std.specs.Prelude.{◌≡◌, ◌≤◌, ◌<◌, ◌++◌, IfOk, OnOk, length, drop};
ghost use Rattle.edit_model.specs.Gives.{GivesAs, label_of, labels_of};
ghost use Rattle.inline_value.specs.EditDoc.Held.{Holds, IfHeld, EachHeld, Keeps};
ghost use Rattle.inline_value.specs.EditDoc.Whole.{IsOpen};
ghost use Rattle.inline_value.specs.WrapSplit.Wrap.{one_of};
ghost use Rattle.list_toggle.specs.Collecting as collect;

use inline_value::bare;
use inline_value::doc::{Doc, EditFault, Name, NodeList, NodeRef};
use inline_value::extend::{Link, count_series, is_next};
use inline_value::questions::{has_name, is_block, is_break};
use inline_value::wrap::{CopyMade, NoSibling, WrapRule, turn_bound, wrap};
use list_indent::{is_item, is_list};
use std::alloc::{AllocError, Global};

// Whether a node is a p or div.
#[tactic(auto, unfolding(crate::specs::Collecting::is_container))]
fn is_container(doc: &Doc, node: NodeRef) -> bool
    requires { Holds doc.now node }
    ensures { result ≡ collect.is_container doc.now.state node.label }
{
    has_name(doc, node, b"p") || has_name(doc, node, b"div")
}

/// Members that go into one item.
#[derive(Clone, Copy)]
struct SameLine;

impl Link<Doc> for SameLine {
    ghost use Rattle.list_toggle.specs.Collecting.{goes_on_line};

    ghost linked = { λ s d x y. goes_on_line d.state x y };

    #[tactic(auto, unfolding(crate::specs::Collecting::goes_on_line))]
    fn links(&self, doc: &Doc, last: NodeRef, node: NodeRef) -> bool {
        is_next(doc, last, node)
            && !is_block(doc, node)
            && !is_block(doc, last)
            && !is_break(doc, last)
    }
}

// Step 6 a, with the first member: the item that it becomes or goes into, and how many members that
// takes.
#[tactic(auto, using(edit_model::proofs::Steps::steps, edit_model::proofs::Steps::exits, crate::proofs::Exits::exit_made, crate::proofs::Turns::container_is_element, crate::proofs::Below::labels_of_front, crate::proofs::Below::labels_of_rest), unfolding(crate::specs::Collecting::wrap_line, crate::specs::Collecting::make_item))]
fn make_item(
    alloc: Global,
    doc: &mut Doc,
    list: &[NodeRef],
    first: NodeRef,
) -> Result<(Option<NodeRef>, usize), EditFault>
    requires open { IsOpen doc.old }
    requires list_held { EachHeld doc.old list.now }
    requires first_held { Holds doc.old first }
    requires some { 0 < length list.now }
    ensures gives { GivesAs (λ made. (label_of made.0, labels_of (drop made.1 list.now)))
        result doc.old.state doc.new.state
        (collect.make_item (labels_of list.now) first.label) }
    ensures held { IfOk result (λ made. IfHeld doc.new made.0) }
    ensures within { IfOk result (λ made. made.1 ≤ length list.now) }
    ensures keeps { Keeps doc.old doc.new }
{
    if is_container(doc, first) {
        let name = Name::from_slice(alloc, b"li")?;
        let item = doc.set_tag_name(first, &name)?;
        return Ok((Some(item), 1));
    }
    if is_item(doc, first) || is_list(doc, first) {
        return Ok((Some(first), 1));
    }
    let count = count_series(doc, list, &SameLine);
    let line = NodeList::from_slice(alloc, &list[..count])?;
    let blank = bare(alloc, b"li")?;
    let item = wrap(
        alloc,
        doc,
        line,
        &WrapRule::new(NoSibling, CopyMade { blank }),
    )?;
    Ok((item, count))
}

// Whether the first of the members that are left is the next sibling of the last item.
#[tactic(auto, using(edit_model::proofs::Steps::ends), unfolding(crate::specs::Collecting::goes_on))]
fn goes_on(doc: &Doc, items: &[NodeRef], list: &[NodeRef]) -> bool
    requires items_held { EachHeld doc.now items.now }
    requires list_held { EachHeld doc.now list.now }
    ensures { result ≡ collect.goes_on doc.now.state (labels_of items.now, labels_of list.now) }
{
    if list.is_empty() {
        return false;
    }
    if items.is_empty() {
        return true;
    }
    is_next(doc, items[items.len() - 1], list[0])
}

// Appends an item, if one was made.
#[tactic(auto, using(edit_model::proofs::Steps::labels_of_push_end, edit_model::proofs::Steps::append_none, crate::proofs::Below::pushed_held))]
fn push_made(doc: &Doc, items: &mut Vec<NodeRef>, made: Option<NodeRef>) -> Result<(), AllocError>
    requires items_held { EachHeld doc.now items.old.items }
    requires made_held { IfHeld doc.now made }
    ensures held { OnOk result (EachHeld doc.now items.new.items) }
    ensures nodes { OnOk result (labels_of items.new.items ≡ labels_of items.old.items
        ++ one_of (label_of made)) }
{
    if let Some(item) = made {
        items.push(item)?;
    }
    Ok(())
}

// Step 6 a, one turn: how many members are done with. Their item is appended.
#[tactic(auto, using(edit_model::proofs::Steps::steps, edit_model::proofs::Steps::exits, edit_model::proofs::Steps::ends), unfolding(crate::specs::Collecting::collect_next))]
fn collect_next(
    alloc: Global,
    doc: &mut Doc,
    items: &mut Vec<NodeRef>,
    list: &[NodeRef],
) -> Result<usize, EditFault>
    requires open { IsOpen doc.old }
    requires items_held { EachHeld doc.old items.old.items }
    requires list_held { EachHeld doc.old list.now }
    requires some { 0 < length list.now }
    ensures gives { GivesAs (λ count. (labels_of items.new.items, labels_of (drop count list.now)))
        result doc.old.state doc.new.state
        (collect.collect_next (labels_of items.old.items, labels_of list.now)) }
    ensures held { IfOk result (λ count. EachHeld doc.new items.new.items) }
    ensures within { IfOk result (λ count. count ≤ length list.now) }
    ensures keeps { Keeps doc.old doc.new }
{
    let (item, count) = make_item(alloc, doc, list, list[0])?;
    push_made(doc, items, item)?;
    Ok(count)
}

/// Step 6 a: takes first members of a list, and answers the items that they come to be or go into,
/// and how many are taken.
#[tactic(auto, using(edit_model::proofs::Steps::whiles, edit_model::proofs::Steps::exits), unfolding(crate::specs::Collecting::collect_items))]
pub(crate) fn collect_items(
    alloc: Global,
    doc: &mut Doc,
    list: &[NodeRef],
) -> Result<(Vec<NodeRef>, usize), EditFault>
    requires open { IsOpen doc.old }
    requires list_held { EachHeld doc.old list.now }
    ensures gives { GivesAs (λ found. (labels_of found.0.items, labels_of (drop found.1 list.now)))
        result doc.old.state doc.new.state (collect.collect_items (labels_of list.now)) }
    ensures held { IfOk result (λ found. EachHeld doc.new found.0.items) }
    ensures within { IfOk result (λ found. found.1 ≤ length list.now) }
    ensures keeps { Keeps doc.old doc.new }
{
    let mut items = Vec::new(alloc);
    let mut at = 0;
    let mut left = turn_bound(doc);
    while left > 0 && goes_on(doc, &items, &list[at..]) {
        at += collect_next(alloc, doc, &mut items, &list[at..])?;
        left -= 1;
    }
    Ok((items, at))
}
