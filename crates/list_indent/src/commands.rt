//! The commands indent and outdent. The steps are those of docs/ALGORITHMS.md.

ghost use Rattle.std.specs.Prelude.{◌≡◌};
ghost use Rattle.edit_model.specs.Gives.{Gives, labels_of};
ghost use Rattle.edit_model.specs.Run.{for_each};
ghost use Rattle.inline_value.specs.EditDoc.Whole.{IsOpen};
ghost use Rattle.inline_value.specs.EditDoc.Held.{Holds, EachHeld, Finds, Keeps};
ghost use Rattle.list_indent.specs.Sublists.{normalize_sublists};
ghost use Rattle.list_indent.specs.Indenting.{indent_list};
ghost use Rattle.list_indent.specs.Series.{for_series};
ghost use Rattle.list_indent.specs.Commands.{normalize_range, shown_before, normalize_before, goes_on, indent, is_lone, split_items, outdent_series, outdent_nodes, outdent};

use crate::gathering::{Indentable, Outdentable, range_items};
use crate::indenting::indent_list;
use crate::lists::{is_in_list, is_item, is_list};
use crate::outdenting::{fix_each, outdent_node};
use crate::sublists::normalize_sublists;
use inline_value::doc::{Doc, EditFault, NodeList, NodeRef};
use inline_value::extend::{Link, count_series, is_next};
use inline_value::query::outermost;
use inline_value::questions::is_visible;
use inline_value::wrap::{first_visible, split_parent};
use inline_value::{record_values, restore_values};
use std::alloc::Global;

/// Normalizes the sublists of each node of a list (indent and outdent, step 1).
#[tactic(auto, using(edit_model::proofs::Steps::eachs, edit_model::proofs::Steps::exits))]
pub fn normalize_each(alloc: Global, doc: &mut Doc, list: &[NodeRef]) -> Result<(), EditFault>
    requires open { IsOpen doc.old }
    requires list_held { EachHeld doc.old list.now }
    ensures gives { Gives result doc.old.state doc.new.state
        (for_each (labels_of list.now) normalize_sublists) }
    ensures keeps { Keeps doc.old doc.new }
{
    for node in list {
        normalize_sublists(alloc, doc, *node)?;
    }
    Ok(())
}

/// Indent and outdent, step 1: normalizes the sublists of the items around the ends of the active
/// range.
#[tactic(auto, using(edit_model::proofs::Steps::steps, edit_model::proofs::Steps::exits), unfolding(crate::specs::Commands::normalize_range))]
pub fn normalize_range(alloc: Global, doc: &mut Doc) -> Result<(), EditFault>
    requires open { IsOpen doc.old }
    ensures gives { Gives result doc.old.state doc.new.state normalize_range }
    ensures keeps { Keeps doc.old doc.new }
{
    let items = range_items(alloc, doc)?;
    normalize_each(alloc, doc, &items)
}

// Indent, step 3: the last visible sibling before a node.
fn shown_before(doc: &Doc, node: NodeRef) -> Option<NodeRef>
    requires { Holds doc.now node }
    ensures { Finds doc.now result (shown_before doc.now.state node.label) }
{
    doc.valid();
    let mut at = doc.prev(node);
    while let Some(sibling) = at {
        if is_visible(doc, sibling) {
            return Some(sibling);
        }
        at = doc.prev(sibling);
    }
    None
}

// Indent, step 3: where the first visible member is an item of a list, the one before it is
// normalized.
#[tactic(auto, using(edit_model::proofs::Steps::steps, edit_model::proofs::Steps::exits), unfolding(crate::specs::Commands::normalize_before))]
fn normalize_before(alloc: Global, doc: &mut Doc, list: &[NodeRef]) -> Result<(), EditFault>
    requires open { IsOpen doc.old }
    requires list_held { EachHeld doc.old list.now }
    ensures gives { Gives result doc.old.state doc.new.state
        (normalize_before (labels_of list.now)) }
    ensures keeps { Keeps doc.old doc.new }
{
    let Some(first) = first_visible(doc, list) else {
        return Ok(());
    };
    if !is_item(doc, first) || !is_in_list(doc, first) {
        return Ok(());
    }
    let Some(before) = shown_before(doc, first) else {
        return Ok(());
    };
    normalize_sublists(alloc, doc, before)
}

/// Indent, step 4: siblings go on.
#[derive(Clone, Copy)]
struct Siblings;

impl Link<Doc> for Siblings {
    ghost use Rattle.list_indent.specs.Commands.{goes_on};

    ghost linked = { λ s d x y. goes_on d.state x y };

    fn links(&self, doc: &Doc, last: NodeRef, node: NodeRef) -> bool {
        is_next(doc, last, node)
    }
}

// Indent, step 4: indents a list series by series.
#[tactic(auto, using(crate::proofs::Series::series, edit_model::proofs::Steps::exits))]
fn indent_each(alloc: Global, doc: &mut Doc, list: &[NodeRef]) -> Result<(), EditFault>
    requires open { IsOpen doc.old }
    requires list_held { EachHeld doc.old list.now }
    ensures gives { Gives result doc.old.state doc.new.state
        (for_series goes_on indent_list (labels_of list.now)) }
    ensures keeps { Keeps doc.old doc.new }
{
    let mut at = 0;
    while at < list.len() {
        let rest = &list[at..];
        let count = count_series(doc, rest, &Siblings);
        let series = NodeList::from_slice(alloc, &rest[..count])?;
        indent_list(alloc, doc, series)?;
        at += count;
    }
    Ok(())
}

/// The command indent: what the block-extended active range contains is indented. Items go into a
/// list of their own, the other nodes into a blockquote. It answers true.
#[tactic(auto, using(edit_model::proofs::Steps::steps, edit_model::proofs::Steps::exits), unfolding(crate::specs::Commands::indent_nodes, crate::specs::Commands::indent))]
pub fn indent(alloc: Global, doc: &mut Doc) -> Result<bool, EditFault>
    requires open { IsOpen doc.old }
    ensures gives { Gives result doc.old.state doc.new.state indent }
    ensures keeps { Keeps doc.old doc.new }
{
    normalize_range(alloc, doc)?; // step 1
    let list = outermost(alloc, doc, &Indentable)?; // step 2
    normalize_before(alloc, doc, list.as_slice())?; // step 3
    indent_each(alloc, doc, list.as_slice())?; // step 4
    Ok(true)
}

// Outdent, step 3: whether a node is outdented alone.
#[tactic(auto, unfolding(crate::specs::Commands::is_lone))]
fn is_lone(doc: &Doc, node: NodeRef) -> bool
    requires { Holds doc.now node }
    ensures { result ≡ is_lone doc.now.state node.label }
{
    is_list(doc, node) || !is_in_list(doc, node)
}

/// Outdent, step 3: items go on, up to a list.
#[derive(Clone, Copy)]
struct Items;

impl Link<Doc> for Items {
    ghost use Rattle.list_indent.specs.Commands.{goes_on_items};

    ghost linked = { λ s d x y. goes_on_items d.state x y };

    #[tactic(auto, unfolding(crate::specs::Commands::goes_on_items))]
    fn links(&self, doc: &Doc, last: NodeRef, node: NodeRef) -> bool {
        is_next(doc, last, node) && !is_lone(doc, last) && !is_list(doc, node)
    }
}

/// Outdent, step 3: a series of siblings leaves the list that it stands in, and keeps its values.
#[tactic(auto, using(edit_model::proofs::Steps::steps, edit_model::proofs::Steps::exits), unfolding(crate::specs::Commands::split_items, inline_value::specs::Recording::record_values))]
pub fn split_items(alloc: Global, doc: &mut Doc, list: &NodeList) -> Result<(), EditFault>
    requires open { IsOpen doc.old }
    requires list_held { EachHeld doc.old list.now }
    ensures gives { Gives result doc.old.state doc.new.state (split_items (labels_of list.now)) }
    ensures keeps { Keeps doc.old doc.new }
{
    let values = record_values(alloc, doc, list.as_slice())?;
    split_parent(alloc, doc, list)?;
    fix_each(alloc, doc, list.as_slice())?;
    restore_values(alloc, doc, &values)
}

// Outdent, step 3, one turn: the first member alone, or a series that begins with it.
#[tactic(auto, using(edit_model::proofs::Steps::steps, edit_model::proofs::Steps::exits, edit_model::proofs::Steps::ends), unfolding(crate::specs::Commands::outdent_series))]
fn outdent_series(alloc: Global, doc: &mut Doc, list: &NodeList) -> Result<(), EditFault>
    requires open { IsOpen doc.old }
    requires list_held { EachHeld doc.old list.now }
    ensures gives { Gives result doc.old.state doc.new.state (outdent_series (labels_of list.now)) }
    ensures keeps { Keeps doc.old doc.new }
{
    if list.as_slice().len() == 0 {
        return Ok(());
    }
    let first = list.as_slice()[0];
    if is_lone(doc, first) {
        outdent_node(alloc, doc, first)
    } else {
        split_items(alloc, doc, list)
    }
}

// Outdent, step 3: outdents a list series by series.
#[tactic(auto, using(crate::proofs::Series::series, edit_model::proofs::Steps::exits), unfolding(crate::specs::Commands::outdent_nodes))]
fn outdent_nodes(alloc: Global, doc: &mut Doc, list: &[NodeRef]) -> Result<(), EditFault>
    requires open { IsOpen doc.old }
    requires list_held { EachHeld doc.old list.now }
    ensures gives { Gives result doc.old.state doc.new.state (outdent_nodes (labels_of list.now)) }
    ensures keeps { Keeps doc.old doc.new }
{
    let mut at = 0;
    while at < list.len() {
        let rest = &list[at..];
        let count = count_series(doc, rest, &Items);
        let series = NodeList::from_slice(alloc, &rest[..count])?;
        outdent_series(alloc, doc, &series)?;
        at += count;
    }
    Ok(())
}

/// The command outdent: what the block-extended active range contains is outdented. Items leave
/// their list, the other nodes the indentation element around them. It answers true.
#[tactic(auto, using(edit_model::proofs::Steps::steps, edit_model::proofs::Steps::exits), unfolding(crate::specs::Commands::outdent))]
pub fn outdent(alloc: Global, doc: &mut Doc) -> Result<bool, EditFault>
    requires open { IsOpen doc.old }
    ensures gives { Gives result doc.old.state doc.new.state outdent }
    ensures keeps { Keeps doc.old doc.new }
{
    normalize_range(alloc, doc)?; // step 1
    let list = outermost(alloc, doc, &Outdentable)?; // step 2
    outdent_nodes(alloc, doc, list.as_slice())?; // step 3
    Ok(true)
}
