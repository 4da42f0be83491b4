//! Toggle lists. The steps are those of docs/ALGORITHMS.md.

ghost use Rattle.std.specs.Prelude.{◌≡◌};
ghost use Rattle.std.specs.List.{list_all};
ghost use Rattle.edit_model.specs.Gives.{Gives, labels_of};
ghost use Rattle.inline_value.specs.EditDoc.Held.{EachHeld, Keeps};
ghost use Rattle.inline_value.specs.EditDoc.Whole.{IsOpen};
ghost use Rattle.list_indent.specs.Sublists as sublists;
ghost use Rattle.list_toggle.specs.Toggle as toggle;

use crate::collecting::collect_items;
use crate::converting::{convert_lists, move_items};
use crate::ranges::{extended_range, range_lines, range_members};
use block_commands::{Turn, in_turns};
use inline_value::bare;
use inline_value::doc::{Doc, EditFault, Name, NodeList, NodeRef};
use inline_value::extend::{Link, count_series, is_next};
use inline_value::query::{is_child_of, is_list_of, list_name, list_state};
use inline_value::wrap::{CopyMade, NamedSibling, WrapRule, wrap};
use list_indent::{fix, is_list, normalize_range, outdent_node, split_items};
use std::alloc::Global;

/// A kind of list.
#[derive(Clone, Copy)]
pub enum ListKind {
    /// An ol.
    Ordered,
    /// A ul.
    Unordered,
}

impl ListKind {
    fn is_ordered(self) -> bool
        ensures { result ≡ toggle.is_ordered self }
    {
        match self {
            ListKind::Ordered => true,
            ListKind::Unordered => false,
        }
    }
}

// ---- step 5: off

/// Siblings go on, up to a list of the kind.
#[derive(Clone, Copy)]
struct Released {
    ordered: bool,
}

impl Link<Doc> for Released {
    ghost use Rattle.list_toggle.specs.Toggle.{goes_on_out};

    ghost linked = { λ s d x y. goes_on_out s.ordered d.state x y };

    #[tactic(auto, unfolding(crate::specs::Toggle::goes_on_out))]
    fn links(&self, doc: &Doc, last: NodeRef, node: NodeRef) -> bool {
        is_next(doc, last, node)
            && !is_list_of(doc, self.ordered, last)
            && !is_list_of(doc, self.ordered, node)
    }
}

// Step 5, one turn: the first member alone, or a series that begins with it.
#[tactic(auto, using(edit_model::proofs::Steps::steps, edit_model::proofs::Steps::exits, edit_model::proofs::Steps::ends), unfolding(crate::specs::Toggle::release_series))]
fn release_series(
    alloc: Global,
    doc: &mut Doc,
    ordered: bool,
    list: &NodeList,
) -> Result<(), EditFault>
    requires open { IsOpen doc.old }
    requires list_held { EachHeld doc.old list.now }
    ensures gives { Gives result doc.old.state doc.new.state
        (toggle.release_series ordered (labels_of list.now)) }
    ensures keeps { Keeps doc.old doc.new }
{
    if list.as_slice().len() == 0 {
        return Ok(());
    }
    let first = list.as_slice()[0];
    if is_list_of(doc, ordered, first) {
        outdent_node(alloc, doc, first)
    } else {
        split_items(alloc, doc, list)
    }
}

// Step 5: series by series.
#[tactic(auto, using(list_indent::proofs::Series::series, edit_model::proofs::Steps::exits), unfolding(crate::specs::Toggle::release_all))]
fn release_all(
    alloc: Global,
    doc: &mut Doc,
    ordered: bool,
    list: &[NodeRef],
) -> Result<(), EditFault>
    requires open { IsOpen doc.old }
    requires list_held { EachHeld doc.old list.now }
    ensures gives { Gives result doc.old.state doc.new.state
        (toggle.release_all ordered (labels_of list.now)) }
    ensures keeps { Keeps doc.old doc.new }
{
    let mut at = 0;
    while at < list.len() {
        let rest = &list[at..];
        let count = count_series(doc, rest, &Released { ordered });
        let series = NodeList::from_slice(alloc, &rest[..count])?;
        release_series(alloc, doc, ordered, &series)?;
        at += count;
    }
    Ok(())
}

// ---- step 6: on

#[tactic(auto, using(edit_model::proofs::Steps::labels_of_drop, edit_model::proofs::Steps::labels_of_end))]
fn are_lists(doc: &Doc, list: &[NodeRef]) -> bool
    requires { EachHeld doc.now list.now }
    ensures { result ≡ list_all (sublists.is_list doc.now.state) (labels_of list.now) }
{
    for node in list {
        if !is_list(doc, *node) {
            return false;
        }
    }
    true
}

// Steps 6 b to d.
#[tactic(auto, using(edit_model::proofs::Steps::steps, edit_model::proofs::Steps::exits, edit_model::proofs::Steps::ends), unfolding(crate::specs::Toggle::place_items))]
fn place_items(
    alloc: Global,
    doc: &mut Doc,
    ordered: bool,
    items: &[NodeRef],
) -> Result<(), EditFault>
    requires open { IsOpen doc.old }
    requires items_held { EachHeld doc.old items.now }
    ensures gives { Gives result doc.old.state doc.new.state
        (toggle.place_items ordered (labels_of items.now)) }
    ensures keeps { Keeps doc.old doc.new }
{
    if items.len() == 0 {
        return Ok(());
    }
    let first = items[0];
    if is_child_of(doc, ordered, first) || are_lists(doc, items) {
        return Ok(()); // b
    }
    let list = NodeList::from_slice(alloc, items)?;
    let name = Name::from_slice(alloc, list_name(ordered))?;
    let blank = bare(alloc, list_name(ordered))?;
    let rule = WrapRule::new(NamedSibling { name, bare: false }, CopyMade { blank });
    if is_child_of(doc, !ordered, first) {
        return move_items(alloc, doc, list, &rule); // c
    }
    let made = wrap(alloc, doc, list, &rule)?; // d
    fix(alloc, doc, made)
}

// Step 6, one turn.
#[derive(Clone, Copy)]
struct EnlistTurn {
    ordered: bool,
}

impl Turn for EnlistTurn {
    ghost use Rattle.list_toggle.specs.Toggle.{enlist_next};

    ghost run = { λ s. enlist_next s.ordered };

    #[tactic(auto, using(edit_model::proofs::Steps::steps, edit_model::proofs::Steps::exits, block_commands::proofs::Counting::exit_count), unfolding(crate::specs::Toggle::enlist_next))]
    fn take(&self, alloc: Global, doc: &mut Doc, list: &[NodeRef]) -> Result<usize, EditFault> {
        let (items, count) = collect_items(alloc, doc, list)?;
        place_items(alloc, doc, self.ordered, &items)?;
        Ok(count)
    }
}

// ---- the whole

// Steps 2, 4 and 5.
#[tactic(auto, using(edit_model::proofs::Steps::steps, edit_model::proofs::Steps::exits), unfolding(crate::specs::Toggle::toggle_off))]
fn toggle_off(alloc: Global, doc: &mut Doc, ordered: bool) -> Result<(), EditFault>
    requires open { IsOpen doc.old }
    ensures gives { Gives result doc.old.state doc.new.state (toggle.toggle_off ordered) }
    ensures keeps { Keeps doc.old doc.new }
{
    let range = extended_range(doc); // step 2
    let list = range_members(alloc, doc, range)?; // step 4
    release_all(alloc, doc, ordered, list.as_slice())
}

// Steps 2 to 4 and 6.
#[tactic(auto, using(edit_model::proofs::Steps::steps, edit_model::proofs::Steps::exits), unfolding(crate::specs::Toggle::toggle_on))]
fn toggle_on(alloc: Global, doc: &mut Doc, ordered: bool) -> Result<(), EditFault>
    requires open { IsOpen doc.old }
    ensures gives { Gives result doc.old.state doc.new.state (toggle.toggle_on ordered) }
    ensures keeps { Keeps doc.old doc.new }
{
    let range = convert_lists(alloc, doc, ordered)?; // steps 2 and 3
    let list = range_lines(alloc, doc, range)?; // step 4
    in_turns(alloc, doc, &EnlistTurn { ordered }, &list)
}

/// The commands insertOrderedList and insertUnorderedList: the lines that the block-extended active
/// range contains become items of lists of the kind, or leave them where all of them stand in such
/// lists already. It answers true.
#[tactic(auto, using(edit_model::proofs::Steps::steps, edit_model::proofs::Steps::exits), unfolding(crate::specs::Toggle::toggle_lists))]
pub fn toggle_lists(alloc: Global, doc: &mut Doc, kind: ListKind) -> Result<bool, EditFault>
    requires open { IsOpen doc.old }
    ensures gives { Gives result doc.old.state doc.new.state (toggle.toggle_lists kind) }
    ensures keeps { Keeps doc.old doc.new }
{
    let ordered = kind.is_ordered();
    // step 1
    let off = list_state(alloc, doc, doc.host())?.is_of(ordered);
    normalize_range(alloc, doc)?;
    if off {
        toggle_off(alloc, doc, ordered)?;
    } else {
        toggle_on(alloc, doc, ordered)?;
    }
    Ok(true)
}
