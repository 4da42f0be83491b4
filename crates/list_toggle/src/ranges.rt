//! Toggle lists, steps 2 to 4: the block-extended active range, and the lists and list members that
//! it contains.

ghost use Rattle.std.specs.Prelude.{◌≡◌, IfOk, IfSome};
ghost use Rattle.edit_model.specs.Gives.{labels_of};
ghost use Rattle.edit_model.specs.Run.{final};
ghost use Rattle.inline_value.specs.EditDoc.Held.{EachHeld, Keeps};
ghost use Rattle.inline_value.specs.EditDoc.Whole.{IsOpen};
ghost use Rattle.list_toggle.specs.Ranges.{AreThere, extended_range, keep_range, kept_range, other_lists, range_members, range_lines};

use block_commands::{chosen_of, contained_in};
use inline_value::actions::ends_of;
use inline_value::doc::{Doc, NodeList, NodeRef, Pair, Point};
use inline_value::extend::Choice;
use inline_value::query::{extended, is_list_of, list_members};
use list_indent::{is_in_list, is_list};
use std::alloc::{AllocError, Global};

/// The ends of a range, or nothing without a selection.
pub(crate) type RangeEnds = Option<(Point, Point)>;

/// Step 2: the block-extended active range.
#[tactic(auto, unfolding(crate::specs::Ranges::extended_range))]
pub(crate) fn extended_range(doc: &Doc) -> RangeEnds
    ensures range { result ≡ extended_range doc.now.state }
    ensures there { IfSome result (AreThere doc.now.state.trees) }
{
    doc.valid();
    match doc.points().selection() {
        Some(pair) => Some(extended(doc, pair)),
        None => None,
    }
}

/// Step 3: keeps the ends of a range as points, which go along with edits.
#[tactic(auto, using(edit_model::proofs::Steps::actions), unfolding(crate::specs::Ranges::keep_range))]
pub(crate) fn keep_range(doc: &mut Doc, range: RangeEnds)
    requires { IsOpen doc.old }
    ensures gives { final (keep_range range) doc.old.state ≡ doc.new.state }
    ensures keeps { Keeps doc.old doc.new }
{
    if let Some((anchor, focus)) = range {
        doc.set_scratch(Pair { anchor, focus });
    }
}

/// Step 3: the range that is kept so.
#[tactic(auto, using(crate::proofs::Below::placed_here), unfolding(crate::specs::Ranges::kept_range))]
pub(crate) fn kept_range(doc: &Doc) -> RangeEnds
    ensures range { result ≡ kept_range doc.now.state }
    ensures there { IfSome result (AreThere doc.now.state.trees) }
{
    doc.valid();
    match doc.points().scratch() {
        Some(pair) => Some(ends_of(doc, pair)),
        None => None,
    }
}

/// Step 3: an editable list of the other kind.
#[derive(Clone, Copy)]
struct OtherList {
    ordered: bool,
}

impl Choice<Doc> for OtherList {
    ghost use Rattle.list_toggle.specs.Ranges.{is_other_list};

    ghost chosen = { λ s d l. is_other_list s.ordered d.state l };

    #[tactic(auto, unfolding(crate::specs::Ranges::is_other_list))]
    fn chooses(&self, doc: &Doc, node: NodeRef) -> bool {
        is_list_of(doc, !self.ordered, node) && doc.is_editable_for(node)
    }
}

/// Step 3: the lists of the other kind in a range.
#[tactic(auto, unfolding(crate::specs::Ranges::other_lists))]
pub(crate) fn other_lists(
    alloc: Global,
    doc: &Doc,
    ordered: bool,
    range: RangeEnds,
) -> Result<Vec<NodeRef>, AllocError>
    requires { IfSome range (AreThere doc.now.state.trees) }
    ensures held { IfOk result (λ list. EachHeld doc.now list.items) }
    ensures nodes { IfOk result (λ list. labels_of list.items
        ≡ other_lists ordered doc.now.state range) }
{
    match range {
        Some(ends) => contained_in(alloc, doc, ends, &OtherList { ordered }),
        None => Ok(Vec::new(alloc)),
    }
}

/// Step 4: the list members of a range.
#[tactic(auto, unfolding(crate::specs::Ranges::range_members))]
pub(crate) fn range_members(
    alloc: Global,
    doc: &Doc,
    range: RangeEnds,
) -> Result<NodeList, AllocError>
    requires { IfSome range (AreThere doc.now.state.trees) }
    ensures held { IfOk result (λ list. EachHeld doc.now list) }
    ensures nodes { IfOk result (λ list. labels_of list ≡ range_members doc.now.state range) }
{
    match range {
        Some(ends) => list_members(alloc, doc, doc.host(), ends),
        None => NodeList::from_slice(alloc, &[]),
    }
}

/// Step 4: a member that is no list, or is one in another list.
#[derive(Clone, Copy)]
struct Line;

impl Choice<Doc> for Line {
    ghost use Rattle.list_toggle.specs.Ranges.{is_line};

    ghost chosen = { λ s d l. is_line d.state l };

    #[tactic(auto, unfolding(crate::specs::Ranges::is_line))]
    fn chooses(&self, doc: &Doc, node: NodeRef) -> bool {
        !(is_list(doc, node) && !is_in_list(doc, node))
    }
}

/// Step 4: the list members of a range without the lists that stand in no list.
#[tactic(auto, unfolding(crate::specs::Ranges::range_lines))]
pub(crate) fn range_lines(
    alloc: Global,
    doc: &Doc,
    range: RangeEnds,
) -> Result<Vec<NodeRef>, AllocError>
    requires { IfSome range (AreThere doc.now.state.trees) }
    ensures held { IfOk result (λ list. EachHeld doc.now list.items) }
    ensures nodes { IfOk result (λ list. labels_of list.items ≡ range_lines doc.now.state range) }
{
    let members = range_members(alloc, doc, range)?;
    chosen_of(alloc, doc, &Line, members.as_slice())
}
