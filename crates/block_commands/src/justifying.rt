//! The justify commands. The steps are those of docs/ALGORITHMS.md.

ghost use Rattle.std.specs.Prelude.{◌≡◌};
ghost use Rattle.inline_value.specs.CssValue.Values.{text_align_keyword};
ghost use Rattle.edit_model.specs.Gives.{Gives, GivesMaybe, labels_of};
ghost use Rattle.inline_value.specs.EditDoc.Held.{Holds, EachHeld, Keeps};
ghost use Rattle.inline_value.specs.EditDoc.Whole.{IsOpen};
ghost use Rattle.block_commands.specs.Justify as justify;

use crate::aligned::{AlignedSibling, Aligning, Misaligned, aligned_div, is_center};
use crate::gathered::contained;
use crate::turns::{Turn, in_turns};
use edit_model::dom::{Chars, Name};
use inline_value::css::TextAlign;
use inline_value::doc::{Doc, EditFault, NodeList, NodeRef};
use inline_value::extend::{Link, count_series, is_next};
use inline_value::query::outermost;
use inline_value::questions::has_name;
use inline_value::unset_style;
use inline_value::wrap::{
    CopyMade, WrapRule, is_without_attributes, remove_keeping_children, wrap,
};
use std::alloc::Global;

// Step 1: whether it is a div, span or center without attributes.
#[tactic(auto, unfolding(crate::specs::Justify::is_plain))]
fn is_plain(doc: &Doc, node: NodeRef) -> bool
    requires { Holds doc.now node }
    ensures { result ≡ justify.is_plain doc.now.state.trees node.label }
{
    is_without_attributes(doc, node)
        && (has_name(doc, node, b"div")
            || has_name(doc, node, b"span")
            || has_name(doc, node, b"center"))
}

// Step 1, when it aligns no more: where it is plain it goes, and its children stay; otherwise a
// center becomes a div.
#[tactic(auto, using(edit_model::proofs::Steps::steps, edit_model::proofs::Steps::exits), unfolding(crate::specs::Justify::drop_plain))]
fn drop_plain(alloc: Global, doc: &mut Doc, node: NodeRef) -> Result<(), EditFault>
    requires open { IsOpen doc.old }
    requires node_held { Holds doc.old node }
    ensures gives { Gives result doc.old.state doc.new.state (justify.drop_plain node.label) }
    ensures keeps { Keeps doc.old doc.new }
{
    if is_plain(doc, node) {
        return remove_keeping_children(alloc, doc, node);
    }
    if is_center(doc, node) {
        let name = Name::from_slice(alloc, b"div")?;
        doc.set_tag_name(node, &name)?;
    }
    Ok(())
}

// Step 1, of one element.
#[tactic(auto, using(edit_model::proofs::Steps::steps, edit_model::proofs::Steps::exits), unfolding(crate::specs::Justify::clear_alignment))]
fn clear_alignment(alloc: Global, doc: &mut Doc, node: NodeRef) -> Result<(), EditFault>
    requires open { IsOpen doc.old }
    requires node_held { Holds doc.old node }
    ensures gives { Gives result doc.old.state doc.new.state (justify.clear_alignment node.label) }
    ensures keeps { Keeps doc.old doc.new }
{
    let name = Name::from_slice(alloc, b"align")?;
    doc.unset_attribute(node, &name)?;
    unset_style(alloc, doc, node, b"text-align")?;
    drop_plain(alloc, doc, node)
}

// Step 1.
#[tactic(auto, using(edit_model::proofs::Steps::eachs, edit_model::proofs::Steps::exits), unfolding(crate::specs::Justify::clear_alignments))]
fn clear_alignments(alloc: Global, doc: &mut Doc) -> Result<(), EditFault>
    requires open { IsOpen doc.old }
    ensures gives { Gives result doc.old.state doc.new.state justify.clear_alignments }
    ensures keeps { Keeps doc.old doc.new }
{
    let list = contained(alloc, doc, &Aligning)?;
    for node in &list {
        clear_alignment(alloc, doc, *node)?;
    }
    Ok(())
}

/// Step 3: siblings go on a series.
#[derive(Clone, Copy)]
struct Siblings;

impl Link<Doc> for Siblings {
    ghost use Rattle.inline_value.specs.BlockExtend.Series.{is_next};

    ghost linked = { λ s d x y. is_next d.state.trees x y };

    fn links(&self, doc: &Doc, last: NodeRef, node: NodeRef) -> bool {
        is_next(doc, last, node)
    }
}

// Step 3: a series is wrapped in a div that aligns it.
#[tactic(auto, using(edit_model::proofs::Steps::steps, edit_model::proofs::Steps::exits))]
fn wrap_aligned(
    alloc: Global,
    doc: &mut Doc,
    alignment: &[char],
    series: &[NodeRef],
) -> Result<Option<NodeRef>, EditFault>
    requires open { IsOpen doc.old }
    requires series_held { EachHeld doc.old series.now }
    ensures gives { GivesMaybe result doc.old.state doc.new.state
        (justify.wrap_aligned alignment.now (labels_of series.now)) }
    ensures keeps { Keeps doc.old doc.new }
{
    let test = AlignedSibling {
        alignment: Chars::from_slice(alloc, alignment)?,
    };
    let maker = CopyMade {
        blank: aligned_div(alloc, alignment)?,
    };
    let members = NodeList::from_slice(alloc, series)?;
    wrap(alloc, doc, members, &WrapRule::new(test, maker))
}

// Step 3, one turn: the series that the list begins with is wrapped in a div that aligns it.
#[derive(Clone, Copy)]
struct AlignTurn<'a> {
    alignment: &'a [char],
}

impl<'a> Turn for AlignTurn<'a> {
    ghost use Rattle.block_commands.specs.Justify.{align_next};

    ghost run = { λ s. align_next s.alignment.now };

    #[tactic(auto, using(edit_model::proofs::Steps::steps, edit_model::proofs::Steps::exits, crate::proofs::Below::labels_of_front, crate::proofs::Below::labels_of_rest, crate::proofs::Counting::exit_count), unfolding(crate::specs::Justify::align_next))]
    fn take(&self, alloc: Global, doc: &mut Doc, list: &[NodeRef]) -> Result<usize, EditFault> {
        let count = count_series(doc, list, &Siblings);
        wrap_aligned(alloc, doc, self.alignment, &list[..count])?;
        Ok(count)
    }
}

/// Justifies the active range: its blocks come to stand in a div that aligns them. It answers true.
#[tactic(auto, using(edit_model::proofs::Steps::steps, edit_model::proofs::Steps::exits), unfolding(crate::specs::Justify::justify))]
pub fn justify(alloc: Global, doc: &mut Doc, alignment: TextAlign) -> Result<bool, EditFault>
    requires open { IsOpen doc.old }
    ensures gives { Gives result doc.old.state doc.new.state
        (justify.justify (text_align_keyword alignment)) }
    ensures keeps { Keeps doc.old doc.new }
{
    clear_alignments(alloc, doc)?; // step 1
    let list = outermost(alloc, doc, &Misaligned { alignment })?; // step 2
    let text = alignment.print(alloc)?;
    in_turns(alloc, doc, &AlignTurn { alignment: &text }, list.as_slice())?; // step 3
    Ok(true)
}
