//! The nodes that formatBlock is for, the blocks that they leave, and the lines and blocks that they
//! come to be. The steps are those of docs/ALGORITHMS.md.

ghost use Rattle.std.specs.Prelude.{◌≡◌};
ghost use Rattle.edit_model.specs.Confined.{is_editable_for};
ghost use Rattle.inline_value.specs.EditDoc.Held.{Holds};
ghost use Rattle.block_commands.specs.FormatBlock as format;

use edit_model::dom::Name;
use inline_value::doc::{Doc, NodeRef};
use inline_value::extend::{Choice, Link, is_above_prohibited, is_next};
use inline_value::query::is_editable_inside;
use inline_value::questions::{
    allowed_in_name, has_name, is_break, is_formattable_block, is_non_list_single_line,
    is_single_line,
};
use inline_value::wrap::{Meets, is_without_attributes};

// Step 2: a line of its own but for li, or what may stand in a paragraph.
#[tactic(auto, unfolding(crate::specs::FormatBlock::is_line))]
fn is_line(doc: &Doc, node: NodeRef) -> bool
    requires { Holds doc.now node }
    ensures { result ≡ format.is_line doc.now.state.trees node.label }
{
    is_non_list_single_line(doc, node)
        || has_name(doc, node, b"dd")
        || has_name(doc, node, b"dt")
        || allowed_in_name(doc, node, b"p")
}

/// The nodes that formatBlock is for.
#[derive(Clone, Copy)]
pub(crate) struct Formatted;

impl Choice<Doc> for Formatted {
    ghost use Rattle.block_commands.specs.FormatBlock.{is_formatted};

    ghost chosen = { λ s d l. is_formatted d.state l };

    #[tactic(auto, unfolding(crate::specs::FormatBlock::is_formatted))]
    fn chooses(&self, doc: &Doc, node: NodeRef) -> bool {
        doc.is_editable_for(node) && is_line(doc, node) && !is_above_prohibited(doc, node)
    }
}

// Step 3: a block with no other block in it, if it is editable.
#[tactic(auto, unfolding(crate::specs::FormatBlock::is_outer_block))]
fn is_outer_block(doc: &Doc, editable: bool, node: NodeRef) -> bool
    requires held { Holds doc.now node }
    requires told { editable ≡ is_editable_for doc.now.state node.label }
    ensures { result ≡ format.is_outer_block doc.now.state node.label }
{
    editable && is_formattable_block(doc, node) && !is_above_prohibited(doc, node)
}

/// Whether an ancestor of a node is such a block.
pub(crate) fn has_outer_block(doc: &Doc, node: NodeRef) -> bool
    requires { Holds doc.now node }
    ensures { result ≡ format.has_outer_block doc.now.state node.label }
{
    doc.valid();
    let mut at = doc.parent(node);
    let mut inside = false;
    while let Some(above) = at {
        let editable = is_editable_inside(doc, inside, above);
        if is_outer_block(doc, editable, above) {
            return true;
        }
        at = doc.parent(above);
        inside = editable;
    }
    false
}

/// Step 4 b: siblings that go on a line.
#[derive(Clone, Copy)]
pub(crate) struct OnLine;

impl Link<Doc> for OnLine {
    ghost use Rattle.block_commands.specs.FormatBlock.{is_next_on_line};

    ghost linked = { λ s d x y. is_next_on_line d.state x y };

    #[tactic(auto, unfolding(crate::specs::FormatBlock::is_next_on_line))]
    fn links(&self, doc: &Doc, last: NodeRef, node: NodeRef) -> bool {
        is_next(doc, last, node) && !is_single_line(doc, node) && !is_break(doc, last)
    }
}

/// Step 4 c: an element of the name without attributes fits, but for div and p none.
#[derive(Drop)]
pub(crate) struct SameBlock {
    pub name: Name,
}

impl Meets for SameBlock {
    ghost use Rattle.block_commands.specs.FormatBlock.{same_block};

    ghost criterion = { λ s. same_block s.name };

    #[tactic(auto, unfolding(crate::specs::Below::meets))]
    fn meets(&self, doc: &Doc, node: NodeRef) -> bool {
        let name = self.name.as_slice();
        if name == b"div".as_slice() || name == b"p".as_slice() {
            return false;
        }
        has_name(doc, node, name) && is_without_attributes(doc, node)
    }
}
