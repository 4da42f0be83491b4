//! What is selected goes, and a new element is put at the start of the active range. The steps are
//! those of docs/ALGORITHMS.md.

ghost use Rattle.std.specs.Prelude.{◌≡◌, IfOk};
ghost use Rattle.edit_model.specs.Gives.{Gives, GivesNode};
ghost use Rattle.edit_model.specs.Run.{final};
ghost use Rattle.inline_value.specs.EditDoc.Whole.{IsOpen};
ghost use Rattle.inline_value.specs.EditDoc.Held.{Holds, Keeps};
ghost use Rattle.insert_objects.specs.Putting as putting;

use delete_core::{after_node, before_node, select};
use edit_model::boundary::node_of;
use inline_value::actions::ends_of;
use inline_value::doc::{Attributes, Doc, EditFault, Name, NodeRef};
use std::alloc::Global;
use text_insertion::{cuts_text, has_chars, insert_at_start};

// Collapses the active range to just before a node.
#[tactic(auto, using(edit_model::proofs::Steps::actions), unfolding(crate::specs::Putting::collapse_before))]
fn collapse_before(doc: &mut Doc, node: NodeRef)
    requires { Holds doc.old node }
    ensures gives { final (putting.collapse_before node.label) doc.old.state ≡ doc.new.state }
    ensures keeps { Keeps doc.old doc.new }
{
    if let Some(at) = before_node(doc, node) {
        select(doc, at, at);
    }
}

/// Collapses the active range to just after a node.
#[tactic(auto, using(edit_model::proofs::Steps::actions), unfolding(crate::specs::Putting::collapse_after))]
pub(crate) fn collapse_after(doc: &mut Doc, node: NodeRef)
    requires { Holds doc.old node }
    ensures gives { final (putting.collapse_after node.label) doc.old.state ≡ doc.new.state }
    ensures keeps { Keeps doc.old doc.new }
{
    if let Some(at) = after_node(doc, node) {
        select(doc, at, at);
    }
}

// Put an element, steps 2 and 3: out of the text or the comment that the active range starts in. A
// text is split where it starts amid it.
#[tactic(auto, using(edit_model::proofs::Steps::steps, edit_model::proofs::Steps::exits, crate::proofs::Below::placed_here), unfolding(crate::specs::Putting::leave_text, text_insertion::specs::Start::active_start))]
fn leave_text(doc: &mut Doc) -> Result<(), EditFault>
    requires open { IsOpen doc.old }
    ensures gives { Gives result doc.old.state doc.new.state putting.leave_text }
    ensures keeps { Keeps doc.old doc.new }
{
    doc.valid();
    let Some(pair) = doc.points().selection() else {
        return Ok(());
    };
    let (at, _) = ends_of(doc, pair);
    let node = node_of(doc, at);
    if cuts_text(doc, node, at) {
        doc.split_words(node, at.offset)?;
        collapse_after(doc, node);
    } else if !has_chars(doc, node) {
        return Ok(());
    } else if at.offset == doc.length(node) && at.offset != 0 {
        collapse_after(doc, node);
    } else {
        collapse_before(doc, node);
    }
    Ok(())
}

/// Puts a new element at the start of the active range, and answers it. A text around that is
/// split.
#[tactic(auto, using(edit_model::proofs::Steps::steps, edit_model::proofs::Steps::exits), unfolding(crate::specs::Putting::put))]
pub(crate) fn put(
    alloc: Global,
    doc: &mut Doc,
    name: &[u8],
    attributes: &Attributes,
) -> Result<NodeRef, EditFault>
    requires open { IsOpen doc.old }
    ensures gives { GivesNode result doc.old.state doc.new.state
        (putting.put name.now attributes.now) }
    ensures held { IfOk result (λ made. Holds doc.new made) }
    ensures keeps { Keeps doc.old doc.new }
{
    let name = Name::from_slice(alloc, name)?;
    let made = doc.make_element(&name, attributes)?;
    leave_text(doc)?;
    insert_at_start(doc, made)?;
    Ok(made)
}
