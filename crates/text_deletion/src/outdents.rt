//! Delete, step 8: an indented line. The steps are those of docs/ALGORITHMS.md.

ghost use Rattle.std.specs.Prelude.{◌≡◌, ◌<◌, IfOk};
ghost use Rattle.edit_model.specs.DomModel.Forest.{count_of};
ghost use Rattle.edit_model.specs.Gives.{Gives, labels_of};
ghost use Rattle.edit_model.specs.Run.{for_each};
ghost use Rattle.inline_value.specs.EditDoc.Whole.{IsOpen};
ghost use Rattle.inline_value.specs.EditDoc.Held.{Holds, EachHeld, Keeps};
ghost use Rattle.list_indent.specs.Outdenting as outdenting;
ghost use Rattle.text_deletion.specs.Entries as entries;

use inline_value::doc::{Doc, EditFault, NodeList, NodeRef, Point};
use inline_value::extend::{Choice, block_extend, gather_in};
use inline_value::questions::is_indentation;
use list_indent::{has_editable_below, outdent_node};
use std::alloc::{AllocError, Global};

#[tactic(auto, unfolding(crate::specs::Entries::indents_line))]
fn indents_line(doc: &Doc, node: NodeRef) -> bool
    requires { Holds doc.now node }
    ensures { result ≡ entries.indents_line doc.now.state node.label }
{
    is_indentation(doc, node) && doc.is_editable_for(node)
}

// Whether an ancestor of a node indents it.
fn has_indenter(doc: &Doc, node: NodeRef) -> bool
    requires { Holds doc.now node }
    ensures { result ≡ entries.has_indenter doc.now.state node.label }
{
    doc.valid();
    let mut at = node;
    while let Some(parent) = doc.parent(at) {
        if indents_line(doc, parent) {
            return true;
        }
        at = parent;
    }
    false
}

/// Step 8: whether a point is the start of a node that is an indentation element or stands in one.
#[tactic(auto, unfolding(crate::specs::Entries::starts_indented, crate::specs::Entries::is_indented))]
pub(crate) fn starts_indented(doc: &Doc, node: NodeRef, at: Point) -> bool
    requires held { Holds doc.now node }
    requires label { at.label ≡ node.label }
    ensures { result ≡ entries.starts_indented doc.now.state at }
{
    at.offset == 0 && (indents_line(doc, node) || has_indenter(doc, node))
}

/// Step 8: what is outdented.
#[derive(Clone, Copy)]
struct Bare;

impl Choice<Doc> for Bare {
    ghost use Rattle.text_deletion.specs.Entries.{is_bare};

    ghost chosen = { λ s d l. is_bare d.state l };

    #[tactic(auto, unfolding(crate::specs::Entries::is_bare))]
    fn chooses(&self, doc: &Doc, node: NodeRef) -> bool {
        doc.is_editable_for(node) && !has_editable_below(doc, node)
    }
}

// Step 8: the nodes of the line that are outdented.
#[tactic(auto, unfolding(crate::specs::Entries::bare_nodes))]
fn bare_nodes(alloc: Global, doc: &Doc, at: Point) -> Result<NodeList, AllocError>
    requires { 0 < count_of doc.now.state.trees at.label }
    ensures held { IfOk result (λ list. EachHeld doc.now list) }
    ensures nodes { IfOk result (λ list. labels_of list ≡ entries.bare_nodes doc.now.state at) }
{
    let range = block_extend(doc, (at, at));
    gather_in(alloc, doc, range, &Bare)
}

// Step 8: outdents each of them, in order.
#[tactic(auto, using(edit_model::proofs::Steps::eachs, edit_model::proofs::Steps::exits))]
fn outdent_each(alloc: Global, doc: &mut Doc, list: &[NodeRef]) -> Result<(), EditFault>
    requires open { IsOpen doc.old }
    requires list_held { EachHeld doc.old list.now }
    ensures gives { Gives result doc.old.state doc.new.state
        (for_each (labels_of list.now) outdenting.outdent_node) }
    ensures keeps { Keeps doc.old doc.new }
{
    for node in list {
        outdent_node(alloc, doc, *node)?;
    }
    Ok(())
}

/// Step 8: outdents the line of a point.
#[tactic(auto, using(edit_model::proofs::Steps::steps, edit_model::proofs::Steps::exits), unfolding(crate::specs::Entries::outdent_line))]
pub(crate) fn outdent_line(alloc: Global, doc: &mut Doc, at: Point) -> Result<(), EditFault>
    requires open { IsOpen doc.old }
    requires here { 0 < count_of doc.old.state.trees at.label }
    ensures gives { Gives result doc.old.state doc.new.state (entries.outdent_line at) }
    ensures keeps { Keeps doc.old doc.new }
{
    let list = bare_nodes(alloc, doc, at)?;
    outdent_each(alloc, doc, list.as_slice())
}
