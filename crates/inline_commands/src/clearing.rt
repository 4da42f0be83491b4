//! The command unlink. The steps are those of docs/ALGORITHMS.md.

ghost use Rattle.std.specs.Prelude.{◌≡◌, IfOk};
ghost use Rattle.edit_model.specs.HtmlNames.declared.commands.Command.TheVariants.{Unlink};
ghost use Rattle.edit_model.specs.Gives.{Gives, labels_of};
ghost use Rattle.inline_value.specs.EditDoc.Held.{Holds, EachHeld, Keeps};
ghost use Rattle.inline_value.specs.EditDoc.Whole.{IsOpen};
ghost use Rattle.inline_value.specs.Selections.{clear_one};
ghost use Rattle.inline_commands.specs.Unlink.{clear_links, links_touched, unlink};

use crate::links::links_of;
use edit_model::element_names::Command;
use inline_value::clear_value;
use inline_value::doc::{Doc, EditFault, NodeRef};
use std::alloc::{AllocError, Global};

// Unlink, step 2: of one link.
#[tactic(auto, using(edit_model::proofs::Steps::steps, edit_model::proofs::Steps::exits), unfolding(inline_value::specs::Selections::clear_one))]
fn clear_link(alloc: Global, doc: &mut Doc, node: NodeRef) -> Result<(), EditFault>
    requires open { IsOpen doc.old }
    requires node_held { Holds doc.old node }
    ensures gives { Gives result doc.old.state doc.new.state (clear_one Unlink node.label) }
    ensures keeps { Keeps doc.old doc.new }
{
    clear_value(alloc, doc, node, Command::Unlink)?;
    Ok(())
}

// Unlink, step 2.
#[tactic(auto, using(edit_model::proofs::Steps::eachs, edit_model::proofs::Steps::exits), unfolding(crate::specs::Unlink::clear_links))]
fn clear_links(alloc: Global, doc: &mut Doc, list: &[NodeRef]) -> Result<(), EditFault>
    requires open { IsOpen doc.old }
    requires list_held { EachHeld doc.old list.now }
    ensures gives { Gives result doc.old.state doc.new.state (clear_links (labels_of list.now)) }
    ensures keeps { Keeps doc.old doc.new }
{
    for node in list {
        clear_link(alloc, doc, *node)?;
    }
    Ok(())
}

// Unlink, step 1.
#[tactic(auto, unfolding(crate::specs::Unlink::links_touched))]
fn touched_links(alloc: Global, doc: &Doc) -> Result<Vec<NodeRef>, AllocError>
    ensures held { IfOk result (λ list. EachHeld doc.now list.items) }
    ensures links { IfOk result (λ list. labels_of list.items ≡ links_touched doc.now.state) }
{
    doc.valid();
    match doc.points().selection() {
        Some(pair) => links_of(alloc, doc, pair),
        None => Ok(Vec::new(alloc)),
    }
}

/// The command unlink: of the links that the active range touches, an editable one whose one
/// attribute is href gives way to its children, and another editable one loses its href. It answers
/// true, also where there is none. It looks at the nodes from the start to the end of the range and
/// those above them.
#[tactic(auto, using(edit_model::proofs::Steps::steps, edit_model::proofs::Steps::exits), unfolding(crate::specs::Unlink::unlink))]
pub fn unlink(alloc: Global, doc: &mut Doc) -> Result<bool, EditFault>
    requires open { IsOpen doc.old }
    ensures gives { Gives result doc.old.state doc.new.state unlink }
    ensures keeps { Keeps doc.old doc.new }
{
    let list = touched_links(alloc, doc)?;
    clear_links(alloc, doc, &list)?;
    Ok(true)
}
