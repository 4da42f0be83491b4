//! The command createLink. The steps are those of docs/ALGORITHMS.md.

ghost use Rattle.std.specs.Prelude.{◌≡◌, ◌<◌, length};
ghost use Rattle.edit_model.specs.Gives.{Gives, labels_of};
ghost use Rattle.edit_model.specs.Run.{for_each};
ghost use Rattle.inline_value.specs.EditDoc.Held.{Holds, EachHeld, Keeps};
ghost use Rattle.inline_value.specs.EditDoc.Whole.{IsOpen};
ghost use Rattle.inline_commands.specs.Linking.{relink, relink_range, link_range, create_link};

use crate::links::links_around;
use edit_model::dom::Name;
use edit_model::element_names::Command;
use inline_value::doc::{Chars, Doc, EditFault, NodeRef};
use inline_value::set_value;
use std::alloc::Global;

// CreateLink, step 2: of one link.
#[tactic(auto, using(edit_model::proofs::Steps::steps, edit_model::proofs::Steps::exits), unfolding(crate::specs::Linking::relink))]
fn relink(alloc: Global, doc: &mut Doc, value: &[char], node: NodeRef) -> Result<(), EditFault>
    requires open { IsOpen doc.old }
    requires node_held { Holds doc.old node }
    ensures gives { Gives result doc.old.state doc.new.state (relink value.now node.label) }
    ensures keeps { Keeps doc.old doc.new }
{
    if doc.is_editable_for(node) {
        let name = Name::from_slice(alloc, b"href")?;
        let value = Chars::from_slice(alloc, value)?;
        doc.set_attribute(node, &name, &value)?;
    }
    Ok(())
}

// CreateLink, step 2: of each link of a list.
#[tactic(auto, using(edit_model::proofs::Steps::eachs, edit_model::proofs::Steps::exits))]
fn relink_each(
    alloc: Global,
    doc: &mut Doc,
    value: &[char],
    list: &[NodeRef],
) -> Result<(), EditFault>
    requires open { IsOpen doc.old }
    requires list_held { EachHeld doc.old list.now }
    ensures gives { Gives result doc.old.state doc.new.state
        (for_each (labels_of list.now) (relink value.now)) }
    ensures keeps { Keeps doc.old doc.new }
{
    for node in list {
        relink(alloc, doc, value, *node)?;
    }
    Ok(())
}

// CreateLink, step 2.
#[tactic(auto, using(edit_model::proofs::Steps::steps, edit_model::proofs::Steps::exits), unfolding(crate::specs::Linking::relink_range))]
fn relink_range(alloc: Global, doc: &mut Doc, value: &[char]) -> Result<(), EditFault>
    requires open { IsOpen doc.old }
    ensures gives { Gives result doc.old.state doc.new.state (relink_range value.now) }
    ensures keeps { Keeps doc.old doc.new }
{
    let list = links_around(alloc, doc)?;
    relink_each(alloc, doc, value, &list)
}

// CreateLink, steps 2 and 3.
#[tactic(auto, using(edit_model::proofs::Steps::steps, edit_model::proofs::Steps::exits), unfolding(crate::specs::Linking::link_range))]
fn link_range(alloc: Global, doc: &mut Doc, value: &[char]) -> Result<bool, EditFault>
    requires open { IsOpen doc.old }
    ensures gives { Gives result doc.old.state doc.new.state (link_range value.now) }
    ensures keeps { Keeps doc.old doc.new }
{
    relink_range(alloc, doc, value)?;
    set_value(alloc, doc, Some(value), Command::CreateLink)?;
    Ok(true)
}

/// The command createLink: the editable links around what the active range effectively contains get
/// the value as their href, and the rest of it comes to stand in new links. It answers false,
/// before it changes anything, to the empty value.
#[tactic(auto, using(edit_model::proofs::Steps::steps), unfolding(crate::specs::Linking::create_link))]
pub fn create_link(alloc: Global, doc: &mut Doc, value: &[char]) -> Result<bool, EditFault>
    requires open { IsOpen doc.old }
    ensures gives { Gives result doc.old.state doc.new.state (create_link value.now) }
    ensures keeps { Keeps doc.old doc.new }
{
    match value {
        [] => Ok(false),
        _ => link_range(alloc, doc, value),
    }
}
