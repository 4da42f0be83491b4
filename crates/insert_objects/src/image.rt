//! The command insertImage. The steps are those of docs/ALGORITHMS.md.

ghost use Rattle.std.specs.Prelude.{◌≡◌, ◌<◌, IfOk};
ghost use Rattle.edit_model.specs.DomModel.Forest.{count_of};
ghost use Rattle.edit_model.specs.Gives.{Gives};
ghost use Rattle.inline_value.specs.EditDoc.Whole.{IsOpen};
ghost use Rattle.inline_value.specs.EditDoc.Held.{Keeps};
ghost use Rattle.insert_objects.specs.Image as command;

use crate::putting::{collapse_after, put};
use delete_core::Manner;
use edit_model::boundary::node_of;
use inline_value::doc::{Attributes, Chars, Doc, EditFault, Name, Point};
use inline_value::questions::{is_block, is_break};
use std::alloc::{AllocError, Global};
use text_insertion::{erase, start_inside};

// Step 3: the br that is all that a block has goes, where a point is the start of that block.
#[tactic(auto, using(edit_model::proofs::Steps::steps, edit_model::proofs::Steps::exits), unfolding(crate::specs::Image::drop_lone_break))]
fn drop_lone_break(doc: &mut Doc, at: Point) -> Result<(), EditFault>
    requires open { IsOpen doc.old }
    requires here { 0 < count_of doc.old.state.trees at.label }
    ensures gives { Gives result doc.old.state doc.new.state (command.drop_lone_break at) }
    ensures keeps { Keeps doc.old doc.new }
{
    let block = node_of(doc, at);
    let Some(child) = doc.first_child(block) else {
        return Ok(());
    };
    if at.offset == 0 && is_block(doc, block) && is_break(doc, child) && doc.next(child).is_none() {
        doc.remove(child)?;
    }
    Ok(())
}

// Step 4: the attributes of the image.
fn source(alloc: Global, value: &[char]) -> Result<Attributes, AllocError>
    ensures { IfOk result (λ attributes. attributes ≡ command.source value.now) }
{
    let mut attributes = Attributes::new(alloc);
    attributes.insert(
        Name::from_slice(alloc, b"src")?,
        Chars::from_slice(alloc, value)?,
    )?;
    Ok(attributes)
}

// Steps 2 to 4.
#[tactic(auto, using(edit_model::proofs::Steps::steps, edit_model::proofs::Steps::exits), unfolding(crate::specs::Image::put_image, crate::specs::Image::show_image, crate::specs::Image::insert_source))]
fn insert_source(alloc: Global, doc: &mut Doc, value: &[char]) -> Result<bool, EditFault>
    requires open { IsOpen doc.old }
    ensures gives { Gives result doc.old.state doc.new.state (command.insert_source value.now) }
    ensures keeps { Keeps doc.old doc.new }
{
    erase(alloc, doc, Manner::KEEP_WRAPPERS)?;
    let Some(at) = start_inside(doc) else {
        return Ok(true);
    };
    drop_lone_break(doc, at)?;
    let attributes = source(alloc, value)?;
    let made = put(alloc, doc, b"img", &attributes)?;
    collapse_after(doc, made);
    Ok(true)
}

/// The command insertImage: what is selected goes, and an img with the value as its src stands in
/// its place, with the caret after it. In a block that has only a br it takes the place of that. It
/// answers false, before it changes anything, to the empty value.
#[tactic(auto, using(edit_model::proofs::Steps::steps, edit_model::proofs::Steps::exits), unfolding(crate::specs::Image::insert_image))]
pub fn insert_image(alloc: Global, doc: &mut Doc, value: &[char]) -> Result<bool, EditFault>
    requires open { IsOpen doc.old }
    ensures gives { Gives result doc.old.state doc.new.state (command.insert_image value.now) }
    ensures keeps { Keeps doc.old doc.new }
{
    match value {
        [] => Ok(false),
        _ => insert_source(alloc, doc, value),
    }
}
