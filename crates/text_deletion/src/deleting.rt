//! The command delete. The steps are those of docs/ALGORITHMS.md.

ghost use Rattle.std.specs.Prelude.{◌≡◌, IfOk, true};
ghost use Rattle.edit_model.specs.Gives.{Gives};
ghost use Rattle.inline_value.specs.EditDoc.Whole.{IsOpen};
ghost use Rattle.inline_value.specs.EditDoc.Held.{Holds, Keeps};
ghost use Rattle.text_deletion.specs.Delete as command;

use crate::approach::{climb, go_back};
use crate::entries::{lift_entry, part_entries, starts_entry};
use crate::erasing::{erase_line, extend, follows_single};
use crate::joining::{follows_line, follows_table, is_kept_from, joined};
use crate::outdents::{outdent_line, starts_indented};
use crate::places::one_before;
use delete_core::{Manner, canonicalize_start, select};
use edit_model::boundary::node_of;
use inline_value::actions::ends_of;
use inline_value::doc::{Doc, EditFault, NodeRef, Point};
use inline_value::query::is_caret;
use inline_value::questions::is_block;
use std::alloc::Global;
use text_insertion::erase;

// Steps 7 to 13, with a caret in a node.
#[tactic(auto, using(edit_model::proofs::Steps::steps, edit_model::proofs::Steps::exits, edit_model::proofs::Steps::actions), unfolding(crate::specs::Delete::join, crate::specs::Delete::delete_across))]
fn delete_across(alloc: Global, doc: &mut Doc, node: NodeRef, caret: Point) -> Result<(), EditFault>
    requires open { IsOpen doc.old }
    requires node_held { Holds doc.old node }
    requires label { caret.label ≡ node.label }
    ensures gives { Gives result doc.old.state doc.new.state (command.delete_across caret) }
    ensures keeps { Keeps doc.old doc.new }
{
    let way = climb(doc, caret)?; // step 7
    if starts_indented(doc, node, caret) {
        return outdent_line(alloc, doc, caret); // step 8
    }
    let at = way.at;
    let outer = node_of(doc, at);
    // step 9
    if is_kept_from(doc, outer, at) {
        return Ok(());
    }
    if follows_table(doc, outer, at) {
        select(doc, one_before(at), at);
        return Ok(());
    }
    if follows_line(doc, caret, outer, at) {
        return erase_line(alloc, doc, caret, at); // step 10
    }
    part_entries(alloc, doc, outer, at)?; // step 11
    let (from, to) = joined(doc, caret, outer, at); // step 12
    select(doc, from, to);
    erase(alloc, doc, Manner::BACKWARD) // step 13
}

// Steps 2 to 13.
#[tactic(auto, using(edit_model::proofs::Steps::steps, edit_model::proofs::Steps::exits, edit_model::proofs::Steps::actions, crate::proofs::Below::placed_here), unfolding(crate::specs::Delete::erase_single, crate::specs::Delete::delete_from, crate::specs::Delete::delete_at_caret))]
fn delete_at_caret(alloc: Global, doc: &mut Doc) -> Result<(), EditFault>
    requires open { IsOpen doc.old }
    ensures gives { Gives result doc.old.state doc.new.state command.delete_at_caret }
    ensures keeps { Keeps doc.old doc.new }
{
    canonicalize_start(alloc, doc, true)?; // step 2
    doc.valid();
    let Some(pair) = doc.points().selection() else {
        return Ok(());
    };
    let (start, _) = ends_of(doc, pair);
    let way = go_back(alloc, doc, start)?; // step 3
    if way.unlinked {
        return Ok(());
    }
    let caret = way.at;
    let node = node_of(doc, caret);
    if follows_single(doc, node, caret) {
        // step 4
        select(doc, caret, caret);
        extend(doc, one_before(caret));
        return erase(alloc, doc, Manner::DEFAULT);
    }
    // step 5
    if !is_block(doc, node) {
        return Ok(());
    }
    if starts_entry(doc, node, caret) {
        return lift_entry(alloc, doc, node); // step 6
    }
    delete_across(alloc, doc, node, caret)
}

/// The command delete: what is selected goes. At a caret it is what stands before it: a character,
/// a br, hr or img, the edge between two blocks, the place of the first entry of a list, or an
/// indentation. A table before the caret is selected, and a link gives way to its text.
#[tactic(auto, using(edit_model::proofs::Steps::steps, edit_model::proofs::Steps::exits), unfolding(crate::specs::Delete::delete))]
pub fn delete(alloc: Global, doc: &mut Doc) -> Result<bool, EditFault>
    requires open { IsOpen doc.old }
    ensures gives { Gives result doc.old.state doc.new.state command.delete }
    ensures taken { IfOk result (λ answer. answer ≡ true) }
    ensures keeps { Keeps doc.old doc.new }
{
    if is_caret(doc) {
        delete_at_caret(alloc, doc)?;
    } else {
        erase(alloc, doc, Manner::DEFAULT)?; // step 1
    }
    Ok(true)
}
