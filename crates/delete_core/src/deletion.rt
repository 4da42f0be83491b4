//! Delete the selection, whole. The steps are those of docs/ALGORITHMS.md.

ghost use Rattle.std.specs.Prelude.{◌≡◌, ◌<◌};
ghost use Rattle.edit_model.specs.DomModel.Forest.{count_of};
ghost use Rattle.edit_model.specs.Gives.{Gives, GivesAs, label_of};
ghost use Rattle.inline_value.specs.EditDoc.Whole.{IsOpen};
ghost use Rattle.inline_value.specs.EditDoc.Held.{Holds, IfHeld, Keeps};
ghost use Rattle.delete_core.specs.Stretches.{StretchHeld};
ghost use Rattle.delete_core.specs.Deletion.{erase_across, erase, delete_between, delete_selection};

use crate::ends::{
    block_of_end, canonicalize_end, canonicalize_start, collapse_selection, out_of_end,
    out_of_start, select,
};
use crate::equivalent::{first_equivalent, last_equivalent};
use crate::erasing::{cut_after, cut_before, erase_within, is_own_text, remove_nodes};
use crate::merging::merge_if;
use crate::places::comes_before;
use edit_model::boundary::node_of;
use inline_value::actions::ends_of;
use inline_value::doc::{Doc, EditFault, NodeRef, Point};
use inline_value::{Overrides, record_states};
use std::alloc::Global;

/// How a selection is deleted: the flags of HTML Editing APIs, "delete the selection".
#[derive(Clone, Copy)]
pub struct Manner {
    /// The blocks of the two ends become one.
    pub block_merging: bool,
    /// Inline nodes that are left empty go, also those in which the start stands.
    pub strip_wrappers: bool,
    /// The caret that is left where nothing is merged stands at the end of the range, and not at
    /// its start.
    pub backward: bool,
}

impl Manner {
    /// The flags as they are where nothing is said of them.
    pub const DEFAULT: Manner = Manner {
        block_merging: true,
        strip_wrappers: true,
        backward: false,
    };

    /// Inline nodes in which the start stands stay, also where they are left empty.
    pub const KEEP_WRAPPERS: Manner = Manner {
        strip_wrappers: false,
        ..Manner::DEFAULT
    };

    /// The blocks of the two ends stay apart.
    pub const KEEP_BLOCKS: Manner = Manner {
        block_merging: false,
        ..Manner::DEFAULT
    };

    /// The caret that is left stands at the end of the range, where nothing is merged.
    pub const BACKWARD: Manner = Manner {
        backward: true,
        ..Manner::DEFAULT
    };
}

/// What is deleted: from a point of a node to a point of another one.
#[derive(Clone, Copy)]
struct Stretch {
    start: Point,
    start_node: NodeRef,
    end: Point,
    end_node: NodeRef,
}

// Delete the selection, steps 6 to 15.
#[tactic(auto, using(edit_model::proofs::Steps::steps, edit_model::proofs::Steps::exits), unfolding(crate::specs::Deletion::erase_across))]
fn erase_across(
    alloc: Global,
    doc: &mut Doc,
    manner: Manner,
    stretch: Stretch,
    blocks: (Option<NodeRef>, Option<NodeRef>),
) -> Result<(), EditFault>
    requires open { IsOpen doc.old }
    requires stretch_held { StretchHeld doc.old stretch }
    requires block_held { IfHeld doc.old blocks.0 }
    requires other_held { IfHeld doc.old blocks.1 }
    ensures gives { Gives result doc.old.state doc.new.state
        (erase_across manner stretch.start stretch.end (label_of blocks.0) (label_of blocks.1)) }
    ensures keeps { Keeps doc.old doc.new }
{
    cut_after(doc, stretch.start_node, stretch.start)?; // step 6
    remove_nodes(alloc, doc, manner.strip_wrappers, stretch.start_node)?; // step 7
    cut_before(doc, stretch.end_node, stretch.end)?; // step 8
    canonicalize_start(alloc, doc, false)?;
    canonicalize_end(alloc, doc, false)?;
    merge_if(alloc, doc, manner.block_merging, manner.backward, blocks) // steps 9 to 15
}

// Step 5, or from 6 on.
#[tactic(auto, using(edit_model::proofs::Steps::steps, edit_model::proofs::Steps::exits), unfolding(crate::specs::Deletion::erase))]
fn erase(
    alloc: Global,
    doc: &mut Doc,
    manner: Manner,
    stretch: Stretch,
    blocks: (Option<NodeRef>, Option<NodeRef>),
) -> Result<(), EditFault>
    requires open { IsOpen doc.old }
    requires stretch_held { StretchHeld doc.old stretch }
    requires block_held { IfHeld doc.old blocks.0 }
    requires other_held { IfHeld doc.old blocks.1 }
    ensures gives { Gives result doc.old.state doc.new.state
        (erase manner stretch.start stretch.end (label_of blocks.0) (label_of blocks.1)) }
    ensures keeps { Keeps doc.old doc.new }
{
    if stretch.start.label == stretch.end.label && is_own_text(doc, stretch.start_node) {
        let node = stretch.start_node;
        return erase_within(
            alloc,
            doc,
            node,
            stretch.start,
            stretch.end,
            manner.backward,
        );
    }
    erase_across(alloc, doc, manner, stretch, blocks)
}

// Steps 1 to 4, and what 5 to 15 erase between.
#[tactic(auto, using(edit_model::proofs::Steps::steps, edit_model::proofs::Steps::exits, edit_model::proofs::Steps::actions), unfolding(crate::specs::Deletion::delete_between, crate::specs::Deletion::delete_range, crate::specs::Deletion::delete_selected, crate::specs::Deletion::delete_recorded))]
fn delete_between(alloc: Global, doc: &mut Doc, manner: Manner) -> Result<Overrides, EditFault>
    requires open { IsOpen doc.old }
    ensures gives { Gives result doc.old.state doc.new.state (delete_between manner) }
    ensures keeps { Keeps doc.old doc.new }
{
    doc.valid();
    let Some(pair) = doc.points().selection() else {
        return Ok(Overrides::new(alloc));
    };
    let (start, end) = ends_of(doc, pair);
    let start = last_equivalent(doc, start); // step 1
    let end = first_equivalent(doc, end);
    if !comes_before(doc, start, end) {
        collapse_selection(doc, manner.backward)?;
        return Ok(Overrides::new(alloc));
    }
    let start = out_of_start(doc, node_of(doc, start), start); // step 2
    let end = out_of_end(doc, node_of(doc, end), end);
    let stretch = Stretch {
        start,
        start_node: node_of(doc, start),
        end,
        end_node: node_of(doc, end),
    };
    select(doc, start, end);
    let block = block_of_end(doc, stretch.start_node); // step 3
    let other = block_of_end(doc, stretch.end_node);
    let states = record_states(alloc, doc)?; // step 4
    erase(alloc, doc, manner, stretch, (block, other))?;
    Ok(states)
}

/// Deletes what is selected (HTML Editing APIs, "delete the selection"), by the flags of a manner.
/// Answers the states and values to restore, which are those of the first formattable node that was
/// selected; none where nothing is deleted.
#[tactic(auto, using(edit_model::proofs::Steps::steps, edit_model::proofs::Steps::exits), unfolding(crate::specs::Deletion::delete_selection))]
pub fn delete_selection(
    alloc: Global,
    doc: &mut Doc,
    manner: Manner,
) -> Result<Overrides, EditFault>
    requires open { IsOpen doc.old }
    ensures gives { Gives result doc.old.state doc.new.state (delete_selection manner) }
    ensures keeps { Keeps doc.old doc.new }
{
    canonicalize_start(alloc, doc, true)?;
    canonicalize_end(alloc, doc, true)?;
    delete_between(alloc, doc, manner)
}
