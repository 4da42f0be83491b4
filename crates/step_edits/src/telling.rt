//! The edit of the document that a step makes.

ghost use Rattle.std.specs.Prelude.{◌≡◌, ◌++◌, IfOk, OnOk, true};
ghost use Rattle.document_edits.specs.DomModel.Change.{listed};
ghost use Rattle.document_edits.specs.DomModel.Change as change;
ghost use Rattle.document_edits.specs.DomModel.Contents.{has_chars_at};
ghost use Rattle.node_paths.specs.NodeArena.Held.{Holds, label};
ghost use Rattle.edit_steps.specs.ForestChanges.Change.{HasPart};
ghost use Rattle.edit_steps.specs.Step.{StepFits, change_of};
ghost use Rattle.edit_steps.specs.declared.step.Step.TheVariants as step;
ghost use Rattle.document_edits.specs.Told.{told, told_tree};

use crate::splicing::spliced_words;
use crate::trees::tree_nodes;
use document_edits::boundary::is_in_document;
use document_edits::dom::{Attributes, Chars};
use document_edits::{DocumentEdit, replaced};
use edit_steps::{Splice, Step};
use node_paths::arena::{Arena, NodeRef};
use std::alloc::{AllocError, Global};

fn label_of(node: Option<NodeRef>) -> Option<u32>
    ensures { result ≡ label node }
{
    match node {
        Some(node) => Some(node.label),
        None => None,
    }
}

// The tree of a node comes into the document.
fn tell_tree(
    alloc: Global,
    arena: &Arena,
    node: NodeRef,
    parent: NodeRef,
    before: Option<NodeRef>,
) -> Result<DocumentEdit, AllocError>
    requires { Holds arena.now node }
    ensures { IfOk result (λ edit. edit
        ≡ told_tree arena.now.trees node.label parent.label (label before)) }
{
    Ok(DocumentEdit::Insert {
        tree: tree_nodes(alloc, arena, node)?,
        parent: parent.label,
        before: label_of(before),
    })
}

// The tree of a node goes.
#[tactic(auto, unfolding(document_edits::specs::Told::told))]
fn tell_removal(arena: &Arena, node: NodeRef) -> Option<DocumentEdit>
    ensures { listed result ≡ told (change.Remove node.label) arena.now.trees }
{
    if is_in_document(arena, node.label) {
        Some(DocumentEdit::Remove { node: node.label })
    } else {
        None
    }
}

// The tree of a node comes to a place.
#[tactic(auto, unfolding(document_edits::specs::Told::told))]
fn tell_insertion(
    alloc: Global,
    arena: &Arena,
    node: NodeRef,
    parent: NodeRef,
    before: Option<NodeRef>,
) -> Result<Option<DocumentEdit>, AllocError>
    requires { Holds arena.now node }
    ensures { IfOk result (λ edit. listed edit
        ≡ told (change.Insert node.label parent.label (label before)) arena.now.trees) }
{
    if is_in_document(arena, parent.label) {
        Ok(Some(tell_tree(alloc, arena, node, parent, before)?))
    } else {
        Ok(None)
    }
}

// The tree of a node comes to another place.
#[tactic(auto, unfolding(document_edits::specs::Told::told))]
fn tell_move(
    alloc: Global,
    arena: &Arena,
    node: NodeRef,
    parent: NodeRef,
    before: Option<NodeRef>,
) -> Result<Option<DocumentEdit>, AllocError>
    requires { Holds arena.now node }
    ensures { IfOk result (λ edit. listed edit
        ≡ told (change.Move node.label parent.label (label before)) arena.now.trees) }
{
    if !is_in_document(arena, node.label) {
        return tell_insertion(alloc, arena, node, parent, before);
    }
    Ok(Some(if is_in_document(arena, parent.label) {
        DocumentEdit::Move {
            node: node.label,
            parent: parent.label,
            before: label_of(before),
        }
    } else {
        DocumentEdit::Remove { node: node.label }
    }))
}

// A node is given other characters.
#[tactic(auto, unfolding(document_edits::specs::Told::told))]
fn tell_words(
    alloc: Global,
    arena: &Arena,
    node: NodeRef,
    words: &Chars,
) -> Result<Option<DocumentEdit>, AllocError>
    requires held { Holds arena.now node }
    requires chars { has_chars_at arena.now.trees node.label ≡ true }
    ensures { IfOk result (λ edit. listed edit
        ≡ told (change.SetText node.label words.now) arena.now.trees) }
{
    arena.valid();
    if !is_in_document(arena, node.label) {
        return Ok(None);
    }
    let old = arena.words(node);
    replaced(alloc, node.label, old.as_slice(), words.as_slice())
}

// Characters of a node give way to others.
#[tactic(auto, unfolding(document_edits::specs::Told::told))]
fn tell_splice(
    alloc: Global,
    arena: &Arena,
    splice: &Splice,
) -> Result<Option<DocumentEdit>, AllocError>
    requires held { Holds arena.now splice.now.node }
    requires part { HasPart arena.now.trees splice.now.node.label splice.now.at splice.now.rest
        splice.now.taken splice.now.put }
    ensures { IfOk result (λ edit. listed edit
        ≡ told (change_of (step.Splice splice.now)) arena.now.trees) }
{
    arena.valid();
    let node = splice.node();
    if !is_in_document(arena, node.label) {
        return Ok(None);
    }
    let old = arena.words(node).as_slice();
    let new = spliced_words(alloc, old, splice)?;
    replaced(alloc, node.label, old, new.as_slice())
}

// An element is given another attribute list.
#[tactic(auto, unfolding(document_edits::specs::Told::told))]
fn tell_attributes(
    arena: &Arena,
    node: NodeRef,
    list: &Attributes,
) -> Result<Option<DocumentEdit>, AllocError>
    ensures { IfOk result (λ edit. listed edit
        ≡ told (change.SetAttributes node.label list.now) arena.now.trees) }
{
    if is_in_document(arena, node.label) {
        Ok(Some(DocumentEdit::SetAttributes {
            node: node.label,
            attributes: list.copy()?,
        }))
    } else {
        Ok(None)
    }
}

// The edit of the document that a step makes, if it makes one.
fn tell_step(alloc: Global, arena: &Arena, step: &Step) -> Result<Option<DocumentEdit>, AllocError>
    requires { StepFits step.now arena.now }
    ensures { IfOk result (λ edit. listed edit ≡ told (change_of step.now) arena.now.trees) }
{
    match step {
        Step::Remove { node } => Ok(tell_removal(arena, *node)),
        Step::Insert {
            node,
            parent,
            before,
        } => tell_insertion(alloc, arena, *node, *parent, *before),
        Step::Move {
            node,
            parent,
            before,
        } => tell_move(alloc, arena, *node, *parent, *before),
        Step::SetText { node, words } => tell_words(alloc, arena, *node, words),
        Step::Splice(splice) => tell_splice(alloc, arena, splice),
        Step::SetAttributes { node, list } => tell_attributes(arena, *node, list),
    }
}

/// Appends the edit of the document that a step makes, if it makes one.
pub(crate) fn push_told(
    alloc: Global,
    edits: &mut Vec<DocumentEdit>,
    arena: &Arena,
    step: &Step,
) -> Result<(), AllocError>
    requires { StepFits step.now arena.now }
    ensures ok { OnOk result (edits.new.items
        ≡ edits.old.items ++ told (change_of step.now) arena.now.trees) }
{
    if let Some(edit) = tell_step(alloc, arena, step)? {
        edits.push(edit)?;
    }
    Ok(())
}
