//! What a round does: an arm for each act.

ghost use Rattle.std.specs.Prelude.{◌≡◌, ◌<◌, IfOk, IfSome};
ghost use Rattle.inline_value.specs.EditDoc.Held.{EachHeld, Holds};
ghost use Rattle.inline_value.specs.EditDoc.Whole.{IsClosed, IsOpen};

use edit_model::dom::{Attributes, Name};
use edit_model::stepping::Steps;
use inline_value::doc::{Doc, EditFault, NodeList, NodeRef};
use inline_value::wrap::{
    CopyMade, IndentationSibling, NoSibling, NothingMade, WrapRule, remove_keeping_children,
    split_parent, wrap,
};
use std::alloc::{AllocError, Global};
use std::marker::Brand;
use std::sync::ledger::{Blank, Ledger};

// What a command does to a node.
#[derive(Clone, Copy)]
pub(crate) enum Act {
    // splits its parent
    Split,
    // removes it, and its children stay
    Unwrap,
    // wraps it in a new div
    Wrap,
    // wraps it in the simple indentation element beside it
    Join,
}

pub(crate) fn act_named(word: &str) -> Option<Act> {
    match word {
        "split" => Some(Act::Split),
        "unwrap" => Some(Act::Unwrap),
        "wrap" => Some(Act::Wrap),
        "join" => Some(Act::Join),
        _ => None,
    }
}

#[tactic(auto, using(crate::proofs::Below::pushed_held, crate::proofs::Below::none_held))]
fn listed(alloc: Global, doc: &Doc, node: NodeRef) -> Result<NodeList, AllocError>
    requires { Holds doc.now node }
    ensures { IfOk result (λ list. EachHeld doc.now list) }
{
    let mut list = Vec::new(alloc);
    list.push(node)?;
    NodeList::from_slice(alloc, &list)
}

fn wrap_in_div(alloc: Global, doc: &mut Doc, list: NodeList) -> Result<(), EditFault>
    requires open { IsOpen doc.old }
    requires held { EachHeld doc.old list }
    ensures { IfOk result (λ _. IsOpen doc.new) }
{
    let blank = inline_value::wrap::Blank {
        name: Name::from_slice(alloc, b"div")?,
        attributes: Attributes::new(alloc),
    };
    wrap(
        alloc,
        doc,
        list,
        &WrapRule::new(NoSibling, CopyMade { blank }),
    )?;
    Ok(())
}

fn join_beside(alloc: Global, doc: &mut Doc, list: NodeList) -> Result<(), EditFault>
    requires open { IsOpen doc.old }
    requires held { EachHeld doc.old list }
    ensures { IfOk result (λ _. IsOpen doc.new) }
{
    wrap(
        alloc,
        doc,
        list,
        &WrapRule::new(IndentationSibling, NothingMade),
    )?;
    Ok(())
}

fn make(alloc: Global, doc: &mut Doc, act: Act, node: NodeRef) -> Result<(), EditFault>
    requires open { IsOpen doc.old }
    requires held { Holds doc.old node }
    ensures { IfOk result (λ _. IsOpen doc.new) }
{
    let list = listed(alloc, doc, node)?;
    match act {
        Act::Split => split_parent(alloc, doc, &list),
        Act::Unwrap => remove_keeping_children(alloc, doc, node),
        Act::Wrap => wrap_in_div(alloc, doc, list),
        Act::Join => join_beside(alloc, doc, list),
    }
}

fn undo_uncounted<L: Ledger>(doc: &mut Doc, blank: Blank) -> bool
    requires name { blank.name ≡ L.name }
    requires parts { blank.parts ≡ L.parts }
    requires some { 0 < blank.parts }
    requires closed { IsClosed doc.old }
    ensures { IsClosed doc.new }
{
    let mut steps = Steps::<L>::open(blank);
    doc.undo(&mut steps)
}

fn undo(doc: &mut Doc) -> bool
    requires { IsClosed doc.old }
    ensures { IsClosed doc.new }
{
    undo_uncounted::<Brand>(doc, Blank::new(1))
}

// Begins a command, acts, and commits, and answers how many edits it made, which are then undone.
#[tactic(auto, unfolding(crate::specs::Below::opened))]
fn run_round(alloc: Global, doc: &mut Doc, act: Act, label: u32) -> Option<u64>
    requires { IsClosed doc.old }
    ensures { IfSome result (λ _. IsClosed doc.new) }
{
    let host = doc.find(1);
    doc.begin(host, false).ok()?;
    let node = doc.find(label)?;
    make(alloc, doc, act, node).ok()?;
    doc.commit();
    let edits = doc.edits();
    undo(doc);
    Some(edits as u64)
}

// So many rounds, and the edits that they made.
pub(crate) fn run_rounds(
    alloc: Global,
    doc: &mut Doc,
    act: Act,
    label: u32,
    rounds: u32,
) -> Option<u64>
    requires { IsClosed doc.old }
{
    let mut edits: u64 = 0;
    let mut left = rounds;
    while left > 0 {
        edits = edits.saturating_add(run_round(alloc, doc, act, label)?);
        left -= 1;
    }
    Some(edits)
}
