//! Indenting a list of siblings. The steps are those of docs/ALGORITHMS.md.

ghost use Rattle.std.specs.Prelude.{◌≡◌, IfOk, codes};
ghost use Rattle.edit_model.specs.Gives.{Gives, label_of, labels_of};
ghost use Rattle.inline_value.specs.EditDoc.Whole.{IsOpen};
ghost use Rattle.inline_value.specs.EditDoc.Held.{IfHeld, EachHeld, Finds, Keeps};
ghost use Rattle.inline_value.specs.Wrappers as wrappers;
ghost use Rattle.list_indent.specs.Indenting.{if_list, fixed, indent_list};

use crate::lists::is_list;
use inline_value::actions::tag_of;
use inline_value::doc::{Attributes, Doc, EditFault, NodeList, NodeRef};
use inline_value::wrap::{Blank, CopyMade, IndentationSibling, NamedSibling, WrapRule, wrap};
use inline_value::{bare, fix_ancestors};
use std::alloc::{AllocError, Global};

fn if_list(doc: &Doc, node: Option<NodeRef>) -> Option<NodeRef>
    requires { IfHeld doc.now node }
    ensures { Finds doc.now result (if_list doc.now.state (label_of node)) }
{
    let node = node?;
    if is_list(doc, node) { Some(node) } else { None }
}

/// Fixes the disallowed ancestors of a node, if there is one (indent a list, step 3).
#[tactic(auto, using(edit_model::proofs::Steps::steps, edit_model::proofs::Steps::exits))]
pub fn fix(alloc: Global, doc: &mut Doc, node: Option<NodeRef>) -> Result<(), EditFault>
    requires open { IsOpen doc.old }
    requires node_held { IfHeld doc.old node }
    ensures gives { Gives result doc.old.state doc.new.state (fixed (label_of node)) }
    ensures keeps { Keeps doc.old doc.new }
{
    match node {
        Some(node) => fix_ancestors(alloc, doc, node),
        None => Ok(()),
    }
}

// What a blockquote is made of.
fn blockquote(alloc: Global) -> Result<Blank, AllocError>
    ensures { IfOk result (λ blank. blank ≡ wrappers.bare (codes "blockquote")) }
{
    bare(alloc, b"blockquote")
}

/// Indents a list of siblings: in a list they come to stand in a list of the same name, elsewhere
/// in a simple indentation element. The empty list stays as it is.
#[tactic(auto, using(edit_model::proofs::Steps::steps, edit_model::proofs::Steps::exits, edit_model::proofs::Steps::ends), unfolding(crate::specs::Indenting::nested, crate::specs::Indenting::quoted, crate::specs::Indenting::indent_list))]
pub fn indent_list(alloc: Global, doc: &mut Doc, list: NodeList) -> Result<(), EditFault>
    requires open { IsOpen doc.old }
    requires list_held { EachHeld doc.old list }
    ensures gives { Gives result doc.old.state doc.new.state (indent_list (labels_of list)) }
    ensures keeps { Keeps doc.old doc.new }
{
    if list.as_slice().len() == 0 {
        return Ok(()); // step 1
    }
    let first = list.as_slice()[0];
    if let Some(parent) = if_list(doc, doc.parent(first)) {
        let name = tag_of(alloc, doc, parent)?;
        let blank = Blank {
            name: name.clone()?,
            attributes: Attributes::new(alloc),
        };
        let rule = WrapRule::new(NamedSibling { name, bare: false }, CopyMade { blank });
        wrap(alloc, doc, list, &rule)?; // step 2
        return Ok(());
    }
    let blank = blockquote(alloc)?;
    let rule = WrapRule::new(IndentationSibling, CopyMade { blank });
    let made = wrap(alloc, doc, list, &rule)?; // step 3
    fix(alloc, doc, made)
}
