//! Lists that are wrapped, and parents that are split.
//!
//! Each row of a table is what an editing host holds, what is done to nodes of it by their labels
//! (1 is the host), and what it then holds.

mod lists;
mod splits;

ghost use Rattle.std.specs.Prelude.{IfOk};
ghost use Rattle.inline_value.specs.EditDoc.Held.{EachHeld};

use inline_value::doc::{Doc, NodeList};
use std::alloc::{AllocError, Global};

// The nodes of two labels; one node where they are the same, and none where there is no node.
#[tactic(auto, using(crate::proofs::Below::pushed_held, crate::proofs::Below::none_held))]
fn listed(alloc: Global, doc: &Doc, labels: (u32, u32)) -> Result<NodeList, AllocError>
    ensures { IfOk result (λ list. EachHeld doc.now list) }
{
    let mut list = Vec::new(alloc);
    if let Some(node) = doc.find(labels.0) {
        list.push(node)?;
    }
    if labels.0 != labels.1 {
        if let Some(node) = doc.find(labels.1) {
            list.push(node)?;
        }
    }
    NodeList::from_slice(alloc, &list)
}
