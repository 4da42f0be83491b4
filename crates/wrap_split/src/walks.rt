//! Walks from node to node, in which nothing is edited.

ghost use Rattle.std.specs.Prelude.{◌≡◌, Some};
ghost use Rattle.edit_actions.specs.EditDoc.Held.{Holds, Finds};
ghost use Rattle.wrap_split.specs.Walks.{turn_bound, last_within, preceding};

use edit_actions::doc::{Doc, NodeRef};

/// How many turns a loop takes at most that starts now.
pub fn turn_bound(doc: &Doc) -> u128
    ensures { result ≡ turn_bound doc.now.state }
{
    command_value::styles::turn_bound(doc)
}

// The last node of a tree, in tree order.
fn last_within(doc: &Doc, node: NodeRef) -> NodeRef
    requires { Holds doc.now node }
    ensures last { last_within doc.now.state.trees node.label ≡ Some result.label }
    ensures held { Holds doc.now result }
{
    doc.valid();
    let mut at = node;
    while let Some(child) = doc.last_child(at) {
        at = child;
    }
    at
}

// The node before another in tree order.
#[tactic(auto, unfolding(crate::specs::Walks::preceding))]
pub(crate) fn preceding(doc: &Doc, node: NodeRef) -> Option<NodeRef>
    requires { Holds doc.now node }
    ensures { Finds doc.now result (preceding doc.now.state.trees node.label) }
{
    match doc.prev(node) {
        Some(prev) => Some(last_within(doc, prev)),
        None => doc.parent(node),
    }
}
