//! Paths to the nodes of a document: the index of a child in each node on the way, read and
//! written.
#![tactic(auto)]

ghost use Rattle.std.specs.Prelude.{◌≡◌, ℕ, ◌∷◌, ◌++◌, ◌<◌, List, OnOk, IfSome, Some};
ghost use Rattle.std.specs.Fmt.{decimal};
ghost use Rattle.std.specs.Option.{option_and_then};
ghost use Rattle.node_arena.specs.DomModel.Forest.{parent_of, IsWithin};
ghost use Rattle.node_arena.specs.Held.{Holds, NamesHeld, label};
ghost use Rattle.node_paths.specs.Onward.{node_below};
ghost use Rattle.node_paths.specs.Paths.{label_at, node_text, indexes_at};

pub use node_arena as arena;
pub use node_arena::dom;
use node_arena::{Arena, NodeRef};
use std::alloc::{AllocError, Global};

// The child of a node at an index.
fn child_at(arena: &Arena, node: NodeRef, index: u32) -> Option<NodeRef>
    requires { Holds arena.now node }
    ensures held { IfSome result (λ r. Holds arena.now r) }
    ensures way { (rest : List ℕ) → node_below arena.now.trees node.label (index ∷ rest)
        ≡ option_and_then (λ l. node_below arena.now.trees l rest) (label result) }
{
    arena.valid();
    let mut left = index;
    let mut at = arena.first_child(node);
    while let Some(child) = at {
        if left == 0 {
            return Some(child);
        }
        left -= 1;
        at = arena.next(child);
    }
    None
}

/// The node at a path from the document, whose own path is empty. It goes over the earlier siblings
/// of each node on the way, and takes no memory.
pub fn resolve(arena: &Arena, path: &[u32]) -> Option<NodeRef>
    ensures { NamesHeld arena.now result (label_at arena.now.trees path.now) }
{
    arena.valid();
    let mut at = arena.document();
    for index in path {
        at = child_at(arena, at, *index)?;
    }
    Some(at)
}

/// Appends a number in decimal.
pub fn push_decimal(alloc: Global, bytes: &mut Vec<u8>, number: u32) -> Result<(), AllocError>
    ensures ok { OnOk result (bytes.new.items ≡ bytes.old.items ++ decimal number) }
{
    let text = format!(in alloc; "{number}")?;
    bytes.extend_from_slice(text.as_bytes())?;
    Ok(())
}

// Appends the indexes on the way to a node below the document, with `/` between.
fn push_indexes(
    alloc: Global,
    bytes: &mut Vec<u8>,
    arena: &Arena,
    node: NodeRef,
    parent: NodeRef,
) -> Result<(), AllocError>
    requires node_held { Holds arena.now node }
    requires parent_held { Holds arena.now parent }
    requires parent { parent_of arena.now.trees node.label ≡ Some parent.label }
    requires inner { IsWithin arena.now.trees 0 node.label }
    ensures ok { OnOk result (bytes.new.items ≡ bytes.old.items
        ++ indexes_at arena.now.trees node.label) }
{
    arena.valid();
    match arena.parent(parent) {
        None => push_decimal(alloc, bytes, arena.index(node)),
        Some(above) => {
            push_indexes(alloc, bytes, arena, parent, above)?;
            bytes.push(b'/')?;
            push_decimal(alloc, bytes, arena.index(node))
        }
    }
}

/// Appends the path of a node of the document: `.` for the document itself, and else the indexes
/// joined by `/`.
pub fn push_path(
    alloc: Global,
    bytes: &mut Vec<u8>,
    arena: &Arena,
    node: NodeRef,
) -> Result<(), AllocError>
    requires held { Holds arena.now node }
    requires inner { IsWithin arena.now.trees 0 node.label }
    ensures ok { OnOk result (bytes.new.items ≡ bytes.old.items
        ++ node_text arena.now.trees node.label) }
{
    arena.valid();
    match arena.parent(node) {
        Some(parent) => push_indexes(alloc, bytes, arena, node, parent),
        None => {
            bytes.push(b'.')?;
            Ok(())
        }
    }
}
