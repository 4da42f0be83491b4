//! Trees that no kept entry names are given up.

ghost use Rattle.std.specs.Prelude.{◌≡◌, ℕ, ◌+◌, ◌<◌, ◌==◌, None, length, true};
ghost use Rattle.edit_model.specs.DomModel.Forest.{parent_of};
ghost use Rattle.edit_model.specs.LiveRange.PointsEdit.{has_label};
ghost use Rattle.edit_model.specs.Gives.{labels_of};
ghost use Rattle.edit_doc.specs.GivingUp.{GivesUp, is_unnamed, is_loose, loose_roots, has_detached};
ghost use Rattle.edit_doc.specs.Marks.{has_named};

use crate::command::{Command, EntrySnapshot};
use edit_model::arena::{Arena, NodeRef};

// Whether an edit names a node that the command made.
fn has_named(command: &Command, label: u32) -> bool
    requires { label < command.now.start + length command.now.named.items }
    ensures { result ≡ has_named command.now label }
{
    label >= command.start && command.named[(label - command.start) as usize]
}

// Gives up the loose tree with the root of a label, if there is one.
fn give_up_root(arena: &mut Arena, label: u32)
    requires inner { 0 < label }
    requires loose { parent_of arena.old.trees label ≡ None }
    ensures { GivesUp (λ l. l == label) arena.old arena.new }
{
    arena.valid();
    if let Some(node) = arena.find(label) {
        arena.drop_tree(node);
    }
}

// Gives up the loose trees with a root from a label on that no edit of the command names.
pub(crate) fn give_up_unnamed(arena: &mut Arena, low: u32, command: &Command)
    requires inner { 0 < low }
    requires marks { length command.now.named.items + command.now.start ≡ arena.old.next }
    requires loose { (l : ℕ) → is_unnamed low command.now l ≡ true → parent_of arena.old.trees l
        ≡ None }
    ensures { GivesUp (is_unnamed low command.now) arena.old arena.new }
{
    arena.valid();
    for label in low..arena.next_label() {
        if !has_named(command, label) {
            give_up_root(arena, label);
        }
    }
}

// Whether a label is the root of a loose tree.
fn is_loose(arena: &Arena, label: u32) -> bool
    ensures { result ≡ is_loose arena.now.trees label }
{
    arena.valid();
    match arena.find(label) {
        Some(node) => label > 0 && arena.parent(node).is_none(),
        None => false,
    }
}

// Keeps those of the nodes that are roots of loose trees.
pub(crate) fn keep_loose(arena: &Arena, detached: &mut Vec<NodeRef>)
    ensures { detached.new.items ≡ loose_roots arena.now.trees detached.old.items }
{
    detached.retain(|node| is_loose(arena, node.label));
}

// Gives up the loose trees with these roots, where they are there.
fn give_up_roots(arena: &mut Arena, roots: &[NodeRef])
    requires inner { (l : ℕ) → has_label (labels_of roots.now) l ≡ true → 0 < l }
    requires loose { (l : ℕ) → has_label (labels_of roots.now) l ≡ true
        → parent_of arena.old.trees l ≡ None }
    ensures { GivesUp (has_label (labels_of roots.now)) arena.old arena.new }
{
    arena.valid();
    for i in 0..roots.len() {
        give_up_root(arena, roots[i].label);
    }
}

// Gives up the loose trees that an entry detached.
pub(crate) fn give_up_detached(arena: &mut Arena, entry: Option<EntrySnapshot>)
    requires inner { (l : ℕ) → has_detached entry l ≡ true → 0 < l }
    requires loose { (l : ℕ) → has_detached entry l ≡ true → parent_of arena.old.trees l ≡ None }
    ensures { GivesUp (has_detached entry) arena.old arena.new }
{
    match entry {
        Some(snapshot) => give_up_roots(arena, snapshot.detached.as_slice()),
        None => {}
    }
}
