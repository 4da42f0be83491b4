//! How deep nodes come to stand where trees are put under others.

ghost use Rattle.std.specs.Prelude.{◌≡◌, ◌<◌, ◌≤◌, ◌+◌, true, None};
ghost use Rattle.page_grammar.specs.DomModel.Forest.{count_of, parent_of, tree_of};
ghost use Rattle.page_grammar.specs.DomModel.Places.{levels};
ghost use Rattle.edit_parts.specs.EditModel.Heights.{reach_of};
ghost use Rattle.edit_steps.specs.NodeArena.Held.{Holds};
ghost use Rattle.step_text.specs.Applying.{has_room_under};
ghost use Rattle.step_text.specs.Planning.{IsBound};

use edit_parts::boundary::is_in_document;
use edit_parts::tree_counts;
use edit_steps::arena::{Arena, NodeRef};

// No node of a document may be deeper.
const DEEPEST: u64 = 1_000;

// More levels than the nodes of an arena can have.
const ANY_LEVELS: u64 = 8_589_934_592;

/// At most how many levels the nodes of an arena have, over the document and the loose trees. While
/// that leaves room, no tree that is put somewhere has to be walked.
#[derive(Clone, Copy)]
pub(crate) struct Room {
    pub(crate) levels: u64,
    // how many nodes were walked since the levels were counted
    pub(crate) walked: u64,
}

impl Room {
    /// What holds of every arena.
    pub(crate) fn any(arena: &Arena) -> Room
        ensures { IsBound result arena.now.trees }
    {
        arena.valid();
        Room {
            levels: ANY_LEVELS,
            walked: 0,
        }
    }

    // Takes in that nodes come to have so many levels.
    fn reach(&mut self, most: u64)
        ensures kept { self.old.levels ≤ self.new.levels }
        ensures reached { most ≤ self.new.levels }
    {
        self.levels = self.levels.max(most);
    }

    // Takes in that so many nodes were walked. Once that are as many as labels were drawn, the
    // levels are counted anew, so that this takes no longer than the walks before it.
    fn walk(&mut self, arena: &Arena, nodes: u32)
        requires { IsBound self.old arena.now.trees }
        ensures { IsBound self.new arena.now.trees }
    {
        self.walked = self.walked.saturating_add(u64::from(nodes));
        if self.walked >= u64::from(arena.next_label()) {
            *self = Room {
                levels: count_levels(arena),
                walked: 0,
            };
        }
    }
}

// How many levels the tree of a node has.
fn tree_levels(arena: &Arena, node: NodeRef) -> u64
    requires { Holds arena.now node }
    ensures { result ≡ levels (tree_of arena.now.trees node.label) }
{
    u64::from(tree_counts(arena, node).depth) + 1
}

// How many levels the tree of a label has, if it is the label of a root.
fn root_levels(arena: &Arena, label: u32) -> u64
    ensures { 0 < count_of arena.now.trees label → parent_of arena.now.trees label ≡ None →
        levels (tree_of arena.now.trees label) ≤ result }
{
    let Some(node) = arena.find(label) else {
        return 0;
    };
    if arena.parent(node).is_some() {
        return 0;
    }
    tree_levels(arena, node)
}

// At most how many levels the document and the loose trees have. It walks them all.
fn count_levels(arena: &Arena) -> u64
    ensures { levels arena.now.trees ≤ result }
{
    arena.valid();
    let mut most = 0;
    for label in 0..arena.next_label() {
        most = root_levels(arena, label).max(most);
    }
    most
}

// At most how many levels the tree of a node has: no more than there can be from its place down.
fn most_levels(arena: &Arena, room: Room, node: NodeRef) -> u64
    requires held { Holds arena.now node }
    requires bound { IsBound room arena.now.trees }
    ensures { levels (tree_of arena.now.trees node.label) ≤ result }
{
    if arena.first_child(node).is_none() {
        return tree_levels(arena, node);
    }
    arena.valid();
    room.levels.saturating_sub(u64::from(arena.depth(node)))
}

// Whether no node comes to be too deep in the document where a tree comes to stand under a parent.
// It walks the tree.
fn walk_to_room(arena: &Arena, room: &mut Room, node: NodeRef, parent: NodeRef) -> bool
    requires node_held { Holds arena.now node }
    requires parent_held { Holds arena.now parent }
    requires bound { IsBound room.old arena.now.trees }
    ensures room { result ≡ has_room_under arena.now.trees node.label parent.label }
    ensures bound { IsBound room.new arena.now.trees }
    ensures reach { result ≡ true →
        reach_of parent.label node.label arena.now.trees < room.new.levels }
{
    arena.valid();
    let above = u64::from(arena.depth(parent));
    if !is_in_document(arena, parent.label) {
        room.reach(ANY_LEVELS);
        return true;
    }
    let counts = tree_counts(arena, node);
    let reach = above + u64::from(counts.depth) + 1;
    if reach > DEEPEST {
        return false;
    }
    room.walk(arena, counts.nodes);
    room.reach(reach + 1);
    true
}

/// Whether no node comes to be too deep in the document where a tree comes to stand under a parent.
/// It takes time for the ways up from both, and where the bound leaves no room, for the tree.
pub(crate) fn has_room_under(arena: &Arena, room: &mut Room, node: NodeRef, parent: NodeRef) -> bool
    requires node_held { Holds arena.now node }
    requires parent_held { Holds arena.now parent }
    requires bound { IsBound room.old arena.now.trees }
    ensures room { result ≡ has_room_under arena.now.trees node.label parent.label }
    ensures bound { IsBound room.new arena.now.trees }
    ensures reach { result ≡ true →
        reach_of parent.label node.label arena.now.trees < room.new.levels }
{
    let above = u64::from(arena.depth(parent));
    let most = most_levels(arena, *room, node);
    if above > DEEPEST || most > DEEPEST - above {
        return walk_to_room(arena, room, node, parent);
    }
    room.reach(above + most + 1);
    true
}
