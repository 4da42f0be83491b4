//! What is kept of the running command, and beside each entry of the log.

ghost use Rattle.std.specs.Prelude.{◌≡◌, ℕ, ◌<◌, [], ◌∷◌, vec_len, vec_capacity};
ghost use Rattle.edit_doc.specs.Fields.{IsEnded, AreResting, places_along, counts_along, has_newly_detached, made_span, joined_span};
ghost use Rattle.edit_doc.specs.Marks.{Marks, AreMarkable, NotesMade, place_labels};

use crate::Counts;
use crate::history::Way;
use crate::overrides::Overrides;
use edit_model::Flags;
use edit_model::arena::NodeRef;
use edit_model::dom_ranges::{Places, Points};
use std::alloc::Global;

/// Where the points stand just before and just after the commands of an entry, the next label as
/// the first of them began, and the numbers of the document on both sides.
#[derive(Clone, Copy)]
pub struct EntrySpan {
    pub before: Places,
    pub after: Places,
    pub first_label: u32,
    pub nodes_before: u32,
    pub nodes_after: u32,
    pub chars_before: u64,
    pub chars_after: u64,
    pub depth_before: u32,
    pub depth_after: u32,
}

impl EntrySpan {
    // The places to which the way leads.
    pub(crate) fn places(&self, way: Way) -> &Places
        ensures { result.now ≡ places_along way self.now }
    {
        match way {
            Way::Back => &self.before,
            Way::Forth => &self.after,
        }
    }

    // The numbers to which it leads.
    pub(crate) fn counts(&self, way: Way) -> Counts
        ensures { result ≡ counts_along way self.now }
    {
        match way {
            Way::Back => Counts {
                nodes: self.nodes_before,
                chars: self.chars_before,
                depth: self.depth_before,
            },
            Way::Forth => Counts {
                nodes: self.nodes_after,
                chars: self.chars_after,
                depth: self.depth_after,
            },
        }
    }
}

// What is kept beside an entry: its span, and the roots of the trees that its commands detached,
// which go when the entry does.
#[derive(Drop)]
pub(crate) struct EntrySnapshot {
    pub(crate) span: EntrySpan,
    pub(crate) detached: Vec<NodeRef>,
}

// What a command finds as it begins, for rolling it back.
#[derive(Drop)]
pub(crate) struct Kept {
    pub(crate) places: Places,
    pub(crate) overrides: Overrides,
    pub(crate) flags: Flags,
    pub(crate) counts: Counts,
}

// The running command. Outside commands it has no host, nothing is named or detached, and `start`
// is the next label.
#[derive(Drop)]
pub(crate) struct Command {
    pub(crate) start: u32,
    pub(crate) host: Option<NodeRef>,
    pub(crate) keeping: bool,
    pub(crate) resumed: bool,
    // of each label from `start` on, whether an edit names its node
    pub(crate) named: Vec<bool>,
    // every tree that is loose now and wasn't as the command began has its root here; the first
    // `detached_before` are those of the resumed entry
    pub(crate) detached: Vec<NodeRef>,
    pub(crate) detached_before: usize,
    pub(crate) kept: Kept,
}

impl Command {
    // No command.
    pub(crate) fn none(alloc: Global, next: u32, kept: Kept) -> Command
        ensures { IsEnded next result }
    {
        Command {
            start: next,
            host: None,
            keeping: false,
            resumed: false,
            named: Vec::new(alloc),
            detached: Vec::new(alloc),
            detached_before: 0,
            kept,
        }
    }

    // The command is over.
    pub(crate) fn end(&mut self, next: u32)
        ensures { IsEnded next self.new }
    {
        self.start = next;
        self.host = None;
        self.keeping = false;
        self.resumed = false;
        self.named.clear();
        self.detached.clear();
        self.detached_before = 0;
    }

    // An edit names a node.
    pub(crate) fn name(&mut self, node: NodeRef)
        requires { AreMarkable self.old (node.label ∷ []) }
        ensures { Marks (node.label ∷ []) self.old self.new }
    {
        if node.label >= self.start {
            self.named[(node.label - self.start) as usize] = true;
        }
    }

    // An edit names a node and a place.
    pub(crate) fn name_place(&mut self, node: NodeRef, parent: NodeRef, before: Option<NodeRef>)
        requires { AreMarkable self.old (place_labels node parent before) }
        ensures { Marks (place_labels node parent before) self.old self.new }
    {
        self.name(node);
        self.name(parent);
        if let Some(before) = before {
            self.name(before);
        }
    }

    // A node was made.
    pub(crate) fn note_made(&mut self, node: NodeRef)
        requires marks { vec_len self.old.named < vec_capacity self.old.named }
        requires room { vec_len self.old.detached < vec_capacity self.old.detached }
        ensures { NotesMade node self.old self.new }
    {
        let _ = self.named.push(false);
        let _ = self.detached.push(node);
    }

    // Whether the command made the node or removed it.
    pub(crate) fn has_newly_detached(&self, node: NodeRef) -> bool
        ensures { result ≡ has_newly_detached self.now node.label }
    {
        if node.label >= self.start {
            return true;
        }
        for i in self.detached_before..self.detached.len() {
            if self.detached[i].label == node.label {
                return true;
            }
        }
        false
    }

    // What stands beside the entry of the command.
    pub(crate) fn snapshot(&self, alloc: Global, after: Places, counts: Counts) -> EntrySnapshot
        ensures span { result.span ≡ made_span self.now after counts }
        ensures detached { result.detached.items ≡ [] }
    {
        EntrySnapshot {
            span: EntrySpan {
                before: self.kept.places,
                after,
                first_label: self.start,
                nodes_before: self.kept.counts.nodes,
                nodes_after: counts.nodes,
                chars_before: self.kept.counts.chars,
                chars_after: counts.chars,
                depth_before: self.kept.counts.depth,
                depth_after: counts.depth,
            },
            detached: Vec::new(alloc),
        }
    }
}

impl EntrySnapshot {
    // Another command joined the entry.
    pub(crate) fn join(&mut self, after: Places, counts: Counts)
        ensures span { self.new.span ≡ joined_span self.old.span after counts }
        ensures detached { self.new.detached.items ≡ [] }
    {
        self.span.after = after;
        self.span.nodes_after = counts.nodes;
        self.span.chars_after = counts.chars;
        self.span.depth_after = counts.depth;
        self.detached.clear();
    }
}

// The places of all points, without the scratch pair.
pub(crate) fn resting_places(points: &Points) -> Places
    ensures { AreResting points.now result }
{
    let mut places = points.places();
    places.scratch = None;
    places
}
