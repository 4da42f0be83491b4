//! The entries of the history before the cursor, read as forward edits.

ghost use Rattle.std.specs.Prelude.{◌≡◌, ℕ, ◌+◌, ◌<◌, ◌≤◌, List, None, IfOk, OnOk, [], ◌∷◌, ◌++◌, length, map, reverse, take, drop};
ghost use Rattle.step_edits.specs.ForestChanges.Named.{Each, named, named_in};
ghost use Rattle.edit_model.specs.LiveRange.Names.{shown, IsOver};
ghost use Rattle.step_edits.specs.EditSteps.Step.{change_of, changes_of};
ghost use Rattle.edit_model.specs.History.{used, redone_state, redone_history};
ghost use Rattle.edit_model.specs.Valid.{IsPlaced};
ghost use Rattle.edit_doc.specs.Whole.{IsClosed, with_state};
ghost use Rattle.edit_doc.specs.History.{roots_from};
ghost use Rattle.edit_doc.specs.Marks.{place_labels};
ghost use Rattle.edit_doc.specs.Sound.{AreFresh};
ghost use Rattle.edit_doc.specs.Logged.{Logged, logged_entry, first_made, first_logged, made_node, node_at, TellNamed, HasMoved};

use crate::command::Kept;
use crate::{Arena, Attributes, Chars, Doc, Name, NodeRef};
use edit_model::arena::Content;
use edit_model::stepping::Steps;
use std::alloc::{AllocError, Global};
use std::marker::{Brand, Model};
use std::mem::swap;
use std::sync::ledger::{Blank, Ledger};
use step_edits::steps::Step;

/// An edit of a logged entry, by labels, with the whole contents afterwards.
#[derive(Drop)]
pub enum LoggedEdit {
    /// The tree of a node is made loose.
    Remove {
        node: u32,
    },
    /// A loose tree is inserted under a parent, before one of its children or at the end.
    Insert {
        node: u32,
        parent: u32,
        before: Option<u32>,
    },
    /// The tree of a node is moved to another place.
    Move {
        node: u32,
        parent: u32,
        before: Option<u32>,
    },
    /// A Text or Comment node is given other characters.
    SetText {
        node: u32,
        words: Chars,
    },
    /// An element, told by its name, is given another attribute list.
    SetAttributes {
        node: u32,
        name: Name,
        attributes: Attributes,
    },
}

/// A node that the commands of a logged entry made, with its content as made.
#[derive(Drop)]
pub struct MadeNode {
    pub label: u32,
    pub content: Content,
}

/// An entry of the history: the nodes that its commands made and its edits name, by rising label,
/// and its edits in their order.
#[derive(Drop)]
pub struct LoggedEntry {
    made: Vec<MadeNode>,
    edits: Vec<LoggedEdit>,
}

impl Model for LoggedEntry {
    ghost use Rattle.edit_doc.specs.Logged.{Logged};

    ghost Value = { Logged };

    ghost view = { λ e. record { made = e.made.items; edits = e.edits.items } };
}

impl LoggedEntry {
    pub fn made(&self) -> &[MadeNode]
        ensures { result.now ≡ self.now.made }
    {
        self.made.as_slice()
    }

    pub fn edits(&self) -> &[LoggedEdit]
        ensures { result.now ≡ self.now.edits }
    {
        self.edits.as_slice()
    }

    /// The nodes and the edits, to be taken apart.
    pub fn into_parts(self) -> (Vec<MadeNode>, Vec<LoggedEdit>)
        ensures made { result.0.items ≡ self.made }
        ensures edits { result.1.items ≡ self.edits }
    {
        let LoggedEntry { made, edits } = self;
        (made, edits)
    }
}

impl Doc {
    /// The entries before the cursor, from the oldest to the newest. They are undone to read the
    /// whole contents that their edits give, and redone; where the memory runs out too.
    pub fn logged(&mut self, alloc: Global) -> Result<Vec<LoggedEntry>, AllocError>
        requires closed { IsClosed self.old }
        ensures ok { IfOk result (λ entries. entries.items
            ≡ map logged_entry (reverse self.old.history.undo)) }
        ensures stays { self.new ≡ self.old }
    {
        if self.undo_len() == 0 {
            return Ok(Vec::new(alloc));
        }
        self.logged_there::<Brand>(alloc, Blank::new(1))
    }

    // The same, where there is an entry.
    fn logged_there<L: Ledger>(
        &mut self,
        alloc: Global,
        blank: Blank,
    ) -> Result<Vec<LoggedEntry>, AllocError>
        requires name { blank.name ≡ L.name }
        requires parts { blank.parts ≡ L.parts }
        requires some { 0 < blank.parts }
        requires closed { IsClosed self.old }
        requires more { 0 < length self.old.history.undo }
        ensures ok { IfOk result (λ entries. entries.items
            ≡ map logged_entry (reverse self.old.history.undo)) }
        ensures stays { self.new ≡ self.old }
    {
        self.valid();
        self.kept_nodes();
        let kept = self.tree.keep(alloc)?;
        let mut steps = Steps::<L>::open(blank);
        let count = self.undo_len();
        self.undo_entries(count, &mut steps);
        let entries = self.redo_and_read(alloc, count, &mut steps);
        self.kept_nodes();
        self.put_back(kept);
        entries
    }

    // Undoes so many entries.
    fn undo_entries<L: Ledger>(&mut self, count: usize, steps: &mut Steps<L>)
        requires closed { IsClosed self.old }
        requires all { count ≡ length self.old.history.undo }
        ensures { HasMoved self.old self.new [] (reverse self.old.history.undo
            ++ self.old.history.redo) }
    {
        for _done in 0..count {
            self.undo(steps);
        }
    }

    // Redoes so many entries, and reads each.
    fn redo_and_read<L: Ledger>(
        &mut self,
        alloc: Global,
        count: usize,
        steps: &mut Steps<L>,
    ) -> Result<Vec<LoggedEntry>, AllocError>
        requires closed { IsClosed self.old }
        requires all { self.old.history.undo ≡ [] }
        requires within { count ≤ length self.old.history.redo }
        ensures moved { HasMoved self.old self.new (reverse (take count self.old.history.redo))
            (drop count self.old.history.redo) }
        ensures read { IfOk result (λ entries. entries.items
            ≡ map logged_entry (take count self.old.history.redo)) }
    {
        let mut entries = Ok(Vec::new(alloc));
        for _done in 0..count {
            entries = match entries {
                Ok(before) => self.redo_next(alloc, before, steps),
                Err(fault) => {
                    self.redo(steps);
                    Err(fault)
                }
            };
        }
        entries
    }

    // Redoes an entry, and puts it at the end of a list. Its nodes are read before, as they were
    // made, and its edits as they are made again, since a step lacks the whole contents afterwards.
    fn redo_next<L: Ledger>(
        &mut self,
        alloc: Global,
        before: Vec<LoggedEntry>,
        steps: &mut Steps<L>,
    ) -> Result<Vec<LoggedEntry>, AllocError>
        requires closed { IsClosed self.old }
        requires more { 0 < length self.old.history.redo }
        ensures redone { self.new ≡ record self.old {
          state = redone_state self.old.history self.old.state;
          history = redone_history self.old.history;
        } }
        ensures read { IfOk result (λ entries. entries.items ≡ before.items
            ++ map logged_entry (take 1 self.old.history.redo)) }
    {
        let made = self.next_made(alloc);
        self.redo(steps);
        let edits = self.last_edits(alloc);
        let mut entries = before;
        entries.push(LoggedEntry {
            made: made?,
            edits: edits?,
        })?;
        Ok(entries)
    }

    // The nodes that the commands made of the entry that redo would take.
    fn next_made(&self, alloc: Global) -> Result<Vec<MadeNode>, AllocError>
        requires closed { IsClosed self.now }
        requires more { 0 < length self.now.history.redo }
        ensures { IfOk result (λ nodes. nodes.items ≡ first_made self.now.history.redo) }
    {
        self.tree.nodes.arena.valid();
        let steps = self.history.next_entry().unwrap();
        let first = self.history.first_undone(self.command.start);
        let end = self.history.first_later(self.command.start);
        made_nodes(alloc, &self.tree.nodes.arena, steps, first, end)
    }

    // The edits of the entry that undo would take.
    fn last_edits(&mut self, alloc: Global) -> Result<Vec<LoggedEdit>, AllocError>
        requires { IsClosed self.old }
        ensures read { IfOk result (λ edits. edits.items ≡ first_logged self.old.history.undo) }
        ensures stays { self.new ≡ self.old }
    {
        self.history.valid();
        self.tree.nodes.arena.valid();
        self.tree.nodes.arena.slotted();
        self.tree.nodes.last_edits(alloc, &mut self.history)
    }

    // Puts the points, the overrides and the flags as they were kept.
    fn put_back(&mut self, kept: Kept)
        requires closed { IsClosed self.old }
        requires over { IsOver self.old.state.points.names kept.places }
        requires placed { IsPlaced self.old.state.trees
            (shown self.old.state.points.names kept.places) }
        requires resting { kept.places.scratch ≡ None }
        requires settings { length kept.overrides ≡ 32 }
        ensures { self.new ≡ with_state self.old (record self.old.state {
          points = shown self.old.state.points.names kept.places;
          overrides = kept.overrides;
          flags = kept.flags;
        }) }
    {
        let mut kept = kept;
        self.tree.points.set_places(&kept.places);
        swap(&mut self.tree.overrides, &mut kept.overrides);
        self.tree.flags = kept.flags;
    }
}

fn copy_content(content: &Content) -> Result<Content, AllocError>
    ensures { IfOk result (λ copied. copied ≡ content.now) }
{
    Ok(match content {
        Content::Document => Content::Document,
        Content::Element { name, attributes } => Content::Element {
            name: name.clone()?,
            attributes: attributes.copy()?,
        },
        Content::Words(words) => Content::Words(words.clone()?),
        Content::Remark(words) => Content::Remark(words.clone()?),
    })
}

// The nodes with labels from `first` on that the steps name.
fn made_nodes(
    alloc: Global,
    arena: &Arena,
    steps: &[Step],
    first: u32,
    end: u32,
) -> Result<Vec<MadeNode>, AllocError>
    requires order { first ≤ end }
    requires fresh { AreFresh arena.now.trees first }
    requires within { Each (λ l. l < end) (named_in (changes_of steps.now)) }
    ensures { IfOk result (λ nodes. nodes.items ≡ map made_node
        (used (changes_of steps.now) (roots_from first arena.now.trees))) }
{
    arena.valid();
    let marks = mark_named(alloc, steps, first, end)?;
    let mut nodes = Vec::new(alloc);
    for label in first..end {
        if marks[(label - first) as usize] {
            push_node(&mut nodes, arena, label)?;
        }
    }
    Ok(nodes)
}

// Puts the node of a label, if there is one, at the end of a list.
fn push_node(nodes: &mut Vec<MadeNode>, arena: &Arena, label: u32) -> Result<(), AllocError>
    ensures { OnOk result (nodes.new.items ≡ nodes.old.items
        ++ map made_node (node_at arena.now.trees label)) }
{
    match arena.find(label) {
        Some(node) => {
            let content = copy_content(arena.content(node))?;
            nodes.push(MadeNode { label, content })?;
            Ok(())
        }
        None => Ok(()),
    }
}

// Whether the steps name the node of each label from `first` on.
fn mark_named(alloc: Global, steps: &[Step], first: u32, end: u32) -> Result<Vec<bool>, AllocError>
    requires order { first ≤ end }
    requires within { Each (λ l. l < end) (named_in (changes_of steps.now)) }
    ensures count { IfOk result (λ marks. length marks.items + first ≡ end) }
    ensures marked { IfOk result (λ marks.
        TellNamed first (named_in (changes_of steps.now)) marks.items) }
{
    let mut marks = vec![in alloc; false; (end - first) as usize]?;
    for step in steps {
        mark_step(&mut marks, first, step);
    }
    Ok(marks)
}

// Marks the nodes that a step names.
fn mark_step(marks: &mut Vec<bool>, first: u32, step: &Step)
    requires { Each (λ l. l < length marks.old.items + first) (named (change_of step.now)) }
    ensures count { length marks.new.items ≡ length marks.old.items }
    ensures marked { (ls : List ℕ) → TellNamed first ls marks.old.items
        → TellNamed first (ls ++ named (change_of step.now)) marks.new.items }
{
    match step {
        Step::Remove { node } => mark(marks, first, node.label),
        Step::Insert {
            node,
            parent,
            before,
        } => mark_place(marks, first, *node, *parent, *before),
        Step::Move {
            node,
            parent,
            before,
        } => mark_place(marks, first, *node, *parent, *before),
        Step::SetText { node, .. } => mark(marks, first, node.label),
        Step::Splice(splice) => mark(marks, first, splice.node().label),
        Step::SetAttributes { node, .. } => mark(marks, first, node.label),
    }
}

// Marks a node and those of its place.
fn mark_place(
    marks: &mut Vec<bool>,
    first: u32,
    node: NodeRef,
    parent: NodeRef,
    before: Option<NodeRef>,
)
    requires { Each (λ l. l < length marks.old.items + first) (place_labels node parent before) }
    ensures count { length marks.new.items ≡ length marks.old.items }
    ensures marked { (ls : List ℕ) → TellNamed first ls marks.old.items
        → TellNamed first (ls ++ place_labels node parent before) marks.new.items }
{
    mark(marks, first, node.label);
    mark(marks, first, parent.label);
    match before {
        Some(before) => mark(marks, first, before.label),
        None => {}
    }
}

// Marks a label.
fn mark(marks: &mut Vec<bool>, first: u32, label: u32)
    requires { label < length marks.old.items + first }
    ensures count { length marks.new.items ≡ length marks.old.items }
    ensures marked { (ls : List ℕ) → TellNamed first ls marks.old.items
        → TellNamed first (ls ++ label ∷ []) marks.new.items }
{
    if label >= first {
        marks[(label - first) as usize] = true;
    }
}
