//! The editor.

ghost use Rattle.std.specs.Prelude.{◌≡◌, ◌↔◌, ◌⊎◌, ◌<◌, ◌+◌, IfOk, IfSome, OnOk, OnErr, IsTrue, MatchOption, Ok, Err, None, Some, length, true, false};
ghost use Rattle.edit_model.specs.LiveRange.LivePoints.{has_mark};
ghost use Rattle.edit_model.specs.LiveRange.declared.places.Pair.{Pair};
ghost use Rattle.edit_model.specs.Valid.{IsPlacedPair};
ghost use Rattle.inline_value.specs.EditDoc.Kept.{HoldsOnlyNeeded};
ghost use Rattle.inline_value.specs.EditDoc.Whole.{HasNoLoose, IsClosed, first_edits};
ghost use Rattle.command_gate.specs.Denied.{is_denied};
ghost use Rattle.edit_model.specs.HtmlNames.Commands.{command_named};
ghost use Rattle.inline_value.specs.NodePaths.Paths.{label_at};
ghost use Rattle.edit_engine.specs.Changes.{CanFollow, changes_of};
ghost use Rattle.edit_engine.specs.Editing.{EditorValue, IsJoinable, document, new_editing, undone, redone};
ghost use Rattle.edit_engine.specs.Execution.{gated_outcome, outcome, joined_outcome, replaced_outcome, outcome_at, outcome_with, command_outcome, misplaced, Tells, TellsOnRange};
ghost use Rattle.edit_engine.specs.Following.{first_following, after_undo, after_redo};
ghost use Rattle.edit_engine.specs.Going.{goes_on, joins_by};
ghost use Rattle.edit_engine.specs.Promises.{ExecPromises, PromisesAsIs, is_yes, told_by_exec};
ghost use Rattle.edit_engine.specs.KeptLabels.{IsKept, IsGone};
ghost use Rattle.edit_engine.specs.Labels.{KeepsLabels, HaveOneKind};
ghost use Rattle.edit_engine.specs.Logs.{log_text};
ghost use Rattle.edit_engine.specs.Places.{pair_at, pair_from, placed_pair, range_in, selecting, unselecting, marking, unmarking, IsCrowded};
ghost use Rattle.edit_engine.specs.Queries.{reply_of};
ghost use Rattle.edit_engine.specs.Replaying.{LogReplays};
ghost use Rattle.edit_engine.specs.ThereAndBack.{UndosComeBack, RedosComeBack};
ghost use Rattle.edit_engine.specs.Views.{view_text};

use crate::actions::{host_at, kept_edits, run_command};
use crate::answers::{Answer, ExecFault, LogFault, PlaceFault, RangeFault, ViewFault, ViewKind};
use crate::following::{Following, LastChange};
use crate::going::{Going, going_after, going_turned, joins_by};
use crate::log::entry_lines;
use crate::places::{node_at, pair_at, placed_pair, range_in};
use crate::probe::probe_line;
use crate::queries::{ask, is_enabled_in};
use crate::views::{html_line, points_lines, stat_line, tree_lines};
use command_gate::{Asks, Gate};
use edit_model::dom::Name;
use edit_model::element_names::{Command, QueryKind};
use edit_model::stepping::Steps;
use inline_value::doc::{Arena, Doc, Pair, Point};
use inline_value::document::DocumentEdit;
use inline_value::query::Reply;
use std::alloc::{AllocError, Global};
use std::marker::Model;
use std::sync::ledger::Ledger;
use step_text::script::{Path, Place};

// How deep a document may be as a command begins.
const DEPTH_LIMIT: u32 = 250;

/// How a command is executed.
#[derive(Clone, Copy, PartialEq, Eq, Debug)]
pub struct ExecOptions {
    /// The range that the command works on instead of the selection, if there is one. The command
    /// selects it first.
    pub range: Option<Pair>,
    /// Whether its edits are added to the previous undo step, like those of `Editor::exec_joined`.
    pub joined: bool,
}

/// An editor of a document.
#[derive(Drop)]
pub struct Editor {
    doc: Doc,
    // what the next command may go on with
    going: Going,
    // for hosts that follow the document
    following: Following,
}

impl Model for Editor {
    ghost use Rattle.edit_engine.specs.Editing.{EditorValue, value_code, value_of, IsResting};

    ghost Value = { EditorValue };

    ghost coded = { value_code };

    ghost view = { λ e. value_of e.doc e.going e.following };

    ghost invariant = { λ e. IsResting e.doc e.going e.following };
}

impl Editor {
    /// Makes an editor of a page's nodes, which keeps at most `undo_depth` undo steps.
    #[tactic(auto, unfolding(crate::specs::Below::first_doc, crate::specs::Below::first_state))]
    pub fn new(alloc: Global, arena: Arena, undo_depth: usize) -> Result<Editor, AllocError>
        requires depth { 0 < undo_depth }
        requires loose { HasNoLoose arena }
        ensures made { IfOk result (λ e. e.editing ≡ new_editing arena undo_depth) }
        ensures needed { IfOk result (λ e. HoldsOnlyNeeded (document e)) }
        ensures unchanged { IfOk result (λ e. e.following ≡ first_following) }
    {
        let doc = Doc::new(alloc, arena, undo_depth)?;
        let editor = Editor {
            doc,
            going: Going::Over,
            following: Following::new(),
        };
        editor.kept_nodes();
        Ok(editor)
    }

    // Which nodes the editor holds, for proofs. It does nothing.
    fn kept_nodes(&self)
        ensures { HoldsOnlyNeeded (document self.now) }
    {
        self.doc.kept_nodes();
    }

    /// Executes a command by its name, in any case. If it fails, the editor is unchanged. It is
    /// `exec_with` without a range, without denied names and not joined.
    #[tactic(auto, unfolding(crate::specs::Execution::outcome_by))]
    pub fn exec(&mut self, alloc: Global, name: &str, value: &[char]) -> Result<Answer, ExecFault>
        ensures tells { Tells result self.old.editing self.new.editing
            (outcome self.old.editing name.now value.now) }
        ensures promises { ExecPromises (is_yes result) None false (command_named name.now)
            value.now self.old self.new }
    {
        self.exec_at(alloc, None, false, Command::named(name), value)
    }

    /// Executes a command like `exec`, but adds its edits to the previous undo step, so that one
    /// undo reverts both.
    ///
    /// The command starts a new step instead if no command made or extended the previous one, or if
    /// anything has intervened: an undo, a redo, a call that selects or sets or removes a marker,
    /// or a command that isn't joined and answered yes without an edit. A command that fails
    /// doesn't affect grouping.
    #[tactic(auto, unfolding(crate::specs::Execution::outcome_by))]
    pub fn exec_joined(
        &mut self,
        alloc: Global,
        name: &str,
        value: &[char],
    ) -> Result<Answer, ExecFault>
        ensures tells { Tells result self.old.editing self.new.editing
            (joined_outcome self.old.editing name.now value.now) }
        ensures promises { ExecPromises (is_yes result) None true (command_named name.now)
            value.now self.old self.new }
    {
        self.exec_at(alloc, None, true, Command::named(name), value)
    }

    /// Replaces the range between two points by a text: selects the range and inserts the text, as
    /// one command. A point is the label of a node and an offset in it.
    ///
    /// Like `insertText` by `exec`, it continues a run of typing, and typing continues it. If it
    /// fails, the editor is unchanged, the selection included.
    pub fn replace(
        &mut self,
        alloc: Global,
        anchor: Point,
        focus: Point,
        text: &[char],
    ) -> Result<Answer, RangeFault>
        ensures tells { MatchOption (placed_pair self.old.editing.state.trees anchor focus)
            ((result ≡ Err RangeFault.BadPlace) × (self.new ≡ self.old))
            (λ range. TellsOnRange result self.old.editing self.new.editing
            (replaced_outcome self.old.editing range text.now)) }
        ensures promises { ExecPromises (is_yes result) (Some (pair_from anchor focus)) false
            (Some Command.InsertText) text.now self.old self.new }
    {
        match placed_pair(&self.doc, anchor, focus) {
            Some(range) => {
                self.exec_on(alloc, Some(range), false, Some(Command::InsertText), text)
            }
            None => {
                self.promises_as_is();
                Err(RangeFault::BadPlace)
            }
        }
    }

    /// Executes a command by its name, in any case, unless a command filter denies the name.
    /// Commands that a command executes inside itself aren't checked.
    pub fn exec_gated<A: Asks>(
        &mut self,
        alloc: Global,
        gate: &Gate<A>,
        name: &str,
        value: &[char],
    ) -> Result<Answer, ExecFault>
        ensures denied { is_denied gate.now name.now ≡ true → (result ≡ Ok Answer.No)
            × (self.new ≡ self.old) }
        ensures tells { Tells result self.old.editing self.new.editing
            (gated_outcome gate.now self.old.editing name.now value.now) }
        ensures promises { ExecPromises (is_yes result) None false (command_named name.now)
            value.now self.old self.new }
    {
        if gate.denies(name.as_bytes()) {
            self.promises_as_is();
            return Ok(Answer::No);
        }
        self.exec_at(alloc, None, false, Command::named(name), value)
    }

    /// Executes a command by its name, in any case, unless a command filter denies the name.
    ///
    /// It works at the selection, or on a range that the command selects first, and is joined like
    /// `exec_joined` or not. The selection is left where the command leaves it. If it fails, the
    /// editor is unchanged, the selection included.
    pub fn exec_with<A: Asks>(
        &mut self,
        alloc: Global,
        gate: &Gate<A>,
        options: ExecOptions,
        name: &str,
        value: &[char],
    ) -> Result<Answer, RangeFault>
        ensures denied { is_denied gate.now name.now ≡ true → (result ≡ Ok Answer.No)
            × (self.new ≡ self.old) }
        ensures tells { MatchOption (range_in self.old.editing.state.trees options.range)
            ((result ≡ misplaced (is_denied gate.now name.now)) × (self.new ≡ self.old))
            (λ at. TellsOnRange result self.old.editing self.new.editing
            (outcome_with gate.now at options.joined self.old.editing name.now value.now)) }
        ensures promises { ExecPromises (is_yes result) options.range options.joined
            (command_named name.now) value.now self.old self.new }
    {
        self.promises_as_is();
        match (
            gate.denies(name.as_bytes()),
            range_in(&self.doc, options.range),
        ) {
            (true, _) => Ok(Answer::No),
            (false, None) => Err(RangeFault::BadPlace),
            (false, Some(at)) => {
                self.exec_on(alloc, at, options.joined, Command::named(name), value)
            }
        }
    }

    // Executes a command, if there is one, as `exec_at` does, and answers as calls do that are told a
    // range.
    fn exec_on(
        &mut self,
        alloc: Global,
        at: Option<Pair>,
        joined: bool,
        command: Option<Command>,
        value: &[char],
    ) -> Result<Answer, RangeFault>
        requires { IfSome at (IsPlacedPair self.old.editing.state.trees) }
        ensures tells { TellsOnRange result self.old.editing self.new.editing
            (outcome_at at joined self.old.editing command value.now) }
        ensures promises { ExecPromises (is_yes result) at joined command value.now
            self.old self.new }
    {
        match self.exec_at(alloc, at, joined, command, value) {
            Ok(answer) => Ok(answer),
            Err(fault) => Err(RangeFault::from(fault)),
        }
    }

    // Executes a command, if there is one, at the selection, or on a range that it selects first, as
    // a joined one or not.
    fn exec_at(
        &mut self,
        alloc: Global,
        at: Option<Pair>,
        joined: bool,
        command: Option<Command>,
        value: &[char],
    ) -> Result<Answer, ExecFault>
        requires { IfSome at (IsPlacedPair self.old.editing.state.trees) }
        ensures tells { Tells result self.old.editing self.new.editing
            (outcome_at at joined self.old.editing command value.now) }
        ensures promises { ExecPromises (is_yes result) at joined command value.now
            self.old self.new }
    {
        self.doc.valid();
        match command {
            Some(command) => {
                let answer = self.exec_command(alloc, at, joined, command, value);
                self.kept_nodes();
                answer
            }
            None => {
                self.promises_as_is();
                Ok(Answer::No)
            }
        }
    }

    // Executes a command, from step 2 on.
    fn exec_command(
        &mut self,
        alloc: Global,
        at: Option<Pair>,
        joined: bool,
        command: Command,
        value: &[char],
    ) -> Result<Answer, ExecFault>
        requires { IfSome at (IsPlacedPair self.old.editing.state.trees) }
        ensures tells { Tells result self.old.editing self.new.editing
            (command_outcome self.old.editing at (joins_by joined self.old.editing.going command)
            value.now command) }
        ensures followed { CanFollow self.old self.new }
        ensures told { self.new.following ≡ told_by_exec (is_yes result) at joined (Some command)
            value.now self.old }
    {
        if !is_enabled_in(host_at(&self.doc, at), command) {
            return Ok(Answer::No);
        }
        if self.doc.is_deeper_than(DEPTH_LIMIT) {
            return Err(ExecFault::Deep);
        }
        self.doc.valid();
        let joining = joins_by(joined, self.going, command);
        let kept = kept_edits(&self.doc, joining);
        match run_command(alloc, &mut self.doc, at, joining, command, value) {
            Ok(Some(committed)) => {
                self.going = going_after(self.going, joining, command, committed);
                self.following = self.following.commit(committed, kept);
                Ok(Answer::Yes)
            }
            Ok(None) => Ok(Answer::No),
            Err(fault) => Err(ExecFault::from(fault)),
        }
    }

    /// States for proofs that all promises of a command hold of one that fails and leaves the
    /// editor as it is. It does nothing.
    pub fn promises_as_is(&self)
        ensures { PromisesAsIs self.now }
    {
        self.doc.valid();
        self.kept_nodes();
    }

    /// Answers a query about the command of a name, in any case.
    pub fn query(&self, alloc: Global, kind: QueryKind, name: &str) -> Result<Reply, AllocError>
        ensures { IfOk result (λ reply. reply ≡ reply_of self.now.editing.state kind name.now) }
    {
        ask(alloc, &self.doc, kind, name)
    }

    /// Selects from the anchor to the focus. It takes no memory.
    pub fn select(&mut self, anchor: &Place, focus: &Place) -> Result<(), PlaceFault>
        ensures selected { MatchOption (pair_at self.old.editing.state.trees anchor.now focus.now)
            ((result ≡ Err PlaceFault.BadPlace) × (self.new ≡ self.old))
            (λ pair. (result ≡ Ok tt) × (self.new.editing ≡ selecting self.old.editing pair)) }
        ensures following { self.new.following ≡ self.old.following }
    {
        let pair = pair_at(&self.doc, anchor, focus);
        self.select_pair(pair)
    }

    /// Selects from one point to another. A point is the label of a node and an offset in it.
    ///
    /// It takes no memory. Its cost grows with the depth of the nodes, and in an element with the
    /// children before the offset.
    pub fn select_points(&mut self, anchor: Point, focus: Point) -> Result<(), PlaceFault>
        ensures selected { MatchOption (placed_pair self.old.editing.state.trees anchor focus)
            ((result ≡ Err PlaceFault.BadPlace) × (self.new ≡ self.old))
            (λ pair. (result ≡ Ok tt) × (self.new.editing ≡ selecting self.old.editing pair)) }
        ensures following { self.new.following ≡ self.old.following }
    {
        let pair = placed_pair(&self.doc, anchor, focus);
        self.select_pair(pair)
    }

    // Selects a pair, if there is one.
    fn select_pair(&mut self, pair: Option<Pair>) -> Result<(), PlaceFault>
        requires { IfSome pair (IsPlacedPair self.old.editing.state.trees) }
        ensures selected { MatchOption pair
            ((result ≡ Err PlaceFault.BadPlace) × (self.new ≡ self.old))
            (λ pair. (result ≡ Ok tt) × (self.new.editing ≡ selecting self.old.editing pair)) }
        ensures following { self.new.following ≡ self.old.following }
    {
        match pair {
            Some(pair) => {
                self.doc.select(pair.anchor, pair.focus);
                self.going = Going::Over;
                Ok(())
            }
            None => Err(PlaceFault::BadPlace),
        }
    }

    /// Removes the selection.
    pub fn unselect(&mut self)
        ensures unselected { self.new.editing ≡ unselecting self.old.editing }
        ensures following { self.new.following ≡ self.old.following }
    {
        self.doc.unselect();
        self.going = Going::Over;
    }

    /// Sets the marker of a name from an anchor to a focus. A marker of that name keeps its index,
    /// and a new one is last.
    pub fn mark(&mut self, name: &Name, anchor: &Place, focus: &Place) -> Result<(), PlaceFault>
        ensures bad_place { (result ≡ Err PlaceFault.BadPlace) ↔
            (pair_at self.old.editing.state.trees anchor.now focus.now ≡ None) }
        ensures too_many { result ≡ Err PlaceFault.TooManyMarks
            → IsCrowded self.old.editing name.now }
        ensures marked { OnOk result ((pair : Pair) ×
            (pair_at self.old.editing.state.trees anchor.now focus.now ≡ Some pair) ×
            (self.new.editing ≡ marking self.old.editing name.now pair)) }
        ensures crowded { IsCrowded self.old.editing name.now →
            (result ≡ Err PlaceFault.BadPlace) ⊎ (result ≡ Err PlaceFault.TooManyMarks) }
        ensures err { OnErr result (self.new ≡ self.old) }
        ensures following { self.new.following ≡ self.old.following }
    {
        let pair = pair_at(&self.doc, anchor, focus);
        self.mark_pair(name, pair)
    }

    /// Sets the marker of a name from one point to another. A point is the label of a node and an
    /// offset in it. A marker of that name keeps its index, and a new one is last.
    pub fn mark_points(
        &mut self,
        name: &Name,
        anchor: Point,
        focus: Point,
    ) -> Result<(), PlaceFault>
        ensures bad_place { (result ≡ Err PlaceFault.BadPlace) ↔
            (placed_pair self.old.editing.state.trees anchor focus ≡ None) }
        ensures too_many { result ≡ Err PlaceFault.TooManyMarks
            → IsCrowded self.old.editing name.now }
        ensures marked { OnOk result ((pair : Pair) ×
            (placed_pair self.old.editing.state.trees anchor focus ≡ Some pair) ×
            (self.new.editing ≡ marking self.old.editing name.now pair)) }
        ensures crowded { IsCrowded self.old.editing name.now →
            (result ≡ Err PlaceFault.BadPlace) ⊎ (result ≡ Err PlaceFault.TooManyMarks) }
        ensures err { OnErr result (self.new ≡ self.old) }
        ensures following { self.new.following ≡ self.old.following }
    {
        let pair = placed_pair(&self.doc, anchor, focus);
        self.mark_pair(name, pair)
    }

    // Gives a name to a pair, if there is one.
    fn mark_pair(&mut self, name: &Name, pair: Option<Pair>) -> Result<(), PlaceFault>
        requires { IfSome pair (IsPlacedPair self.old.editing.state.trees) }
        ensures bad_place { (result ≡ Err PlaceFault.BadPlace) ↔ (pair ≡ None) }
        ensures too_many { result ≡ Err PlaceFault.TooManyMarks
            → IsCrowded self.old.editing name.now }
        ensures marked { OnOk result ((given : Pair) × (pair ≡ Some given) ×
            (self.new.editing ≡ marking self.old.editing name.now given)) }
        ensures crowded { IsCrowded self.old.editing name.now →
            (result ≡ Err PlaceFault.BadPlace) ⊎ (result ≡ Err PlaceFault.TooManyMarks) }
        ensures err { OnErr result (self.new ≡ self.old) }
        ensures following { self.new.following ≡ self.old.following }
    {
        match pair {
            Some(pair) => {
                self.doc.set_mark(name.as_slice(), pair)?;
                self.going = Going::Over;
                Ok(())
            }
            None => Err(PlaceFault::BadPlace),
        }
    }

    /// Removes the marker of a name. Returns whether there was one.
    pub fn unmark(&mut self, name: &Name) -> bool
        ensures answer { result ≡ has_mark name.now self.old.editing.state.points }
        ensures unmarked { self.new.editing ≡ unmarking self.old.editing name.now }
        ensures following { self.new.following ≡ self.old.following }
    {
        self.going = Going::Over;
        self.doc.unset_mark(name.as_slice())
    }

    /// Undoes one step. Returns false if there is none. It takes no memory.
    pub fn undo<L: Ledger>(&mut self, steps: &mut Steps<L>) -> bool
        ensures answer { IsTrue result ↔ (0 < length self.old.editing.history.undo) }
        ensures undone { self.new.editing ≡ undone self.old.editing }
        ensures labels { KeepsLabels self.old.editing self.new.editing }
        ensures needed { HoldsOnlyNeeded (document self.new) }
        ensures count { steps.new ≡ steps.old + first_edits self.old.editing.history.undo }
        ensures followed { CanFollow self.old self.new }
        ensures told { self.new.following ≡ after_undo result self.old.following }
    {
        self.labels_last();
        self.doc.kept_nodes();
        let taken = self.doc.undo(steps);
        self.doc.changes_lead();
        self.going = going_turned(self.going, taken);
        self.following = self.following.undo(taken);
        self.kept_nodes();
        taken
    }

    /// Redoes one step. Returns false if there is none. It takes no memory.
    pub fn redo<L: Ledger>(&mut self, steps: &mut Steps<L>) -> bool
        ensures answer { IsTrue result ↔ (0 < length self.old.editing.history.redo) }
        ensures redone { self.new.editing ≡ redone self.old.editing }
        ensures labels { KeepsLabels self.old.editing self.new.editing }
        ensures needed { HoldsOnlyNeeded (document self.new) }
        ensures count { steps.new ≡ steps.old + first_edits self.old.editing.history.redo }
        ensures followed { CanFollow self.old self.new }
        ensures told { self.new.following ≡ after_redo result self.old.following }
    {
        self.labels_last();
        self.doc.kept_nodes();
        let taken = self.doc.redo(steps);
        self.doc.changes_lead();
        self.going = going_turned(self.going, taken);
        self.following = self.following.redo(taken);
        self.kept_nodes();
        taken
    }

    /// Returns how many calls have changed the document. From it, an application learns whether a
    /// call changed something, and whether it missed a change.
    pub fn revision(&self) -> u64
        ensures { result ≡ self.now.following.revision }
    {
        self.following.revision
    }

    /// Returns the changes of the last call that changed something, by the labels of nodes, from
    /// the first to the last. A copy of the document before that call that applies them equals the
    /// document.
    ///
    /// The steps of the call are reverted and made again, also if memory runs out.
    pub fn changes(&mut self, alloc: Global) -> Result<Vec<DocumentEdit>, AllocError>
        ensures told { IfOk result (λ edits. edits.items ≡ changes_of self.old) }
        ensures stays { self.new ≡ self.old }
    {
        match self.following.last {
            LastChange::Made { kept } => self.doc.changes(alloc, kept),
            LastChange::Undone => self.doc.undone_changes(alloc),
        }
    }

    /// Returns a view of the editor, as complete lines. A path that names no node is refused before
    /// any memory is taken.
    #[tactic(auto, unfolding(crate::specs::Views::stat_line))]
    pub fn view(&self, alloc: Global, kind: &ViewKind) -> Result<Vec<u8>, ViewFault>
        ensures text { IfOk result (λ text. view_text self.now.editing kind.now ≡ Some text.items) }
        ensures bad_place { (result ≡ Err ViewFault.BadPlace)
            ↔ (view_text self.now.editing kind.now ≡ None) }
    {
        match kind {
            ViewKind::Html => Ok(html_line(alloc, &self.doc)?),
            ViewKind::Tree => Ok(tree_lines(alloc, &self.doc)?),
            ViewKind::Points => Ok(points_lines(alloc, &self.doc)?),
            ViewKind::Stat => Ok(stat_line(alloc, &self.doc)?),
            ViewKind::Probe { path } => match node_at(&self.doc, path) {
                Some(node) => Ok(probe_line(alloc, &self.doc, node)?),
                None => Err(ViewFault::BadPlace),
            },
        }
    }

    /// Returns the log: for each step that undo would take, from the first to the last, the line
    /// `entry`, a line for each node that its commands made and its edits name, and a line for each
    /// edit.
    #[tactic(auto, unfolding(crate::specs::Logs::log_steps))]
    pub fn log(&mut self, alloc: Global) -> Result<Vec<u8>, LogFault>
        ensures text { IfOk result (λ text. text.items ≡ log_text self.old.editing.history) }
        ensures cut { (result ≡ Err LogFault.LogCut) ↔ (self.old.editing.history.dropped ≡ true) }
        ensures stays { self.new ≡ self.old }
    {
        if self.doc.has_dropped() {
            return Err(LogFault::LogCut);
        }
        let entries = self.doc.logged(alloc)?;
        Ok(entry_lines(alloc, entries)?)
    }

    /// States for proofs that the log replays on the page of before the first step: no line is
    /// refused, and they give the document.
    ///
    /// The premise is that the commands made only elements and text nodes, changed the characters
    /// of no comment, as every algorithm does, and never left the document deeper than 1,000. It
    /// does nothing.
    pub fn log_replays(&self)
        ensures { LogReplays self.now.editing }
    {
        self.doc.led_onward();
    }

    /// States for proofs that some undos, each of which takes a step, and as many redos, or the
    /// reverse, leave the document and the history as before. The selection and the markers are as
    /// before too if none was moved since the last command, undo or redo. It does nothing.
    pub fn turns_come_back(&self)
        ensures undos { UndosComeBack self.now.editing }
        ensures redos { RedosComeBack self.now.editing }
    {
        self.kept_nodes();
    }

    /// States for proofs that a label denotes nodes of one kind, and elements of one name, in all
    /// documents that undo and redo lead to. It does nothing.
    pub fn labels_last(&self)
        ensures { HaveOneKind self.now.editing }
    {
        self.kept_nodes();
    }

    /// Returns the label of the node at a path: the index of a child in each node, from the
    /// document down. It takes no memory.
    pub fn label_at(&self, path: &Path) -> Option<u32>
        ensures { result ≡ label_at self.now.editing.state.trees path.now }
    {
        match node_at(&self.doc, path) {
            Some(node) => Some(node.label),
            None => None,
        }
    }

    /// Returns whether the node of a label is in the document, or is kept for undo and redo.
    ///
    /// If it isn't, no later call restores a node of that label, since commands allocate each label
    /// once. So an application may forget it. It takes no memory and is one look-up.
    pub fn is_kept(&self, label: u32) -> bool
        ensures kept { IsTrue result ↔ IsKept (document self.now) label }
        ensures gone { result ≡ false → IsGone label self.now.editing }
        ensures drawn { IsTrue result → label < self.now.editing.state.next }
    {
        self.kept_nodes();
        let nodes = self.doc.arena();
        nodes.valid();
        nodes.slotted();
        nodes.find(label).is_some()
    }

    /// Returns the document. Between the calls of an editor, each live node is in the document, or
    /// in a detached tree with a node that a change of a kept undo step names.
    pub fn document(&self) -> &Doc
        ensures closed { IsClosed result.now }
        ensures state { result.now.state ≡ self.now.editing.state }
        ensures history { result.now.history ≡ self.now.editing.history }
        ensures held { result.now.held ≡ self.now.held }
        ensures needed { HoldsOnlyNeeded result.now }
        ensures joinable { goes_on self.now.editing.going ≡ true → IsJoinable result.now.history }
    {
        self.doc.kept_nodes();
        &self.doc
    }
}
