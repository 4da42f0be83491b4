//! The list state of the active range, and the nodes that it is about.

ghost use Rattle.std.specs.Prelude.{◌≡◌, ◌<◌, ◌||◌, Bool, Some, IfOk, codes, not, true};
ghost use Rattle.std.specs.List.{list_all, list_any};
ghost use Rattle.std.specs.Option.{option_map_or};
ghost use Rattle.edit_model.specs.DomModel.Editing.{is_editable};
ghost use Rattle.edit_model.specs.DomModel.Forest.{parent_of, count_of};
ghost use Rattle.command_value.specs.NodeStyles.Allowed.{allowed_in_name};
ghost use Rattle.edit_model.specs.Gives.{label_of, labels_of};
ghost use Rattle.edit_model.specs.Valid.{IsPlacedPair};
ghost use Rattle.edit_actions.specs.EditDoc.Held.{Holds, IfHeld, EachHeld};
ghost use Rattle.edit_query.specs.ListStates as lists;

use block_extend::questions::{editing_host, has_name, is_indentation};
use block_extend::{Choice, allowed_in_item, block_extend, gather_in, has_descendant};
use edit_actions::doc::{Doc, NodeList, NodeRef, Pair, Point};
use edit_actions::ends_of;
use edit_model::arena::Nodes;
use std::alloc::{AllocError, Global};

/// Which kind of list the lines of a range stand in (HTML Editing APIs, "selection's list state").
#[derive(Clone, Copy, PartialEq, Eq, Debug)]
pub enum ListState {
    /// In no list.
    Nothing,
    /// All in ordered lists, and no unordered list among or below them.
    Ordered,
    /// All in unordered lists, and no ordered list among or below them.
    Unordered,
    /// Some in ordered lists, some in unordered ones.
    Mixed,
    /// Some in ordered lists, the others in none.
    MixedOrdered,
    /// Some in unordered lists, the others in none.
    MixedUnordered,
}

impl ListState {
    /// Whether it is that of lines which all stand in lists of this kind.
    pub fn is_of(self, ordered: bool) -> bool
        ensures { result ≡ lists.is_list_state ordered self }
    {
        match self {
            ListState::Ordered => ordered,
            ListState::Unordered => !ordered,
            _ => false,
        }
    }

    /// Whether it is that of lines of which some stand in lists of this kind.
    pub fn is_mixed_with(self, ordered: bool) -> bool
        ensures { result ≡ lists.is_mixed_state ordered self }
    {
        match self {
            ListState::Mixed => true,
            ListState::MixedOrdered => ordered,
            ListState::MixedUnordered => !ordered,
            _ => false,
        }
    }
}

/// The name of the lists of a kind.
pub fn list_name(ordered: bool) -> &'static [u8]
    ensures { result.now ≡ lists.list_name ordered }
{
    if ordered { b"ol" } else { b"ul" }
}

/// Whether a node is a list of this kind.
pub fn is_list_of(doc: &Doc, ordered: bool, node: NodeRef) -> bool
    requires { Holds doc.now node }
    ensures { result ≡ lists.is_list_of ordered doc.now.state.trees node.label }
{
    has_name(doc, node, list_name(ordered))
}

#[tactic(auto, unfolding(crate::specs::ListStates::is_any_list))]
fn is_any_list(doc: &Doc, node: NodeRef) -> bool
    requires { Holds doc.now node }
    ensures { result ≡ lists.is_any_list doc.now.state.trees node.label }
{
    is_list_of(doc, true, node) || is_list_of(doc, false, node)
}

fn is_in_any_list(doc: &Doc, node: NodeRef) -> bool
    requires { Holds doc.now node }
    ensures { result ≡ option_map_or (lists.is_any_list doc.now.state.trees)
        (parent_of doc.now.state.trees node.label) Bool.false }
{
    doc.valid();
    match doc.parent(node) {
        Some(parent) => is_any_list(doc, parent),
        None => false,
    }
}

// Whether a node is editable with this host. Mostly that is its parent, and needn't be looked for.
fn is_editable_with(doc: &Doc, host: NodeRef, node: NodeRef) -> bool
    requires { Holds doc.now node }
    ensures { result ≡ is_editable doc.now.state.trees host.label node.label }
{
    doc.valid();
    if let Some(parent) = doc.parent(node) {
        if parent.label == host.label {
            return doc.is_editable(parent, node);
        }
    }
    match editing_host(doc, node) {
        Some(own) => own.label == host.label,
        None => false,
    }
}

// Whether a node is a p, which may stand in an item.
fn is_paragraph(doc: &Doc, node: NodeRef) -> bool
    requires { Holds doc.now node }
    ensures { result ≡ true → allowed_in_name doc.now.state.trees node.label (codes "li") ≡ true }
{
    has_name(doc, node, b"p") && allowed_in_item(doc, node)
}

// Whether a node is a list or a child of one, or may stand in an item. Most are a p.
fn belongs_in_list(doc: &Doc, node: NodeRef) -> bool
    requires { Holds doc.now node }
    ensures { result ≡ (lists.is_any_list doc.now.state.trees node.label
        || (option_map_or (lists.is_any_list doc.now.state.trees)
        (parent_of doc.now.state.trees node.label) Bool.false
        || allowed_in_name doc.now.state.trees node.label (codes "li"))) }
{
    if is_paragraph(doc, node) {
        return true;
    }
    is_any_list(doc, node) || is_in_any_list(doc, node) || allowed_in_item(doc, node)
}

/// The nodes that are gathered as list members.
#[derive(Clone, Copy)]
struct Member {
    host: NodeRef,
}

impl Choice<Doc> for Member {
    ghost use Rattle.edit_query.specs.ListStates.{is_member};

    ghost chosen = { λ s d l. is_member d.state.trees s.host.label l };

    #[tactic(auto, unfolding(crate::specs::ListStates::is_member))]
    fn chooses(&self, doc: &Doc, node: NodeRef) -> bool {
        is_editable_with(doc, self.host, node)
            && !is_indentation(doc, node)
            && belongs_in_list(doc, node)
    }
}

// What a range contains of such nodes, without those below others.
#[tactic(auto, using(crate::proofs::Lists::labels_mapped, crate::proofs::Lists::each_held))]
fn gather_members(
    alloc: Global,
    doc: &Doc,
    host: NodeRef,
    range: (Point, Point),
) -> Result<NodeList, AllocError>
    requires start { 0 < count_of doc.now.state.trees range.0.label }
    requires end { 0 < count_of doc.now.state.trees range.1.label }
    ensures held { IfOk result (λ list. EachHeld doc.now list) }
    ensures nodes { IfOk result
        (λ list. labels_of list ≡ lists.members_in doc.now.state.trees (Some host.label) range) }
{
    gather_in(alloc, doc, range, &Member { host })
}

/// The list members of a range, in tree order: of its nodes that are editable with `host` as their
/// editing host, those that are no indentation element and that are an ol or ul, or a child of one,
/// or may stand in an li, without those below others. There are none without a host.
pub fn list_members(
    alloc: Global,
    doc: &Doc,
    host: Option<NodeRef>,
    range: (Point, Point),
) -> Result<NodeList, AllocError>
    requires start { 0 < count_of doc.now.state.trees range.0.label }
    requires end { 0 < count_of doc.now.state.trees range.1.label }
    ensures held { IfOk result (λ list. EachHeld doc.now list) }
    ensures nodes { IfOk result (λ list. labels_of list
        ≡ lists.members_in doc.now.state.trees (label_of host) range) }
{
    match host {
        Some(own) => gather_members(alloc, doc, own, range),
        None => NodeList::from_slice(alloc, &[]),
    }
}

/// Whether the parent of a node is a list of this kind.
#[tactic(auto, unfolding(crate::specs::ListStates::is_child_of))]
pub fn is_child_of(doc: &Doc, ordered: bool, node: NodeRef) -> bool
    requires { Holds doc.now node }
    ensures { result ≡ lists.is_child_of ordered doc.now.state.trees node.label }
{
    doc.valid();
    match doc.parent(node) {
        Some(parent) => is_list_of(doc, ordered, parent),
        None => false,
    }
}

// Whether the parent of a node is an item of a list of this kind.
#[tactic(auto, unfolding(crate::specs::ListStates::is_in_item_of))]
fn is_in_item_of(doc: &Doc, ordered: bool, node: NodeRef) -> bool
    requires { Holds doc.now node }
    ensures { result ≡ lists.is_in_item_of ordered doc.now.state.trees node.label }
{
    doc.valid();
    match doc.parent(node) {
        Some(parent) => has_name(doc, parent, b"li") && is_child_of(doc, ordered, parent),
        None => false,
    }
}

// Whether a node is a list of this kind, a child of one, or the child of an item of one.
#[tactic(auto, unfolding(crate::specs::ListStates::belongs))]
fn belongs(doc: &Doc, ordered: bool, node: NodeRef) -> bool
    requires { Holds doc.now node }
    ensures { result ≡ lists.belongs ordered doc.now.state.trees node.label }
{
    is_list_of(doc, ordered, node)
        || is_child_of(doc, ordered, node)
        || is_in_item_of(doc, ordered, node)
}

// The lists of a kind.
#[derive(Clone, Copy)]
struct ListOf {
    ordered: bool,
}

impl Choice<Doc> for ListOf {
    ghost use Rattle.edit_query.specs.ListStates.{is_list_of};

    ghost chosen = { λ s d l. is_list_of s.ordered d.state.trees l };

    fn chooses(&self, doc: &Doc, node: NodeRef) -> bool {
        is_list_of(doc, self.ordered, node)
    }
}

// Whether a list of this kind stands below a node.
#[tactic(auto, unfolding(crate::specs::ListStates::is_above_list))]
fn is_above_list(doc: &Doc, ordered: bool, node: NodeRef) -> bool
    requires { Holds doc.now node }
    ensures { result ≡ lists.is_above_list ordered doc.now.state.trees node.label }
{
    has_descendant(doc, node, &ListOf { ordered })
}

#[tactic(auto, unfolding(crate::specs::ListStates::touches))]
fn touches(doc: &Doc, ordered: bool, node: NodeRef) -> bool
    requires { Holds doc.now node }
    ensures { result ≡ lists.touches ordered doc.now.state.trees node.label }
{
    belongs(doc, ordered, node) || is_above_list(doc, ordered, node)
}

// Whether a node belongs to a list of this kind, and is no list of the other kind nor stands above
// one.
#[tactic(auto, unfolding(crate::specs::ListStates::belongs_purely))]
fn belongs_purely(doc: &Doc, ordered: bool, node: NodeRef) -> bool
    requires { Holds doc.now node }
    ensures { result ≡ lists.belongs_purely ordered doc.now.state.trees node.label }
{
    belongs(doc, ordered, node)
        && !(is_list_of(doc, !ordered, node) || is_above_list(doc, !ordered, node))
}

#[tactic(auto, using(edit_model::proofs::Steps::labels_of_drop, edit_model::proofs::Steps::labels_of_end))]
fn all_belong_purely(doc: &Doc, ordered: bool, list: &[NodeRef]) -> bool
    requires { EachHeld doc.now list.now }
    ensures { result
        ≡ list_all (lists.belongs_purely ordered doc.now.state.trees) (labels_of list.now) }
{
    for node in list {
        if !belongs_purely(doc, ordered, *node) {
            return false;
        }
    }
    true
}

#[tactic(auto, using(edit_model::proofs::Steps::labels_of_drop, edit_model::proofs::Steps::labels_of_end))]
fn one_touches(doc: &Doc, ordered: bool, list: &[NodeRef]) -> bool
    requires { EachHeld doc.now list.now }
    ensures { result ≡ list_any (lists.touches ordered doc.now.state.trees) (labels_of list.now) }
{
    for node in list {
        if touches(doc, ordered, *node) {
            return true;
        }
    }
    false
}

// The list state where not all members belong to lists of one kind.
fn touched_state(doc: &Doc, list: &[NodeRef]) -> ListState
    requires { EachHeld doc.now list.now }
    ensures { result ≡ lists.touched_state doc.now.state.trees (labels_of list.now) }
{
    match (one_touches(doc, true, list), one_touches(doc, false, list)) {
        (true, true) => ListState::Mixed,
        (true, false) => ListState::MixedOrdered,
        (false, true) => ListState::MixedUnordered,
        (false, false) => ListState::Nothing,
    }
}

// The list state of list members.
fn state_of_members(doc: &Doc, list: &[NodeRef]) -> ListState
    requires { EachHeld doc.now list.now }
    ensures { result ≡ lists.state_of_members doc.now.state.trees (labels_of list.now) }
{
    if list.is_empty() {
        ListState::Nothing
    } else if all_belong_purely(doc, true, list) {
        ListState::Ordered
    } else if all_belong_purely(doc, false, list) {
        ListState::Unordered
    } else {
        touched_state(doc, list)
    }
}

// That of the members of the block-extended range of a pair of points.
#[tactic(auto, using(edit_actions::proofs::Placed::placed_here))]
fn state_between(
    alloc: Global,
    doc: &Doc,
    host: Option<NodeRef>,
    pair: Pair,
) -> Result<ListState, AllocError>
    requires { IsPlacedPair doc.now.state.trees pair }
    ensures { IfOk result (λ state. state
        ≡ lists.state_by doc.now.state.trees (label_of host) (Some pair)) }
{
    let list = list_members(alloc, doc, host, block_extend(doc, ends_of(doc, pair)))?;
    Ok(state_of_members(doc, list.as_slice()))
}

/// The list state of the active range: which kind of list the list members of the block-extended
/// range stand in. `host` is the running command's editing host.
#[tactic(auto, unfolding(crate::specs::ListStates::list_state))]
pub fn list_state(alloc: Global, doc: &Doc, host: Option<NodeRef>) -> Result<ListState, AllocError>
    requires { IfHeld doc.now host }
    ensures { IfOk result (λ state. state ≡ lists.list_state doc.now.state (label_of host)) }
{
    doc.valid();
    match doc.points().selection() {
        Some(pair) => state_between(alloc, doc, host, pair),
        None => Ok(ListState::Nothing),
    }
}
