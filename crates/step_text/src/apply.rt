//! Step lines applied to the nodes of an arena.

ghost use Rattle.std.specs.Prelude.{◌≡◌, ◌^◌, ◌<◌, ◌≤◌, ◌&&◌, ℕ, nat_le, nat_lt, IfOk, IfSome, IfNone, IsOkUnless, OnOk, OnErr, is_ok, is_some, length, Err};
ghost use Rattle.page_grammar.specs.DomModel.Contents.{has_name, is_parent_at};
ghost use Rattle.page_grammar.specs.DomModel.Forest.{parent_of};
ghost use Rattle.page_grammar.specs.DomModel.Places.{levels};
ghost use Rattle.edit_parts.specs.EditModel.Confined.{is_there, is_place};
ghost use Rattle.edit_steps.specs.Step.{StepFits};
ghost use Rattle.edit_steps.specs.NodeArena.Held.{Holds, KeepsHeld, Makes, label};
ghost use Rattle.step_text.specs.Applying.{labelled, fault_of, line_applied, made_content, made_length, text_length, is_text_at, is_there_or_end, can_stand, is_loose};
ghost use Rattle.step_text.specs.Planning.{Applies, IsBound, Places, Plans, StaysWithin, comes_from, line_to, step_to};

use crate::line::{Made, StepFault, StepLine};
use crate::room::{Room, has_room_under};
use edit_parts::boundary::is_within;
use edit_steps::Step;
use edit_steps::arena::{Arena, Content, Kind, MakeFault, NodeRef, has_name};
use edit_steps::history::Invertible;
use page_grammar::dom::{Attributes, Chars, Name};

/// Does to the nodes of an arena what a step line says. The line is taken by value, since its
/// contents become those of the node. Whether it fits is looked at before memory; a line that
/// changes nothing fits too. It takes time for the ways up from the new place and from the tree
/// that comes there, and where the place is in the document, for the tree; over many lines a
/// [`crate::Replay`] spares most of that.
pub fn apply_step(arena: &mut Arena, step: StepLine) -> Result<(), StepFault>
    requires { text_length step < 2 ^ 32 }
    ensures refused { IfSome (fault_of step (labelled arena.old)) (λ fault. result ≡ Err fault) }
    ensures taken { IfNone (fault_of step (labelled arena.old))
        (IsOkUnless result StepFault.Memory) }
    ensures applied { OnOk result (labelled arena.new ≡ line_applied step (labelled arena.old)) }
    ensures held { OnOk result (KeepsHeld arena.old arena.new) }
    ensures err { OnErr result (arena.new ≡ arena.old) }
{
    let mut room = Room::any(arena);
    apply_within(arena, &mut room, step)
}

/// The same, beside a bound on the levels of the nodes.
pub(crate) fn apply_within(
    arena: &mut Arena,
    room: &mut Room,
    step: StepLine,
) -> Result<(), StepFault>
    requires short { text_length step < 2 ^ 32 }
    requires bound { IsBound room.old arena.old.trees }
    ensures applies { Applies step arena.old arena.new result }
    ensures bound { IsBound room.new arena.new.trees }
{
    arena.valid();
    match step {
        StepLine::Entry => Ok(()),
        StepLine::Make { label, made } => make(arena, label, made),
        StepLine::Insert {
            label,
            parent,
            before,
        } => take(
            placement(arena, room, Origin::Loose, label, parent, before),
            arena,
        ),
        StepLine::Remove { label } => take(removal(arena, label), arena),
        StepLine::Move {
            label,
            parent,
            before,
        } => take(
            placement(arena, room, Origin::Child, label, parent, before),
            arena,
        ),
        StepLine::Words { label, words } => take(rewriting(arena, label, words), arena),
        StepLine::Tag {
            label,
            name,
            attributes,
        } => take(redressing(arena, label, name, attributes), arena),
    }
}

// Makes a loose node.
fn make_node(arena: &mut Arena, made: Made) -> Result<NodeRef, MakeFault>
    requires { made_length made < 2 ^ 32 }
    ensures made { IfOk result (λ r. Makes arena.old arena.new r (made_content made)) }
    ensures err { OnErr result (arena.new ≡ arena.old) }
{
    match made {
        Made::Element { name, attributes } => arena.make_element(name, attributes),
        Made::Words { words } => arena.make_words(words),
    }
}

// Whether a label can be drawn: it isn't drawn yet, and below the cap.
fn can_draw(arena: &Arena, label: u32) -> bool
    ensures { result ≡ (nat_le arena.now.next label && nat_lt label arena.now.cap) }
{
    arena.next_label() <= label && label < arena.cap()
}

// Makes a loose node of this label.
fn make(arena: &mut Arena, label: u32, made: Made) -> Result<(), StepFault>
    requires { made_length made < 2 ^ 32 }
    ensures { Applies (StepLine.Make label made) arena.old arena.new result }
{
    if !can_draw(arena, label) {
        return Err(StepFault::BadLabel);
    }
    arena.valid();
    let next = arena.next_label();
    if arena.skip_to(label).is_err() {
        return Err(StepFault::Memory);
    }
    if make_node(arena, made).is_err() {
        arena.rewind(next);
        return Err(StepFault::Memory);
    }
    Ok(())
}

// Applies a step, if there is one.
fn take(planned: Result<Step, StepFault>, arena: &mut Arena) -> Result<(), StepFault>
    requires { IfOk planned (λ step. StepFits step arena.old) }
    ensures applies { (x : StepLine) → Plans x arena.old planned →
        Applies x arena.old arena.new result }
    ensures levels { (most : ℕ) → StaysWithin most planned arena.old.trees →
        levels arena.new.trees ≤ most }
{
    let mut step = planned?;
    step.apply(arena);
    Ok(())
}

// The node of a label.
fn find(arena: &Arena, label: u32) -> Result<NodeRef, StepFault>
    ensures there { is_ok result ≡ is_there arena.now.trees label }
    ensures found { IfOk result (λ r. (r.label ≡ label) × Holds arena.now r) }
    ensures absent { IsOkUnless result StepFault.BadLabel }
{
    arena.find(label).ok_or(StepFault::BadLabel)
}

// The node of a label, if one is given.
fn find_before(arena: &Arena, before: Option<u32>) -> Result<Option<NodeRef>, StepFault>
    ensures there { is_ok result ≡ is_there_or_end arena.now.trees before }
    ensures found { IfOk result (λ found. (label found ≡ before)
        × IfSome found (λ r. Holds arena.now r)) }
    ensures absent { IsOkUnless result StepFault.BadLabel }
{
    match before {
        None => Ok(None),
        Some(label) => Ok(Some(find(arena, label)?)),
    }
}

// Whether the tree that a line puts somewhere is a loose one, or that of a child.
#[derive(Clone, Copy)]
enum Origin {
    Loose,
    Child,
}

// The nodes that a line puts, under which and before which.
#[derive(Clone, Copy)]
struct Placing {
    node: NodeRef,
    parent: NodeRef,
    before: Option<NodeRef>,
}

fn find_placing(
    arena: &Arena,
    label: u32,
    parent: u32,
    before: Option<u32>,
) -> Result<Placing, StepFault>
    ensures there { is_ok result ≡ (is_there arena.now.trees label &&
        (is_there arena.now.trees parent && is_there_or_end arena.now.trees before)) }
    ensures found { IfOk result (Places arena.now label parent before) }
    ensures absent { IsOkUnless result StepFault.BadLabel }
{
    arena.valid();
    arena.slotted();
    let node = find(arena, label)?;
    let parent = find(arena, parent)?;
    let before = find_before(arena, before)?;
    Ok(Placing {
        node,
        parent,
        before,
    })
}

// Whether the node before which another one is put is a child of the parent, and not that one
// itself.
fn is_place(arena: &Arena, parent: NodeRef, before: Option<NodeRef>, node: NodeRef) -> bool
    requires { IfSome before (λ r. Holds arena.now r) }
    ensures { result ≡ is_place arena.now.trees parent.label (label before) node.label }
{
    let Some(before) = before else {
        return true;
    };
    match arena.parent(before) {
        Some(own) => own.label == parent.label && before.label != node.label,
        None => false,
    }
}

// Whether a node may have children.
fn is_parent(arena: &Arena, node: NodeRef) -> bool
    requires { Holds arena.now node }
    ensures { result ≡ is_parent_at arena.now.trees node.label }
{
    matches!(arena.kind(node), Kind::Document | Kind::Element)
}

// Whether a node has a parent.
fn has_parent(arena: &Arena, node: NodeRef) -> bool
    requires { Holds arena.now node }
    ensures { result ≡ is_some (parent_of arena.now.trees node.label) }
{
    arena.parent(node).is_some()
}

// Whether a node is the root of a loose tree.
fn is_loose(arena: &Arena, node: NodeRef) -> bool
    requires { Holds arena.now node }
    ensures { result ≡ is_loose arena.now.trees node.label }
{
    !has_parent(arena, node) && node.label != 0
}

// Whether a tree is where the line takes it from.
fn comes_from(arena: &Arena, origin: Origin, node: NodeRef) -> bool
    requires { Holds arena.now node }
    ensures { result ≡ comes_from origin arena.now.trees node.label }
{
    match origin {
        Origin::Loose => is_loose(arena, node),
        Origin::Child => has_parent(arena, node),
    }
}

// Whether a tree can stand under a node, before a child or at the end.
fn can_stand(arena: &Arena, at: Placing) -> bool
    requires node_held { Holds arena.now at.node }
    requires parent_held { Holds arena.now at.parent }
    requires before_held { IfSome at.before (λ r. Holds arena.now r) }
    ensures { result ≡ can_stand arena.now.trees at.node.label at.parent.label (label at.before) }
{
    is_parent(arena, at.parent)
        && !is_within(arena, at.node, at.parent)
        && is_place(arena, at.parent, at.before, at.node)
}

// Whether the tree is one that the line may put there.
fn may_place(arena: &Arena, origin: Origin, at: Placing) -> bool
    requires node_held { Holds arena.now at.node }
    requires parent_held { Holds arena.now at.parent }
    requires before_held { IfSome at.before (λ r. Holds arena.now r) }
    ensures { result ≡ (comes_from origin arena.now.trees at.node.label &&
        can_stand arena.now.trees at.node.label at.parent.label (label at.before)) }
{
    comes_from(arena, origin, at.node) && can_stand(arena, at)
}

// Whether a node is a Text node.
fn is_text(arena: &Arena, node: NodeRef) -> bool
    requires { Holds arena.now node }
    ensures { result ≡ is_text_at arena.now.trees node.label }
{
    matches!(arena.content(node), Content::Words(_))
}

// Whether a node is an element of this name.
fn is_named(arena: &Arena, node: NodeRef, name: &Name) -> bool
    requires { Holds arena.now node }
    ensures { result ≡ has_name arena.now.trees node.label name.now }
{
    has_name(arena, node, name.as_slice())
}

// The step that puts a tree under a node.
fn step_to(origin: Origin, at: Placing) -> Step
    ensures { result ≡ step_to origin at }
{
    let Placing {
        node,
        parent,
        before,
    } = at;
    match origin {
        Origin::Loose => Step::Insert {
            node,
            parent,
            before,
        },
        Origin::Child => Step::Move {
            node,
            parent,
            before,
        },
    }
}

// The step of a line that puts a tree somewhere.
fn placement(
    arena: &Arena,
    room: &mut Room,
    origin: Origin,
    label: u32,
    parent: u32,
    before: Option<u32>,
) -> Result<Step, StepFault>
    requires { IsBound room.old arena.now.trees }
    ensures plans { Plans (line_to origin label parent before) arena.now result }
    ensures levels { StaysWithin room.new.levels result arena.now.trees }
{
    arena.valid();
    arena.slotted();
    let at = find_placing(arena, label, parent, before)?;
    if !may_place(arena, origin, at) {
        return Err(StepFault::BadPlace);
    }
    if !has_room_under(arena, room, at.node, at.parent) {
        return Err(StepFault::TooDeep);
    }
    Ok(step_to(origin, at))
}

// The step that makes a tree loose.
fn removal(arena: &Arena, label: u32) -> Result<Step, StepFault>
    ensures { Plans (StepLine.Remove label) arena.now result }
{
    arena.valid();
    arena.slotted();
    let node = find(arena, label)?;
    if !has_parent(arena, node) {
        return Err(StepFault::BadPlace);
    }
    Ok(Step::Remove { node })
}

// The step that gives a text other characters.
fn rewriting(arena: &Arena, label: u32, words: Chars) -> Result<Step, StepFault>
    requires { length words < 2 ^ 32 }
    ensures { Plans (StepLine.Words label words) arena.now result }
{
    arena.valid();
    arena.slotted();
    let node = find(arena, label)?;
    if !is_text(arena, node) {
        return Err(StepFault::BadPlace);
    }
    Ok(Step::SetText { node, words })
}

// The step that gives an element of this name other attributes.
fn redressing(
    arena: &Arena,
    label: u32,
    name: Name,
    attributes: Attributes,
) -> Result<Step, StepFault>
    ensures { Plans (StepLine.Tag label name attributes) arena.now result }
{
    arena.valid();
    arena.slotted();
    attributes.valid();
    let node = find(arena, label)?;
    if !is_named(arena, node, &name) {
        return Err(StepFault::BadPlace);
    }
    Ok(Step::SetAttributes {
        node,
        list: attributes,
    })
}
