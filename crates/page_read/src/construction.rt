//! Puts new nodes at the end of a parent's children.

ghost use Rattle.std.specs.Prelude.{◌≡◌, ◌<◌, IfOk, OnOk, None};
ghost use Rattle.node_arena.specs.DomModel.declared.Content.TheVariants.{Element, Words, Remark};
ghost use Rattle.node_arena.specs.DomModel.Forest.{link};
ghost use Rattle.node_arena.specs.DomModel.ArenaState.{CanLink};
ghost use Rattle.node_arena.specs.Held.{Holds};
ghost use Rattle.page_read.specs.Construction.{IsOpen, Appends, AppendsElement};

use node_arena::dom::{Attributes, Chars, Name};
use node_arena::stepping::Steps;
use node_arena::{Arena, NodeRef};
use std::alloc::AllocError;
use std::marker::Brand;
use std::sync::ledger::{Blank, Ledger};

fn link_counted<L: Ledger>(arena: &mut Arena, parent: NodeRef, node: NodeRef, blank: Blank)
    requires name { blank.name ≡ L.name }
    requires parts { blank.parts ≡ L.parts }
    requires some { 0 < blank.parts }
    requires parent_held { Holds arena.old parent }
    requires node_held { Holds arena.old node }
    requires can { CanLink arena.old.trees parent.label None node.label }
    ensures { arena.new
        ≡ record arena.old { trees = link arena.old.trees parent.label None node.label } }
{
    let mut steps = Steps::<L>::open(blank);
    arena.link(parent, None, node, &mut steps);
}

// Links a loose node as the last child.
fn link_last(arena: &mut Arena, parent: NodeRef, node: NodeRef)
    requires parent_held { Holds arena.old parent }
    requires node_held { Holds arena.old node }
    requires can { CanLink arena.old.trees parent.label None node.label }
    ensures { arena.new
        ≡ record arena.old { trees = link arena.old.trees parent.label None node.label } }
{
    link_counted::<Brand>(arena, parent, node, Blank::new(1));
}

/// Makes words as the last child of a parent.
pub(crate) fn append_words(
    arena: &mut Arena,
    parent: NodeRef,
    words: Chars,
) -> Result<(), AllocError>
    requires { IsOpen arena.old parent }
    ensures { OnOk result (Appends arena.old arena.new parent.label (Words words)) }
{
    arena.valid();
    if words.len() > u32::MAX as usize {
        return Err(AllocError);
    }
    let Ok(node) = arena.make_words(words) else {
        return Err(AllocError);
    };
    arena.valid();
    link_last(arena, parent, node);
    Ok(())
}

/// Makes a remark as the last child of a parent.
pub(crate) fn append_remark(
    arena: &mut Arena,
    parent: NodeRef,
    words: Chars,
) -> Result<(), AllocError>
    requires { IsOpen arena.old parent }
    ensures { OnOk result (Appends arena.old arena.new parent.label (Remark words)) }
{
    arena.valid();
    if words.len() > u32::MAX as usize {
        return Err(AllocError);
    }
    let Ok(node) = arena.make_remark(words) else {
        return Err(AllocError);
    };
    arena.valid();
    link_last(arena, parent, node);
    Ok(())
}

/// Makes an element as the last child of a parent.
pub(crate) fn append_element(
    arena: &mut Arena,
    parent: NodeRef,
    name: Name,
    attributes: Attributes,
) -> Result<NodeRef, AllocError>
    requires { IsOpen arena.old parent }
    ensures { IfOk result (λ node.
        AppendsElement arena.old arena.new parent.label (Element name attributes) node) }
{
    arena.valid();
    let Ok(node) = arena.make_element(name, attributes) else {
        return Err(AllocError);
    };
    arena.valid();
    link_last(arena, parent, node);
    Ok(node)
}
