//! The style attribute of an element, changed property by property.

ghost use Rattle.std.specs.Prelude.{◌≡◌, IfOk};
ghost use Rattle.std.specs.Option.{option_copied};
ghost use Rattle.wrap_split.specs.CssValue.DeclarationList.{printed};
ghost use Rattle.edit_model.specs.Gives.{Gives};
ghost use Rattle.wrap_split.specs.EditDoc.Whole.{IsOpen};
ghost use Rattle.wrap_split.specs.EditDoc.Held.{Holds, Keeps};
ghost use Rattle.inline_value.specs.Styling.{style_of, declarations_of, decoration_of, write_text, write_style, set_style, unset_style};

use edit_model::dom::{Chars, Content, Name};
use std::alloc::{AllocError, Global};
use wrap_split::css::{Declarations, find};
use wrap_split::doc::{Doc, EditFault, NodeRef};

// The text of the style attribute, empty where there is none.
#[tactic(auto, unfolding(crate::specs::Styling::style_of))]
fn style_of(doc: &Doc, node: NodeRef) -> &[char]
    requires { Holds doc.now node }
    ensures { result.now ≡ style_of doc.now.state node.label }
{
    match doc.content(node) {
        Content::Element { attributes, .. } => match attributes.get(b"style") {
            Some(text) => text.as_slice(),
            None => &[],
        },
        _ => &[],
    }
}

// What the style attribute declares.
#[tactic(auto, unfolding(crate::specs::Styling::declarations_of))]
fn declarations_of(alloc: Global, doc: &Doc, node: NodeRef) -> Result<Declarations, AllocError>
    requires { Holds doc.now node }
    ensures { IfOk result (λ list. list ≡ declarations_of doc.now.state node.label) }
{
    Declarations::read(alloc, style_of(doc, node))
}

// The value of its text-decoration, valid or not.
#[tactic(auto, unfolding(crate::specs::Styling::decoration_of, crate::specs::Styling::declarations_of))]
pub(crate) fn decoration_of(doc: &Doc, node: NodeRef) -> Option<&[char]>
    requires { Holds doc.now node }
    ensures { option_copied result ≡ decoration_of doc.now.state node.label }
{
    find(style_of(doc, node), b"text-decoration")
}

// Sets the style attribute to a text; an empty one takes it away.
#[tactic(auto, using(edit_model::proofs::Steps::steps, edit_model::proofs::Steps::exits), unfolding(crate::specs::Styling::write_text))]
fn write_text(alloc: Global, doc: &mut Doc, node: NodeRef, text: Vec<char>) -> Result<(), EditFault>
    requires open { IsOpen doc.old }
    requires node_held { Holds doc.old node }
    ensures gives { Gives result doc.old.state doc.new.state (write_text node.label text.items) }
    ensures keeps { Keeps doc.old doc.new }
{
    let name = Name::from_slice(alloc, b"style")?;
    if text.is_empty() {
        doc.unset_attribute(node, &name)?;
    } else {
        doc.set_attribute(node, &name, &Chars::from_vec(text)?)?;
    }
    Ok(())
}

// Writes declarations back.
#[tactic(auto, using(edit_model::proofs::Steps::steps, edit_model::proofs::Steps::exits))]
fn write_style(
    alloc: Global,
    doc: &mut Doc,
    node: NodeRef,
    list: &Declarations,
) -> Result<(), EditFault>
    requires open { IsOpen doc.old }
    requires node_held { Holds doc.old node }
    ensures gives { Gives result doc.old.state doc.new.state (write_style node.label list.now) }
    ensures keeps { Keeps doc.old doc.new }
{
    let text = list.print()?;
    write_text(alloc, doc, node, text)
}

/// Sets a property, by its name in lower case, in the style of an element: it keeps its place among
/// the declarations or goes last. A value that would not be read back as that one value changes
/// none; the declarations are written back all the same. On a node that is no element nothing
/// changes.
#[tactic(auto, using(edit_model::proofs::Steps::steps, edit_model::proofs::Steps::exits), unfolding(crate::specs::Styling::set_style))]
pub fn set_style(
    alloc: Global,
    doc: &mut Doc,
    node: NodeRef,
    name: &[u8],
    value: &[char],
) -> Result<(), EditFault>
    requires open { IsOpen doc.old }
    requires node_held { Holds doc.old node }
    ensures gives { Gives result doc.old.state doc.new.state
        (set_style node.label name.now value.now) }
    ensures keeps { Keeps doc.old doc.new }
{
    let mut list = declarations_of(alloc, doc, node)?;
    list.set(name, value)?;
    write_style(alloc, doc, node, &list)
}

/// Unsets a property, by its name in lower case, in the style of an element, and writes the other
/// declarations back. An attribute that then declares nothing goes.
#[tactic(auto, using(edit_model::proofs::Steps::steps, edit_model::proofs::Steps::exits), unfolding(crate::specs::Styling::unset_style))]
pub fn unset_style(
    alloc: Global,
    doc: &mut Doc,
    node: NodeRef,
    name: &[u8],
) -> Result<(), EditFault>
    requires open { IsOpen doc.old }
    requires node_held { Holds doc.old node }
    ensures gives { Gives result doc.old.state doc.new.state (unset_style node.label name.now) }
    ensures keeps { Keeps doc.old doc.new }
{
    let mut list = declarations_of(alloc, doc, node)?;
    list.unset(name);
    write_style(alloc, doc, node, &list)
}
