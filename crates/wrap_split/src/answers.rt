//! Tests and makers that many rules have.

ghost use Rattle.std.specs.Prelude.{◌≡◌};
ghost use Rattle.edit_actions.specs.EditDoc.Held.{Holds};
ghost use Rattle.wrap_split.specs.Target.{is_without_attributes};
ghost use Rattle.wrap_split.specs.declared.rule.Criterion.TheVariants.{Never, SameValue, Named, SimpleIndentation};
ghost use Rattle.wrap_split.specs.declared.rule.Recipe.TheVariants.{Nothing, Make};

use crate::rule::{Blank, Makes, Meets};
use command_value::meets_value;
use edit_actions::doc::{Doc, Name, NodeRef};
use edit_actions::questions::{has_name, is_simple_indentation};
use edit_model::dom::{Chars, Content};
use edit_model::element_names::Command;
use std::alloc::AllocError;

/// No sibling fits.
#[derive(Clone, Copy)]
pub struct NoSibling;

impl Meets for NoSibling {
    ghost criterion = { λ s. Never };

    #[tactic(auto, unfolding(crate::specs::Target::meets))]
    fn meets(&self, _doc: &Doc, _node: NodeRef) -> bool {
        false
    }
}

/// Whether a node is an element without attributes.
pub fn is_without_attributes(doc: &Doc, node: NodeRef) -> bool
    requires { Holds doc.now node }
    ensures { result ≡ is_without_attributes doc.now.state.trees node.label }
{
    match doc.content(node) {
        Content::Element {
            name: _,
            attributes,
        } => attributes.len() == 0,
        _ => false,
    }
}

/// An element of a name fits, where `bare` is set only without attributes.
#[derive(Drop)]
pub struct NamedSibling {
    pub name: Name,
    pub bare: bool,
}

impl Meets for NamedSibling {
    ghost criterion = { λ s. Named s.name s.bare };

    #[tactic(auto, unfolding(crate::specs::Target::meets))]
    fn meets(&self, doc: &Doc, node: NodeRef) -> bool {
        has_name(doc, node, self.name.as_slice())
            && (!self.bare || is_without_attributes(doc, node))
    }
}

/// A simple modifiable element fits that gives the command the value, and has it.
#[derive(Drop)]
pub struct SameValueSibling {
    pub command: Command,
    pub value: Chars,
}

impl Meets for SameValueSibling {
    ghost criterion = { λ s. SameValue s.command s.value };

    #[tactic(auto, unfolding(crate::specs::Target::meets))]
    fn meets(&self, doc: &Doc, node: NodeRef) -> bool {
        meets_value(doc, node, self.command, self.value.as_slice())
    }
}

/// A simple indentation element fits.
#[derive(Clone, Copy)]
pub struct IndentationSibling;

impl Meets for IndentationSibling {
    ghost criterion = { λ s. SimpleIndentation };

    #[tactic(auto, unfolding(crate::specs::Target::meets))]
    fn meets(&self, doc: &Doc, node: NodeRef) -> bool {
        is_simple_indentation(doc, node)
    }
}

/// Nothing is made.
#[derive(Clone, Copy)]
pub struct NothingMade;

impl Makes for NothingMade {
    ghost recipe = { λ s. Nothing };

    #[tactic(auto, unfolding(crate::specs::Target::blank_of))]
    fn make(&self) -> Result<Option<Blank>, AllocError> {
        Ok(None)
    }
}

/// A copy of a blank is made.
#[derive(Drop)]
pub struct CopyMade {
    pub blank: Blank,
}

impl Makes for CopyMade {
    ghost recipe = { λ s. Make s.blank };

    #[tactic(auto, unfolding(crate::specs::Target::blank_of))]
    fn make(&self) -> Result<Option<Blank>, AllocError> {
        Ok(Some(Blank {
            name: self.blank.name.clone()?,
            attributes: self.blank.attributes.copy()?,
        }))
    }
}
