//! Rules for wrapping: which sibling a list may go into, and what is made where none fits.
//!
//! A rule holds a test and a maker. Each is of a type that tells, to contracts alone, the criterion
//! that it tests or the recipe that it follows, and whose method is proved to answer it. So a rule
//! can't be told wrong, and wrapping asks nothing more.

ghost use Rattle.std.specs.Prelude.{◌≡◌};
ghost use Rattle.edit_actions.specs.EditDoc.Held.{Holds};
ghost use Rattle.wrap_split.specs.Target.{IsMade, meets};
ghost use Rattle.wrap_split.specs.declared.rule.Criterion.{Criterion};
ghost use Rattle.wrap_split.specs.declared.rule.Recipe.{Recipe};

use edit_actions::doc::{Doc, NodeRef};
use edit_model::dom::{Attributes, Chars, Name};
use edit_model::element_names::Command;
use std::alloc::AllocError;

/// Which sibling a list may be wrapped in.
#[derive(Drop)]
pub enum Criterion {
    /// None.
    Never,
    /// A simple modifiable element that gives the command the value, and has it.
    SameValue { command: Command, value: Chars },
    /// An element of the name, where `bare` is set without attributes.
    Named { name: Name, bare: bool },
    /// A simple indentation element.
    SimpleIndentation,
    /// A div that does nothing but align so.
    Aligned { alignment: Chars },
}

/// The name and the attributes of an element that is to be made.
#[derive(Drop)]
pub struct Blank {
    pub name: Name,
    pub attributes: Attributes,
}

/// What a list is wrapped in where no sibling fits.
#[derive(Drop)]
pub enum Recipe {
    Nothing,
    Make { blank: Blank },
}

/// A test of siblings.
pub trait Meets {
    // the criterion that it tests
    ghost criterion: { Self → Criterion };

    /// Whether a node meets the criterion.
    fn meets(&self, doc: &Doc, node: NodeRef) -> bool
        requires { Holds doc.now node }
        ensures { result ≡ meets (criterion self.now) doc.now.state.trees node.label };
}

/// A maker of blanks.
pub trait Makes {
    // the recipe that it follows
    ghost recipe: { Self → Recipe };

    /// The blank of the recipe, made anew, or None where there is none.
    fn make(&self) -> Result<Option<Blank>, AllocError>
        ensures { IsMade result (recipe self.now) };
}

/// Which sibling fits, and what is made where none does.
#[derive(Drop)]
pub struct WrapRule<C: Meets, M: Makes> {
    pub test: C,
    pub maker: M,
}

impl<C: Meets, M: Makes> WrapRule<C, M> {
    /// A rule of the test's criterion and the maker's recipe.
    pub fn new(test: C, maker: M) -> WrapRule<C, M>
        ensures test { result.test ≡ test }
        ensures maker { result.maker ≡ maker }
    {
        WrapRule { test, maker }
    }
}
