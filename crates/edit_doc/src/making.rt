//! Making nodes.

ghost use Rattle.std.specs.Prelude.{◌≡◌, ℕ, ◌^◌, ◌<◌, IfOk, OnErr, length};
ghost use Rattle.edit_model.specs.Gives.{GivesNode};
ghost use Rattle.edit_model.specs.Run.{make_element, make_words};
ghost use Rattle.edit_doc.specs.Whole.{IsOpen};
ghost use Rattle.edit_doc.specs.Held.{Holds, Keeps};

use crate::{Attributes, Chars, Doc, EditFault, Name, NodeRef};
use edit_parts::fault_of;

impl Doc {
    /// Makes a loose element.
    pub fn make_element(
        &mut self,
        name: &Name,
        attributes: &Attributes,
    ) -> Result<NodeRef, EditFault>
        requires open { IsOpen self.old }
        ensures gives { GivesNode result self.old.state self.new.state
            (make_element name.now attributes.now) }
        ensures held { IfOk result (λ r. Holds self.new r) }
        ensures keeps { Keeps self.old self.new }
        ensures err { OnErr result (self.new ≡ self.old) }
    {
        let name = name.clone()?;
        let attributes = attributes.copy()?;
        self.make_owned_element(name, attributes)
    }

    /// Makes a loose text.
    pub fn make_words(&mut self, words: &[char]) -> Result<NodeRef, EditFault>
        requires open { IsOpen self.old }
        requires short { length words.now < 2 ^ 32 }
        ensures gives { GivesNode result self.old.state self.new.state (make_words words.now) }
        ensures held { IfOk result (λ r. Holds self.new r) }
        ensures keeps { Keeps self.old self.new }
        ensures err { OnErr result (self.new ≡ self.old) }
    {
        let words = Chars::from_slice(self.alloc, words)?;
        self.make_owned_words(words)
    }

    // Makes an element of a name and attributes that are handed over.
    pub(crate) fn make_owned_element(
        &mut self,
        name: Name,
        attributes: Attributes,
    ) -> Result<NodeRef, EditFault>
        requires open { IsOpen self.old }
        ensures gives { GivesNode result self.old.state self.new.state
            (make_element name attributes) }
        ensures held { IfOk result (λ r. Holds self.new r) }
        ensures keeps { Keeps self.old self.new }
        ensures err { OnErr result (self.new ≡ self.old) }
    {
        self.tree.nodes.arena.valid();
        attributes.valid();
        self.command.detached.reserve(1)?;
        self.command.named.reserve(1)?;
        match self.tree.nodes.arena.make_element(name, attributes) {
            Ok(node) => {
                self.command.note_made(node);
                Ok(node)
            }
            Err(fault) => Err(fault_of(fault)),
        }
    }

    // Makes a text of characters that are handed over.
    pub(crate) fn make_owned_words(&mut self, words: Chars) -> Result<NodeRef, EditFault>
        requires open { IsOpen self.old }
        requires short { length words < 2 ^ 32 }
        ensures gives { GivesNode result self.old.state self.new.state (make_words words) }
        ensures held { IfOk result (λ r. Holds self.new r) }
        ensures keeps { Keeps self.old self.new }
        ensures err { OnErr result (self.new ≡ self.old) }
    {
        self.tree.nodes.arena.valid();
        self.command.detached.reserve(1)?;
        self.command.named.reserve(1)?;
        match self.tree.nodes.arena.make_words(words) {
            Ok(node) => {
                self.command.note_made(node);
                Ok(node)
            }
            Err(fault) => Err(fault_of(fault)),
        }
    }
}
