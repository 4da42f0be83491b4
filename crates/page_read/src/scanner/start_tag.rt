//! Start tags: their names, attributes and ends.

ghost use Rattle.std.specs.Prelude.{◌==◌, ◌≡◌, ◌<◌, ◌+◌, ◌∷◌, ◌&&◌, ◌||◌, [], Some, None, IfOk, OnOk, true, is_some};
ghost use Rattle.std.proofs.Math.Utf8.{encodes};
ghost use Rattle.page_grammar.specs.Machine as machine;
ghost use Rattle.page_grammar.specs.Names as names;
ghost use Rattle.page_grammar.specs.Chars as classes;
ghost use Rattle.page_grammar.specs.Page.{has_attribute};
ghost use Rattle.node_arena.specs.DomModel.AttributeList.{value_of};
ghost use Rattle.page_read.specs.declared.scanner.Lexical.TheVariants.{Data, TagName, BeforeAttributeName, AttributeName, AfterAttributeName, BeforeAttributeValue, InAttributeValue, ValueReference, AfterAttributeValue, SelfClosing};
ghost use Rattle.page_read.specs.View.{machine_of, tree_construction_of, Went, Steps, Goes, read_attributes, AddsAttribute, MakesElement};
ghost use Rattle.page_read.specs.Steady.{Steady, IsFresh, taken};
ghost use Rattle.page_grammar.specs.TreeConstruction.{innermost};

use super::{Lexical, Open, Scanner, encoded};
use crate::construction::append_element;
use crate::names::is_refused;
use crate::reference::{Reference, Turn};
use node_arena::NodeRef;
use node_arena::dom::{Attributes, Chars, Name};
use page_grammar::classes::{is_attribute_name_char, is_name_char, is_quote, is_space, lower};
use page_grammar::element_names::is_void;
use std::alloc::AllocError;
use std::mem;

impl Scanner {
    // Puts the element of the start tag into the tree.
    fn make_element(&mut self) -> Result<NodeRef, AllocError>
        requires steady { Steady self.old }
        requires below { self.old.arena.next < self.old.arena.cap }
        ensures made { IfOk result (λ node. MakesElement self.old self.new node) }
    {
        let name = Name::from_slice(self.alloc, &self.tag)?;
        let attributes = mem::replace(&mut self.attributes, Attributes::new(self.alloc));
        let parent = self.innermost();
        append_element(&mut self.arena, parent, name, attributes)
    }

    // The start tag has ended.
    fn start_element(&mut self) -> Result<(), AllocError>
        requires steady { Steady self.old }
        requires below { self.old.arena.next < self.old.arena.cap }
        requires tag { taken self.old.lexical ≡ 1 }
        ensures went { OnOk result (Goes
            (Some (machine.started (machine_of self.old) self.old.tag.items
            (read_attributes self.old.attributes)))
            self.old self.new) }
        ensures cap { OnOk result (self.new.arena.cap ≡ self.old.arena.cap) }
        ensures steady { OnOk result (Steady self.new) }
    {
        let node = self.make_element()?;
        self.lexical = Lexical::Data;
        if is_void(&self.tag) {
            self.room += 1;
            return Ok(());
        }
        let name = Vec::from_slice(self.alloc, &self.tag)?;
        self.opened.push(Open { node, name })?;
        Ok(())
    }

    // May the start tag end so, or is this the `/` of its end?
    fn may_end_tag(&self, c: char) -> bool
        ensures { result ≡ ((c == 62) || ((c == 47) && names.is_void self.now.tag.items)) }
    {
        c == '>' || c == '/' && is_void(&self.tag)
    }

    // A character that may end the start tag so.
    fn take_tag_end(&mut self, c: char) -> Result<(), AllocError>
        requires steady { Steady self.old }
        requires below { self.old.arena.next < self.old.arena.cap }
        requires tag { taken self.old.lexical ≡ 1 }
        requires may { ((c == 62) || ((c == 47) && names.is_void self.old.tag.items)) ≡ true }
        ensures went { OnOk result (Goes
            (machine.tag_end (machine_of self.old) self.old.tag.items
            (read_attributes self.old.attributes) c)
            self.old self.new) }
        ensures cap { OnOk result (self.new.arena.cap ≡ self.old.arena.cap) }
        ensures steady { OnOk result (Steady self.new) }
    {
        if c == '>' {
            return self.start_element();
        }
        self.lexical = Lexical::SelfClosing;
        Ok(())
    }

    // The start tag ends, if it may end so.
    fn end_tag(&mut self, c: char) -> Result<bool, AllocError>
        requires steady { Steady self.old }
        requires below { self.old.arena.next < self.old.arena.cap }
        requires tag { taken self.old.lexical ≡ 1 }
        ensures went { IfOk result (λ went. Went went
            (machine.tag_end (machine_of self.old) self.old.tag.items
            (read_attributes self.old.attributes) c)
            self.old self.new) }
        ensures cap { OnOk result (self.new.arena.cap ≡ self.old.arena.cap) }
        ensures steady { OnOk result (Steady self.new) }
    {
        if !self.may_end_tag(c) {
            return Ok(false);
        }
        self.take_tag_end(c)?;
        Ok(true)
    }

    pub(super) fn tag_name(&mut self, c: char) -> Result<bool, AllocError>
        requires state { self.old.lexical ≡ TagName }
        requires steady { Steady self.old }
        ensures went { IfOk result (λ went. Steps went c self.old self.new) }
        ensures cap { OnOk result (self.new.arena.cap ≡ self.old.arena.cap) }
        ensures steady { OnOk result (Steady self.new) }
    {
        if is_name_char(c) {
            self.tag.push(lower(c) as u8)?;
            return Ok(true);
        }
        if is_refused(&self.tag) {
            return Ok(false);
        }
        if is_space(c) {
            self.lexical = Lexical::BeforeAttributeName;
            return Ok(true);
        }
        self.end_tag(c)
    }

    fn begin_name(&mut self, c: char) -> Result<(), AllocError>
        requires steady { Steady self.old }
        requires below { self.old.arena.next < self.old.arena.cap }
        requires tag { taken self.old.lexical ≡ 1 }
        ensures name { OnOk result (machine_of self.new
            ≡ machine.at (machine_of self.old)
            (machine.AttributeName self.old.tag.items (read_attributes self.old.attributes)
            (classes.lower c ∷ []))) }
        ensures kept { OnOk result (tree_construction_of self.new ≡ tree_construction_of self.old) }
        ensures cap { OnOk result (self.new.arena.cap ≡ self.old.arena.cap) }
        ensures steady { OnOk result (Steady self.new) }
    {
        self.name.clear();
        self.value.clear();
        self.name.push(lower(c))?;
        self.lexical = Lexical::AttributeName;
        Ok(())
    }

    pub(super) fn before_attribute_name(&mut self, c: char) -> Result<bool, AllocError>
        requires state { self.old.lexical ≡ BeforeAttributeName }
        requires steady { Steady self.old }
        ensures went { IfOk result (λ went. Steps went c self.old self.new) }
        ensures cap { OnOk result (self.new.arena.cap ≡ self.old.arena.cap) }
        ensures steady { OnOk result (Steady self.new) }
    {
        if is_space(c) {
            return Ok(true);
        }
        if is_attribute_name_char(c) {
            self.begin_name(c)?;
            return Ok(true);
        }
        self.end_tag(c)
    }

    // Whether the tag has an attribute of this name.
    #[tactic(auto, using(crate::proofs::AttributeLemmas::has_is))]
    pub(super) fn is_repeated(&self) -> Result<bool, AllocError>
        requires { Steady self.now }
        ensures bytes { IfOk result (λ found.
            found ≡ is_some (value_of self.now.attributes (encodes self.now.name.items))) }
        ensures characters { IfOk result (λ found.
            found ≡ has_attribute (read_attributes self.now.attributes) self.now.name.items) }
    {
        let name = encoded(self.alloc, &self.name)?;
        match self.attributes.get(&name) {
            Some(_) => Ok(true),
            None => Ok(false),
        }
    }

    // The last attribute is whole.
    fn add_attribute(&mut self) -> Result<(), AllocError>
        requires steady { Steady self.old }
        requires fresh { IsFresh self.old.attributes self.old.name.items }
        requires below { self.old.arena.next < self.old.arena.cap }
        requires tag { taken self.old.lexical ≡ 1 }
        ensures steady { OnOk result (Steady self.new) }
        ensures added { OnOk result (AddsAttribute self.old self.new) }
    {
        let name = Name::from_vec(encoded(self.alloc, &self.name)?);
        let value = Chars::from_slice(self.alloc, &self.value)?;
        self.attributes.insert(name, value)?;
        self.lexical = Lexical::AfterAttributeValue;
        Ok(())
    }

    // An attribute without a value ends a start tag.
    fn end_valueless(&mut self, c: char) -> Result<bool, AllocError>
        requires steady { Steady self.old }
        requires below { self.old.arena.next < self.old.arena.cap }
        requires tag { taken self.old.lexical ≡ 1 }
        requires fresh { IsFresh self.old.attributes self.old.name.items }
        requires empty { self.old.value.items ≡ [] }
        ensures went { IfOk result (λ went. Went went
            (machine.tag_end (machine_of self.old) self.old.tag.items
            (machine.with_attribute (read_attributes self.old.attributes) self.old.name.items []) c)
            self.old self.new) }
        ensures cap { OnOk result (self.new.arena.cap ≡ self.old.arena.cap) }
        ensures steady { OnOk result (Steady self.new) }
    {
        if !self.may_end_tag(c) {
            return Ok(false);
        }
        self.add_attribute()?;
        self.take_tag_end(c)?;
        Ok(true)
    }

    #[tactic(auto, using(page_grammar::proofs::Facts::scalars_app))]
    pub(super) fn attribute_name(&mut self, c: char) -> Result<bool, AllocError>
        requires state { self.old.lexical ≡ AttributeName }
        requires steady { Steady self.old }
        ensures went { IfOk result (λ went. Steps went c self.old self.new) }
        ensures cap { OnOk result (self.new.arena.cap ≡ self.old.arena.cap) }
        ensures steady { OnOk result (Steady self.new) }
    {
        if is_attribute_name_char(c) {
            self.name.push(lower(c))?;
            return Ok(true);
        }
        if self.is_repeated()? {
            return Ok(false);
        }
        if is_space(c) {
            self.lexical = Lexical::AfterAttributeName;
            return Ok(true);
        }
        if c == '=' {
            self.lexical = Lexical::BeforeAttributeValue;
            return Ok(true);
        }
        self.end_valueless(c)
    }

    pub(super) fn after_attribute_name(&mut self, c: char) -> Result<bool, AllocError>
        requires state { self.old.lexical ≡ AfterAttributeName }
        requires steady { Steady self.old }
        ensures went { IfOk result (λ went. Steps went c self.old self.new) }
        ensures cap { OnOk result (self.new.arena.cap ≡ self.old.arena.cap) }
        ensures steady { OnOk result (Steady self.new) }
    {
        if is_space(c) {
            return Ok(true);
        }
        if c == '=' {
            self.lexical = Lexical::BeforeAttributeValue;
            return Ok(true);
        }
        if is_attribute_name_char(c) {
            self.add_attribute()?;
            self.begin_name(c)?;
            return Ok(true);
        }
        self.end_valueless(c)
    }

    pub(super) fn before_attribute_value(&mut self, c: char) -> bool
        requires state { self.old.lexical ≡ BeforeAttributeValue }
        requires steady { Steady self.old }
        ensures went { Steps result c self.old self.new }
        ensures cap { self.new.arena.cap ≡ self.old.arena.cap }
        ensures steady { Steady self.new }
    {
        if is_space(c) {
            return true;
        }
        if !is_quote(c) {
            return false;
        }
        self.lexical = Lexical::InAttributeValue(c);
        true
    }

    pub(super) fn in_attribute_value(&mut self, quote: char, c: char) -> Result<(), AllocError>
        requires state { self.old.lexical ≡ InAttributeValue quote }
        requires steady { Steady self.old }
        ensures went { OnOk result (Steps true c self.old self.new) }
        ensures cap { OnOk result (self.new.arena.cap ≡ self.old.arena.cap) }
        ensures steady { OnOk result (Steady self.new) }
    {
        if c == quote {
            self.add_attribute()?;
            return Ok(());
        }
        if c == '&' {
            self.lexical = Lexical::ValueReference(quote, Reference::Begun);
            return Ok(());
        }
        self.value.push(c)?;
        Ok(())
    }

    pub(super) fn in_value_reference(
        &mut self,
        quote: char,
        reference: Reference,
        c: char,
    ) -> Result<bool, AllocError>
        requires state { self.old.lexical ≡ ValueReference quote reference }
        requires steady { Steady self.old }
        ensures went { IfOk result (λ went. Steps went c self.old self.new) }
        ensures cap { OnOk result (self.new.arena.cap ≡ self.old.arena.cap) }
        ensures steady { OnOk result (Steady self.new) }
    {
        match reference.step(c) {
            Turn::Stop => Ok(false),
            Turn::More(reference) => {
                self.lexical = Lexical::ValueReference(quote, reference);
                Ok(true)
            }
            Turn::Done(character) => {
                self.value.push(character)?;
                self.lexical = Lexical::InAttributeValue(quote);
                Ok(true)
            }
        }
    }

    pub(super) fn after_attribute_value(&mut self, c: char) -> Result<bool, AllocError>
        requires state { self.old.lexical ≡ AfterAttributeValue }
        requires steady { Steady self.old }
        ensures went { IfOk result (λ went. Steps went c self.old self.new) }
        ensures cap { OnOk result (self.new.arena.cap ≡ self.old.arena.cap) }
        ensures steady { OnOk result (Steady self.new) }
    {
        if is_space(c) {
            self.lexical = Lexical::BeforeAttributeName;
            return Ok(true);
        }
        self.end_tag(c)
    }

    pub(super) fn self_closing(&mut self, c: char) -> Result<bool, AllocError>
        requires state { self.old.lexical ≡ SelfClosing }
        requires steady { Steady self.old }
        ensures went { IfOk result (λ went. Steps went c self.old self.new) }
        ensures cap { OnOk result (self.new.arena.cap ≡ self.old.arena.cap) }
        ensures steady { OnOk result (Steady self.new) }
    {
        if c != '>' {
            return Ok(false);
        }
        self.start_element()?;
        Ok(true)
    }
}
