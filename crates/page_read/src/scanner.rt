//! A scanner of pages that takes one character at a time and builds the tree as it goes.

ghost use Rattle.std.specs.Prelude.{◌==◌, nat_lt, ◌≡◌, ◌<◌, ◌+◌, ◌^◌, ◌++◌, ◌∷◌, ◌&&◌, ◌||◌, [], Some, None, IsSome, IfOk, OnOk, true, suc};
ghost use Rattle.std.proofs.Math.Utf8.{encodes};
ghost use Rattle.page_grammar.specs.Machine as machine;
ghost use Rattle.page_grammar.specs.Chars as classes;
ghost use Rattle.page_grammar.specs.Kind as kinds;
ghost use Rattle.page_grammar.specs.Reader.{takes_wide};
ghost use Rattle.page_read.specs.Faults.{kind_of};
ghost use Rattle.page_read.specs.declared.scanner.Lexical.TheVariants.{Data, InText, TextReference, TagOpen, MarkupDeclaration, CommentStart, InComment, TagName, BeforeAttributeName, AttributeName, AfterAttributeName, BeforeAttributeValue, InAttributeValue, ValueReference, AfterAttributeValue, SelfClosing, EndTagName, AfterEndTagName};
ghost use Rattle.page_read.specs.View.{machine_of, tree_construction_of, Steps, Goes, names_of, labels_of, dashes_of, first_or_empty, Ends, LeavesAt};
ghost use Rattle.page_read.specs.Steady.{Steady, EachOpen, is_closing};
ghost use Rattle.page_read.specs.Construction.{IsOpen};
ghost use Rattle.page_grammar.specs.TreeConstruction.{construct, innermost, initial_tree};

use crate::construction::{append_remark, append_words};
use crate::faults::PageKind;
use crate::names::is_refused;
use crate::reference::{Reference, Turn};
use node_arena::dom::{Attributes, Chars};
use node_arena::{Arena, NodeRef};
use page_grammar::classes::{is_letter, is_space, lower};
use std::alloc::{AllocError, Global};

mod start_tag;

/// How deep a node may stand.
const DEPTH: u32 = 200;

/// How many dashes stand at the end of a comment so far.
#[derive(Drop, Clone, Copy)]
pub(crate) enum Dashes {
    NoDash,
    OneDash,
    TwoDashes,
}

/// Where in a token the scanner stands.
#[derive(Drop, Clone, Copy)]
pub(crate) enum Lexical {
    Data,
    InText,
    TextReference(Reference),
    TagOpen,
    MarkupDeclaration,
    CommentStart,
    InComment(Dashes),
    TagName,
    BeforeAttributeName,
    AttributeName,
    AfterAttributeName,
    BeforeAttributeValue,
    /// Inside a value that this character closes.
    InAttributeValue(char),
    ValueReference(char, Reference),
    AfterAttributeValue,
    SelfClosing,
    /// So many characters of the innermost open element's name are read.
    EndTagName(usize),
    AfterEndTagName,
}

/// An element that is open.
#[derive(Drop)]
pub(crate) struct Open {
    node: NodeRef,
    name: Vec<u8>,
}

/// A page as far as it is read.
#[derive(Drop)]
pub(crate) struct Scanner {
    alloc: Global,
    lexical: Lexical,
    /// The text or the comment so far.
    text: Vec<char>,
    /// The name of the start tag so far, its attributes, and the name and the value of its last
    /// attribute.
    tag: Vec<u8>,
    attributes: Attributes,
    name: Vec<char>,
    value: Vec<char>,
    opened: Vec<Open>,
    /// How many levels are left for nodes.
    room: u32,
    arena: Arena,
}

// The characters in UTF-8.
fn encoded(alloc: Global, chars: &[char]) -> Result<Vec<u8>, AllocError>
    ensures { IfOk result (λ bytes. bytes.items ≡ encodes chars.now) }
{
    let mut text = String::with_capacity(alloc, chars.len())?;
    for c in chars {
        text.push(*c)?;
    }
    Ok(text.into_bytes())
}

fn byte_at(bytes: &[u8], place: usize) -> Option<u8>
    ensures left { LeavesAt result place bytes.now }
    ensures small { IsSome result → place + 1 < 2 ^ 64 }
{
    if place < bytes.len() {
        Some(bytes[place])
    } else {
        None
    }
}

impl Scanner {
    pub(crate) fn new(alloc: Global, cap: u32) -> Result<Scanner, AllocError>
        requires { 0 < cap }
        ensures view { IfOk result (λ scanner. machine_of scanner ≡ machine.start 200) }
        ensures initial_tree { IfOk result (λ scanner. tree_construction_of scanner
            ≡ initial_tree) }
        ensures cap { IfOk result (λ scanner. scanner.arena.cap ≡ cap) }
        ensures steady { IfOk result (λ scanner. Steady scanner) }
    {
        let arena = Arena::new(alloc, cap)?;
        Ok(Scanner {
            alloc,
            lexical: Lexical::Data,
            text: Vec::new(alloc),
            tag: Vec::new(alloc),
            attributes: Attributes::new(alloc),
            name: Vec::new(alloc),
            value: Vec::new(alloc),
            opened: Vec::new(alloc),
            room: DEPTH,
            arena,
        })
    }

    fn has_room(&self) -> bool
        ensures { result ≡ machine.has_room self.now.arena.cap (machine_of self.now) }
    {
        self.arena.next_label() < self.arena.cap() && 0 < self.room
    }

    fn is_some_open(&self) -> bool
        ensures { result ≡ machine.is_some_open (names_of self.now.opened.items) }
    {
        !self.opened.is_empty()
    }

    // May a `<` stand behind a run of text?
    fn may_end_text(&self) -> bool
        requires { self.now.arena.next < self.now.arena.cap }
        ensures { result ≡ (machine.is_some_open (names_of self.now.opened.items)
            || (nat_lt (suc self.now.arena.next) self.now.arena.cap && nat_lt 0 self.now.room)) }
    {
        let next = self.arena.next_label();
        let cap = self.arena.cap();
        self.is_some_open() || next + 1 < cap && 0 < self.room
    }

    fn innermost(&self) -> NodeRef
        requires { EachOpen self.now.arena self.now.opened.items }
        ensures label { result.label ≡ innermost (labels_of self.now.opened.items) }
        ensures here { IsOpen self.now.arena result }
    {
        match self.opened.last() {
            Some(open) => open.node,
            None => {
                self.arena.valid();
                self.arena.document()
            }
        }
    }

    fn in_data(&mut self, c: char) -> Result<bool, AllocError>
        requires state { self.old.lexical ≡ Data }
        requires steady { Steady self.old }
        ensures went { IfOk result (λ went. Steps went c self.old self.new) }
        ensures cap { OnOk result (self.new.arena.cap ≡ self.old.arena.cap) }
        ensures steady { OnOk result (Steady self.new) }
    {
        if c == '<' {
            if !self.has_room() && !self.is_some_open() {
                return Ok(false);
            }
            self.lexical = Lexical::TagOpen;
            return Ok(true);
        }
        if !self.has_room() {
            return Ok(false);
        }
        self.text.clear();
        if c == '&' {
            self.lexical = Lexical::TextReference(Reference::Begun);
            return Ok(true);
        }
        self.text.push(c)?;
        self.lexical = Lexical::InText;
        Ok(true)
    }

    // The run of text has ended.
    fn end_text(&mut self) -> Result<(), AllocError>
        requires state { self.old.lexical ≡ InText }
        requires steady { Steady self.old }
        ensures leaf { OnOk result (machine_of self.new
            ≡ machine.quiet
            (machine.after_leaf (machine_of self.old)
            (machine.TextEvent self.old.text.items))) }
        ensures constructed { OnOk result (tree_construction_of self.new
            ≡ construct (machine.TextEvent self.old.text.items) (tree_construction_of self.old)) }
        ensures cap { OnOk result (self.new.arena.cap ≡ self.old.arena.cap) }
        ensures steady { OnOk result (Steady self.new) }
    {
        let text = Chars::from_slice(self.alloc, &self.text)?;
        let parent = self.innermost();
        append_words(&mut self.arena, parent, text)?;
        self.lexical = Lexical::Data;
        Ok(())
    }

    fn in_text(&mut self, c: char) -> Result<bool, AllocError>
        requires state { self.old.lexical ≡ InText }
        requires steady { Steady self.old }
        ensures went { IfOk result (λ went. Steps went c self.old self.new) }
        ensures cap { OnOk result (self.new.arena.cap ≡ self.old.arena.cap) }
        ensures steady { OnOk result (Steady self.new) }
    {
        if c == '<' {
            if !self.may_end_text() {
                return Ok(false);
            }
            self.end_text()?;
            self.lexical = Lexical::TagOpen;
            return Ok(true);
        }
        if c == '&' {
            self.lexical = Lexical::TextReference(Reference::Begun);
            return Ok(true);
        }
        self.text.push(c)?;
        Ok(true)
    }

    fn in_text_reference(&mut self, reference: Reference, c: char) -> Result<bool, AllocError>
        requires state { self.old.lexical ≡ TextReference reference }
        requires steady { Steady self.old }
        ensures went { IfOk result (λ went. Steps went c self.old self.new) }
        ensures cap { OnOk result (self.new.arena.cap ≡ self.old.arena.cap) }
        ensures steady { OnOk result (Steady self.new) }
    {
        match reference.step(c) {
            Turn::Stop => Ok(false),
            Turn::More(reference) => {
                self.lexical = Lexical::TextReference(reference);
                Ok(true)
            }
            Turn::Done(character) => {
                self.text.push(character)?;
                self.lexical = Lexical::InText;
                Ok(true)
            }
        }
    }

    fn begin_tag(&mut self, c: char) -> Result<(), AllocError>
        requires state { self.old.lexical ≡ TagOpen }
        requires steady { Steady self.old }
        requires room { machine.has_room self.old.arena.cap (machine_of self.old) ≡ true }
        requires letter { classes.is_letter c ≡ true }
        ensures tag { OnOk result (machine_of self.new
            ≡ machine.begin_tag (machine_of self.old) c) }
        ensures kept { OnOk result (tree_construction_of self.new ≡ tree_construction_of self.old) }
        ensures cap { OnOk result (self.new.arena.cap ≡ self.old.arena.cap) }
        ensures steady { OnOk result (Steady self.new) }
    {
        self.tag.clear();
        self.tag.push(lower(c) as u8)?;
        self.attributes = Attributes::new(self.alloc);
        self.room -= 1;
        self.lexical = Lexical::TagName;
        Ok(())
    }

    fn tag_open(&mut self, c: char) -> Result<bool, AllocError>
        requires state { self.old.lexical ≡ TagOpen }
        requires steady { Steady self.old }
        ensures went { IfOk result (λ went. Steps went c self.old self.new) }
        ensures cap { OnOk result (self.new.arena.cap ≡ self.old.arena.cap) }
        ensures steady { OnOk result (Steady self.new) }
    {
        if c == '/' {
            if !self.is_some_open() {
                return Ok(false);
            }
            self.lexical = Lexical::EndTagName(0);
            return Ok(true);
        }
        if !self.has_room() {
            return Ok(false);
        }
        if c == '!' {
            self.lexical = Lexical::MarkupDeclaration;
            return Ok(true);
        }
        if !is_letter(c) {
            return Ok(false);
        }
        self.begin_tag(c)?;
        Ok(true)
    }

    fn markup_declaration(&mut self, c: char) -> bool
        requires state { self.old.lexical ≡ MarkupDeclaration }
        requires steady { Steady self.old }
        ensures went { Steps result c self.old self.new }
        ensures cap { self.new.arena.cap ≡ self.old.arena.cap }
        ensures steady { Steady self.new }
    {
        if c != '-' {
            return false;
        }
        self.lexical = Lexical::CommentStart;
        true
    }

    fn comment_start(&mut self, c: char) -> bool
        requires state { self.old.lexical ≡ CommentStart }
        requires steady { Steady self.old }
        ensures went { Steps result c self.old self.new }
        ensures cap { self.new.arena.cap ≡ self.old.arena.cap }
        ensures steady { Steady self.new }
    {
        if c != '-' {
            return false;
        }
        self.text.clear();
        self.lexical = Lexical::InComment(Dashes::NoDash);
        true
    }

    fn end_comment(&mut self) -> Result<(), AllocError>
        requires state { self.old.lexical ≡ InComment Dashes.TwoDashes }
        requires steady { Steady self.old }
        ensures leaf { OnOk result (machine_of self.new
            ≡ machine.quiet
            (machine.after_leaf (machine_of self.old)
            (machine.CommentEvent self.old.text.items))) }
        ensures constructed { OnOk result (tree_construction_of self.new
            ≡ construct (machine.CommentEvent self.old.text.items)
            (tree_construction_of self.old)) }
        ensures cap { OnOk result (self.new.arena.cap ≡ self.old.arena.cap) }
        ensures steady { OnOk result (Steady self.new) }
    {
        let text = Chars::from_slice(self.alloc, &self.text)?;
        let parent = self.innermost();
        append_remark(&mut self.arena, parent, text)?;
        self.lexical = Lexical::Data;
        Ok(())
    }

    // A dash in a comment: the last two are kept back.
    fn comment_dash(&mut self, dashes: Dashes) -> Result<(), AllocError>
        requires state { self.old.lexical ≡ InComment dashes }
        requires steady { Steady self.old }
        ensures dash { OnOk result (machine_of self.new
            ≡ machine.at (machine_of self.old)
            (machine.dash self.old.text.items (dashes_of dashes))) }
        ensures kept { OnOk result (tree_construction_of self.new ≡ tree_construction_of self.old) }
        ensures cap { OnOk result (self.new.arena.cap ≡ self.old.arena.cap) }
        ensures steady { OnOk result (Steady self.new) }
    {
        match dashes {
            Dashes::NoDash => self.lexical = Lexical::InComment(Dashes::OneDash),
            Dashes::OneDash => self.lexical = Lexical::InComment(Dashes::TwoDashes),
            Dashes::TwoDashes => self.text.push('-')?,
        }
        Ok(())
    }

    // Another character in a comment, before which the dashes are text.
    fn comment_char(&mut self, dashes: Dashes, c: char) -> Result<(), AllocError>
        requires state { self.old.lexical ≡ InComment dashes }
        requires steady { Steady self.old }
        ensures text { OnOk result (machine_of self.new
            ≡ machine.at (machine_of self.old)
            (machine.InComment (self.old.text.items
            ++ (machine.dashes (dashes_of dashes) ++ c ∷ []))
            machine.NoDash)) }
        ensures kept { OnOk result (tree_construction_of self.new ≡ tree_construction_of self.old) }
        ensures cap { OnOk result (self.new.arena.cap ≡ self.old.arena.cap) }
        ensures steady { OnOk result (Steady self.new) }
    {
        match dashes {
            Dashes::NoDash => {}
            Dashes::OneDash => self.text.push('-')?,
            Dashes::TwoDashes => {
                self.text.push('-')?;
                self.text.push('-')?;
            }
        }
        self.text.push(c)?;
        self.lexical = Lexical::InComment(Dashes::NoDash);
        Ok(())
    }

    fn in_comment(&mut self, dashes: Dashes, c: char) -> Result<(), AllocError>
        requires state { self.old.lexical ≡ InComment dashes }
        requires steady { Steady self.old }
        ensures went { OnOk result (Steps true c self.old self.new) }
        ensures cap { OnOk result (self.new.arena.cap ≡ self.old.arena.cap) }
        ensures steady { OnOk result (Steady self.new) }
    {
        if c == '-' {
            return self.comment_dash(dashes);
        }
        if let Dashes::TwoDashes = dashes {
            if c == '>' {
                return self.end_comment();
            }
        }
        self.comment_char(dashes, c)
    }

    // The innermost open element ends.
    fn close_element(&mut self)
        requires steady { Steady self.old }
        requires closing { is_closing self.old.lexical ≡ true }
        ensures went { Goes (Some (machine.after_end (machine_of self.old))) self.old self.new }
        ensures cap { self.new.arena.cap ≡ self.old.arena.cap }
        ensures steady { Steady self.new }
    {
        if let Some(_) = self.opened.pop() {
            self.room += 1;
            self.lexical = Lexical::Data;
        }
    }

    // The name of an end tag is whole.
    fn after_end_tag_name(&mut self, c: char) -> bool
        requires state { self.old.lexical ≡ AfterEndTagName }
        requires steady { Steady self.old }
        ensures went { Steps result c self.old self.new }
        ensures cap { self.new.arena.cap ≡ self.old.arena.cap }
        ensures steady { Steady self.new }
    {
        if is_space(c) {
            return true;
        }
        if c != '>' {
            return false;
        }
        self.close_element();
        true
    }

    // What the name of the innermost open element has at a place.
    fn name_at(&self, place: usize) -> Option<u8>
        ensures left { LeavesAt result place (first_or_empty (names_of self.now.opened.items)) }
        ensures small { IsSome result → place + 1 < 2 ^ 64 }
    {
        match self.opened.last() {
            Some(open) => byte_at(&open.name, place),
            None => None,
        }
    }

    fn end_tag_name(&mut self, read: usize, c: char) -> bool
        requires state { self.old.lexical ≡ EndTagName read }
        requires steady { Steady self.old }
        ensures went { Steps result c self.old self.new }
        ensures cap { self.new.arena.cap ≡ self.old.arena.cap }
        ensures steady { Steady self.new }
    {
        if let Some(byte) = self.name_at(read) {
            if lower(c) != byte as char {
                return false;
            }
            self.lexical = Lexical::EndTagName(read + 1);
            return true;
        }
        if is_space(c) {
            self.lexical = Lexical::AfterEndTagName;
            return true;
        }
        if c != '>' {
            return false;
        }
        self.close_element();
        true
    }

    /// The next character. False where no page goes on so; then the scanner is as before.
    pub(crate) fn feed(&mut self, c: char) -> Result<bool, AllocError>
        requires steady { Steady self.old }
        ensures went { IfOk result (λ went. Steps went c self.old self.new) }
        ensures cap { OnOk result (self.new.arena.cap ≡ self.old.arena.cap) }
        ensures steady { OnOk result (Steady self.new) }
    {
        match self.lexical {
            Lexical::Data => self.in_data(c),
            Lexical::InText => self.in_text(c),
            Lexical::TextReference(reference) => self.in_text_reference(reference, c),
            Lexical::InComment(dashes) => {
                self.in_comment(dashes, c)?;
                Ok(true)
            }
            Lexical::InAttributeValue(quote) => {
                self.in_attribute_value(quote, c)?;
                Ok(true)
            }
            Lexical::ValueReference(quote, reference) => {
                self.in_value_reference(quote, reference, c)
            }
            Lexical::TagOpen => self.tag_open(c),
            Lexical::MarkupDeclaration => Ok(self.markup_declaration(c)),
            Lexical::CommentStart => Ok(self.comment_start(c)),
            Lexical::EndTagName(read) => Ok(self.end_tag_name(read, c)),
            Lexical::AfterEndTagName => Ok(self.after_end_tag_name(c)),
            Lexical::TagName => self.tag_name(c),
            Lexical::BeforeAttributeName => self.before_attribute_name(c),
            Lexical::AttributeName => self.attribute_name(c),
            Lexical::AfterAttributeName => self.after_attribute_name(c),
            Lexical::BeforeAttributeValue => Ok(self.before_attribute_value(c)),
            Lexical::AfterAttributeValue => self.after_attribute_value(c),
            Lexical::SelfClosing => self.self_closing(c),
        }
    }

    /// Whether a character past ASCII may stand here.
    pub(crate) fn takes_wide(&self) -> bool
        ensures { result ≡ takes_wide self.now.arena.cap (machine_of self.now) }
    {
        match self.lexical {
            Lexical::Data => self.has_room(),
            Lexical::InText
            | Lexical::InComment(_)
            | Lexical::BeforeAttributeName
            | Lexical::AttributeName
            | Lexical::AfterAttributeName
            | Lexical::InAttributeValue(_) => true,
            _ => false,
        }
    }

    // Whether the byte makes a node certain.
    fn begins_node(&self, byte: u8) -> bool
        ensures { result ≡ kinds.begins_node (machine_of self.now).lex (machine_of self.now) byte }
    {
        match self.lexical {
            Lexical::Data => byte != b'<' || !self.is_some_open(),
            Lexical::InText => byte == b'<' && !self.is_some_open(),
            Lexical::TagOpen => byte == b'!' || is_letter(byte as char),
            _ => false,
        }
    }

    fn misplaced(&self, byte: u8) -> Result<PageKind, AllocError>
        requires { Steady self.now }
        ensures { IfOk result (λ kind. kind_of kind
            ≡ Some (kinds.misplaced (machine_of self.now).lex byte)) }
    {
        Ok(match self.lexical {
            Lexical::TagName if is_refused(&self.tag) => PageKind::UnsupportedElement,
            Lexical::AttributeName if self.is_repeated()? => PageKind::RepeatedAttribute,
            Lexical::TextReference(_) | Lexical::ValueReference(_, _) => {
                PageKind::UnknownReference
            }
            Lexical::EndTagName(_) | Lexical::AfterEndTagName => PageKind::StrayEnd,
            Lexical::TagOpen if byte == b'/' => PageKind::StrayEnd,
            Lexical::TagOpen | Lexical::MarkupDeclaration | Lexical::CommentStart => {
                PageKind::BadTag
            }
            _ => PageKind::BadAttribute,
        })
    }

    /// Why this byte can't be the next one.
    pub(crate) fn kind_at(&self, byte: u8) -> Result<PageKind, AllocError>
        requires { Steady self.now }
        ensures { IfOk result (λ kind. kind_of kind
            ≡ Some (kinds.kind_at (machine_of self.now) byte)) }
    {
        if !self.begins_node(byte) {
            return self.misplaced(byte);
        }
        if 0 < self.room {
            Ok(PageKind::Full)
        } else {
            Ok(PageKind::TooDeep)
        }
    }

    /// The characters have ended: the tree of the page, if they are one.
    #[tactic(auto, using(crate::proofs::EndLemmas::none_open, crate::proofs::EndLemmas::still_open))]
    pub(crate) fn finish(mut self) -> Result<Option<Arena>, AllocError>
        requires { Steady self }
        ensures { IfOk result (λ end.
            Ends end self.arena.cap (machine_of self) (tree_construction_of self)) }
    {
        match self.lexical {
            Lexical::Data => {
                if self.is_some_open() {
                    return Ok(None);
                }
                Ok(Some(self.arena))
            }
            Lexical::InText => {
                if self.is_some_open() {
                    return Ok(None);
                }
                self.end_text()?;
                Ok(Some(self.arena))
            }
            _ => Ok(None),
        }
    }
}
