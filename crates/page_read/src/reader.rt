//! A reader of pages that takes one byte at a time.

ghost use Rattle.std.specs.Prelude.{◌≡◌, ◌<◌, IfOk, OnOk};
ghost use Rattle.page_grammar.specs.Reader as readers;
ghost use Rattle.page_grammar.specs.TreeConstruction.{initial_tree};
ghost use Rattle.page_grammar.specs.Decoder.{decode, Part, Whole};
ghost use Rattle.page_read.specs.Decoding.{IsSoundPending, pending_of};
ghost use Rattle.page_read.specs.Reading.{reader_of, construction_of, Takes, IsHeld, Finishes};

use crate::decoder::{Decoded, Pending, decode};
use crate::faults::PageKind;
use crate::scanner::Scanner;
use node_arena::Arena;
use std::alloc::{AllocError, Global};

/// A page as far as its bytes are read.
#[derive(Drop)]
pub(crate) struct Reader {
    scanner: Scanner,
    /// The character of which some bytes have come.
    pending: Option<Pending>,
}

impl Reader {
    pub(crate) fn new(alloc: Global, cap: u32) -> Result<Reader, AllocError>
        requires { 0 < cap }
        ensures view { IfOk result (λ reader. reader_of reader ≡ readers.begin 200) }
        ensures initial_tree { IfOk result (λ reader. construction_of reader ≡ initial_tree) }
        ensures held { IfOk result (λ reader. IsHeld reader cap) }
    {
        Ok(Reader {
            scanner: Scanner::new(alloc, cap)?,
            pending: None,
        })
    }

    // A byte of a character, after which others come.
    fn read_part(&mut self, pending: Pending, byte: u8) -> Result<Option<PageKind>, AllocError>
        requires held { IsHeld self.old self.old.scanner.arena.cap }
        requires sound { IsSoundPending pending }
        requires decoded { decode (reader_of self.old).part byte ≡ Part (pending_of pending) }
        ensures takes { IfOk result (λ kind. Takes kind byte self.old self.new) }
        ensures held { OnOk result (IsHeld self.new self.old.scanner.arena.cap) }
    {
        if !self.scanner.takes_wide() {
            return Ok(Some(self.scanner.kind_at(byte)?));
        }
        self.pending = Some(pending);
        Ok(None)
    }

    // The last byte of a character.
    fn read_whole(&mut self, c: char, byte: u8) -> Result<Option<PageKind>, AllocError>
        requires held { IsHeld self.old self.old.scanner.arena.cap }
        requires decoded { decode (reader_of self.old).part byte ≡ Whole c }
        ensures takes { IfOk result (λ kind. Takes kind byte self.old self.new) }
        ensures held { OnOk result (IsHeld self.new self.old.scanner.arena.cap) }
    {
        if !self.scanner.feed(c)? {
            return Ok(Some(self.scanner.kind_at(byte)?));
        }
        self.pending = None;
        Ok(None)
    }

    /// The next byte. A kind where no page goes on so.
    pub(crate) fn read(&mut self, byte: u8) -> Result<Option<PageKind>, AllocError>
        requires { IsHeld self.old self.old.scanner.arena.cap }
        ensures takes { IfOk result (λ kind. Takes kind byte self.old self.new) }
        ensures held { OnOk result (IsHeld self.new self.old.scanner.arena.cap) }
    {
        match decode(self.pending, byte) {
            Decoded::Bad => Ok(Some(PageKind::NotUtf8)),
            Decoded::Part(pending) => self.read_part(pending, byte),
            Decoded::Whole(c) => self.read_whole(c, byte),
        }
    }

    /// The bytes have ended: the tree of the page, if they are one.
    pub(crate) fn finish(self) -> Result<Option<Arena>, AllocError>
        requires { IsHeld self self.scanner.arena.cap }
        ensures { IfOk result (λ end.
            Finishes end self.scanner.arena.cap (reader_of self) (construction_of self)) }
    {
        let Reader { scanner, pending } = self;
        if pending.is_some() {
            return Ok(None);
        }
        scanner.finish()
    }
}
