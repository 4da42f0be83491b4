//! Why bytes are no page.

ghost use Rattle.std.specs.Prelude.{◌≡◌};
ghost use Rattle.page_read.specs.Faults.{kind_word, fault_of_memory};

use std::alloc::AllocError;
use std::error::Error;
use std::fmt;

/// Why bytes are no page. At one place the kind that stands first in the order `TooLong`,
/// `Unclosed`, `NotUtf8`, `TooDeep`, `Full`, `UnsupportedElement`, `RepeatedAttribute`,
/// `UnknownReference`, `StrayEnd`, `BadAttribute`, `BadTag` is given.
#[derive(Drop, Clone, Copy, PartialEq, Eq, Debug)]
pub enum PageKind {
    /// The byte can't continue UTF-8 text.
    NotUtf8 = 1,
    /// The byte stands after `<`, where no other kind fits.
    BadTag = 2,
    /// The bytes begin a page, and are none.
    Unclosed = 3,
    /// The byte stands after `</`, or is the `/` of `</` where no element is open.
    StrayEnd = 4,
    /// The byte stands after the name in a start tag.
    BadAttribute = 5,
    /// The byte ends an attribute's name that the tag already has.
    RepeatedAttribute = 6,
    /// The byte stands inside a reference.
    UnknownReference = 7,
    /// The byte ends the name of an element that a page may not have.
    UnsupportedElement = 8,
    /// The byte makes certain a node below the 200th level.
    TooDeep = 9,
    /// There are more than 4,194,304 bytes.
    TooLong = 10,
    /// The byte makes certain a node whose label is the cap.
    Full = 11,
    /// There was no memory.
    Memory = 12,
}

/// Why bytes are no page, and after how many bytes that is certain. For `Memory` the place is 0.
#[derive(Drop, Clone, Copy, PartialEq, Eq, Debug)]
pub struct PageFault {
    pub at: usize,
    pub kind: PageKind,
}

impl fmt::Display for PageKind {
    fn fmt<W: fmt::Write>(&self, f: &mut fmt::Formatter<W>) -> fmt::Result {
        f.write_str(match self {
            PageKind::NotUtf8 => "the text is not UTF-8",
            PageKind::BadTag => "the tag is malformed",
            PageKind::Unclosed => "the page ends too early",
            PageKind::StrayEnd => "no open element has this end tag",
            PageKind::BadAttribute => "the attributes are malformed",
            PageKind::RepeatedAttribute => "the tag has this attribute already",
            PageKind::UnknownReference => "the character reference is unknown",
            PageKind::UnsupportedElement => "a page may not have this element",
            PageKind::TooDeep => "the document would be too deep",
            PageKind::TooLong => "the page is too long",
            PageKind::Full => "no label is left below the cap",
            PageKind::Memory => "out of memory",
        })
    }
}

impl fmt::Display for PageFault {
    fn fmt<W: fmt::Write>(&self, f: &mut fmt::Formatter<W>) -> fmt::Result {
        match self.kind {
            PageKind::Memory => write!(f, "{}", self.kind),
            _ => write!(f, "byte {}: {}", self.at, self.kind),
        }
    }
}

impl Error for PageFault {}

impl PageKind {
    /// The word that is printed for a kind.
    pub fn word(self) -> &'static str
        ensures { result.now ≡ kind_word self }
    {
        match self {
            PageKind::NotUtf8 => "not-utf8",
            PageKind::BadTag => "bad-tag",
            PageKind::Unclosed => "unclosed",
            PageKind::StrayEnd => "stray-end",
            PageKind::BadAttribute => "bad-attribute",
            PageKind::RepeatedAttribute => "repeated-attribute",
            PageKind::UnknownReference => "unknown-reference",
            PageKind::UnsupportedElement => "unsupported-element",
            PageKind::TooDeep => "too-deep",
            PageKind::TooLong => "too-long",
            PageKind::Full => "full",
            PageKind::Memory => "memory",
        }
    }
}

impl From<AllocError> for PageFault {
    ghost use Rattle.std.specs.Prelude.{◌≡◌};
    ghost use Rattle.page_read.specs.Faults.{fault_of_memory};

    ghost from_gives = { λ _ fault. fault ≡ fault_of_memory };

    fn from(_: AllocError) -> PageFault {
        PageFault {
            at: 0,
            kind: PageKind::Memory,
        }
    }
}
