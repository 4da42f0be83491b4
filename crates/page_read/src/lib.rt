//! Reads a page into an arena: which bytes stand for which tree, and where and why other bytes are
//! refused.
#![tactic(auto)]

ghost use Rattle.std.specs.Prelude.{◌<◌};
ghost use Rattle.page_grammar.specs.Reading.{page_reading, IsReading};
ghost use Rattle.page_read.specs.Answer.{IsAnswer};

mod construction;
mod decoder;
mod faults;
mod names;
mod reader;
mod reference;
mod scanner;

pub use faults::{PageFault, PageKind};
pub use node_arena as arena;
use node_arena::Arena;
pub use node_arena::{dom, stepping};
use page_grammar::the_reading_is_the_pages;
use reader::Reader;
use std::alloc::Global;

/// How many bytes a page may have.
const LIMIT: usize = 4194304;

/// The tree of a page, whose labels are below the cap.
pub fn read_page(alloc: Global, bytes: &[u8], cap: u32) -> Result<Arena, PageFault>
    requires { 0 < cap }
    ensures answer { IsAnswer cap bytes.now result }
    ensures meaning { IsReading 200 cap bytes.now (page_reading 200 cap bytes.now) }
{
    the_reading_is_the_pages();
    if LIMIT < bytes.len() {
        return Err(PageFault {
            at: LIMIT,
            kind: PageKind::TooLong,
        });
    }
    let mut reader = Reader::new(alloc, cap)?;
    for (at, byte) in bytes.iter().enumerate() {
        if let Some(kind) = reader.read(*byte)? {
            return Err(PageFault { at, kind });
        }
    }
    match reader.finish()? {
        Some(arena) => Ok(arena),
        None => Err(PageFault {
            at: bytes.len(),
            kind: PageKind::Unclosed,
        }),
    }
}
