//! Calls that answer, and change nothing.

ghost use Rattle.std.specs.Prelude.{◌≡◌};
ghost use Rattle.hedit_c.specs.Calls.{ReplyTells, QueryTells, ViewTells, query_kind, view_kind};

use super::status::Status;
use super::texts::{put, put_chars};
use edit_engine::{Editor, Reply, ViewKind};
use edit_model::element_names::QueryKind;
use std::alloc::Global;

// The question that a number names.
fn query_kind(number: u32) -> Option<QueryKind>
    ensures { result ≡ query_kind number }
{
    match number {
        0 => Some(QueryKind::Supported),
        1 => Some(QueryKind::Enabled),
        2 => Some(QueryKind::Indeterm),
        3 => Some(QueryKind::State),
        4 => Some(QueryKind::Value),
        _ => None,
    }
}

// What is printed that a number names.
fn view_kind(number: u32) -> Option<ViewKind>
    ensures { result ≡ view_kind number }
{
    match number {
        0 => Some(ViewKind::Html),
        1 => Some(ViewKind::Tree),
        2 => Some(ViewKind::Points),
        3 => Some(ViewKind::Stat),
        _ => None,
    }
}

// Answers with a reply: a flag, or a text in UTF-8 in the buffer.
fn answer(
    alloc: Global,
    reply: &Reply,
    flag: &mut u32,
    buffer: &mut [u8],
    length: &mut usize,
) -> Status
    ensures { ReplyTells result reply.now flag.new buffer.old buffer.new length.new }
{
    *flag = 0;
    *length = 0;
    match reply {
        Reply::Flag(is_so) => {
            *flag = *is_so as u32;
            Status::Done
        }
        Reply::Wording(wording) => put_chars(alloc, wording.as_slice(), buffer, length),
    }
}

/// Asks a question about the command that a name names, in any case.
pub(crate) fn query(
    alloc: Global,
    editor: &Editor,
    kind: u32,
    name: &[u8],
    flag: &mut u32,
    buffer: &mut [u8],
    length: &mut usize,
) -> Status
    ensures { QueryTells result editor.now.editing kind name.now flag.new
        buffer.old buffer.new length.new }
{
    let (Some(kind), Ok(name)) = (query_kind(kind), str::from_utf8(name)) else {
        return Status::BadArgument;
    };
    match editor.query(alloc, kind, name) {
        Ok(reply) => answer(alloc, &reply, flag, buffer, length),
        Err(_) => Status::Memory,
    }
}

/// Puts what is printed of the editor into a buffer.
pub(crate) fn view(
    alloc: Global,
    editor: &Editor,
    kind: u32,
    buffer: &mut [u8],
    length: &mut usize,
) -> Status
    ensures { ViewTells result editor.now.editing kind buffer.old buffer.new length.new }
{
    let Some(kind) = view_kind(kind) else {
        return Status::BadArgument;
    };
    match editor.view(alloc, &kind) {
        Ok(text) => put(&text, buffer, length),
        Err(_) => Status::Memory,
    }
}
