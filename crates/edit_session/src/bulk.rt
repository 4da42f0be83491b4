//! The session that `bulk` makes from a number.

ghost use Rattle.std.specs.Prelude.{◌≡◌, ◌++◌, IfOk, OnOk, string_bytes};
ghost use Rattle.edit_session.specs.Bulk.{item_text, paragraph, paragraphs, bulk_page, select_text, select_line, bulk_acts, bulk_text};

use std::alloc::{AllocError, Global};

fn item_text(alloc: Global, number: u32) -> Result<String, AllocError>
    ensures { IfOk result (λ text. string_bytes text ≡ item_text number) }
{
    format!(in alloc; "item {number}")
}

fn push_paragraph(alloc: Global, bytes: &mut Vec<u8>, number: u32) -> Result<(), AllocError>
    ensures { OnOk result (bytes.new.items ≡ bytes.old.items ++ paragraph number) }
{
    bytes.extend_from_slice(b"<p>")?;
    bytes.extend_from_slice(item_text(alloc, number)?.as_bytes())?;
    bytes.extend_from_slice(b"</p>")
}

fn push_paragraphs(alloc: Global, bytes: &mut Vec<u8>, count: u32) -> Result<(), AllocError>
    ensures { OnOk result (bytes.new.items ≡ bytes.old.items ++ paragraphs count) }
{
    let mut number = 0;
    while number < count {
        number += 1;
        push_paragraph(alloc, bytes, number)?;
    }
    Ok(())
}

fn push_page(alloc: Global, bytes: &mut Vec<u8>, count: u32) -> Result<(), AllocError>
    ensures { OnOk result (bytes.new.items ≡ bytes.old.items ++ bulk_page count) }
{
    bytes.extend_from_slice(b"<div contenteditable=\"true\">")?;
    push_paragraphs(alloc, bytes, count)?;
    bytes.extend_from_slice(b"</div>")
}

fn select_text(alloc: Global, last: u32, length: usize) -> Result<String, AllocError>
    ensures { IfOk result (λ text. string_bytes text ≡ select_text last length) }
{
    format!(in alloc; "select 0/0/0:0 0/{last}/0:{length}\n")
}

fn select_line(alloc: Global, count: u32) -> Result<String, AllocError>
    ensures { IfOk result (λ text. string_bytes text ≡ select_line count) }
{
    let item = item_text(alloc, count)?;
    select_text(alloc, count.saturating_sub(1), item.len())
}

fn push_acts(alloc: Global, bytes: &mut Vec<u8>, count: u32) -> Result<(), AllocError>
    ensures { OnOk result (bytes.new.items ≡ bytes.old.items ++ bulk_acts count) }
{
    bytes.extend_from_slice(select_line(alloc, count)?.as_bytes())?;
    bytes.extend_from_slice(
        b"exec bold\nstat\nexec bold\nstat\nexec indent\nstat\nundo 3\nstat\nredo 3\nstat\n",
    )
}

/// The text of a session on a page of so many paragraphs: all of them are selected, made bold and
/// plain again, and indented, and that is taken back and forth again.
#[tactic(auto, unfolding(crate::specs::Bulk::bulk_text))]
pub(crate) fn bulk_text(alloc: Global, count: u32) -> Result<Vec<u8>, AllocError>
    ensures { IfOk result (λ bytes. bytes.items ≡ bulk_text count) }
{
    let mut bytes = b"page <<END\n".to_vec(alloc)?;
    push_page(alloc, &mut bytes, count)?;
    bytes.extend_from_slice(b"\nEND\n")?;
    push_acts(alloc, &mut bytes, count)?;
    Ok(bytes)
}
