//! What is printed of a document.

ghost use Rattle.std.specs.Prelude.{◌≡◌, ◌++◌, IfOk, codes, string_bytes, length};
ghost use Rattle.page_write.specs.Html.{document_html};
ghost use Rattle.page_write.specs.Listing.{document_lines};
ghost use Rattle.page_write.specs.PointLines.{point_lines};
ghost use Rattle.edit_model.specs.DomModel.Document.{node_count, char_count};
ghost use Rattle.inline_value.specs.EditDoc.Whole.{IsClosed, first_edits};
ghost use Rattle.edit_engine.specs.Views.{document_numbers, history_numbers};

use inline_value::doc::Doc;
use page_write::{write_html, write_points, write_tree};
use std::alloc::{AllocError, Global};

/// The HTML of the document, and a line feed.
pub(crate) fn html_line(alloc: Global, doc: &Doc) -> Result<Vec<u8>, AllocError>
    requires { IsClosed doc.now }
    ensures { IfOk result (λ text. text.items ≡ document_html doc.now.state.trees ++ codes "\n") }
{
    doc.valid();
    let arena = doc.arena();
    arena.valid();
    let mut text = write_html(alloc, arena)?;
    text.push(b'\n')?;
    Ok(text)
}

pub(crate) fn tree_lines(alloc: Global, doc: &Doc) -> Result<Vec<u8>, AllocError>
    requires { IsClosed doc.now }
    ensures { IfOk result (λ text. text.items ≡ document_lines doc.now.state.trees) }
{
    doc.valid();
    let arena = doc.arena();
    arena.valid();
    write_tree(alloc, arena)
}

pub(crate) fn points_lines(alloc: Global, doc: &Doc) -> Result<Vec<u8>, AllocError>
    requires { IsClosed doc.now }
    ensures { IfOk result (λ text. text.items
        ≡ point_lines doc.now.state.trees doc.now.state.points) }
{
    doc.valid();
    let arena = doc.arena();
    arena.valid();
    write_points(alloc, arena, doc.points())
}

fn document_numbers(alloc: Global, nodes: u32, chars: u64, next: u32) -> Result<String, AllocError>
    ensures { IfOk result (λ text. string_bytes text ≡ document_numbers nodes chars next) }
{
    format!(in alloc; "nodes {nodes} chars {chars} next {next}")
}

fn history_numbers(
    alloc: Global,
    edits: usize,
    undo: usize,
    redo: usize,
) -> Result<String, AllocError>
    ensures { IfOk result (λ text. string_bytes text ≡ history_numbers edits undo redo) }
{
    format!(in alloc; " edits {edits} undo {undo} redo {redo}\n")
}

/// The numbers of the document and of the history.
pub(crate) fn stat_line(alloc: Global, doc: &Doc) -> Result<Vec<u8>, AllocError>
    requires { IsClosed doc.now }
    ensures { IfOk result (λ text. text.items ≡
        document_numbers (node_count doc.now.state.trees) (char_count doc.now.state.trees)
        doc.now.state.next
        ++ history_numbers (first_edits doc.now.history.undo)
        (length doc.now.history.undo) (length doc.now.history.redo)) }
{
    let counts = doc.counts();
    let next = doc.arena().next_label();
    let first = document_numbers(alloc, counts.nodes, counts.chars, next)?;
    let second = history_numbers(alloc, doc.edits(), doc.undo_len(), doc.redo_len())?;
    let mut text = first.into_bytes();
    text.extend_from_slice(second.as_bytes())?;
    Ok(text)
}
