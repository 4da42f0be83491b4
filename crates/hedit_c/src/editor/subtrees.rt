//! What C reads of a node with all that stands below it, by its label, and of what is selected.

ghost use Rattle.std.specs.Prelude.{◌≡◌, IfOk, map};
ghost use Rattle.std.specs.Str.{chars};
ghost use Rattle.node_texts.specs.NodeHtml.{node_html};
ghost use Rattle.node_texts.specs.Occurrences.{found_in};
ghost use Rattle.hedit_c.specs.Subtrees.{SubtreeTells, FindTells, SelectedTells, plain_bytes, point_facts, html_selected, text_selected};
ghost use Rattle.hedit_c.specs.Calls.{PutsUnlessMemory};

use super::status::Status;
use super::texts::{put, put_chars};
use edit_engine::{Editor, ViewFault};
use edit_model::dom::Chars;
use inline_value::doc::Point;
use std::alloc::{AllocError, Global};

/// A point: the label of a node, and an offset in it.
#[repr(C)]
#[derive(Clone, Copy)]
pub struct PointFacts {
    pub label: u32,
    pub offset: u32,
}

/// The HTML of a node.
pub(crate) fn node_html(
    alloc: Global,
    editor: &Editor,
    label: u32,
    buffer: &mut [u8],
    length: &mut usize,
) -> Status
    ensures { SubtreeTells node_html result editor.now.editing label
        buffer.old buffer.new length.new }
{
    match editor.node_html(alloc, label) {
        Ok(html) => put(&html, buffer, length),
        Err(ViewFault::BadPlace) => Status::BadPlace,
        Err(ViewFault::Memory) => Status::Memory,
    }
}

/// The plain text of a node.
pub(crate) fn node_text(
    alloc: Global,
    editor: &Editor,
    label: u32,
    buffer: &mut [u8],
    length: &mut usize,
) -> Status
    ensures { SubtreeTells plain_bytes result editor.now.editing label
        buffer.old buffer.new length.new }
{
    match editor.node_text(alloc, label) {
        Ok(text) => put_chars(alloc, &text, buffer, length),
        Err(ViewFault::BadPlace) => Status::BadPlace,
        Err(ViewFault::Memory) => Status::Memory,
    }
}

fn all_facts(alloc: Global, points: &[Point]) -> Result<Vec<PointFacts>, AllocError>
    ensures { IfOk result (λ facts. facts.items ≡ map point_facts points.now) }
{
    points
        .iter()
        .map(|point| PointFacts {
            label: point.label,
            offset: point.offset,
        })
        .collect(alloc)
}

fn put_points(
    alloc: Global,
    points: &[Point],
    buffer: &mut [PointFacts],
    count: &mut usize,
) -> Status
    ensures { PutsUnlessMemory result (map point_facts points.now) buffer.old buffer.new count.new }
{
    match all_facts(alloc, points) {
        Ok(facts) => put(&facts, buffer, count),
        Err(_) => Status::Memory,
    }
}

/// The points at which the characters of a text in UTF-8 occur in a node.
pub(crate) fn find(
    alloc: Global,
    editor: &Editor,
    label: u32,
    text: &[u8],
    buffer: &mut [PointFacts],
    count: &mut usize,
) -> Status
    ensures { FindTells result editor.now.editing label text.now buffer.old buffer.new count.new }
{
    let Ok(text) = str::from_utf8(text) else {
        return Status::BadArgument;
    };
    let Ok(wanted) = Chars::from_text(alloc, text) else {
        return Status::Memory;
    };
    match editor.find(alloc, label, wanted.as_slice()) {
        Ok(points) => put_points(alloc, &points, buffer, count),
        Err(ViewFault::BadPlace) => Status::BadPlace,
        Err(ViewFault::Memory) => Status::Memory,
    }
}

/// The HTML of what is selected.
#[tactic(auto, unfolding(crate::specs::Below::selected_html))]
pub(crate) fn selection_html(
    alloc: Global,
    editor: &Editor,
    buffer: &mut [u8],
    length: &mut usize,
) -> Status
    ensures { SelectedTells html_selected result editor.now.editing
        buffer.old buffer.new length.new }
{
    match editor.selection_html(alloc) {
        Ok(Some(html)) => put(&html, buffer, length),
        Ok(None) => Status::No,
        Err(_) => Status::Memory,
    }
}

/// The plain text of what is selected.
#[tactic(auto, unfolding(crate::specs::Below::selected_text))]
pub(crate) fn selection_text(
    alloc: Global,
    editor: &Editor,
    buffer: &mut [u8],
    length: &mut usize,
) -> Status
    ensures { SelectedTells text_selected result editor.now.editing
        buffer.old buffer.new length.new }
{
    match editor.selection_text(alloc) {
        Ok(Some(text)) => put_chars(alloc, &text, buffer, length),
        Ok(None) => Status::No,
        Err(_) => Status::Memory,
    }
}
