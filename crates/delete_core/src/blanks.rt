//! Characters of texts beside a point, and blanks among them.

ghost use Rattle.std.specs.Prelude.{◌≡◌, ◌<◌, IfSome, Some};
ghost use Rattle.edit_model.specs.DomModel.Forest.{count_of};
ghost use Rattle.edit_model.specs.Gives.{label_of};
ghost use Rattle.inline_value.specs.EditDoc.Held.{Holds, IfHeld};
ghost use Rattle.delete_core.specs.Whitespace.{text_of, char_at, char_before, keeps_blanks, is_collapsing, blank_in, blank_at, blank_before, starts_line, ends_line};

use crate::spaces::is_blank;
use edit_model::boundary::node_of;
use edit_model::dom::Content;
use inline_value::css::WhiteSpace;
use inline_value::doc::{Doc, NodeRef, Point};
use inline_value::questions::{follows_break, precedes_break};
use inline_value::styles::white_space;

// The characters of a text; another node has none.
#[tactic(auto, unfolding(crate::specs::Whitespace::text_of))]
fn text_of(doc: &Doc, node: NodeRef) -> &[char]
    requires { Holds doc.now node }
    ensures { result.now ≡ text_of doc.now.state.trees node.label }
{
    match doc.content(node) {
        Content::Words(chars) => chars.as_slice(),
        _ => &[],
    }
}

/// The character at a point of a text.
#[tactic(auto, using(crate::proofs::Absent::absent), unfolding(crate::specs::Whitespace::char_at))]
pub(crate) fn char_at(doc: &Doc, at: Point) -> Option<char>
    ensures gives { result ≡ char_at doc.now.state.trees at }
    ensures there { IfSome result (λ _. 0 < count_of doc.now.state.trees at.label) }
{
    let node = doc.find(at.label)?;
    text_of(doc, node).get(at.offset as usize).copied()
}

// The character before a point of a text.
#[tactic(auto, using(crate::proofs::Absent::absent), unfolding(crate::specs::Whitespace::char_before))]
fn char_before(doc: &Doc, at: Point) -> Option<char>
    ensures gives { result ≡ char_before doc.now.state.trees at }
    ensures there { IfSome result (λ _. 0 < count_of doc.now.state.trees at.label) }
    ensures some { IfSome result (λ _. 0 < at.offset) }
{
    if at.offset == 0 {
        return None;
    }
    let node = doc.find(at.label)?;
    text_of(doc, node).get(at.offset as usize - 1).copied()
}

fn keeps_blanks(white_space: WhiteSpace) -> bool
    ensures { result ≡ keeps_blanks white_space }
{
    matches!(white_space, WhiteSpace::Pre | WhiteSpace::PreWrap)
}

// Whether blanks under this parent are made canonical.
#[tactic(auto, unfolding(crate::specs::Whitespace::is_collapsing))]
fn is_collapsing(doc: &Doc, parent: Option<NodeRef>) -> bool
    requires { IfHeld doc.now parent }
    ensures { result ≡ is_collapsing doc.now.state.trees (label_of parent) }
{
    match parent {
        Some(parent) => !keeps_blanks(white_space(doc, parent)),
        None => false,
    }
}

// The character of a text, where it is a blank that is made canonical.
fn blank_in(doc: &Doc, node: NodeRef, character: char) -> Option<char>
    requires { Holds doc.now node }
    ensures { result ≡ blank_in doc.now.state.trees node.label (Some character) }
{
    if is_blank(character) && is_collapsing(doc, doc.parent(node)) {
        Some(character)
    } else {
        None
    }
}

/// The blank at a point.
#[tactic(auto, unfolding(crate::specs::Whitespace::blank_at))]
pub(crate) fn blank_at(doc: &Doc, at: Point) -> Option<char>
    ensures gives { result ≡ blank_at doc.now.state.trees at }
    ensures there { IfSome result (λ _. 0 < count_of doc.now.state.trees at.label) }
{
    let character = char_at(doc, at)?;
    blank_in(doc, node_of(doc, at), character)
}

/// The blank before a point.
#[tactic(auto, unfolding(crate::specs::Whitespace::blank_before))]
pub(crate) fn blank_before(doc: &Doc, at: Point) -> Option<char>
    ensures gives { result ≡ blank_before doc.now.state.trees at }
    ensures there { IfSome result (λ _. 0 < count_of doc.now.state.trees at.label) }
    ensures some { IfSome result (λ _. 0 < at.offset) }
{
    let character = char_before(doc, at)?;
    blank_in(doc, node_of(doc, at), character)
}

/// Whether a point is the start of a node that follows a line break.
#[tactic(auto, using(crate::proofs::Absent::absent), unfolding(crate::specs::Whitespace::starts_line))]
pub(crate) fn starts_line(doc: &Doc, at: Point) -> bool
    ensures { result ≡ starts_line doc.now.state.trees at }
{
    match doc.find(at.label) {
        Some(node) => at.offset == 0 && follows_break(doc, node),
        None => false,
    }
}

/// Whether a point is the end of a node that precedes a line break.
#[tactic(auto, using(crate::proofs::Absent::absent), unfolding(crate::specs::Whitespace::ends_line))]
pub(crate) fn ends_line(doc: &Doc, at: Point) -> bool
    ensures { result ≡ ends_line doc.now.state.trees at }
{
    match doc.find(at.label) {
        Some(node) => at.offset == doc.length(node) && precedes_break(doc, node),
        None => false,
    }
}
