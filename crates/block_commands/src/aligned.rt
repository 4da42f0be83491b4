//! What aligns, and the div that a list is aligned in.

ghost use Rattle.std.specs.Prelude.{◌≡◌, ◌&&◌, ◌++◌, IfOk, IfSome, None, true, false, not, bytes_eq, codes, map, slice_get};
ghost use Rattle.std.specs.Char.{to_ascii_lowercase};
ghost use Rattle.std.specs.List.{list_all};
ghost use Rattle.std.specs.Option.{option_map_or};
ghost use Rattle.edit_model.specs.DomModel.Contents as contents;
ghost use Rattle.inline_value.specs.CssValue.DeclarationList.{declarations_in};
ghost use Rattle.inline_value.specs.CssValue.Values.{text_align_keyword};
ghost use Rattle.inline_value.specs.NodeStyles.OwnStyles.{own_text_align};
ghost use Rattle.edit_model.specs.Gives.{label_of};
ghost use Rattle.inline_value.specs.EditDoc.Held.{Holds};
ghost use Rattle.inline_value.specs.EditQuery.Listed.{is_aligned};
ghost use Rattle.inline_value.specs.WrapSplit.Target as target;
ghost use Rattle.inline_value.specs.WrapSplit.declared.rule.Criterion.TheVariants.{Aligned};
ghost use Rattle.block_commands.specs.Handed.{AlignsBelow, TakesKnown};
ghost use Rattle.block_commands.specs.Justify as justify;

use edit_model::dom::{Attributes, Chars, Content, Name};
use inline_value::css::{Only, TextAlign, find, sets_only};
use inline_value::doc::{Doc, NodeRef};
use inline_value::extend::{Choice, allowed_in_div};
use inline_value::questions::has_name;
use inline_value::styles::{attribute, is_element_named, text_align};
use inline_value::values::alignment;
use inline_value::wrap::{Blank, Meets};
use std::alloc::{AllocError, Global};

// Whether two texts are the same without regard to ASCII case.
fn is_same_in_any_case(text: &[char], other: &[char]) -> bool
    ensures { result
        ≡ bytes_eq (map to_ascii_lowercase text.now) (map to_ascii_lowercase other.now) }
{
    if text.len() != other.len() {
        return false;
    }
    for (i, c) in text.iter().enumerate() {
        if c.to_ascii_lowercase() != other[i].to_ascii_lowercase() {
            return false;
        }
    }
    true
}

// Whether a style sets text-align to this, and nothing else.
fn is_text_align(text: &[char], alignment: &[char]) -> bool
    ensures { result ≡ target.is_text_align alignment.now (declarations_in text.now) }
{
    if !sets_only(text, Only::TextAlign) {
        return false;
    }
    match find(text, b"text-align") {
        Some(value) => value == alignment,
        None => false,
    }
}

// Whether an attribute aligns so, and does nothing else.
#[tactic(auto, unfolding(crate::specs::Below::aligns))]
fn aligns(name: &[u8], value: &[char], alignment: &[char]) -> bool
    ensures { result ≡ target.aligns alignment.now (record { name = name.now; value = value.now }) }
{
    (name == b"align".as_slice() && is_same_in_any_case(value, alignment))
        || (name == b"style".as_slice() && is_text_align(value, alignment))
}

// Whether the attribute at a place aligns so.
fn aligns_at(attributes: &Attributes, place: usize, alignment: &[char]) -> bool
    ensures { result
        ≡ option_map_or (target.aligns alignment.now) (slice_get attributes.now place) false }
{
    match attributes.at(place) {
        Some((name, value)) => aligns(name, value.as_slice(), alignment),
        None => false,
    }
}

// Whether each attribute aligns so.
#[tactic(auto, using(crate::proofs::Matching::passes_at, crate::proofs::Matching::fails_at, crate::proofs::Matching::all_end))]
fn all_align(attributes: &Attributes, alignment: &[char]) -> bool
    ensures { result ≡ list_all (target.aligns alignment.now) attributes.now }
{
    for place in 0..attributes.len() {
        if !aligns_at(attributes, place, alignment) {
            return false;
        }
    }
    true
}

/// A div fits that does nothing but align so.
#[derive(Drop)]
pub struct AlignedSibling {
    pub alignment: Chars,
}

impl Meets for AlignedSibling {
    ghost criterion = { λ s. Aligned s.alignment };

    #[tactic(auto, unfolding(crate::specs::Below::meets, crate::specs::Below::is_aligned))]
    fn meets(&self, doc: &Doc, node: NodeRef) -> bool {
        match doc.content(node) {
            Content::Element {
                name: _,
                attributes,
            } => {
                has_name(doc, node, b"div")
                    && attributes.len() != 0
                    && all_align(attributes, self.alignment.as_slice())
            }
            _ => false,
        }
    }
}

/// Whether a node is a center, which is an element.
pub(crate) fn is_center(doc: &Doc, node: NodeRef) -> bool
    requires { Holds doc.now node }
    ensures center { result ≡ contents.has_name doc.now.state.trees node.label (codes "center") }
    ensures element { result ≡ true → contents.is_element_at doc.now.state.trees node.label ≡ true }
{
    match doc.content(node) {
        Content::Element {
            name,
            attributes: _,
        } => name.as_slice() == b"center".as_slice(),
        _ => false,
    }
}

// Whether attributes align what is in an element: an align, or a style that declares text-align.
fn has_alignment(attributes: &Attributes) -> bool
    ensures { result ≡ justify.has_alignment attributes.now }
{
    if attributes.get(b"align").is_some() {
        return true;
    }
    match attributes.get(b"style") {
        Some(text) => find(text.as_slice(), b"text-align").is_some(),
        None => false,
    }
}

/// Justify, step 1: the elements that give up their alignment.
#[derive(Clone, Copy)]
pub(crate) struct Aligning;

impl Choice<Doc> for Aligning {
    ghost use Rattle.block_commands.specs.Justify.{is_aligning};

    ghost chosen = { λ s d l. is_aligning d.state l };

    #[tactic(auto, unfolding(crate::specs::Justify::is_aligning))]
    fn chooses(&self, doc: &Doc, node: NodeRef) -> bool {
        match doc.content(node) {
            Content::Element {
                name: _,
                attributes,
            } => {
                (has_alignment(attributes) || is_center(doc, node)) && doc.is_editable_for(node)
            }
            _ => false,
        }
    }
}

// Whether a node gives itself no alignment. Others may give themselves none either.
#[tactic(auto, using(crate::proofs::Handing::none_given))]
fn takes_alignment(content: &Content) -> bool
    ensures { result ≡ true → own_text_align content.now ≡ None }
{
    attribute(content, b"style").is_none()
        && attribute(content, b"align").is_none()
        && !is_element_named(content, b"center")
        && !is_element_named(content, b"caption")
        && !is_element_named(content, b"th")
}

// Whether a node is a child of the known one, and takes its alignment.
fn takes_known(doc: &Doc, known: Option<NodeRef>, node: NodeRef) -> bool
    requires { Holds doc.now node }
    ensures { result ≡ true → TakesKnown doc.now.state.trees (label_of known) node.label }
{
    doc.valid();
    match (known, doc.parent(node)) {
        (Some(known), Some(parent)) => {
            parent.label == known.label && takes_alignment(doc.content(node))
        }
        _ => false,
    }
}

/// Justify, step 2: the nodes that are aligned otherwise.
#[derive(Clone, Copy)]
pub(crate) struct Misaligned {
    pub alignment: TextAlign,
}

impl Choice<Doc> for Misaligned {
    ghost use Rattle.inline_value.specs.CssValue.Values.{text_align_keyword};
    ghost use Rattle.block_commands.specs.Handed.{AlignsBelow};
    ghost use Rattle.block_commands.specs.Justify.{is_misaligned};

    ghost chosen = { λ s d l. is_misaligned (text_align_keyword s.alignment) d.state l };

    // that it is aligned so, and what takes its alignment
    ghost knows = { λ s d r. AlignsBelow s.alignment d.state.trees r.label };

    fn chooses(&self, doc: &Doc, node: NodeRef) -> bool {
        let mut known = None;
        self.chooses_next(doc, node, &mut known)
    }

    #[tactic(auto, unfolding(crate::specs::Justify::is_misaligned))]
    fn chooses_next(&self, doc: &Doc, node: NodeRef, known: &mut Option<NodeRef>) -> bool {
        !self.is_aligned(doc, node, known) && allowed_in_div(doc, node) && doc.is_editable_for(node)
    }
}

impl Misaligned {
    // Whether a node is aligned so. Where it takes the alignment of the known one, it is.
    #[tactic(auto, using(crate::proofs::Handing::handed_on), unfolding(crate::specs::Below::alignment_value))]
    fn is_aligned(&self, doc: &Doc, node: NodeRef, known: &mut Option<NodeRef>) -> bool
        requires node_held { Holds doc.now node }
        requires known { IfSome known.old
            (λ r. AlignsBelow self.now.alignment doc.now.state.trees r.label) }
        ensures aligned { result ≡ is_aligned doc.now.state.trees self.now.alignment node.label }
        ensures known { IfSome known.new
            (λ r. AlignsBelow self.now.alignment doc.now.state.trees r.label) }
    {
        doc.valid();
        if takes_known(doc, *known, node) {
            if doc.first_child(node).is_some() {
                *known = Some(node);
            }
            return true;
        }
        if alignment(doc, node).keyword() != self.alignment.keyword() {
            return false;
        }
        if text_align(doc, node).keyword() == self.alignment.keyword() {
            *known = Some(node);
        }
        true
    }
}

/// A div with the style `text-align: X;`.
pub(crate) fn aligned_div(alloc: Global, alignment: &[char]) -> Result<Blank, AllocError>
    ensures { IfOk result (λ blank. blank ≡ justify.aligned_div alignment.now) }
{
    let mut text = Vec::new(alloc);
    text.extend_from_slice(&['t', 'e', 'x', 't', '-', 'a', 'l', 'i', 'g', 'n', ':', ' '])?;
    text.extend_from_slice(alignment)?;
    text.push(';')?;
    let mut attributes = Attributes::new(alloc);
    attributes.insert(
        Name::from_slice(alloc, b"style")?,
        Chars::from_slice(alloc, &text)?,
    )?;
    Ok(Blank {
        name: Name::from_slice(alloc, b"div")?,
        attributes,
    })
}
