//! What each command answers of its own, where no override does.

ghost use Rattle.std.specs.Prelude.{◌≡◌, ◌+◌, Bool, IfOk, []};
ghost use Rattle.std.specs.Option.{option_map_or, option_copied, unwrap_or, option_or};
ghost use Rattle.command_value.specs.CssValue.Numbers as sizes;
ghost use Rattle.command_value.specs.EffectiveValues as values;
ghost use Rattle.edit_model.specs.Gives.{label_of};
ghost use Rattle.edit_model.specs.Valid.{IsPlacedPair};
ghost use Rattle.edit_actions.specs.EditDoc.Held.{Holds, IfHeld, Finds};
ghost use Rattle.edit_query.specs.Formattable.{formattable_between, first_formattable, start_node};
ghost use Rattle.edit_query.specs.Leaves.{leaves};
ghost use Rattle.edit_query.specs.Listed.{is_partly_aligned, are_aligned};
ghost use Rattle.edit_query.specs.Rows.{is_on_at_start, is_on_throughout, is_on, first_value, types_differ, first_type, first_alignment, legacy_text, container_name, own_indeterm, own_state, own_value};

use crate::block_types::{have_other_types, type_of};
use crate::formattable::{effective_between, first_formattable, formattable_nodes, start_node};
use crate::leaves::{first_leaf, leaves};
use crate::list_states::list_state;
use crate::listed::{
    Feature, has_mixed, have_other_values, is_at_all, is_on_at_formattable, is_partly,
};
use crate::sought::{Sought, first_sought};
use command_value::css::{TextAlign, legacy_size, read_font_size};
use command_value::{alignment, effective, is_activated};
use edit_actions::doc::{Doc, NodeRef, Pair};
use edit_model::dom::Chars;
use edit_model::element_names::Command;
use std::alloc::{AllocError, Global};

// Whether two leaves have different types.
fn types_differ(alloc: Global, doc: &Doc, host: Option<NodeRef>) -> Result<bool, AllocError>
    requires { IfHeld doc.now host }
    ensures { IfOk result (λ flag. flag ≡ types_differ doc.now.state (label_of host)) }
{
    match host {
        Some(own) => {
            let list = leaves(alloc, doc, host)?;
            Ok(have_other_types(doc, own, &list))
        }
        None => Ok(false),
    }
}

// Whether one leaf has an alignment, and another hasn't.
fn is_partly_aligned(
    alloc: Global,
    doc: &Doc,
    host: Option<NodeRef>,
    wanted: TextAlign,
) -> Result<bool, AllocError>
    requires { IfHeld doc.now host }
    ensures { IfOk result
        (λ flag. flag
        ≡ is_partly_aligned doc.now.state.trees wanted (leaves doc.now.state (label_of host))) }
{
    let list = leaves(alloc, doc, host)?;
    Ok(is_partly(doc, Feature::Aligned(wanted), &list))
}

/// Whether a command is on at some and off at other nodes that it formats, or they have different
/// values, types or alignments, or stand in lists in part.
pub(crate) fn own_indeterm(
    alloc: Global,
    doc: &Doc,
    host: Option<NodeRef>,
    command: Command,
) -> Result<bool, AllocError>
    requires { IfHeld doc.now host }
    ensures { IfOk result (λ flag. flag ≡ own_indeterm doc.now.state (label_of host) command) }
{
    match command {
        Command::Bold | Command::Italic | Command::Underline | Command::Strikethrough => {
            let list = formattable_nodes(alloc, doc, host)?;
            Ok(is_partly(doc, Feature::On(command), &list))
        }
        Command::Subscript | Command::Superscript => {
            let list = formattable_nodes(alloc, doc, host)?;
            Ok(is_partly(doc, Feature::On(command), &list) || has_mixed(doc, &list))
        }
        Command::CreateLink
        | Command::FontName
        | Command::FontSize
        | Command::ForeColor
        | Command::BackColor
        | Command::HiliteColor => {
            let list = formattable_nodes(alloc, doc, host)?;
            have_other_values(alloc, doc, command, &list)
        }
        Command::FormatBlock => types_differ(alloc, doc, host),
        Command::JustifyLeft => is_partly_aligned(alloc, doc, host, TextAlign::Left),
        Command::JustifyCenter => is_partly_aligned(alloc, doc, host, TextAlign::Center),
        Command::JustifyRight => is_partly_aligned(alloc, doc, host, TextAlign::Right),
        Command::JustifyFull => is_partly_aligned(alloc, doc, host, TextAlign::Justify),
        Command::InsertOrderedList => Ok(list_state(alloc, doc, host)?.is_mixed_with(true)),
        Command::InsertUnorderedList => Ok(list_state(alloc, doc, host)?.is_mixed_with(false)),
        _ => Ok(false),
    }
}

// Whether a command is on at the range's start.
fn is_on_at_start(doc: &Doc, command: Command) -> bool
    ensures { result ≡ is_on_at_start doc.now.state command }
{
    match start_node(doc) {
        Some(node) => is_activated(doc, node, command),
        None => false,
    }
}

// Whether a command is on at all formattable nodes of a range, or where there is none at the active
// range's start.
#[tactic(auto, using(crate::proofs::Throughout::some, crate::proofs::Throughout::none), unfolding(crate::specs::Formattable::formattable_between))]
fn is_on_between(
    alloc: Global,
    doc: &Doc,
    host: NodeRef,
    pair: Pair,
    command: Command,
) -> Result<bool, AllocError>
    requires host_held { Holds doc.now host }
    requires placed { IsPlacedPair doc.now.state.trees pair }
    ensures { IfOk result (λ flag. flag ≡ is_on_throughout doc.now.state command
        (formattable_between doc.now.state.trees host.label pair)) }
{
    let list = effective_between(alloc, doc, pair)?;
    match first_sought(doc, host, Sought::Formattable, list.as_slice()) {
        Some(_) => Ok(is_on_at_formattable(doc, host, command, list.as_slice())),
        None => Ok(is_on_at_start(doc, command)),
    }
}

// The same of the active range.
#[tactic(auto, unfolding(crate::specs::Rows::is_on, crate::specs::Formattable::formattable_nodes))]
fn is_on(
    alloc: Global,
    doc: &Doc,
    host: Option<NodeRef>,
    command: Command,
) -> Result<bool, AllocError>
    requires { IfHeld doc.now host }
    ensures { IfOk result (λ flag. flag ≡ is_on doc.now.state (label_of host) command) }
{
    doc.valid();
    match (host, doc.points().selection()) {
        (Some(host), Some(pair)) => is_on_between(alloc, doc, host, pair, command),
        _ => Ok(is_on_at_start(doc, command)),
    }
}

// Whether there are leaves, and all have an alignment.
fn are_aligned(
    alloc: Global,
    doc: &Doc,
    host: Option<NodeRef>,
    wanted: TextAlign,
) -> Result<bool, AllocError>
    requires { IfHeld doc.now host }
    ensures { IfOk result
        (λ flag. flag
        ≡ are_aligned doc.now.state.trees wanted (leaves doc.now.state (label_of host))) }
{
    let list = leaves(alloc, doc, host)?;
    Ok(!list.is_empty() && is_at_all(doc, Feature::Aligned(wanted), &list))
}

/// Whether a command is on.
pub(crate) fn own_state(
    alloc: Global,
    doc: &Doc,
    host: Option<NodeRef>,
    command: Command,
) -> Result<bool, AllocError>
    requires { IfHeld doc.now host }
    ensures { IfOk result (λ flag. flag ≡ own_state doc.now.state (label_of host) command) }
{
    match command {
        Command::Bold
        | Command::Italic
        | Command::Underline
        | Command::Strikethrough
        | Command::Subscript
        | Command::Superscript => is_on(alloc, doc, host, command),
        Command::JustifyLeft => are_aligned(alloc, doc, host, TextAlign::Left),
        Command::JustifyCenter => are_aligned(alloc, doc, host, TextAlign::Center),
        Command::JustifyRight => are_aligned(alloc, doc, host, TextAlign::Right),
        Command::JustifyFull => are_aligned(alloc, doc, host, TextAlign::Justify),
        Command::InsertOrderedList => Ok(list_state(alloc, doc, host)?.is_of(true)),
        Command::InsertUnorderedList => Ok(list_state(alloc, doc, host)?.is_of(false)),
        Command::StyleWithCss => Ok(doc.flags().css_styling),
        _ => Ok(false),
    }
}

// The first formattable node in the range, or where there is none that at its start.
fn first_node(
    alloc: Global,
    doc: &Doc,
    host: Option<NodeRef>,
) -> Result<Option<NodeRef>, AllocError>
    requires { IfHeld doc.now host }
    ensures { IfOk result (λ node. Finds doc.now node
        (option_or (first_formattable doc.now.state (label_of host)) (start_node doc.now.state))) }
{
    match first_formattable(alloc, doc, host)? {
        Some(node) => Ok(Some(node)),
        None => Ok(start_node(doc)),
    }
}

// The effective value of that node.
#[tactic(auto, unfolding(crate::specs::Rows::first_value))]
fn first_value(
    alloc: Global,
    doc: &Doc,
    host: Option<NodeRef>,
    command: Command,
) -> Result<Option<Chars>, AllocError>
    requires { IfHeld doc.now host }
    ensures { IfOk result (λ value. value ≡ first_value doc.now.state (label_of host) command) }
{
    match first_node(alloc, doc, host)? {
        Some(node) => effective(alloc, doc, node, command),
        None => Ok(None),
    }
}

// The characters that have the codes of these bytes.
fn chars_of(alloc: Global, bytes: &[u8]) -> Result<Chars, AllocError>
    ensures { IfOk result (λ chars. chars ≡ bytes.now) }
{
    let chars: Vec<char> = bytes.iter().map(|b| *b as char).collect(alloc)?;
    Chars::from_vec(chars)
}

// The type of the first leaf; where there is none it is empty.
fn first_type(alloc: Global, doc: &Doc, host: Option<NodeRef>) -> Result<Chars, AllocError>
    requires { IfHeld doc.now host }
    ensures { IfOk result (λ name. name ≡ first_type doc.now.state (label_of host)) }
{
    match (host, first_leaf(alloc, doc, host)?) {
        (Some(own), Some(leaf)) => chars_of(alloc, type_of(doc, own, leaf)),
        _ => chars_of(alloc, b""),
    }
}

// The alignment of the first leaf; where there is none it is left.
#[tactic(auto, unfolding(command_value::specs::Alignment::alignment_value))]
fn first_alignment(alloc: Global, doc: &Doc, host: Option<NodeRef>) -> Result<Chars, AllocError>
    requires { IfHeld doc.now host }
    ensures { IfOk result (λ keyword. keyword ≡ first_alignment doc.now.state (label_of host)) }
{
    match first_leaf(alloc, doc, host)? {
        Some(leaf) => chars_of(alloc, alignment(doc, leaf).keyword()),
        None => chars_of(alloc, TextAlign::Left.keyword()),
    }
}

// The value itself; null is empty.
fn or_empty(alloc: Global, value: Option<Chars>) -> Result<Chars, AllocError>
    ensures { IfOk result (λ text. text ≡ unwrap_or value []) }
{
    match value {
        Some(text) => Ok(text),
        None => Chars::from_slice(alloc, &[]),
    }
}

// The digit of the legacy size of a size in pixels.
#[tactic(auto, unfolding(crate::specs::Below::legacy_size))]
fn size_digit(px: u32) -> char
    ensures { result ≡ 48 + sizes.legacy_size px }
{
    (b'0' + legacy_size(px)) as char
}

/// A size of a font as its legacy size; no text where it is none.
pub fn legacy_text(alloc: Global, text: &[char]) -> Result<Chars, AllocError>
    ensures { IfOk result (λ size. size ≡ legacy_text text.now) }
{
    match read_font_size(text) {
        Some(px) => Chars::from_slice(alloc, &[size_digit(px as u32)]),
        None => Chars::from_slice(alloc, &[]),
    }
}

// The legacy size of a value; null is empty.
fn legacy_value(alloc: Global, value: Option<Chars>) -> Result<Chars, AllocError>
    ensures { IfOk result (λ text. text ≡ option_map_or legacy_text value []) }
{
    match value {
        Some(text) => legacy_text(alloc, text.as_slice()),
        None => Chars::from_slice(alloc, &[]),
    }
}

/// The name of the default single-line container.
pub fn container_bytes(paragraphs: bool) -> &'static [u8]
    ensures { result.now ≡ container_name paragraphs }
{
    if paragraphs { b"p" } else { b"div" }
}

/// The value of a command.
pub(crate) fn own_value(
    alloc: Global,
    doc: &Doc,
    host: Option<NodeRef>,
    command: Command,
) -> Result<Chars, AllocError>
    requires { IfHeld doc.now host }
    ensures { IfOk result (λ value. value ≡ own_value doc.now.state (label_of host) command) }
{
    match command {
        Command::CreateLink
        | Command::FontName
        | Command::ForeColor
        | Command::BackColor
        | Command::HiliteColor => or_empty(alloc, first_value(alloc, doc, host, command)?),
        Command::FontSize => legacy_value(alloc, first_value(alloc, doc, host, command)?),
        Command::FormatBlock => first_type(alloc, doc, host),
        Command::JustifyLeft
        | Command::JustifyCenter
        | Command::JustifyRight
        | Command::JustifyFull => first_alignment(alloc, doc, host),
        Command::DefaultParagraphSeparator => {
            chars_of(alloc, container_bytes(doc.flags().paragraphs))
        }
        _ => Chars::from_slice(alloc, &[]),
    }
}
