//! What commands, their values and alignments are at the nodes of a list.

ghost use Rattle.std.specs.Prelude.{◌≡◌, Bool, IfOk, not, bytes_eq};
ghost use Rattle.std.specs.List.{filter, list_all, list_any};
ghost use Rattle.std.specs.Option.{option_map_or, option_copied};
ghost use Rattle.command_value.specs.EffectiveValues as values;
ghost use Rattle.command_value.specs.ValueTexts.{value_text};
ghost use Rattle.block_extend.specs.NodeTests.Visible.{is_formattable};
ghost use Rattle.edit_model.specs.Gives.{labels_of};
ghost use Rattle.edit_actions.specs.EditDoc.Held.{Holds, EachHeld};
ghost use Rattle.edit_query.specs.Features.{has_feature};
ghost use Rattle.edit_query.specs.Listed.{is_partly, is_mixed, has_mixed, is_same_value, has_other_value, have_other_values};

use block_extend::questions::is_formattable;
use command_value::css::{TextAlign, has_codes, is_decimal, is_pixels};
use command_value::{Value, alignment, effective, effective_value, has_alike_value, is_activated};
use edit_actions::doc::{Doc, NodeRef};
use edit_model::dom::Chars;
use edit_model::element_names::Command;
use std::alloc::{AllocError, Global};

/// What is looked for at each node of a list.
#[derive(Clone, Copy)]
pub(crate) enum Feature {
    /// The command is on.
    On(Command),
    /// The node has the alignment.
    Aligned(TextAlign),
}

// Whether a node has it.
#[tactic(auto, unfolding(command_value::specs::Alignment::alignment_value))]
fn has_feature(doc: &Doc, feature: Feature, node: NodeRef) -> bool
    requires { Holds doc.now node }
    ensures { result ≡ has_feature feature doc.now.state.trees node.label }
{
    match feature {
        Feature::On(command) => is_activated(doc, node, command),
        Feature::Aligned(wanted) => alignment(doc, node).keyword() == wanted.keyword(),
    }
}

// Whether one node of a list has it.
#[tactic(auto, using(edit_model::proofs::Steps::labels_of_drop, edit_model::proofs::Steps::labels_of_end))]
fn is_at_one(doc: &Doc, feature: Feature, list: &[NodeRef]) -> bool
    requires { EachHeld doc.now list.now }
    ensures { result ≡ list_any (has_feature feature doc.now.state.trees) (labels_of list.now) }
{
    for node in list {
        if has_feature(doc, feature, *node) {
            return true;
        }
    }
    false
}

/// Whether each node of a list has it.
#[tactic(auto, using(edit_model::proofs::Steps::labels_of_drop, edit_model::proofs::Steps::labels_of_end))]
pub(crate) fn is_at_all(doc: &Doc, feature: Feature, list: &[NodeRef]) -> bool
    requires { EachHeld doc.now list.now }
    ensures { result ≡ list_all (has_feature feature doc.now.state.trees) (labels_of list.now) }
{
    for node in list {
        if !has_feature(doc, feature, *node) {
            return false;
        }
    }
    true
}

/// Whether one node of a list has it, and another hasn't.
#[tactic(auto, unfolding(crate::specs::Listed::is_partly))]
pub(crate) fn is_partly(doc: &Doc, feature: Feature, list: &[NodeRef]) -> bool
    requires { EachHeld doc.now list.now }
    ensures { result ≡ is_partly (has_feature feature doc.now.state.trees) (labels_of list.now) }
{
    is_at_one(doc, feature, list) && !is_at_all(doc, feature, list)
}

/// Whether a command is on at each node of a list that is formattable with this host. It tests no
/// node after the first where the command is off.
#[tactic(auto, using(edit_model::proofs::Steps::labels_of_drop, edit_model::proofs::Steps::labels_of_end))]
pub(crate) fn is_on_at_formattable(
    doc: &Doc,
    host: NodeRef,
    command: Command,
    list: &[NodeRef],
) -> bool
    requires host_held { Holds doc.now host }
    requires list_held { EachHeld doc.now list.now }
    ensures { result ≡ list_all (λ l. values.is_activated doc.now.state.trees l command)
        (filter (is_formattable doc.now.state.trees host.label) (labels_of list.now)) }
{
    for node in list {
        if is_formattable(doc, host, *node) && !is_activated(doc, *node, command) {
            return false;
        }
    }
    true
}

// Whether the effective value of subscript and superscript is "mixed" at a node.
#[tactic(auto, using(crate::proofs::Scripts::mixed_alike))]
fn is_mixed(doc: &Doc, node: NodeRef) -> bool
    requires { Holds doc.now node }
    ensures { result ≡ is_mixed doc.now.state.trees node.label }
{
    has_alike_value(
        doc,
        node,
        Command::Subscript,
        Some(&['m', 'i', 'x', 'e', 'd']),
    )
}

/// Whether the effective value of subscript and superscript is "mixed" at one node of a list.
#[tactic(auto, using(edit_model::proofs::Steps::labels_of_drop, edit_model::proofs::Steps::labels_of_end), unfolding(crate::specs::Listed::has_mixed))]
pub(crate) fn has_mixed(doc: &Doc, list: &[NodeRef]) -> bool
    requires { EachHeld doc.now list.now }
    ensures { result ≡ has_mixed doc.now.state.trees (labels_of list.now) }
{
    for node in list {
        if is_mixed(doc, *node) {
            return true;
        }
    }
    false
}

// Whether a text is that of a value. Only the text of a colour is made for it.
fn is_text_of(alloc: Global, value: Value<'_>, text: &[char]) -> Result<bool, AllocError>
    ensures { IfOk result
        (λ same. same
        ≡ option_map_or (λ own. bytes_eq own text.now) (value_text value.entry) Bool.false) }
{
    Ok(match value {
        Value::Null => false,
        Value::Text(own) => own == text,
        Value::Weight(weight) => is_decimal(text, weight),
        Value::Slant(slant) => has_codes(text, slant.keyword()),
        Value::Pixels(px) => is_pixels(text, px),
        Value::Shade(colour) => colour.print(alloc)?.as_slice() == text,
    })
}

// Whether a value has this text; `None` is null.
fn is_same_value(alloc: Global, value: Value<'_>, text: Option<&Chars>) -> Result<bool, AllocError>
    ensures { IfOk result (λ same. same
        ≡ is_same_value (value_text value.entry) (option_copied text.entry)) }
{
    match text {
        Some(text) => is_text_of(alloc, value, text.as_slice()),
        None => Ok(value.is_null()),
    }
}

// Whether the effective value of a node of a list is another than this.
#[tactic(auto, using(edit_model::proofs::Steps::labels_of_drop, edit_model::proofs::Steps::labels_of_end))]
fn has_other_value(
    alloc: Global,
    doc: &Doc,
    command: Command,
    value: Option<&Chars>,
    list: &[NodeRef],
) -> Result<bool, AllocError>
    requires { EachHeld doc.now list.now }
    ensures { IfOk result (λ other. other ≡ has_other_value doc.now.state.trees command
        (option_copied value.entry) (labels_of list.now)) }
{
    for node in list {
        if !is_same_value(alloc, effective_value(doc, *node, command), value)? {
            return Ok(true);
        }
    }
    Ok(false)
}

/// Whether the effective value of a node of a list is another than that of the first.
pub(crate) fn have_other_values(
    alloc: Global,
    doc: &Doc,
    command: Command,
    list: &[NodeRef],
) -> Result<bool, AllocError>
    requires { EachHeld doc.now list.now }
    ensures { IfOk result (λ other. other
        ≡ have_other_values doc.now.state.trees command (labels_of list.now)) }
{
    match list {
        [] => Ok(false),
        [first, others @ ..] => {
            let value = effective(alloc, doc, *first, command)?;
            has_other_value(alloc, doc, command, value.as_ref(), others)
        }
    }
}
