//! Whether a style text sets certain properties and no others.

ghost use Rattle.std.specs.Prelude.{◌≡◌};
ghost use Rattle.std.specs.List.{list_all, list_any};
ghost use Rattle.std.specs.Str.{bytes_eq};
ghost use Rattle.css_value.specs.StyleText as spec;
ghost use Rattle.css_value.specs.DeclarationList.{declarations_in, names_of};
ghost use Rattle.css_value.specs.OnlyGroup as names;
ghost use Rattle.html_names.specs.BoxNames.{is_box_name};

use crate::style_text::{first_stated, is_named, is_same_name};
use html_names::box_names;

/// What a style may set and nothing else.
#[derive(Clone, Copy)]
pub enum Only {
    /// No property.
    Nothing,
    /// `font-weight`, which is set.
    FontWeight,
    /// `font-style`, which is set.
    FontStyle,
    /// `text-decoration`, which is set.
    TextDecoration,
    /// `text-align`, which is set.
    TextAlign,
    /// Any of margin, padding, border and their parts, or none.
    BoxNames,
    /// One property, whichever it is.
    AnyOne,
}

// Whether a table has a text in lower case.
fn is_in(table: &[&[u8]], name: &[char]) -> bool
    ensures { result ≡ list_any (λ row. bytes_eq row.now (spec.lowered name.now)) table.now }
{
    table.iter().any(|row| is_named(name, row))
}

// Whether a text is in lower case a box name.
#[tactic(auto, using(crate::proofs::Names::any_mapped), unfolding(html_names::specs::BoxNames::is_box_name))]
fn is_box_name(name: &[char]) -> bool
    ensures { result ≡ is_box_name (spec.lowered name.now) }
{
    is_in(box_names(), name)
}

// Whether each declaration of a text has this name.
fn all_named(text: &[char], name: &[u8]) -> bool
    ensures { result ≡ list_all (λ n. bytes_eq name.now n) (names_of (spec.stated text.now)) }
{
    let mut rest = text;
    while let Some((stated, after)) = first_stated(rest) {
        if !is_named(stated.name, name) {
            return false;
        }
        rest = after;
    }
    true
}

// Whether each declaration of a text has this name, which is not yet in lower case.
fn all_alike(text: &[char], name: &[char]) -> bool
    ensures { result
        ≡ list_all (λ n. bytes_eq (spec.lowered name.now) n) (names_of (spec.stated text.now)) }
{
    let mut rest = text;
    while let Some((stated, after)) = first_stated(rest) {
        if !is_same_name(stated.name, name) {
            return false;
        }
        rest = after;
    }
    true
}

// Whether each declaration of a text has a box name.
fn all_box_names(text: &[char]) -> bool
    ensures { result ≡ list_all is_box_name (names_of (spec.stated text.now)) }
{
    let mut rest = text;
    while let Some((stated, after)) = first_stated(rest) {
        if !is_box_name(stated.name) {
            return false;
        }
        rest = after;
    }
    true
}

// Whether a text declares this property and no other.
fn sets_one(text: &[char], name: &[u8]) -> bool
    ensures { result ≡ names.is_only name.now (names_of (declarations_in text.now)) }
{
    match first_stated(text) {
        None => false,
        Some((first, rest)) => is_named(first.name, name) && all_named(rest, name),
    }
}

// Whether a text declares one property.
fn sets_any_one(text: &[char]) -> bool
    ensures { result ≡ names.is_one (names_of (declarations_in text.now)) }
{
    match first_stated(text) {
        None => false,
        Some((first, rest)) => all_alike(rest, first.name),
    }
}

// Whether a text declares no property.
fn sets_nothing(text: &[char]) -> bool
    ensures { result ≡ names.is_nothing (names_of (declarations_in text.now)) }
{
    first_stated(text).is_none()
}

// Whether a text declares box names alone.
fn sets_box_names(text: &[char]) -> bool
    ensures { result ≡ list_all is_box_name (names_of (declarations_in text.now)) }
{
    all_box_names(text)
}

/// Whether the declarations that reading a style text gives are none, exactly that one, box names
/// alone, or exactly one. It takes no memory.
#[tactic(auto, unfolding(crate::specs::OnlyGroup::sets_only))]
pub fn sets_only(text: &[char], group: Only) -> bool
    ensures { result ≡ names.sets_only group (names_of (declarations_in text.now)) }
{
    match group {
        Only::Nothing => sets_nothing(text),
        Only::FontWeight => sets_one(text, b"font-weight"),
        Only::FontStyle => sets_one(text, b"font-style"),
        Only::TextDecoration => sets_one(text, b"text-decoration"),
        Only::TextAlign => sets_one(text, b"text-align"),
        Only::BoxNames => sets_box_names(text),
        Only::AnyOne => sets_any_one(text),
    }
}
