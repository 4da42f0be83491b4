//! Names of elements and attributes in the grammar of pages, in lower case.

ghost use Rattle.std.specs.Prelude.{◌≡◌, ◌&&◌, IfOk, true};
ghost use Rattle.std.specs.List.{list_all};
ghost use Rattle.std.specs.Str.{chars};
ghost use Rattle.page_grammar.specs.Chars as classes;
ghost use Rattle.step_text.specs.StepLine as names;
ghost use Rattle.step_text.specs.StepReading.{Reads, element_name_of, attribute_name_of};

use crate::line::StepFault;
use page_grammar::classes::{is_attribute_name_char, is_letter, is_name_char, lower};
use page_grammar::dom::Name;
use std::alloc::Global;

fn is_lowered(c: char) -> bool
    ensures { result ≡ names.is_lowered c }
{
    lower(c) == c
}

fn is_first_byte(b: u8) -> bool
    ensures { result ≡ (classes.is_letter b && names.is_lowered b) }
{
    is_letter(b as char) && is_lowered(b as char)
}

fn is_name_byte(b: u8) -> bool
    ensures { result ≡ (classes.is_name_char b && names.is_lowered b) }
{
    is_name_char(b as char) && is_lowered(b as char)
}

fn all_name_bytes(bytes: &[u8]) -> bool
    ensures { result ≡ list_all (λ b. classes.is_name_char b && names.is_lowered b) bytes.now }
{
    bytes.iter().all(|b| is_name_byte(*b))
}

#[tactic(auto, unfolding(crate::specs::StepLine::is_element_name))]
fn is_element_name(name: &[u8]) -> bool
    ensures { result ≡ names.is_element_name name.now }
{
    match name {
        [first, others @ ..] => is_first_byte(*first) && all_name_bytes(others),
        [] => false,
    }
}

fn all_attribute_name_chars(text: &str) -> bool
    ensures { result
        ≡ list_all (λ c. classes.is_attribute_name_char c && names.is_lowered c) (chars text.now) }
{
    text.chars()
        .all(|c| is_attribute_name_char(c) && is_lowered(c))
}

fn is_attribute_text(text: &str) -> bool
    ensures { result ≡ names.is_attribute_text text.now }
{
    !text.is_empty() && all_attribute_name_chars(text)
}

fn is_attribute_name(name: &[u8]) -> bool
    ensures { result ≡ names.is_attribute_name name.now }
{
    match str::from_utf8(name) {
        Ok(text) => is_attribute_text(text),
        Err(_) => false,
    }
}

/// A copy of an element's name.
pub(crate) fn read_element_name(alloc: Global, name: &[u8]) -> Result<Name, StepFault>
    ensures read { Reads result (element_name_of name.now) }
    ensures sound { IfOk result (λ n. names.is_element_name n ≡ true) }
{
    if !is_element_name(name) {
        return Err(StepFault::Syntax);
    }
    Ok(Name::from_slice(alloc, name)?)
}

/// A copy of an attribute's name.
pub(crate) fn read_attribute_name(alloc: Global, name: &[u8]) -> Result<Name, StepFault>
    ensures read { Reads result (attribute_name_of name.now) }
    ensures sound { IfOk result (λ n. names.is_attribute_name n ≡ true) }
{
    if !is_attribute_name(name) {
        return Err(StepFault::Syntax);
    }
    Ok(Name::from_slice(alloc, name)?)
}
