//! The names of commands that are denied: a list with a comma between. Case doesn't matter.

ghost use Rattle.std.specs.Prelude.{◌≡◌, map, IfOk};
ghost use Rattle.command_gate.specs.Denied.{lowered, is_denied};
ghost use Rattle.edit_session.specs.Denials.{parts_of, names_in, are_names, denied_by};

use command_gate::{Gate, NameList, Policy};
use script_read::{cut, is_name};
use std::alloc::{AllocError, Global};

// How many names may be denied.
const GREATEST_DENIED: usize = 16;

// Whether a name stands in a list.
fn stands_in(name: &[u8], list: &[u8]) -> bool
    ensures { result ≡ is_denied (map lowered (parts_of list.now)) name.now }
{
    let mut rest = list;
    while let Some((first, more)) = cut(rest, b',') {
        if first.eq_ignore_ascii_case(name) {
            return true;
        }
        rest = more;
    }
    rest.eq_ignore_ascii_case(name)
}

/// Whether a text lists names, and no more different ones than may be denied. It takes no memory.
pub(crate) fn are_names(text: &[u8]) -> bool
    ensures { result ≡ are_names text.now }
{
    let mut count = 0;
    let mut rest = text;
    while let Some((name, more)) = cut(rest, b',') {
        if !is_name(name) {
            return false;
        }
        if !stands_in(name, more) {
            if count == GREATEST_DENIED {
                return false;
            }
            count += 1;
        }
        rest = more;
    }
    is_name(rest) && count < GREATEST_DENIED
}

/// The names of a list, each once.
pub(crate) fn read_names(alloc: Global, text: &[u8]) -> Result<NameList, AllocError>
    ensures { IfOk result (λ list. list ≡ names_in text.now) }
{
    let mut list = NameList::new(alloc);
    let mut rest = text;
    while let Some((name, more)) = cut(rest, b',') {
        if !stands_in(name, more) {
            list.add(alloc, name)?;
        }
        rest = more;
    }
    list.add(alloc, rest)?;
    Ok(list)
}

/// The gate of a list, whose question is asked of the list itself.
pub(crate) fn gate_of(alloc: Global, denied: NameList) -> Result<Gate<NameList>, AllocError>
    ensures { IfOk result (λ gate. gate ≡ denied) }
{
    let question = denied.copy(alloc)?;
    Ok(Gate::new(Policy { denied }, question))
}

/// The gate that denies the commands of a text: none where it is empty, and else 1 to 16 different
/// names of 1 to 64 ASCII letters, digits and `-`, with a comma between. None where it is no such
/// list.
#[tactic(auto, unfolding(crate::specs::Denials::denied_by))]
pub fn read_gate(alloc: Global, text: &[u8]) -> Result<Option<Gate<NameList>>, AllocError>
    ensures { IfOk result (λ gate. gate ≡ denied_by text.now) }
{
    if text.is_empty() {
        return Ok(Some(gate_of(alloc, NameList::new(alloc))?));
    }
    if !are_names(text) {
        return Ok(None);
    }
    Ok(Some(gate_of(alloc, read_names(alloc, text)?)?))
}
