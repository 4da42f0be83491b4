//! Lists of names.

ghost use Rattle.std.specs.Prelude.{◌≡◌, ◌++◌, ◌∷◌, [], bytes_eq, IfOk, OnOk, OnErr};
ghost use Rattle.command_gate.specs.Denied.{lowered, is_denied};

use std::alloc::{AllocError, Global};
use std::marker::Model;

/// A list of names, kept in lower case.
#[derive(Drop)]
pub struct NameList {
    names: Vec<Vec<u8>>,
}

impl Model for NameList {
    ghost use Rattle.std.specs.Prelude.{List, ℕ, map};

    ghost Value = { List (List ℕ) };

    ghost view = { λ l. map (λ v. v.items) l.names.items };
}

// Whether a name is a word in lower case, apart from its case.
fn spells(name: &[u8], word: &[u8]) -> bool
    ensures { result ≡ bytes_eq word.now (lowered name.now) }
{
    match (name, word) {
        ([], []) => true,
        ([first, name @ ..], [byte, word @ ..]) => {
            first.to_ascii_lowercase() == *byte && spells(name, word)
        }
        _ => false,
    }
}

impl NameList {
    /// The empty list. It takes no memory.
    pub fn new(alloc: Global) -> NameList
        ensures { result ≡ [] }
    {
        NameList {
            names: Vec::new(alloc),
        }
    }

    /// Appends a name, in lower case.
    pub fn add(&mut self, alloc: Global, name: &[u8]) -> Result<(), AllocError>
        ensures ok { OnOk result (self.new ≡ self.old ++ lowered name.now ∷ []) }
        ensures err { OnErr result (self.new ≡ self.old) }
    {
        let name = name.to_ascii_lowercase(alloc)?;
        self.names.push(name)?;
        Ok(())
    }

    /// Whether a name, in any case, is in the list. It takes no memory.
    pub fn has(&self, name: &[u8]) -> bool
        ensures { result ≡ is_denied self.now name.now }
    {
        for word in &self.names {
            if spells(name, word.as_slice()) {
                return true;
            }
        }
        false
    }

    /// Another list of the same names.
    pub fn copy(&self, alloc: Global) -> Result<NameList, AllocError>
        ensures { IfOk result (λ list. list ≡ self.now) }
    {
        let mut list = NameList::new(alloc);
        for name in &self.names {
            list.names.push(name.to_vec(alloc)?)?;
        }
        Ok(list)
    }
}
