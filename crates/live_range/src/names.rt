//! The names that were ever given to a mark, in the order in which they were met.
ghost use Rattle.std.specs.Prelude.{◌≡◌, ◌<◌, [], ◌∷◌, ◌++◌, length, position, slice_index_or, false, Some, IfOk, OnOk, OnErr};
ghost use Rattle.std.specs.List.{list_any, IsDistinct};
ghost use Rattle.std.specs.Str.{bytes_eq};
ghost use Rattle.indexmap.specs.IndexSet.{insert_key};

use std::alloc::{AllocError, Global};
use std::collections::BTreeMap;
use std::marker::Model;

// A name is found by the order of the names, and no hash is taken of it, so that no choice of names
// makes a look-up long.
#[derive(Drop)]
pub(crate) struct Names {
    alloc: Global,
    list: Vec<Vec<u8>>,
    // The position of each name in the list.
    positions: BTreeMap<Vec<u8>, usize>,
}

impl Model for Names {
    ghost use Rattle.std.specs.Prelude.{ℕ, List, map};
    ghost use Rattle.std.specs.List.{IsDistinct};
    ghost use Rattle.std.specs.Str.{bytes_eq};
    ghost use Rattle.live_range.specs.Names.{HasPositions};

    ghost Value = { List (List ℕ) };

    ghost view = { λ n. map (λ v. v.items) n.list.items };

    ghost invariant = { λ n. IsDistinct bytes_eq (map (λ v. v.items) n.list.items)
        × HasPositions n.positions.entries (map (λ v. v.items) n.list.items) };
}

impl Names {
    pub(crate) fn new(alloc: Global) -> Names
        ensures { result ≡ [] }
    {
        Names {
            alloc,
            list: Vec::new(alloc),
            positions: BTreeMap::new(alloc),
        }
    }

    // What holds of every list of names. It does nothing.
    pub(crate) fn valid(&self)
        ensures { IsDistinct bytes_eq self.now }
    {
        let _ = &self.alloc;
    }

    pub(crate) fn position(&self, name: &[u8]) -> Option<usize>
        ensures { result ≡ position (bytes_eq name.now) self.now }
    {
        self.positions.get(name).copied()
    }

    pub(crate) fn at(&self, position: usize) -> &[u8]
        requires { position < length self.now }
        ensures { result.now ≡ slice_index_or self.now position [] }
    {
        self.list[position].as_slice()
    }

    // Adds a name that is not there, and answers its position.
    pub(crate) fn add(&mut self, name: &[u8]) -> Result<usize, AllocError>
        requires { list_any (bytes_eq name.now) self.old ≡ false }
        ensures added { IfOk result (λ i. self.new ≡ self.old ++ name.now ∷ []) }
        ensures last { IfOk result (λ i. i ≡ length self.old) }
        ensures err { OnErr result (self.new ≡ self.old) }
    {
        let own = name.to_vec(self.alloc)?;
        let key = name.to_vec(self.alloc)?;
        let position = self.list.len();
        self.list.reserve(1)?;
        self.positions.insert(key, position)?;
        self.list.push_reserved(own);
        Ok(position)
    }

    // The position of a name, which is added where it isn't there.
    pub(crate) fn meet(&mut self, name: &[u8]) -> Result<usize, AllocError>
        ensures names { OnOk result (self.new ≡ insert_key bytes_eq self.old name.now) }
        ensures met { IfOk result (λ i. position (bytes_eq name.now) self.new ≡ Some i) }
        ensures err { OnErr result (self.new ≡ self.old) }
    {
        match self.position(name) {
            Some(position) => Ok(position),
            None => self.add(name),
        }
    }
}
