//! Which rows stand at which node.
ghost use Rattle.std.specs.Prelude.{◌≡◌, ℕ, ◌+◌, ◌<◌, ◌≤◌, ◌==◌, ◌&&◌, ◌↔◌, IsTrue, length, false, true, if◌then◌else◌, IfOk};
ghost use Rattle.live_range.specs.Rows.{has_row, listed_at};

use crate::rows::RowSet;
use indexmap::IndexMap;
use std::alloc::{AllocError, Global};
use std::marker::Model;

// A label whose rows have all left keeps its place in the map, since the map doesn't say that a
// removal gives room back. When a label more than this many is met, the rows are listed anew, at
// most 36 labels.
const MOST_LABELS: usize = 128;

#[derive(Drop)]
pub(crate) struct Nodes {
    rows: IndexMap<u32, RowSet>,
}

impl Model for Nodes {
    ghost use Rattle.std.specs.Prelude.{◌≤◌, ◌+◌};
    ghost use Rattle.indexmap.specs.IndexMap.{index_map_len, spare};
    ghost use Rattle.live_range.specs.Rows.{RowsByNode};

    ghost Value = { RowsByNode };

    ghost view = { λ n. n.rows.entries };

    ghost invariant = { λ n. 128 ≤ index_map_len n.rows + spare n.rows };
}

impl Nodes {
    pub(crate) fn new(alloc: Global) -> Result<Nodes, AllocError>
        ensures { IfOk result (λ n. (l r : ℕ) → listed_at n l r ≡ false) }
    {
        let rows = IndexMap::with_capacity(alloc, MOST_LABELS)?;
        Ok(Nodes { rows })
    }

    // Lists no row at any label.
    pub(crate) fn clear(&mut self)
        ensures at { (l r : ℕ) → listed_at self.new l r ≡ false }
        ensures labels { length self.new ≡ 0 }
    {
        self.rows.clear();
    }

    // Whether so many more labels can have lists.
    pub(crate) fn has_room(&self, labels: u8) -> bool
        ensures { IsTrue result ↔ (length self.now + labels ≤ 128) }
    {
        self.rows.len() + labels as usize <= MOST_LABELS
    }

    // The rows at a label.
    pub(crate) fn at(&self, label: u32) -> RowSet
        ensures { (r : ℕ) → has_row result r ≡ listed_at self.now label r }
    {
        match self.rows.get(&label) {
            Some(rows) => *rows,
            None => RowSet::empty(),
        }
    }

    // Lists the row at the label, and takes no memory.
    pub(crate) fn enter(&mut self, label: u32, row: u8)
        requires row { row < 64 }
        requires room { length self.old < 128 }
        ensures at { (l r : ℕ) → listed_at self.new l r ≡ (if l == label && r == row then true
            else listed_at self.old l r) }
        ensures labels { length self.new ≤ length self.old + 1 }
    {
        match self.rows.get_mut(&label) {
            Some(rows) => *rows = rows.with(row),
            None => {
                let _ = self.rows.insert(label, RowSet::empty().with(row));
            }
        }
    }

    // Lists the row at the label no more.
    pub(crate) fn leave(&mut self, label: u32, row: u8)
        requires { row < 64 }
        ensures at { (l r : ℕ) → r < 64 → listed_at self.new l r
            ≡ (if l == label && r == row then false else listed_at self.old l r) }
        ensures labels { length self.new ≡ length self.old }
    {
        if let Some(rows) = self.rows.get_mut(&label) {
            *rows = rows.without(row);
        }
    }
}
