//! Sets of rows. A row is a point by its number.
ghost use Rattle.std.specs.Prelude.{◌≡◌, ℕ, ◌<◌, ◌==◌, ◌||◌, false, true, if◌then◌else◌, IfSome, IfNone};
ghost use Rattle.live_range.specs.Rows.{has_row};

// A set of numbers below 64, a bit for each.
#[derive(Clone, Copy)]
pub(crate) struct RowSet {
    bits: u64,
}

impl RowSet {
    pub(crate) fn empty() -> RowSet
        ensures { (r : ℕ) → has_row result r ≡ false }
    {
        RowSet { bits: 0 }
    }

    pub(crate) fn with(self, row: u8) -> RowSet
        requires { row < 64 }
        ensures { (r : ℕ) → has_row result r ≡ (if r == row then true else has_row self r) }
    {
        RowSet {
            bits: self.bits | 1 << row,
        }
    }

    pub(crate) fn without(self, row: u8) -> RowSet
        requires { row < 64 }
        ensures rows { (r : ℕ) → r < 64 → has_row result r
            ≡ (if r == row then false else has_row self r) }
        ensures less { has_row self row ≡ true → result.bits < self.bits }
    {
        RowSet {
            bits: self.bits & !(1 << row),
        }
    }

    pub(crate) fn or(self, other: RowSet) -> RowSet
        ensures { (r : ℕ) → has_row result r ≡ (has_row self r || has_row other r) }
    {
        RowSet {
            bits: self.bits | other.bits,
        }
    }

    // The lowest row.
    pub(crate) fn first(self) -> Option<u8>
        ensures found { IfSome result (λ row. (row < 64) × (has_row self row ≡ true)) }
        ensures lowest { IfSome result (λ row. (r : ℕ) → r < row → has_row self r ≡ false) }
        ensures none { IfNone result ((r : ℕ) → has_row self r ≡ false) }
    {
        if self.bits == 0 {
            None
        } else {
            Some(self.bits.trailing_zeros() as u8)
        }
    }
}
