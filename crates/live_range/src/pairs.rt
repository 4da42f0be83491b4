//! The pairs and the points at the places, by number.
ghost use Rattle.std.specs.Prelude.{◌≡◌, ℕ, ◌<◌, ◌≤◌, ◌==◌, ◌/◌, map, Some, IsSome, if◌then◌else◌};
ghost use Rattle.live_range.specs.Names.{marks_of};
ghost use Rattle.live_range.specs.Rows.{pair_at, point_at, side};

use crate::marks::{mark_of, set_pair};
use crate::places::{Pair, Places, Point};

pub(crate) fn pair_of(places: &Places, pair: u8) -> Option<Pair>
    requires { places.now.count ≤ 16 }
    ensures { result ≡ pair_at places.now pair }
{
    match pair {
        0 => places.selection,
        1 => places.scratch,
        _ => match mark_of(places, pair as usize - 2) {
            Some(mark) => Some(mark.pair),
            None => None,
        },
    }
}

pub(crate) fn point_of(places: &Places, row: u8) -> Option<Point>
    requires { places.now.count ≤ 16 }
    ensures { result ≡ point_at places.now row }
{
    let pair = pair_of(places, row / 2)?;
    Some(if row % 2 == 0 {
        pair.anchor
    } else {
        pair.focus
    })
}

fn put_pair(places: &mut Places, number: u8, pair: Pair)
    requires few { places.old.count ≤ 16 }
    requires there { IsSome (pair_at places.old number) }
    ensures pairs { (k : ℕ) → pair_at places.new k
        ≡ (if k == number then Some pair else pair_at places.old k) }
    ensures names { map (λ m. m.name) (marks_of places.new)
        ≡ map (λ m. m.name) (marks_of places.old) }
    ensures count { places.new.count ≡ places.old.count }
{
    match number {
        0 => places.selection = Some(pair),
        1 => places.scratch = Some(pair),
        _ => set_pair(places, number as usize - 2, pair),
    }
}

// The pair with the point of one side changed.
fn with_side(pair: Pair, row: u8, point: Point) -> Pair
    ensures { (r : ℕ) → r / 2 ≡ row / 2 → side r result
        ≡ (if r == row then point else side r pair) }
{
    if row % 2 == 0 {
        Pair {
            anchor: point,
            focus: pair.focus,
        }
    } else {
        Pair {
            anchor: pair.anchor,
            focus: point,
        }
    }
}

// Changes the point of a row.
pub(crate) fn put_point(places: &mut Places, row: u8, point: Point)
    requires few { places.old.count ≤ 16 }
    requires there { IsSome (point_at places.old row) }
    ensures points { (r : ℕ) → point_at places.new r
        ≡ (if r == row then Some point else point_at places.old r) }
    ensures names { map (λ m. m.name) (marks_of places.new)
        ≡ map (λ m. m.name) (marks_of places.old) }
    ensures count { places.new.count ≡ places.old.count }
{
    if let Some(pair) = pair_of(places, row / 2) {
        put_pair(places, row / 2, with_side(pair, row, point));
    }
}
