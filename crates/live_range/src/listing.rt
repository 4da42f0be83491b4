//! Keeps each row listed at the node of its point.
ghost use Rattle.std.specs.Prelude.{◌≡◌, ℕ, ◌+◌, ◌*◌, ◌<◌, ◌≤◌, ◌==◌, ◌&&◌, length, map, false, true, Some, IsSome, if◌then◌else◌};
ghost use Rattle.live_range.specs.Names.{marks_of};
ghost use Rattle.live_range.specs.Rows.{pair_at, point_at, listed_at, Lists};

use crate::nodes::Nodes;
use crate::pairs::{pair_of, point_of, put_point};
use crate::places::{Pair, Places, Point};

fn enter_pair(nodes: &mut Nodes, number: u8, pair: Pair)
    requires number { number < 32 }
    requires room { length nodes.old + 2 ≤ 128 }
    ensures listed { (l r : ℕ) → listed_at nodes.new l r
        ≡ (if l == pair.focus.label && r == 2 * number + 1
        then true else if l == pair.anchor.label && r == 2 * number then true
        else listed_at nodes.old l r) }
    ensures labels { length nodes.new ≤ length nodes.old + 2 }
{
    nodes.enter(pair.anchor.label, 2 * number);
    nodes.enter(pair.focus.label, 2 * number + 1);
}

fn leave_pair(nodes: &mut Nodes, number: u8, pair: Pair)
    requires { number < 32 }
    ensures listed { (l r : ℕ) → r < 64 → listed_at nodes.new l r
        ≡ (if l == pair.focus.label && r == 2 * number + 1 then false else if l == pair.anchor.label
        && r == 2 * number then false else listed_at nodes.old l r) }
    ensures labels { length nodes.new ≡ length nodes.old }
{
    nodes.leave(pair.anchor.label, 2 * number);
    nodes.leave(pair.focus.label, 2 * number + 1);
}

// Lists all rows anew, and takes no memory.
pub(crate) fn list_all(nodes: &mut Nodes, places: &Places)
    requires { places.now.count ≤ 16 }
    ensures listed { Lists places.now nodes.new }
    ensures labels { length nodes.new ≤ 36 }
{
    nodes.clear();
    for number in 0..places.count + 2 {
        match pair_of(places, number) {
            Some(pair) => enter_pair(nodes, number, pair),
            None => {}
        }
    }
}

// Lists the rows of a pair that was another before, or none, and takes no memory.
pub(crate) fn list_pair(nodes: &mut Nodes, places: &Places, number: u8, was: Option<Pair>)
    requires few { places.now.count ≤ 16 }
    requires number { number < 32 }
    ensures listed { (before : Places) → Lists before nodes.old → pair_at before number ≡ was
        → ((k : ℕ) → (k == number) ≡ false → pair_at places.now k ≡ pair_at before k)
        → Lists places.now nodes.new }
    ensures labels { length nodes.new ≤ length nodes.old + 2 }
{
    if !nodes.has_room(2) {
        list_all(nodes, places);
        return;
    }
    match was {
        Some(pair) => leave_pair(nodes, number, pair),
        None => {}
    }
    match pair_of(places, number) {
        Some(pair) => enter_pair(nodes, number, pair),
        None => {}
    }
}

// Changes the point of a row, and lists the row where the point then stands.
pub(crate) fn move_point(places: &mut Places, nodes: &mut Nodes, row: u8, point: Point)
    requires few { places.old.count ≤ 16 }
    requires row { row < 64 }
    requires there { IsSome (point_at places.old row) }
    requires listed { Lists places.old nodes.old }
    ensures points { (r : ℕ) → point_at places.new r
        ≡ (if r == row then Some point else point_at places.old r) }
    ensures names { map (λ m. m.name) (marks_of places.new)
        ≡ map (λ m. m.name) (marks_of places.old) }
    ensures count { places.new.count ≡ places.old.count }
    ensures listed { Lists places.new nodes.new }
    ensures labels { length nodes.new ≤ length nodes.old + 1 }
{
    let was = point_of(places, row).unwrap().label;
    put_point(places, row, point);
    if was == point.label {
        return;
    }
    if nodes.has_room(1) {
        nodes.leave(was, row);
        nodes.enter(point.label, row);
    } else {
        list_all(nodes, places);
    }
}
