//! Marks among the places, by the positions of their names.
ghost use Rattle.std.specs.Prelude.{◌≡◌, ◌+◌, ◌-◌, ◌==◌, ◌<◌, ◌≤◌, [], ◌∷◌, ◌++◌, length, position, take, slice_get};
ghost use Rattle.std.specs.List.{remove};
ghost use Rattle.live_range.specs.Names.{marks_of, with_pair};

use crate::places::{MarkPlace, Pair, Places};

pub(crate) fn mark_count(places: &Places) -> usize
    requires { places.now.count ≤ 16 }
    ensures marks { result ≡ length (marks_of places.now) }
    ensures count { result ≡ places.now.count }
{
    places.marks[..places.count as usize].len()
}

pub(crate) fn mark_of(places: &Places, place: usize) -> Option<MarkPlace>
    requires { places.now.count ≤ 16 }
    ensures { result ≡ slice_get (marks_of places.now) place }
{
    places.marks[..places.count as usize].get(place).copied()
}

// The place of the mark whose name stands at `name` in the list of names.
pub(crate) fn find_mark(places: &Places, name: usize) -> Option<usize>
    requires { places.now.count ≤ 16 }
    ensures { result ≡ position (λ m. m.name == name) (marks_of places.now) }
{
    places.marks[..places.count as usize]
        .iter()
        .position(|mark| mark.name == name)
}

pub(crate) fn set_pair(places: &mut Places, place: usize, pair: Pair)
    requires few { places.old.count ≤ 16 }
    requires there { place < places.old.count }
    ensures marks { marks_of places.new ≡ with_pair (marks_of places.old) place pair }
    ensures others { places.new ≡ record places.old { marks = places.new.marks } }
{
    places.marks[place].pair = pair;
}

pub(crate) fn push_mark(places: &mut Places, mark: MarkPlace)
    requires { places.old.count < 16 }
    ensures marks { marks_of places.new ≡ marks_of places.old ++ mark ∷ [] }
    ensures others { places.new
        ≡ record places.old { marks = places.new.marks; count = places.old.count + 1 } }
{
    places.marks[places.count as usize] = mark;
    places.count += 1;
}

// Takes out the mark at `place`, and moves the later ones up.
fn forget(marks: &mut [MarkPlace], place: usize)
    requires { place < length marks.old }
    ensures { take (length marks.old - 1) marks.new ≡ remove marks.old place }
{
    marks[place..].rotate_left(1);
}

pub(crate) fn remove_mark(places: &mut Places, place: usize)
    requires few { places.old.count ≤ 16 }
    requires there { place < places.old.count }
    ensures marks { marks_of places.new ≡ remove (marks_of places.old) place }
    ensures others { places.new
        ≡ record places.old { marks = places.new.marks; count = places.old.count - 1 } }
{
    let count = places.count as usize;
    forget(&mut places.marks[..count], place);
    places.count -= 1;
}
