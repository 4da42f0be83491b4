//! The labels of the nodes at which a point stands, in the order of the points.
ghost use Rattle.std.specs.Prelude.{◌≡◌, ◌+◌, ◌<◌, ◌≤◌, [], length, nat_eq};
ghost use Rattle.indexmap.specs.IndexSet.{insert_all, insert_key};
ghost use Rattle.live_range.specs.LivePoints.{option_labels, pair_labels};
ghost use Rattle.live_range.specs.PointsEdit.{has_label};
ghost use Rattle.live_range.specs.Names.{place_labels};

use crate::pairs::pair_of;
use crate::places::{Pair, Places};
use std::marker::Model;

// The selection's two points, the scratch pair's, and those of 16 marks.
const MOST_POINTS: usize = 36;

/// The labels of the nodes at which a point stands, each once, in the order of the points.
#[derive(Drop)]
pub struct Labels {
    list: [u32; MOST_POINTS],
    count: usize,
}

impl Model for Labels {
    ghost use Rattle.std.specs.Prelude.{ℕ, ◌≤◌, List, take};

    ghost Value = { List ℕ };

    ghost view = { λ l. take l.count l.list };

    ghost invariant = { λ l. l.count ≤ 36 };
}

impl Labels {
    fn none() -> Labels
        ensures { result ≡ [] }
    {
        Labels {
            list: [0; MOST_POINTS],
            count: 0,
        }
    }

    /// The labels as a slice.
    pub fn as_slice(&self) -> &[u32]
        ensures list { result.now ≡ self.now }
        ensures few { length result.now ≤ 36 }
    {
        &self.list[..self.count]
    }

    // The label goes last, if it isn't there.
    fn meet(&mut self, label: u32)
        requires { length self.old < 36 }
        ensures met { self.new ≡ insert_key nat_eq self.old label }
        ensures few { length self.new ≤ length self.old + 1 }
    {
        if !self.as_slice().contains(&label) {
            self.list[self.count] = label;
            self.count += 1;
        }
    }

    fn meet_pair(&mut self, pair: Pair)
        requires { length self.old + 2 ≤ 36 }
        ensures met { self.new ≡ insert_all nat_eq self.old (pair_labels pair) }
        ensures few { length self.new ≤ length self.old + 2 }
    {
        self.meet(pair.anchor.label);
        self.meet(pair.focus.label);
    }
}

pub(crate) fn standing_labels(places: &Places) -> Labels
    requires { places.now.count ≤ 16 }
    ensures { result ≡ insert_all nat_eq [] (place_labels places.now) }
{
    let mut labels = Labels::none();
    for number in 0..places.count + 2 {
        match pair_of(places, number) {
            Some(pair) => labels.meet_pair(pair),
            None => {}
        }
    }
    labels
}

// Whether a point of a pair stands at the node of a label.
fn is_at(pair: Option<Pair>, label: u32) -> bool
    ensures { result ≡ has_label (option_labels pair) label }
{
    match pair {
        Some(pair) => pair.anchor.label == label || pair.focus.label == label,
        None => false,
    }
}

// Whether a point stands at the node of a label. There are few points, mostly four, so to look at
// each costs less than to look the label up.
pub(crate) fn stands_in(places: &Places, label: u32) -> bool
    requires { places.now.count ≤ 16 }
    ensures { result ≡ has_label (place_labels places.now) label }
{
    for number in 0..places.count + 2 {
        if is_at(pair_of(places, number), label) {
            return true;
        }
    }
    false
}
