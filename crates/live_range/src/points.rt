//! All live points, and what edits and callers do to them.
ghost use Rattle.std.specs.Prelude.{◌≡◌, ◌+◌, ◌<◌, ◌≤◌, [], ◌∷◌, ◌++◌, ◌↔◌, ℕ, List, None, Some, Err, length, position, slice_get, IsTrue, IfOk, OnOk, OnErr, false};
ghost use Rattle.std.specs.Option.{option_map};
ghost use Rattle.std.specs.Str.{bytes_eq};
ghost use Rattle.std.specs.List.{remove};
ghost use Rattle.indexmap.specs.IndexSet.{insert_key};
ghost use Rattle.live_range.specs.PointsEdit.{Insert, Remove, Move, Replace, Split, Grown, has_label, named_nodes};
ghost use Rattle.live_range.specs.Adjustments.{edit_of};
ghost use Rattle.live_range.specs.LivePoints.{Fits, IsValid, TellsAlike, labels_of, mapped, no_points, points_at, standing, has_mark, with_mark, without_mark, with_value_at};
ghost use Rattle.live_range.specs.Names.{shown, IsOver};

use crate::adjust::Adjustment;
use crate::listing::{list_all, list_pair};
use crate::marks::{find_mark, mark_count, mark_of, push_mark, remove_mark, set_pair};
use crate::names::Names;
use crate::nodes::Nodes;
use crate::pairs::pair_of;
use crate::places::{MarkPlace, Pair, Places, Point};
use crate::standing::{Labels, standing_labels, stands_in};
use std::alloc::{AllocError, Global};
use std::marker::{Brand, Model};
use std::mem::replace;
use std::sync::ledger::{Blank, Ledger};
use step_count::Steps;
use thiserror::Error;

const NOWHERE: Point = Point {
    label: 0,
    offset: 0,
};

const UNUSED: MarkPlace = MarkPlace {
    name: 0,
    pair: Pair {
        anchor: NOWHERE,
        focus: NOWHERE,
    },
};

/// Why a mark was not set.
#[derive(Clone, Copy, PartialEq, Eq, Debug, Drop, Error)]
pub enum MarkFault {
    /// 16 marks of other names are there.
    #[error("16 marks of other names are there already")]
    TooManyMarks,
    /// Memory ran out.
    #[error("out of memory")]
    Memory,
}

/// The selection, one scratch pair, and at most 16 marks, each a pair of points under a name.
#[derive(Drop)]
pub struct Points {
    places: Places,
    names: Names,
    nodes: Nodes,
}

impl Model for Points {
    ghost use Rattle.live_range.specs.LivePoints.{LivePoints};

    ghost Value = { LivePoints };

    ghost use Rattle.live_range.specs.Names.{shown};
    ghost use Rattle.live_range.specs.Rows.{AreSoundRows};

    ghost view = { λ p. shown p.names p.places };

    ghost invariant = { λ p. AreSoundRows p.names p.places p.nodes };
}

impl From<AllocError> for MarkFault {
    ghost use Rattle.std.specs.Prelude.{◌≡◌};
    ghost use Rattle.live_range.specs.declared.points.MarkFault.TheVariants.{Memory};

    ghost from_gives = { λ _ fault. fault ≡ Memory };

    fn from(_: AllocError) -> MarkFault {
        MarkFault::Memory
    }
}

fn empty_places() -> Places
    ensures pairs { (result.selection ≡ None) × (result.scratch ≡ None) }
    ensures count { result.count ≡ 0 }
{
    Places {
        selection: None,
        scratch: None,
        marks: [UNUSED; 16],
        count: 0,
    }
}

impl Points {
    /// No selection, no scratch pair and no marks, with the room that all later changes of points
    /// need.
    pub fn new(alloc: Global) -> Result<Points, AllocError>
        ensures { IfOk result (λ p. p ≡ no_points) }
    {
        let nodes = Nodes::new(alloc)?;
        Ok(Points {
            places: empty_places(),
            names: Names::new(alloc),
            nodes,
        })
    }

    /// What holds of all kept points. It does nothing.
    pub fn valid(&self)
        ensures { IsValid self.now }
    {
        self.names.valid();
    }

    /// The anchor and the focus of the selection, if there is one.
    pub fn selection(&self) -> Option<Pair>
        ensures { result ≡ self.now.selection }
    {
        self.places.selection
    }

    /// Sets the anchor and the focus of the selection, or takes the selection out.
    pub fn set_selection(&mut self, pair: Option<Pair>)
        ensures { self.new ≡ record self.old { selection = pair } }
    {
        let was = replace(&mut self.places.selection, pair);
        list_pair(&mut self.nodes, &self.places, 0, was);
    }

    /// The pair of points that a command keeps for itself while it edits, if it has set one.
    pub fn scratch(&self) -> Option<Pair>
        ensures { result ≡ self.now.scratch }
    {
        self.places.scratch
    }

    /// Sets that pair of points.
    pub fn set_scratch(&mut self, pair: Pair)
        ensures { self.new ≡ record self.old { scratch = Some pair } }
    {
        let was = replace(&mut self.places.scratch, Some(pair));
        list_pair(&mut self.nodes, &self.places, 1, was);
    }

    /// The name and the points of the mark at `place`, in the order in which the marks were made.
    pub fn mark_at(&self, place: usize) -> Option<(&[u8], Pair)>
        ensures { option_map (λ m. (m.0.now, m.1)) result ≡ slice_get self.now.marks place }
    {
        let mark = mark_of(&self.places, place)?;
        Some((self.names.at(mark.name), mark.pair))
    }

    // The place of the mark of that name.
    fn place_of(&self, name: &[u8]) -> Option<usize>
        ensures { result ≡ position (λ m. bytes_eq name.now m.0) self.now.marks }
    {
        self.names.valid();
        match self.names.position(name) {
            Some(known) => find_mark(&self.places, known),
            None => None,
        }
    }

    fn change_mark(&mut self, place: usize, pair: Pair)
        requires { place < length self.old.marks }
        ensures { self.new ≡ record self.old { marks = with_value_at self.old.marks place pair } }
    {
        self.valid();
        let number = place as u8 + 2;
        let was = pair_of(&self.places, number);
        set_pair(&mut self.places, place, pair);
        list_pair(&mut self.nodes, &self.places, number, was);
    }

    fn remove_mark(&mut self, place: usize)
        requires { place < length self.old.marks }
        ensures { self.new ≡ record self.old { marks = remove self.old.marks place } }
    {
        remove_mark(&mut self.places, place);
        list_all(&mut self.nodes, &self.places);
    }

    fn add_mark(&mut self, name: &[u8], pair: Pair) -> Result<(), MarkFault>
        requires { has_mark name.now self.old ≡ false }
        ensures added { OnOk result (self.new ≡ record self.old {
          marks = self.old.marks ++ (name.now, pair) ∷ [];
          names = insert_key bytes_eq self.old.names name.now;
        }) }
        ensures too_many { (result ≡ Err MarkFault.TooManyMarks) ↔ (length self.old.marks ≡ 16) }
        ensures err { OnErr result (self.new ≡ self.old) }
    {
        if mark_count(&self.places) == 16 {
            return Err(MarkFault::TooManyMarks);
        }
        let name = self.names.meet(name)?;
        let number = self.places.count + 2;
        push_mark(&mut self.places, MarkPlace { name, pair });
        list_pair(&mut self.nodes, &self.places, number, None);
        Ok(())
    }

    /// Gives the name to the pair. A mark of that name keeps its place, and a new one goes last.
    pub fn set_mark(&mut self, name: &[u8], pair: Pair) -> Result<(), MarkFault>
        ensures set { OnOk result (self.new ≡ with_mark name.now pair self.old) }
        ensures too_many { (result ≡ Err MarkFault.TooManyMarks)
            ↔ ((length self.old.marks ≡ 16) × (has_mark name.now self.old ≡ false)) }
        ensures err { OnErr result (self.new ≡ self.old) }
    {
        self.valid();
        match self.place_of(name) {
            Some(place) => {
                self.change_mark(place, pair);
                Ok(())
            }
            None => self.add_mark(name, pair),
        }
    }

    /// Takes the name's mark out, and answers whether there was one.
    pub fn unset_mark(&mut self, name: &[u8]) -> bool
        ensures answer { result ≡ has_mark name.now self.old }
        ensures unset { self.new ≡ without_mark name.now self.old }
    {
        match self.place_of(name) {
            Some(place) => {
                self.remove_mark(place);
                true
            }
            None => false,
        }
    }

    /// The places of all points, by which `set_places` brings them back.
    pub fn places(&self) -> Places
        ensures shown { shown self.now.names result ≡ self.now }
        ensures over { IsOver self.now.names result }
    {
        self.places
    }

    /// Puts all points at the places. The names that were met stay.
    pub fn set_places(&mut self, places: &Places)
        requires { IsOver self.old.names places.now }
        ensures { self.new ≡ shown self.old.names places.now }
    {
        self.places = *places;
        list_all(&mut self.nodes, &self.places);
    }

    /// Whether a point stands at the node of that label.
    pub fn stands_at(&self, label: u32) -> bool
        ensures { result ≡ has_label (labels_of self.now) label }
    {
        stands_in(&self.places, label)
    }

    /// The labels of the nodes at which a point stands.
    pub fn standing(&self) -> Labels
        ensures { result ≡ standing self.now }
    {
        standing_labels(&self.places)
    }

    // The steps are as many as points stand at the nodes that the edit names, however many others
    // there are.
    fn adjust_counted<L: Ledger>(&mut self, edit: &Adjustment, steps: &mut Steps<L>)
        requires { Fits (edit_of edit.now) self.old }
        ensures adjusted { self.new ≡ mapped (edit_of edit.now) self.old }
        ensures steps { steps.new
            ≡ steps.old + points_at (named_nodes (edit_of edit.now)) self.old }
    {
        edit.places(&mut self.places, &mut self.nodes, steps);
    }

    fn adjust_by<L: Ledger>(&mut self, edit: &Adjustment, blank: Blank)
        requires name { blank.name ≡ L.name }
        requires parts { blank.parts ≡ L.parts }
        requires some { 0 < blank.parts }
        requires fits { Fits (edit_of edit.now) self.old }
        ensures { self.new ≡ mapped (edit_of edit.now) self.old }
    {
        self.adjust_counted(edit, &mut Steps::<L>::open(blank));
    }

    fn adjust(&mut self, edit: &Adjustment)
        requires { Fits (edit_of edit.now) self.old }
        ensures { self.new ≡ mapped (edit_of edit.now) self.old }
    {
        self.adjust_by::<Brand>(edit, Blank::new(1));
    }

    /// A node was put into `parent` at `index`.
    pub fn inserted(&mut self, parent: u32, index: u32)
        requires { Fits (Insert parent index) self.old }
        ensures { self.new ≡ mapped (Insert parent index) self.old }
    {
        self.adjust(&Adjustment::Insert { parent, index });
    }

    /// A tree was taken out of `parent` at `index`. Of each label at which a point stands `gone`
    /// has to tell whether it is of that tree; other labels may be in it or not.
    pub fn removed(&mut self, gone: &[u32], parent: u32, index: u32)
        ensures { (tree : List ℕ) → TellsAlike self.old gone.now tree → self.new
            ≡ mapped (Remove tree parent index) self.old }
    {
        self.adjust(&Adjustment::Remove {
            gone,
            parent,
            index,
        });
    }

    /// A node was taken from one parent and place to another. The offset of `to` counts its new
    /// parent's children without it. Points inside the node stay where they are.
    pub fn moved(&mut self, from: Point, to: Point)
        requires { Fits (Move from to) self.old }
        ensures { self.new ≡ mapped (Move from to) self.old }
    {
        self.adjust(&Adjustment::Move { from, to });
    }

    /// In a text or a comment `taken` characters at `at` gave way to `put` others.
    pub fn replaced(&mut self, node: u32, at: u32, taken: u32, put: u32)
        requires { Fits (Replace node at taken put) self.old }
        ensures { self.new ≡ mapped (Replace node at taken put) self.old }
    {
        self.adjust(&Adjustment::Replace {
            node,
            at,
            taken,
            put,
        });
    }

    /// The characters of the text `node` past `at` went to the new text `tail` (DOM Standard,
    /// "split a Text node"), which stands right after `node` in `parent`. `index` is that of
    /// `node`.
    pub fn split(&mut self, node: u32, at: u32, tail: u32, parent: u32, index: u32)
        requires { Fits (Split node at tail parent index) self.old }
        ensures { self.new ≡ mapped (Split node at tail parent index) self.old }
    {
        self.adjust(&Adjustment::Split {
            node,
            at,
            tail,
            parent,
            index,
        });
    }

    /// Each point at the place moves on by one.
    pub fn grown(&mut self, at: Point)
        requires { Fits (Grown at) self.old }
        ensures { self.new ≡ mapped (Grown at) self.old }
    {
        self.adjust(&Adjustment::Grown { at });
    }
}
