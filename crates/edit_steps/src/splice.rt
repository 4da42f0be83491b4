//! Steps that replace characters of a node in place.

ghost use Rattle.std.specs.Prelude.{◌≡◌, ◌<◌, ◌+◌, ◌^◌, ◌≤◌, [], true, unwrap_or, length, vec_capacity, IfOk};
ghost use Rattle.forest_changes.specs.DomModel.Contents.{chars_of, has_chars_at, with_chars};
ghost use Rattle.forest_changes.specs.DomModel.Revised.{revised};
ghost use Rattle.forest_changes.specs.DomModel.Room.{room_of};
ghost use Rattle.node_arena.specs.Held.{Holds};
ghost use Rattle.forest_changes.specs.Change.{spliced_at};
ghost use Rattle.edit_steps.specs.Splice.{HasExchangeRoom, splice_of};
ghost use Rattle.edit_steps.specs.Step.{StepFits, step_applied, step_inverse};
ghost use Rattle.edit_steps.specs.declared.step.Step.TheVariants as step;

use forest_changes::dom::room;
use node_arena::{Arena, Chars, NodeRef};
use std::alloc::{AllocError, Global};
use std::marker::Model;
use std::mem::{replace, swap};

/// Characters of a Text or Comment node that give way to others. It takes all memory that it needs
/// when it is made, to be applied any number of times.
#[derive(Drop)]
pub struct Splice {
    node: NodeRef,
    at: u32,
    rest: u32,
    texts: Texts,
}

// What goes and what comes. One character takes no memory of its own.
#[derive(Drop)]
enum Texts {
    Typed(char),
    Gone(char),
    Exchanged(Box<Exchange>),
}

#[derive(Drop)]
struct Exchange {
    taken: Vec<char>,
    put: Vec<char>,
    // where the text is built whose room is another afterwards
    spare: Vec<char>,
}

impl Exchange {
    // Replaces the characters of a node between `at` that stay before them and `rest` behind, and
    // becomes what takes that back.
    fn apply(&mut self, arena: &mut Arena, node: NodeRef, at: u32, rest: u32)
        requires fits { StepFits (step.Splice (splice_of node at rest self.old)) arena.old }
        requires room { HasExchangeRoom at rest self.old }
        ensures arena { arena.new
            ≡ step_applied (step.Splice (splice_of node at rest self.old)) arena.old }
        ensures taken { self.new.taken.items ≡ self.old.put.items }
        ensures put { self.new.put.items ≡ self.old.taken.items }
        ensures room { HasExchangeRoom at rest self.new }
    {
        let stays = at as usize + rest as usize;
        if room(stays + self.taken.len()) == room(stays + self.put.len()) {
            arena.splice_words(node, at as usize, self.taken.len(), self.put.as_slice());
        } else {
            self.rebuild(arena, node, at as usize);
        }
        swap(&mut self.taken, &mut self.put);
    }

    // Builds the text in the spare one. That becomes the node's, and the node's the spare one.
    fn rebuild(&mut self, arena: &mut Arena, node: NodeRef, at: usize)
        requires held { Holds arena.old node }
        requires chars { has_chars_at arena.old.trees node.label ≡ true }
        requires within { at + length self.old.taken.items
            ≤ length (unwrap_or (chars_of arena.old.trees node.label) []) }
        requires short { length (spliced_at arena.old.trees node.label at
            (length self.old.taken.items) self.old.put.items) < 2 ^ 32 }
        requires spare { room_of (length (spliced_at arena.old.trees node.label at
            (length self.old.taken.items) self.old.put.items)) ≤ vec_capacity self.old.spare }
        ensures arena { arena.new ≡ record arena.old {
          trees = revised arena.old.trees node.label (with_chars (spliced_at arena.old.trees
              node.label at (length self.old.taken.items) self.old.put.items));
        } }
        ensures taken { self.new.taken ≡ self.old.taken }
        ensures put { self.new.put ≡ self.old.put }
        ensures spare { room_of (length (unwrap_or (chars_of arena.old.trees node.label) []))
            ≤ vec_capacity self.new.spare }
    {
        let alloc = *self.spare.allocator();
        let mut built = replace(&mut self.spare, Vec::new(alloc));
        built.clear();
        let words = arena.words(node).as_slice();
        built.extend_from_slice(&words[..at]).unwrap();
        built.extend_from_slice(self.put.as_slice()).unwrap();
        built
            .extend_from_slice(&words[at + self.taken.len()..])
            .unwrap();
        let mut built = Chars::from_roomy(built);
        arena.swap_words(node, &mut built);
        self.spare = built.into_vec();
    }
}

impl Model for Splice {
    ghost use Rattle.edit_steps.specs.Splice.{TextSplice, taken_of, put_of, HasRoom};

    ghost Value = { TextSplice };

    ghost view = { λ s. record {
      node = s.node;
      at = s.at;
      rest = s.rest;
      taken = taken_of s.texts;
      put = put_of s.texts;
    } };

    ghost invariant = { λ s. HasRoom s.at s.rest s.texts };
}

impl Splice {
    /// Between `at` characters of a node before them and `rest` behind, `taken` give way to `put`.
    pub fn new(
        alloc: Global,
        node: NodeRef,
        at: u32,
        rest: u32,
        taken: &[char],
        put: &[char],
    ) -> Result<Splice, AllocError>
        requires before { at + (length taken.now + rest) < 2 ^ 32 }
        requires after { at + (length put.now + rest) < 2 ^ 32 }
        ensures { IfOk result (λ s. s ≡ record {
          node = node;
          at = at;
          rest = rest;
          taken = taken.now;
          put = put.now;
        }) }
    {
        let stays = at as usize + rest as usize;
        let before = room(stays + taken.len());
        let after = room(stays + put.len());
        let texts = match (taken, put) {
            ([], [typed]) if before == after => Texts::Typed(*typed),
            ([gone], []) if before == after => Texts::Gone(*gone),
            _ => {
                let spare = if before == after {
                    Vec::new(alloc)
                } else {
                    Vec::with_capacity(alloc, after)?
                };
                let exchange = Exchange {
                    taken: Vec::from_slice(alloc, taken)?,
                    put: Vec::from_slice(alloc, put)?,
                    spare,
                };
                Texts::Exchanged(Box::new(alloc, exchange)?)
            }
        };
        Ok(Splice {
            node,
            at,
            rest,
            texts,
        })
    }

    /// The node.
    pub fn node(&self) -> NodeRef
        ensures { result ≡ self.now.node }
    {
        self.node
    }

    /// How many characters stay before those that go.
    pub fn at(&self) -> u32
        ensures { result ≡ self.now.at }
    {
        self.at
    }

    /// How many characters go.
    pub fn taken_len(&self) -> usize
        ensures { result ≡ length self.now.taken }
    {
        match &self.texts {
            Texts::Typed(_) => 0,
            Texts::Gone(_) => 1,
            Texts::Exchanged(exchange) => exchange.taken.len(),
        }
    }

    /// The characters that come.
    pub fn put(&self) -> &[char]
        ensures { result.now ≡ self.now.put }
    {
        match &self.texts {
            Texts::Typed(typed) => std::slice::from_ref(typed),
            Texts::Gone(_) => &[],
            Texts::Exchanged(exchange) => exchange.put.as_slice(),
        }
    }

    /// Replaces the characters, and becomes the step that takes that back.
    pub(crate) fn apply(&mut self, arena: &mut Arena)
        requires { StepFits (step.Splice self.old) arena.old }
        ensures arena { arena.new ≡ step_applied (step.Splice self.old) arena.old }
        ensures step { step.Splice self.new ≡ step_inverse (step.Splice self.old) arena.old }
    {
        let at = self.at as usize;
        match &mut self.texts {
            Texts::Typed(typed) => {
                let typed = *typed;
                arena.splice_words(self.node, at, 0, &[typed]);
                self.texts = Texts::Gone(typed);
            }
            Texts::Gone(gone) => {
                let gone = *gone;
                arena.splice_words(self.node, at, 1, &[]);
                self.texts = Texts::Typed(gone);
            }
            Texts::Exchanged(exchange) => exchange.apply(arena, self.node, self.at, self.rest),
        }
    }
}
