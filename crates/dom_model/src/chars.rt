//! The characters of a text.

ghost use Rattle.std.specs.Prelude.{◌≡◌, ◌+◌, ◌-◌, ◌≤◌, [], length, vec_capacity, IfOk};
ghost use Rattle.std.specs.Str.{chars};
ghost use Rattle.dom_model.specs.Room.{room_of, spliced, CanSplice};

use std::alloc::{AllocError, Global};
use std::marker::Model;

/// How many characters a text of this length has room for.
pub fn room(len: usize) -> usize
    ensures room { result ≡ room_of len }
    ensures fits { len ≤ result }
{
    if len == 0 || len >= 1 << 32 {
        return len;
    }
    let mut room = 6usize;
    let mut left = 100usize;
    while left > 0 {
        if len <= room {
            return room;
        }
        room += room / 4;
        left -= 1;
    }
    len
}

/// A list of characters: the data of a text or a comment, or the value of an attribute. It has at
/// least the [`room`] of its length, so that texts with the same room take each other's place
/// without memory.
#[derive(Drop)]
pub struct Chars {
    items: Vec<char>,
}

impl Model for Chars {
    ghost use Rattle.std.specs.Prelude.{ℕ, List, ◌≤◌, length, vec_capacity};
    ghost use Rattle.std.specs.Coded.{coded_list, coded_ℕ};
    ghost use Rattle.dom_model.specs.Room.{room_of};

    ghost Value = { List ℕ };

    ghost coded = { coded_list coded_ℕ };

    ghost view = { λ t. t.items.items };

    ghost invariant = { λ t. room_of (length t.items.items) ≤ vec_capacity t.items };
}

impl Chars {
    /// A text without characters.
    pub fn new(alloc: Global) -> Chars
        ensures { result ≡ [] }
    {
        Chars {
            items: Vec::new(alloc),
        }
    }

    /// The characters of a `Vec`, which is taken over. It takes memory where the `Vec` lacks room.
    pub fn from_vec(items: Vec<char>) -> Result<Chars, AllocError>
        ensures { IfOk result (λ text. text ≡ items.items) }
    {
        let mut items = items;
        let len = items.len();
        items.reserve_exact(room(len) - len)?;
        Ok(Chars { items })
    }

    /// The characters of a `Vec` with their room, which is taken over.
    pub fn from_roomy(items: Vec<char>) -> Chars
        requires { room_of (length items.items) ≤ vec_capacity items }
        ensures { result ≡ items.items }
    {
        Chars { items }
    }

    /// The characters of a slice.
    pub fn from_slice(alloc: Global, items: &[char]) -> Result<Chars, AllocError>
        ensures { IfOk result (λ text. text ≡ items.now) }
    {
        let mut copied = Vec::with_capacity(alloc, room(items.len()))?;
        copied.extend_from_slice(items)?;
        Ok(Chars { items: copied })
    }

    /// The characters of a string.
    #[tactic(auto, using(std::proofs::lemmas::Str::chars_from_encodes))]
    pub fn from_text(alloc: Global, text: &str) -> Result<Chars, AllocError>
        ensures { IfOk result (λ collected. collected ≡ chars text.now) }
    {
        Chars::from_vec(text.chars().collect(alloc)?)
    }

    /// The characters as a slice.
    pub fn as_slice(&self) -> &[char]
        ensures { result.now ≡ self.now }
    {
        self.items.as_slice()
    }

    /// How many characters there are.
    pub fn len(&self) -> usize
        ensures { result ≡ length self.now }
    {
        self.items.len()
    }

    /// The characters as a `Vec`, with their room.
    pub fn into_vec(self) -> Vec<char>
        ensures items { result.items ≡ self }
        ensures room { room_of (length self) ≤ vec_capacity result }
    {
        self.items
    }

    /// Replaces `count` characters from the offset `at` on, in place.
    pub fn splice(&mut self, at: usize, count: usize, put: &[char])
        requires { CanSplice self.old at count put.now }
        ensures { self.new ≡ spliced self.old at count put.now }
    {
        let shared = count.min(put.len());
        overwrite(&mut self.items, at, &put[..shared]);
        take_out(&mut self.items, at + shared, count - shared);
        put_in(&mut self.items, at + shared, &put[shared..]);
    }
}

// Writes characters over as many others.
fn overwrite(items: &mut Vec<char>, at: usize, put: &[char])
    requires { at + length put.now ≤ length items.old.items }
    ensures items { items.new.items ≡ spliced items.old.items at (length put.now) put.now }
    ensures capacity { vec_capacity items.new ≡ vec_capacity items.old }
{
    items[at..at + put.len()].copy_from_slice(put);
}

// Takes characters out.
fn take_out(items: &mut Vec<char>, at: usize, count: usize)
    requires { at + count ≤ length items.old.items }
    ensures items { items.new.items ≡ spliced items.old.items at count [] }
    ensures capacity { vec_capacity items.new ≡ vec_capacity items.old }
{
    if count > 0 {
        items[at..].rotate_left(count);
        let len = items.len() - count;
        items.truncate(len);
    }
}

// Puts characters in, for which there is room.
fn put_in(items: &mut Vec<char>, at: usize, put: &[char])
    requires within { at ≤ length items.old.items }
    requires room { length items.old.items + length put.now ≤ vec_capacity items.old }
    ensures items { items.new.items ≡ spliced items.old.items at 0 put.now }
    ensures capacity { vec_capacity items.old ≤ vec_capacity items.new }
{
    if !put.is_empty() {
        items.extend_from_slice(put).unwrap();
        items[at..].rotate_right(put.len());
    }
}

impl Clone for Chars {
    ghost is_clone = { λ a b. b ≡ a };

    fn clone(&self) -> Result<Chars, AllocError> {
        Chars::from_slice(*self.items.allocator(), self.items.as_slice())
    }
}
