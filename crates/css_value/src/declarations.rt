//! The declarations of a style, in order.

ghost use Rattle.std.specs.Prelude.{◌≡◌, ℕ, List, [], ◌++◌, IfOk, IfSome, OnOk, OnErr, Some, None, MatchOption, ◌<◌, ◌∷◌, length, slice_get, bytes_eq};
ghost use Rattle.std.specs.Option.{option_copied, option_map};
ghost use Rattle.std.specs.List.{remove, IsDistinct};
ghost use Rattle.css_value.specs.StyleText as spec;
ghost use Rattle.css_value.specs.DeclarationList.{declarations_in, value_of, set_in, unset_in, set_property, text_of, reads_back, names_of, gap, printed};
ghost use Rattle.css_value.specs.DeclarationMap.{declarations_of, is_entry, IsPlaced};

use crate::style_text::{declared_in, first_stated, has_codes, is_named, piece_len, trimmed};
use crate::value_text::chars_of;
use std::alloc::{AllocError, AllocFailed, Global};
use std::collections::BTreeMap;
use std::marker::Model;

// A property's name and its value.
type Pair = (Vec<char>, Vec<char>);

// The places of names. They are found by the order of the names, and not by a hash, so that no
// choice of names makes a look-up long.
type Places = BTreeMap<Vec<char>, usize>;

/// The declarations of a style: property names, which are distinct, with their values, in order.
/// Names are in lower case. Each declaration is one that its own text, `name: value`, would give
/// back.
#[derive(Drop)]
pub struct Declarations {
    alloc: Global,
    list: Vec<Pair>,
}

impl Model for Declarations {
    ghost use Rattle.std.specs.Prelude.{List};
    ghost use Rattle.css_value.specs.StyleText.{Declaration};
    ghost use Rattle.css_value.specs.DeclarationMap.{IsStyle, declarations_of};

    ghost Value = { List Declaration };

    ghost view = { λ d. declarations_of d.list.items };

    ghost invariant = { λ d. IsStyle (declarations_of d.list.items) };
}

// Gives the declaration at a place another value.
fn write(list: &mut Vec<Pair>, place: usize, value: Vec<char>)
    ensures names { names_of (declarations_of list.new.items)
        ≡ names_of (declarations_of list.old.items) }
    ensures values { (name : List ℕ)
        → IsDistinct bytes_eq (names_of (declarations_of list.old.items))
        → slice_get (names_of (declarations_of list.old.items)) place ≡ Some name
        → declarations_of list.new.items
        ≡ set_in (declarations_of list.old.items) name value.items }
{
    if let Some(pair) = list.get_mut(place) {
        pair.1 = value;
    }
}

// Adds a declaration.
fn push(list: &mut Vec<Pair>, name: Vec<char>, value: Vec<char>) -> Result<(), AllocError>
    ensures ok { OnOk result (declarations_of list.new.items
        ≡ declarations_of list.old.items
        ++ record { name = name.items; value = value.items } ∷ []) }
    ensures err { OnErr result (declarations_of list.new.items
        ≡ declarations_of list.old.items) }
{
    list.push((name, value))?;
    Ok(())
}

// Gives a name a value, whose place is known.
fn put(
    list: &mut Vec<Pair>,
    place: Option<usize>,
    name: Vec<char>,
    value: Vec<char>,
) -> Result<(), AllocError>
    requires distinct { IsDistinct bytes_eq (names_of (declarations_of list.old.items)) }
    requires place { MatchOption place (value_of (declarations_of list.old.items) name.items ≡ None)
        (λ i. slice_get (names_of (declarations_of list.old.items)) i ≡ Some name.items) }
    ensures ok { OnOk result (declarations_of list.new.items
        ≡ set_in (declarations_of list.old.items) name.items value.items) }
    ensures err { OnErr result (declarations_of list.new.items
        ≡ declarations_of list.old.items) }
{
    match place {
        Some(i) => write(list, i, value),
        None => push(list, name, value)?,
    }
    Ok(())
}

// Gives a name a value, where the places of the names are known, and notes the place of a new one.
fn declare(
    list: &mut Vec<Pair>,
    places: &mut Places,
    name: Vec<char>,
    value: Vec<char>,
) -> Result<(), AllocError>
    requires distinct { IsDistinct bytes_eq (names_of (declarations_of list.old.items)) }
    requires placed { IsPlaced places.old.entries (names_of (declarations_of list.old.items)) }
    ensures set { OnOk result (declarations_of list.new.items
        ≡ set_in (declarations_of list.old.items) name.items value.items) }
    ensures placed { OnOk result (IsPlaced places.new.entries
        (names_of (declarations_of list.new.items))) }
{
    match places.get(&name) {
        Some(place) => {
            let place = *place;
            write(list, place, value);
        }
        None => {
            let key = Vec::from_slice(*list.allocator(), name.as_slice())?;
            places.insert(key, list.len())?;
            push(list, name, value)?;
        }
    }
    Ok(())
}

// The name and the value at a place.
fn pair_at(list: &Vec<Pair>, place: usize) -> (&Vec<char>, &Vec<char>)
    requires { place < length list.now.items }
    ensures { slice_get list.now.items place ≡ Some (result.0.now, result.1.now) }
{
    let (name, value) = &list[place];
    (name, value)
}

// Whether the declaration at a place has this name.
fn has_name(list: &Vec<Pair>, place: usize, name: &[u8]) -> bool
    requires { place < length list.now.items }
    ensures { result ≡ is_entry name.now (slice_get list.now.items place) }
{
    let (key, _) = pair_at(list, place);
    has_codes(key, name)
}

// The place of a name in a list.
fn place_of(list: &Vec<Pair>, name: &[u8]) -> Option<usize>
    ensures value { MatchOption result (value_of (declarations_of list.now.items) name.now ≡ None)
        (λ place. value_of (declarations_of list.now.items) name.now
        ≡ option_map (λ e. e.1.items) (slice_get list.now.items place)) }
    ensures left { MatchOption result (unset_in (declarations_of list.now.items) name.now
        ≡ declarations_of list.now.items) (λ place.
        unset_in (declarations_of list.now.items) name.now
        ≡ declarations_of (remove list.now.items place)) }
    ensures name { IfSome result
        (λ place. slice_get (names_of (declarations_of list.now.items)) place ≡ Some name.now) }
    ensures within { IfSome result (λ place. place < length list.now.items) }
{
    for place in 0..list.len() {
        if has_name(list, place, name) {
            return Some(place);
        }
    }
    None
}

// The characters of a text in lower case.
fn lowered(alloc: Global, text: &[char]) -> Result<Vec<char>, AllocError>
    ensures { IfOk result (λ name. name.items ≡ spec.lowered text.now) }
{
    text.iter().map(|c| c.to_ascii_lowercase()).collect(alloc)
}

// Appends `name: value`.
#[tactic(auto, unfolding(crate::specs::DeclarationList::text_of))]
fn push_text(text: &mut Vec<char>, name: &[char], value: &[char]) -> Result<(), AllocError>
    ensures { OnOk result (text.new.items ≡ text.old.items
        ++ text_of (record { name = name.now; value = value.now })) }
{
    text.extend_from_slice(name)?;
    text.extend_from_slice(&[':', ' '])?;
    text.extend_from_slice(value)?;
    Ok(())
}

// Appends `name: value;`, after a space unless it is the first.
fn push_declaration(
    text: &mut Vec<char>,
    name: &[char],
    value: &[char],
    is_first: bool,
) -> Result<(), AllocError>
    ensures { OnOk result (text.new.items ≡ text.old.items ++ (gap is_first ++ (text_of (record {
      name = name.now;
      value = value.now;
    }) ++ 59 ∷ []))) }
{
    if !is_first {
        text.push(' ')?;
    }
    push_text(text, name, value)?;
    text.push(';')?;
    Ok(())
}

// The text of a style attribute.
fn printed_list(alloc: Global, list: &Vec<Pair>) -> Result<Vec<char>, AllocError>
    ensures { IfOk result (λ text. text.items ≡ printed (declarations_of list.now.items)) }
{
    let mut text = Vec::new(alloc);
    for i in 0..list.len() {
        let (name, value) = pair_at(list, i);
        push_declaration(&mut text, name, value, i == 0)?;
    }
    Ok(text)
}

// Whether the text of a declaration would be read as that one declaration.
fn reads_as(text: &[char], name: &[u8], value: &[char]) -> bool
    requires { text.now ≡ text_of (record { name = name.now; value = value.now }) }
    ensures { result ≡ reads_back (record { name = name.now; value = value.now }) }
{
    if piece_len(text) < text.len() {
        return false;
    }
    match declared_in(text) {
        None => false,
        Some(found) => is_named(found.name, name) && found.value == value,
    }
}

impl Declarations {
    /// The declarations of a style text. Any text is one.
    pub fn read(alloc: Global, text: &[char]) -> Result<Declarations, AllocError>
        ensures { IfOk result (λ d. d ≡ declarations_in text.now) }
    {
        let mut list = Vec::new(alloc);
        let mut places = BTreeMap::new(alloc);
        let mut rest = text;
        while let Some((stated, after)) = first_stated(rest) {
            let name = lowered(alloc, stated.name)?;
            let value = Vec::from_slice(alloc, stated.value)?;
            declare(&mut list, &mut places, name, value)?;
            rest = after;
        }
        Ok(Declarations { alloc, list })
    }

    /// The value of a property, by its name in ASCII and in lower case.
    pub fn get(&self, name: &[u8]) -> Option<&[char]>
        ensures { option_copied result ≡ value_of self.now name.now }
    {
        let place = place_of(&self.list, name)?;
        let (_, value) = pair_at(&self.list, place);
        Some(value.as_slice())
    }

    /// Sets a property, by its name in ASCII and in lower case. One that is there keeps its place,
    /// a new one goes last. The value is trimmed; one that wouldn't be read back as it is under
    /// this name sets nothing.
    pub fn set(&mut self, name: &[u8], value: &[char]) -> Result<(), AllocError>
        ensures ok { OnOk result (self.new ≡ set_property self.old name.now value.now) }
        ensures err { OnErr result (self.new ≡ self.old) }
    {
        let value = trimmed(value);
        let key = chars_of(self.alloc, name)?;
        let mut text = Vec::new(self.alloc);
        push_text(&mut text, &key, value)?;
        if reads_as(&text, name, value) {
            let place = place_of(&self.list, name);
            let copied = Vec::from_slice(self.alloc, value)?;
            put(&mut self.list, place, key, copied)?;
        }
        Ok(())
    }

    /// Takes a property out, by its name in ASCII and in lower case; those after it move up.
    pub fn unset(&mut self, name: &[u8])
        ensures { self.new ≡ unset_in self.old name.now }
    {
        if let Some(place) = place_of(&self.list, name) {
            let _ = self.list.remove(place);
        }
    }

    /// The text of a style attribute: `name: value;` of each declaration, joined by one space.
    pub fn print(&self) -> Result<Vec<char>, AllocError>
        ensures text { IfOk result (λ text. text.items ≡ printed self.now) }
        ensures read_back { IfOk result (λ text. declarations_in text.items ≡ self.now) }
    {
        printed_list(self.alloc, &self.list)
    }
}
