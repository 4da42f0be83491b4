//! The attribute list of an element.

ghost use Rattle.std.specs.Prelude.{◌≡◌, ℕ, ◌<◌, true, false, List, ◌++◌, ◌∷◌, None, Some, [], IfOk, IfSome, OnOk, OnErr, MatchOption, length, remove, slice_get, is_some, bytes_eq};
ghost use Rattle.std.specs.List.{AllByRecursion};
ghost use Rattle.std.specs.Option.{option_copied, option_map};
ghost use Rattle.std.specs.Map.{keys_of, values_of};
ghost use Rattle.dom_model.specs.AttributeList.{value_of, set_in, unset_in, names_of, IsDistinctNames};
ghost use Rattle.dom_model.specs.AttributeMap.{is_named, IsNumbered, IsKnown, IsAbove};

use crate::chars::Chars;
use crate::items::Name;
use indexmap::IndexMap;
use std::alloc::{AllocError, AllocFailed, Global};
use std::collections::BTreeMap;
use std::marker::Model;

// So many attributes are looked at in turn.
const FEW: usize = 8;

/// One attribute: its qualified name and its value.
#[derive(Drop)]
pub struct Attribute {
    pub name: Name,
    pub value: Chars,
}

impl Clone for Attribute {
    ghost is_clone = { λ a b. b ≡ a };

    fn clone(&self) -> Result<Attribute, AllocError> {
        Ok(Attribute {
            name: self.name.clone()?,
            value: self.value.clone()?,
        })
    }
}

type Rows = IndexMap<usize, Attribute>;

type Numbers = BTreeMap<Vec<u8>, usize>;

// Attributes in order. Each has a number, in the order in which they came, by which the map holds
// it: a hash is taken of numbers alone, and never of a name, so that no choice of names makes a
// look-up long.
#[derive(Drop)]
struct Listing {
    rows: Rows,
    // The number of the next attribute that comes.
    next: usize,
    // The number of each name, once there are more than a few, found by the order of the names.
    numbers: Option<Box<Numbers>>,
}

impl Model for Listing {
    ghost use Rattle.std.specs.Prelude.{List};
    ghost use Rattle.std.specs.Map.{values_of};
    ghost use Rattle.dom_model.specs.declared.attributes.Attribute.{Attribute};
    ghost use Rattle.dom_model.specs.AttributeMap.{IsListing};

    ghost Value = { List Attribute };

    ghost view = { λ l. values_of l.rows.entries };

    ghost invariant = { λ l. IsListing l.rows.entries l.next l.numbers };
}

/// An ordered list of attributes whose names are distinct. It takes no memory while it is empty.
#[derive(Drop)]
pub struct Attributes {
    alloc: Global,
    list: Option<Box<Listing>>,
}

impl Model for Attributes {
    ghost use Rattle.std.specs.Prelude.{List};
    ghost use Rattle.dom_model.specs.declared.attributes.Attribute.{Attribute};

    ghost Value = { List Attribute };

    ghost use Rattle.dom_model.specs.AttributeMap.{listed};

    ghost view = { λ a. listed a.list };
}

// The name and the value at a place of rows that has so many.
fn row_at<'a>(rows: &'a Rows, place: usize) -> (&'a [u8], &'a Chars)
    requires { place < length rows.now.entries }
    ensures { slice_get (values_of rows.now.entries) place ≡ Some (record {
      name = result.0.now;
      value = result.1.now;
    }) }
{
    match rows.get_index(place) {
        Some((_, row)) => (row.name.as_slice(), &row.value),
        None => unreachable!(),
    }
}

// The value of the row at a place.
fn value_at(rows: &Rows, place: usize) -> Option<&Chars>
    ensures { option_copied result
        ≡ option_map (λ a. a.value) (slice_get (values_of rows.now.entries) place) }
{
    match rows.get_index(place) {
        None => None,
        Some((_, row)) => Some(&row.value),
    }
}

// Whether the row at a place has this name.
fn is_at(rows: &Rows, place: usize, name: &[u8]) -> bool
    requires { place < length rows.now.entries }
    ensures { result ≡ is_named name.now (slice_get (values_of rows.now.entries) place) }
{
    let (own, _) = row_at(rows, place);
    name == own
}

// The place of a name, by a look at each row in turn.
fn scanned(rows: &Rows, name: &[u8]) -> Option<usize>
    ensures { MatchOption result (value_of (values_of rows.now.entries) name.now ≡ None)
        (λ place. is_named name.now (slice_get (values_of rows.now.entries) place) ≡ true) }
{
    for place in 0..rows.len() {
        if is_at(rows, place, name) {
            return Some(place);
        }
    }
    None
}

// The place of a number, where its row has this name.
fn numbered_at(rows: &Rows, number: usize, name: &[u8]) -> Option<usize>
    ensures { IfSome result
        (λ place. is_named name.now (slice_get (values_of rows.now.entries) place) ≡ true) }
{
    let place = rows.get_index_of(&number)?;
    if is_at(rows, place, name) {
        return Some(place);
    }
    None
}

// The place of a name. Where names are numbered, its number leads to its row.
fn place_of(rows: &Rows, numbers: &Option<Box<Numbers>>, name: &[u8]) -> Option<usize>
    requires { IsKnown numbers.now (names_of (values_of rows.now.entries)) }
    ensures { MatchOption result (value_of (values_of rows.now.entries) name.now ≡ None)
        (λ place. is_named name.now (slice_get (values_of rows.now.entries) place) ≡ true) }
{
    let number = match numbers {
        None => return scanned(rows, name),
        Some(tree) => match tree.get(name) {
            None => return None,
            Some(number) => *number,
        },
    };
    match numbered_at(rows, number, name) {
        Some(place) => Some(place),
        None => scanned(rows, name),
    }
}

// The numbers of the names of rows.
fn all_numbers(alloc: Global, rows: &Rows) -> Result<Numbers, AllocError>
    ensures { IfOk result
        (λ tree. IsNumbered tree.entries (names_of (values_of rows.now.entries))) }
{
    let mut tree = BTreeMap::new(alloc);
    for place in 0..rows.len() {
        let (number, row) = rows.get_index(place).unwrap();
        let name = Vec::from_slice(alloc, row.name.as_slice())?;
        tree.insert(name, *number)?;
    }
    Ok(tree)
}

// Numbers the names from the attribute on with which there are more than a few.
fn number_names(
    alloc: Global,
    rows: &Rows,
    numbers: &mut Option<Box<Numbers>>,
) -> Result<(), AllocError>
    requires { IsKnown numbers.old (names_of (values_of rows.now.entries)) }
    ensures { IsKnown numbers.new (names_of (values_of rows.now.entries)) }
{
    if numbers.is_none() && rows.len() >= FEW {
        *numbers = Some(Box::new(alloc, all_numbers(alloc, rows)?)?);
    }
    Ok(())
}

// Gives a name a number, where names are numbered.
fn number(
    alloc: Global,
    numbers: &mut Option<Box<Numbers>>,
    name: &[u8],
    number: usize,
) -> Result<(), AllocError>
    ensures own { OnOk result (IsKnown numbers.new (name.now ∷ [])) }
    ensures kept { (names : List (List ℕ)) → IsKnown numbers.old names → IsKnown numbers.new names }
{
    if let Some(tree) = numbers {
        let name = Vec::from_slice(alloc, name)?;
        tree.insert(name, number)?;
    }
    Ok(())
}

// Takes the number of a name away, where names are numbered.
fn unnumber(numbers: &mut Option<Box<Numbers>>, name: &[u8])
    ensures { (names : List (List ℕ)) → AllByRecursion (λ n. bytes_eq name.now n ≡ false) names
        → IsKnown numbers.old names → IsKnown numbers.new names }
{
    if let Some(tree) = numbers {
        let _ = tree.remove(name);
    }
}

// Gives back what a few rows don't need: a map makes room for nine at once.
fn slim(rows: &mut Rows)
    ensures { rows.new.entries ≡ rows.old.entries }
{
    if rows.len() <= FEW {
        rows.shrink_to_fit();
    }
}

// Adds a row.
fn push(rows: &mut Rows, number: usize, name: Name, value: Chars) -> Result<(), AllocError>
    requires above { IsAbove number rows.old.entries }
    ensures ok { OnOk result (rows.new.entries
        ≡ rows.old.entries ++ (number, record { name = name; value = value }) ∷ []) }
    ensures err { OnErr result (rows.new.entries ≡ rows.old.entries) }
{
    rows.insert(number, Attribute { name, value })?;
    slim(rows);
    Ok(())
}

// Gives the row at a place another value.
fn write(rows: &mut Rows, place: usize, value: Chars)
    ensures numbers { keys_of rows.new.entries ≡ keys_of rows.old.entries }
    ensures values { (name : List ℕ) → IsDistinctNames (values_of rows.old.entries)
        → is_named name (slice_get (values_of rows.old.entries) place) ≡ true
        → values_of rows.new.entries ≡ set_in (values_of rows.old.entries) name value }
{
    if let Some(row) = rows.get_index_mut(place) {
        row.value = value;
    }
}

// Takes the row at a place out.
fn take(rows: &mut Rows, place: usize)
    ensures left { rows.new.entries ≡ remove rows.old.entries place }
{
    let _ = rows.shift_remove_index(place);
}

impl Listing {
    fn new(alloc: Global) -> Listing
        ensures { result ≡ [] }
    {
        Listing {
            rows: IndexMap::new(alloc),
            next: 0,
            numbers: None,
        }
    }

    fn copy(&self, alloc: Global) -> Result<Listing, AllocError>
        ensures { IfOk result (λ copied. copied ≡ self.now) }
    {
        let rows = self.rows.clone()?;
        let mut numbers = None;
        number_names(alloc, &rows, &mut numbers)?;
        Ok(Listing {
            rows,
            next: self.next,
            numbers,
        })
    }

    fn len(&self) -> usize
        ensures { result ≡ length self.now }
    {
        self.rows.len()
    }

    fn at(&self, place: usize) -> Option<(&[u8], &Chars)>
        ensures { option_map (λ pair. record {
          name = pair.0.now;
          value = pair.1.now;
        }) result ≡ slice_get self.now place }
    {
        match self.rows.get_index(place) {
            None => None,
            Some((_, row)) => Some((row.name.as_slice(), &row.value)),
        }
    }

    fn get(&self, name: &[u8]) -> Option<&Chars>
        ensures { option_copied result ≡ value_of self.now name.now }
    {
        match place_of(&self.rows, &self.numbers, name) {
            None => None,
            Some(place) => value_at(&self.rows, place),
        }
    }

    // Adds an attribute whose name isn't there.
    fn add(&mut self, alloc: Global, name: Name, value: Chars) -> Result<(), AllocError>
        requires { value_of self.old name ≡ None }
        ensures ok { OnOk result (self.new ≡ set_in self.old name value) }
        ensures err { OnErr result (self.new ≡ self.old) }
    {
        if self.next == usize::MAX {
            return Err(AllocError);
        }
        number_names(alloc, &self.rows, &mut self.numbers)?;
        number(alloc, &mut self.numbers, name.as_slice(), self.next)?;
        push(&mut self.rows, self.next, name, value)?;
        self.next += 1;
        Ok(())
    }

    fn put(&mut self, alloc: Global, name: Name, value: Chars) -> Result<(), AllocError>
        ensures ok { OnOk result (self.new ≡ set_in self.old name value) }
        ensures err { OnErr result (self.new ≡ self.old) }
    {
        match place_of(&self.rows, &self.numbers, name.as_slice()) {
            None => self.add(alloc, name, value),
            Some(place) => {
                write(&mut self.rows, place, value);
                Ok(())
            }
        }
    }

    fn take(&mut self, name: &[u8]) -> bool
        ensures was { result ≡ is_some (value_of self.old name.now) }
        ensures left { self.new ≡ unset_in self.old name.now }
    {
        match place_of(&self.rows, &self.numbers, name) {
            None => false,
            Some(place) => {
                take(&mut self.rows, place);
                unnumber(&mut self.numbers, name);
                true
            }
        }
    }

    // That the names are distinct, for proofs. It does nothing.
    fn valid(&self)
        ensures { IsDistinctNames self.now }
    {
        let _ = &self.next;
    }
}

impl Attributes {
    /// The empty list.
    pub fn new(alloc: Global) -> Attributes
        ensures { result ≡ [] }
    {
        Attributes { alloc, list: None }
    }

    /// A list of the same attributes.
    pub fn copy(&self) -> Result<Attributes, AllocError>
        ensures { IfOk result (λ copied. copied ≡ self.now) }
    {
        let list = match &self.list {
            None => None,
            Some(listing) => Some(Box::new(self.alloc, listing.copy(self.alloc)?)?),
        };
        Ok(Attributes {
            alloc: self.alloc,
            list,
        })
    }

    /// How many attributes there are.
    pub fn len(&self) -> usize
        ensures { result ≡ length self.now }
    {
        match &self.list {
            None => 0,
            Some(listing) => listing.len(),
        }
    }

    /// The value of the attribute of a name.
    pub fn get(&self, name: &[u8]) -> Option<&Chars>
        ensures { option_copied result ≡ value_of self.now name.now }
    {
        match &self.list {
            None => None,
            Some(listing) => listing.get(name),
        }
    }

    /// The name and the value at a place of the list.
    pub fn at(&self, place: usize) -> Option<(&[u8], &Chars)>
        ensures { option_map (λ pair. record {
          name = pair.0.now;
          value = pair.1.now;
        }) result ≡ slice_get self.now place }
    {
        match &self.list {
            None => None,
            Some(listing) => listing.at(place),
        }
    }

    /// Gives an attribute a value. One that is there keeps its place; a new one goes last.
    pub fn insert(&mut self, name: Name, value: Chars) -> Result<(), AllocError>
        ensures ok { OnOk result (self.new ≡ set_in self.old name value) }
        ensures err { OnErr result (self.new ≡ self.old) }
    {
        match &mut self.list {
            None => {
                let mut listing = Listing::new(self.alloc);
                listing.add(self.alloc, name, value)?;
                self.list = Some(Box::new(self.alloc, listing)?);
            }
            Some(listing) => listing.put(self.alloc, name, value)?,
        }
        Ok(())
    }

    /// Gives an attribute a copy of a value. One that is there keeps its place; a new one goes
    /// last.
    pub fn set(&mut self, name: &Name, value: &Chars) -> Result<(), AllocError>
        ensures ok { OnOk result (self.new ≡ set_in self.old name.now value.now) }
        ensures err { OnErr result (self.new ≡ self.old) }
    {
        let name = name.clone()?;
        let value = value.clone()?;
        self.insert(name, value)
    }

    /// Takes the attribute of a name out; those after it move up. False where there is none.
    pub fn unset(&mut self, name: &[u8]) -> bool
        ensures was { result ≡ is_some (value_of self.old name.now) }
        ensures left { self.new ≡ unset_in self.old name.now }
    {
        match &mut self.list {
            None => false,
            Some(listing) => listing.take(name),
        }
    }

    /// That the names are distinct, for proofs. It does nothing.
    pub fn valid(&self)
        ensures { IsDistinctNames self.now }
    {
        if let Some(listing) = &self.list {
            listing.valid();
        }
    }
}
