//! Lists of characters, of bytes, and of other items that are copied.

ghost use Rattle.std.specs.Prelude.{◌≡◌, IfOk, length};

use std::alloc::{AllocError, Global};
use std::marker::{Copy, Model};

/// A list of items that was made whole and isn't changed.
#[derive(Drop)]
pub struct Items<T> {
    items: Vec<T>,
}

/// A list of bytes: the name of an element or an attribute.
pub type Name = Items<u8>;

impl<T> Model for Items<T> {
    ghost use Rattle.std.specs.Prelude.{List};
    ghost use Rattle.std.specs.Coded.{coded_list};

    ghost Value = { List T };

    ghost coded = { coded_list T.code };

    ghost view = { λ l. l.items.items };
}

impl<T> Items<T> {
    /// The items of a `Vec`, which is taken over and not copied.
    pub fn from_vec(items: Vec<T>) -> Items<T>
        ensures { result ≡ items.items }
    {
        Items { items }
    }

    /// The items as a slice.
    pub fn as_slice(&self) -> &[T]
        ensures { result.now ≡ self.now }
    {
        self.items.as_slice()
    }

    /// How many items there are.
    pub fn len(&self) -> usize
        ensures { result ≡ length self.now }
    {
        self.items.len()
    }

    // The items as a `Vec`.
    pub(crate) fn into_vec(self) -> Vec<T>
        ensures { result.items ≡ self }
    {
        self.items
    }
}

impl<T: Copy> Items<T> {
    /// A copy of the items of a slice.
    pub fn from_slice(alloc: Global, items: &[T]) -> Result<Items<T>, AllocError>
        ensures { IfOk result (λ list. list ≡ items.now) }
    {
        Ok(Items {
            items: Vec::from_slice(alloc, items)?,
        })
    }
}

impl<T: Copy> Clone for Items<T> {
    ghost is_clone = { λ a b. b ≡ a };

    fn clone(&self) -> Result<Items<T>, AllocError> {
        Ok(Items {
            items: Vec::from_slice(*self.items.allocator(), self.items.as_slice())?,
        })
    }
}
