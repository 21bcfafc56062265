//! Lists of any items: every list type of the public surface is one.

ghost use Rattle.std.specs.Prelude.{◌≡◌, ◌<◌, [], ◌∷◌, ◌++◌, length, slice_get, slice_set, IfOk, OnErr, OnOk, Some};

use std::alloc::{AllocError, Global};
use std::marker::Model;
use std::mem;

/// Items in order, which contracts see as a list.
#[derive(Debug, Drop)]
pub struct Items<T> {
    items: Vec<T>,
}

impl<T> Model for Items<T> {
    ghost use Rattle.std.specs.Prelude.{List};

    ghost Value = { List T };

    ghost view = { λ all. all.items.items };
}

impl<T> Items<T> {
    /// The empty list.
    pub fn new(alloc: Global) -> Items<T>
        ensures { result ≡ [] }
    {
        Items {
            items: Vec::new(alloc),
        }
    }

    /// The empty list, with room for so many items.
    ///
    /// # Errors
    ///
    /// `AllocError` where there is no memory.
    pub fn with_room(alloc: Global, count: usize) -> Result<Items<T>, AllocError>
        ensures { IfOk result (λ items. items ≡ []) }
    {
        Ok(Items {
            items: Vec::with_capacity(alloc, count)?,
        })
    }

    /// How many items there are.
    pub fn len(&self) -> usize
        ensures { result ≡ length self.now }
    {
        self.items.len()
    }

    /// The item at a place.
    pub fn at(&self, place: usize) -> &T
        requires { place < length self.now }
        ensures { slice_get self.now place ≡ Some result.now }
    {
        &self.items[place]
    }

    /// Puts an item at a place, and gives back the former one.
    pub fn replace(&mut self, place: usize, item: T) -> T
        requires { place < length self.old }
        ensures list { self.new ≡ slice_set self.old place item }
        ensures former { slice_get self.old place ≡ Some result }
    {
        mem::replace(&mut self.items[place], item)
    }

    /// The items as a slice.
    pub fn as_slice(&self) -> &[T]
        ensures { result.now ≡ self.now }
    {
        &self.items
    }
}

impl<T: Drop> Items<T> {
    /// Adds an item at the end.
    ///
    /// # Errors
    ///
    /// `AllocError` where there is no memory; the list is unchanged.
    pub fn push(&mut self, item: T) -> Result<(), AllocError>
        ensures ok { OnOk result (self.new ≡ self.old ++ item ∷ []) }
        ensures err { OnErr result (self.new ≡ self.old) }
    {
        self.make_room()?;
        self.items.push(item)?;
        Ok(())
    }

    /// Makes room for one more item, at least.
    ///
    /// Most lists of a syntax tree have one item or two, which are large: so room grows from one item on,
    /// always to twice as much.
    fn make_room(&mut self) -> Result<(), AllocError>
        ensures { self.new ≡ self.old }
    {
        let count = self.items.len();
        if count == self.items.capacity() {
            self.items.reserve_exact(count.max(1))?;
        }
        Ok(())
    }
}
