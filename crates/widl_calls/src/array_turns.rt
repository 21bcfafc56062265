//! The turns of Array Iterators, and what a function of arrays needs of an answer.

ghost use Rattle.std.specs.Prelude.{◌<◌, ◌^◌, ◌-◌};

use widl_convert::Ending;
use widl_value::{ObjRef, Value};

/// A turn of an Array Iterator, which gives one element (ECMA-262, "%ArrayIteratorPrototype%.next").
#[derive(Clone, Copy)]
pub struct ArrayTurn {
    /// The iterator.
    pub iterator: ObjRef,
    /// The object whose elements it gives.
    pub of: ObjRef,
    /// The index of the element.
    pub next: u64,
}

/// A turn whose element is read: its index is below the length of the array, so there is a next one.
#[derive(Drop)]
pub struct ElementTurn {
    /// The iterator.
    pub iterator: ObjRef,
    /// The index of the element.
    pub next: u64,
    ghost below: { next < 2 ^ 64 - 1 },
}

/// What waits for an answer in a function of arrays or of their iterators.
#[derive(Drop)]
pub enum ArrayWait {
    /// `values`, for the new iterator.
    NewIterator,
    /// `next`, for how far this iterator has come.
    Cursor(ObjRef),
    /// A turn, whose iterator runs from now on.
    Begun(ArrayTurn),
    /// A turn, for the length of the array.
    Length(ArrayTurn),
    /// A turn, for its element.
    Element(ElementTurn),
    /// A turn that is over, for the index that comes next, with its element.
    Given(Box<Value>),
    /// A turn that found no element, for the iterator that ends.
    AtEnd,
    /// A turn that threw, for the iterator that ends, with what it threw.
    Threw(Box<Ending>),
    /// `next`, for the object of its result.
    NewResult,
}
