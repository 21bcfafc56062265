//! The nodes of expressions.

use crate::row::Row;
use widl_text::Units;
use widl_value::Number;

/// The key of a member.
#[derive(Clone, Copy, Debug, PartialEq, Eq)]
pub enum MemberKey {
    /// `.NAME`, by the number of the name.
    Named(u32),
    /// `[E]`, by the place of the expression.
    Computed(u32),
}

/// A member of a value.
#[derive(Clone, Copy, Debug, PartialEq, Eq)]
pub struct MemberOf {
    /// The place of the expression before the member.
    pub of: u32,
    /// The key.
    pub key: MemberKey,
}

/// An expression, whose parts stand at lower places of the same table.
#[derive(Debug, Drop)]
pub enum Expression {
    /// `undefined`.
    Undefined,
    /// `null`.
    Null,
    /// `true` or `false`.
    Bool(bool),
    /// A number.
    Number(Number),
    /// A text.
    Text(Units),
    /// A well-known symbol: 0 is `@iterator`, 1 `@toPrimitive`, 2 `@toStringTag`.
    Symbol(u32),
    /// A name, by its number.
    Name(u32),
    /// `this`.
    This,
    /// `symbol()`.
    NewSymbol,
    /// `object()`, or `object(E)` with the place of the prototype.
    NewObject {
        /// The place of the prototype.
        proto: Option<u32>,
    },
    /// `array(E, E)`.
    NewArray(Row),
    /// `E.NAME` or `E[E]`.
    Member(MemberOf),
    /// `E(E, E)`.
    Call {
        /// The place of what is called.
        callee: u32,
        /// The arguments.
        args: Row,
    },
    /// `call(E, E, E, E)`.
    CallWith {
        /// The place of what is called.
        callee: u32,
        /// The place of the `this` value.
        this: u32,
        /// The arguments.
        args: Row,
    },
    /// `new(E, E, E)`.
    New {
        /// The place of what is constructed.
        callee: u32,
        /// The arguments.
        args: Row,
    },
    /// A part of a row: the expression at this place.
    Item(u32),
}

// A node is small.
const _: () = prove!(size_of::<Expression>() <= 48);
