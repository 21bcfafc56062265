//! The nodes of statements.

use crate::expression::MemberOf;
use crate::row::Row;

/// A statement. The statements that it holds stand at lower places of the same table; its expressions
/// stand in the table of expressions.
#[derive(Clone, Copy, Debug, PartialEq, Eq)]
pub enum Statement {
    /// `let NAME = E`.
    Let {
        /// The number of the name.
        name: u32,
        /// The place of the value.
        value: u32,
    },
    /// `do E`.
    Do(u32),
    /// `set M = E`.
    Set {
        /// The member.
        member: MemberOf,
        /// The place of the value.
        value: u32,
    },
    /// `define M = E` or `define hidden M = E`.
    Define {
        /// The member.
        member: MemberOf,
        /// The place of the value.
        value: u32,
        /// Whether the property isn't enumerable.
        hidden: bool,
    },
    /// `define M get E` or `define M get E set E`.
    DefineAccessor {
        /// The member.
        member: MemberOf,
        /// The place of the getter.
        getter: u32,
        /// The place of the setter.
        setter: Option<u32>,
    },
    /// `delete M`.
    Delete(MemberOf),
    /// `return E`.
    Return(u32),
    /// `throw E`.
    Throw(u32),
    /// `show E`.
    Show(u32),
    /// `try`, `catch NAME`, `end`.
    Try {
        /// The statements that are tried.
        body: Row,
        /// The number of the name that a thrown value is bound to.
        name: u32,
        /// The statements after `catch`.
        handler: Row,
    },
    /// `if E is E`, `else`, `end`.
    If {
        /// The place of the first expression.
        left: u32,
        /// The place of the second expression.
        right: u32,
        /// The statements where both are the same.
        then: Row,
        /// The statements where they aren't.
        otherwise: Row,
    },
    /// `function NAME(P, P)`, `end`, by the number of the function.
    Function(u32),
    /// `steps TARGET`, `end`, by the number of the block.
    Steps(u32),
    /// A part of a row: the statement at this place.
    Item(u32),
}

// A node is small.
const _: () = prove!(size_of::<Statement>() <= 48);
