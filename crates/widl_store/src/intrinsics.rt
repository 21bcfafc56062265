//! The table of the objects that are there whatever the definitions are.

/// One object of the table; its number is its place.
pub(crate) struct Row {
    /// The number of its prototype.
    pub(crate) proto: Option<u32>,
    /// What it is.
    pub(crate) kind: RowKind,
    /// Its properties in order.
    pub(crate) cells: &'static [Cell],
}

/// What an object of the table is.
#[derive(Clone, Copy, Debug, PartialEq, Eq)]
pub(crate) enum RowKind {
    /// An ordinary object.
    Plain,
    /// An array.
    Array,
    /// The function of this number.
    Function(u8),
}

/// A property of an object of the table.
pub(crate) enum Cell {
    /// A method by its name: the function of this number.
    Method(&'static str, u32),
    /// The method at `@iterator`.
    Iterator(u32),
    /// `@toStringTag`.
    Tag(&'static str),
    /// The length of a function.
    Number(u32),
    /// The name of a function.
    Name(&'static str),
}

/// The table: #0 `Object.prototype`, #1 `Function.prototype` (which isn't callable), #2 `Array.prototype`,
/// #3 `Error.prototype`, #4 `TypeError.prototype`, #5 `Promise.prototype`, #6 `IteratorPrototype`, #7
/// `ArrayIteratorPrototype`, and then the functions that they hold.
pub(crate) const ROWS: [Row; 18] = [
    Row {
        proto: None,
        kind: RowKind::Plain,
        cells: &[Cell::Method("toString", 8), Cell::Method("valueOf", 9)],
    },
    Row {
        proto: Some(0),
        kind: RowKind::Plain,
        cells: &[Cell::Method("toString", 15)],
    },
    Row {
        proto: Some(0),
        kind: RowKind::Array,
        cells: &[
            Cell::Method("toString", 10),
            Cell::Method("join", 11),
            Cell::Method("values", 12),
            Cell::Iterator(12),
        ],
    },
    Row {
        proto: Some(0),
        kind: RowKind::Plain,
        cells: &[Cell::Method("toString", 16)],
    },
    Row {
        proto: Some(3),
        kind: RowKind::Plain,
        cells: &[],
    },
    Row {
        proto: Some(0),
        kind: RowKind::Plain,
        cells: &[Cell::Method("then", 17), Cell::Tag("Promise")],
    },
    Row {
        proto: Some(0),
        kind: RowKind::Plain,
        cells: &[Cell::Iterator(14)],
    },
    Row {
        proto: Some(6),
        kind: RowKind::Plain,
        cells: &[Cell::Method("next", 13), Cell::Tag("Array Iterator")],
    },
    Row {
        proto: Some(1),
        kind: RowKind::Function(8),
        cells: &[Cell::Number(0), Cell::Name("toString")],
    },
    Row {
        proto: Some(1),
        kind: RowKind::Function(9),
        cells: &[Cell::Number(0), Cell::Name("valueOf")],
    },
    Row {
        proto: Some(1),
        kind: RowKind::Function(10),
        cells: &[Cell::Number(0), Cell::Name("toString")],
    },
    Row {
        proto: Some(1),
        kind: RowKind::Function(11),
        cells: &[Cell::Number(1), Cell::Name("join")],
    },
    Row {
        proto: Some(1),
        kind: RowKind::Function(12),
        cells: &[Cell::Number(0), Cell::Name("values")],
    },
    Row {
        proto: Some(1),
        kind: RowKind::Function(13),
        cells: &[Cell::Number(0), Cell::Name("next")],
    },
    Row {
        proto: Some(1),
        kind: RowKind::Function(14),
        cells: &[Cell::Number(0), Cell::Name("[Symbol.iterator]")],
    },
    Row {
        proto: Some(1),
        kind: RowKind::Function(15),
        cells: &[Cell::Number(0), Cell::Name("toString")],
    },
    Row {
        proto: Some(1),
        kind: RowKind::Function(16),
        cells: &[Cell::Number(0), Cell::Name("toString")],
    },
    Row {
        proto: Some(1),
        kind: RowKind::Function(17),
        cells: &[Cell::Number(2), Cell::Name("then")],
    },
];
