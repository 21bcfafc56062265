//! Firsts by keys.

use std::process::Abort;
use widl_first::{Keyed, first_of};

#[derive(Clone, Copy, PartialEq, Eq)]
struct Spot {
    line: u32,
    column: u32,
}

impl Keyed for Spot {
    ghost use Rattle.std.specs.Prelude.{◌∷◌, []};

    ghost key = { λ s. s.line ∷ s.column ∷ [] };

    fn precedes(self, other: Spot) -> bool {
        self.line < other.line || (self.line == other.line && self.column < other.column)
    }
}

/// Whether this line and column are those of the first of two spots, of which the former may be none.
fn is_first(former: Option<(u32, u32)>, line: u32, column: u32) -> bool {
    let former = former.map(|(line, column)| Spot { line, column });
    let latter = Spot { line: 1, column: 9 };
    first_of(former, Some(latter)) == Some(Spot { line, column })
}

/// Spots, or none, and the first of each and of column 9 of line 1.
const FIRSTS: [(Option<(u32, u32)>, u32, u32); 3] = [
    (Some((2, 1)), 1, 9),
    (Some((1, 3)), 1, 3),
    (None, 1, 9),
];

fn expect_firsts(rt: &impl Abort, rows: &[(Option<(u32, u32)>, u32, u32)]) {
    for (former, line, column) in rows {
        assert!(rt; is_first(*former, *line, *column), "column {column}");
    }
}

#[test]
fn the_lower_key_is_first(rt: HostRuntime) {
    expect_firsts(&rt, &FIRSTS);
}
