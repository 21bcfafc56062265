//! What each form of a script puts into the tables. The rows were worked by hand: a name gets its number where it first stands; an
//! expression is put where it ends, after its parts, and a row of items directly before the node that has the row; a line's
//! statement is put at its end, a block's at its `end`, and the items of its statements before that, those before `catch` and
//! `else` there; the items of the statements outside blocks come last.

mod blocks;
mod expressions;
mod lines;
mod scripts;

use crate::built::built_of;
use crate::rows::rows_of;
use std::alloc::Global;
use std::mem;
use std::process::Abort;

/// A script, and the rows of its tables.
type Form = (&'static str, &'static str);

/// Compares the tables of scripts with their rows, one after the other.
fn expect_rows(rt: &impl Abort, alloc: Global, forms: &[Form]) {
    for (script, rows) in forms {
        let built = built_of(rt, alloc, script);
        let found = rows_of(rt, alloc, &built);
        mem::forget(built);
        expect_lines(rt, found.as_str(), rows);
    }
}

/// Compares lines with others that stand further right.
fn expect_lines(rt: &impl Abort, found: &str, lines: &str) {
    let mut found = found.lines();
    for line in lines.trim().lines() {
        let (found, wanted) = (found.next().unwrap_or("no row"), line.trim());
        assert!(rt; found == wanted, "{found} and not {wanted}");
    }
    assert!(rt; found.next().is_none(), "a row more");
}

#[test]
fn scripts_have_nodes(rt: HostRuntime) {
    expect_rows(&rt, rt.alloc(), &blocks::BLOCKS);
    expect_rows(&rt, rt.alloc(), &expressions::EXPRESSIONS);
    expect_rows(&rt, rt.alloc(), &lines::LINES);
    expect_rows(&rt, rt.alloc(), &scripts::SCRIPTS);
}
