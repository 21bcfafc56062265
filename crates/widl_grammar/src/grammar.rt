//! The grammar as `widl_predictive` takes it.

use crate::table::{begins_type, is_same, is_same_rule, row, slot, slots};
use crate::{Rule, Terminal};
use widl_predictive::Symbol;

impl widl_predictive::Rule for Rule {
    ghost use Rattle.std.specs.Prelude.{◌≡◌, Option, Some, None, MatchOption};
    ghost use Rattle.widl_predictive.specs.Lookahead.{choice};
    ghost use Rattle.widl_grammar.specs.Rows.{grammar};
    ghost use Rattle.widl_grammar.specs.Tables.{sets};
    ghost use Rattle.widl_grammar.specs.Owed.{owed};

    type Terminal = Terminal;

    ghost grammar = { grammar };

    ghost sets = { sets };

    fn deep_level() -> u8 {
        17
    }

    fn begins_level(self) -> bool {
        begins_type(self)
    }

    fn row(self, ahead: Option<Terminal>) -> Option<&'static [Symbol<Terminal, Rule>]>
        ensures { MatchOption result (choice grammar sets self ahead ≡ None) (λ row. choice grammar sets self ahead ≡ Some row.now) }
    {
        row(self, ahead)
    }

    fn is_same(one: Terminal, other: Terminal) -> bool {
        is_same(one, other)
    }

    fn is_same_rule(one: Rule, other: Rule) -> bool {
        is_same_rule(one, other)
    }

    fn slots() -> usize {
        slots()
    }

    fn slot(self, level: u8, ahead: Option<Terminal>) -> usize {
        slot(self, level, ahead)
    }

    ghost predictive = { owed };
}
