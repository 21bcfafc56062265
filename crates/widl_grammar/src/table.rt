//! The grammar as the machine reads it.

ghost use Rattle.std.specs.Prelude.{◌≡◌, ◌≢◌, ◌<◌, ◌≤◌, Option, Some, None, MatchOption, length, IsTrue, false};
ghost use Rattle.widl_predictive.specs.Lookahead.{nth};
ghost use Rattle.widl_grammar.specs.Terminals.{terminal_code, column};
ghost use Rattle.widl_grammar.specs.Rules.{rule_code};
ghost use Rattle.widl_grammar.specs.Rows.{rows_of, begins_type};
ghost use Rattle.widl_grammar.specs.Tables.{picked};

use crate::picks::all::picks;
use crate::rows::all::rows;
use crate::{Rule, Terminal};
use widl_predictive::Symbol;

fn column(ahead: Option<Terminal>) -> usize
    ensures number { result ≡ column ahead }
    ensures small { result ≤ 91 }
{
    match ahead {
        Some(terminal) => terminal as usize,
        None => 91,
    }
}

fn picked(rule: Rule, ahead: Option<Terminal>) -> usize
    ensures { result ≡ picked rule ahead }
{
    let picks = picks(rule);
    picks[column(ahead)] as usize
}

/// The row of the rule that may stand before this token, or before the end.
pub fn row(rule: Rule, ahead: Option<Terminal>) -> Option<&'static [Symbol<Terminal, Rule>]>
    ensures { MatchOption result (nth (rows_of rule) (picked rule ahead) ≡ None) (λ row. nth (rows_of rule) (picked rule ahead) ≡ Some row.now) }
{
    let number = picked(rule, ahead);
    let rows = rows(rule);
    if number < rows.len() {
        Some(rows[number])
    } else {
        None
    }
}

pub fn begins_type(rule: Rule) -> bool
    ensures { result ≡ begins_type rule }
{
    matches!(
        rule,
        Rule::WholeType | Rule::MemberDistinguishable | Rule::MemberUnion
    )
}

fn number_of(terminal: Terminal) -> usize
    ensures { result ≡ terminal_code terminal }
{
    terminal as usize
}

fn number_of_rule(rule: Rule) -> usize
    ensures number { result ≡ rule_code rule }
    ensures small { result ≤ 81 }
{
    rule as usize
}

/// Whether two rules are the same.
pub(crate) fn is_same_rule(one: Rule, other: Rule) -> bool
    ensures { IsTrue result → one ≡ other }
{
    number_of_rule(one) == number_of_rule(other)
}

/// One slot for each of 82 rules before each of 91 tokens or the end, at each of four levels: few texts go deeper.
pub(crate) fn slots() -> usize {
    82 * 92 * 4
}

/// The slot of a rule at a level, before this token or before the end.
pub(crate) fn slot(rule: Rule, level: u8, ahead: Option<Terminal>) -> usize {
    let place = number_of_rule(rule) * 92 + column(ahead);
    place * 4 + (level % 4) as usize
}

/// Whether two terminals are the same.
pub fn is_same(one: Terminal, other: Terminal) -> bool
    ensures yes { IsTrue result → one ≡ other }
    ensures no { result ≡ false → one ≢ other }
{
    number_of(one) == number_of(other)
}
