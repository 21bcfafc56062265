//! What a grammar gives to the machine.

/// A symbol of a row.
#[derive(Clone, Copy, Debug, PartialEq, Eq)]
pub enum Symbol<T, R> {
    /// The next token.
    Token(T),
    /// What one of the rule's rows derives, at the level of the row itself.
    Part(R),
    /// The same, one level further in.
    Inner(R),
}

/// The rules of a grammar: an enum with a variant for each rule.
///
/// A rule has rows, and stands for what one of them derives. Levels count how deep a part is nested:
/// a whole text has level 1, and each [`Symbol::Inner`] leads one level further in.
pub trait Rule: Copy + 'static {
    ghost use Rattle.std.specs.Prelude.{◌≡◌, ◌≢◌, false, Option, Some, None, MatchOption, IsTrue};
    ghost use Rattle.widl_predictive.specs.Grammar.{Grammar};
    ghost use Rattle.widl_predictive.specs.Lookahead.{Sets, IsPredictive, choice};

    /// The tokens as the grammar sees them.
    type Terminal: Copy + 'static;

    ghost grammar: { Grammar Self.Terminal Self };

    ghost sets: { Sets Self.Terminal Self };

    /// The first level that is too deep.
    fn deep_level() -> u8
        ensures { result ≡ grammar.deep_level };

    /// Whether what the rule derives is one of the parts whose levels are counted.
    fn begins_level(self) -> bool
        ensures { result ≡ grammar.begins_level self };

    /// The one row of the rule that may stand before this token, or before the end; `None` where no
    /// row may.
    fn row(self, ahead: Option<Self::Terminal>) -> Option<&'static [Symbol<Self::Terminal, Self>]>
        ensures { MatchOption result (choice grammar sets self ahead ≡ None) (λ row. choice grammar sets self ahead ≡ Some row.now) };

    /// Whether two terminals are the same.
    fn is_same(one: Self::Terminal, other: Self::Terminal) -> bool
        ensures yes { IsTrue result → one ≡ other }
        ensures no { result ≡ false → one ≢ other };

    /// Whether two rules are the same.
    fn is_same_rule(one: Self, other: Self) -> bool
        ensures { IsTrue result → one ≡ other };

    /// How many slots there are to keep what rules give way to. Nothing depends on it but time and memory.
    fn slots() -> usize;

    /// The slot where it is kept what the rule gives way to at the level, before this token or before the end. Where two
    /// share a slot only what came first is kept; one past the last slot is never kept.
    fn slot(self, level: u8, ahead: Option<Self::Terminal>) -> usize;

    ghost predictive: { IsPredictive grammar sets };
}
