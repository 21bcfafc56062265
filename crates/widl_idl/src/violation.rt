//! Violations at which rules are broken, and the lesser of two.

ghost use Rattle.std.specs.Prelude.{◌≡◌};
ghost use Rattle.widl_idl.specs.First.{is_before, is_other_before, is_same_place, earlier, violation_at};
ghost use Rattle.widl_idl.specs.First.{comes_before as violation_comes_before};

use widl_text::Place;

/// Where a rule is broken, and the other place that it speaks of.
#[derive(Clone, Copy, Debug, PartialEq, Eq)]
pub struct Violation {
    /// Where the rule is broken.
    pub at: Place,
    /// The other place that it speaks of.
    pub other: Option<Place>,
}

impl Violation {
    /// The violation at a place that speaks of no other.
    pub fn at(place: Place) -> Violation
        ensures { result ≡ violation_at place }
    {
        Violation {
            at: place,
            other: None,
        }
    }
}

/// Whether a place stands before another: by file, then by offset.
pub fn comes_before(p: Place, q: Place) -> bool
    ensures { result ≡ is_before p q }
{
    p.file < q.file || p.file == q.file && p.at < q.at
}

/// Whether the place that one violation speaks of besides stands before that of another; none stands before
/// each.
pub(crate) fn is_other_before(p: Option<Place>, q: Option<Place>) -> bool
    ensures { result ≡ is_other_before p q }
{
    match (p, q) {
        (None, None) | (Some(_), None) => false,
        (None, Some(_)) => true,
        (Some(p), Some(q)) => comes_before(p, q),
    }
}

/// Whether two places are one.
pub(crate) fn is_same_place(p: Place, q: Place) -> bool
    ensures { result ≡ is_same_place p q }
{
    p.file == q.file && p.at == q.at
}

/// Whether a violation comes before another: by its place, then by the other place that it speaks of.
fn is_first(s: Violation, t: Violation) -> bool
    ensures { result ≡ violation_comes_before s t }
{
    comes_before(s.at, t.at) || is_same_place(s.at, t.at) && is_other_before(s.other, t.other)
}

/// Of what was found so far and of what was found now, the violation that comes first: by its place, then by
/// the other place that it speaks of.
pub fn earlier_violation(best: Option<Violation>, found: Option<Violation>) -> Option<Violation>
    ensures { result ≡ earlier best found }
{
    match (best, found) {
        (None, _) => found,
        (Some(_), None) => best,
        (Some(b), Some(f)) => if is_first(f, b) { found } else { best },
    }
}
