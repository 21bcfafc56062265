//! The first refusal by a list of rules, a rule at a time.

ghost use Rattle.std.specs.Prelude.{◌≡◌};
ghost use Rattle.widl_idl.specs.FirstRefusal.{is_earlier, is_lower, join};

use crate::refusal::Refusal;
use crate::violation::{Violation, comes_before, is_other_before, is_same_place};

/// Of the first refusal by the rules before and of the refusal by this rule, the one that comes
/// first: by file, then by offset, then by the number of the rule, then by the other place. `found` is
/// the first violation at which this rule is broken. `best` where both are one.
pub fn joined(rule: u8, found: Option<Violation>, best: Option<Refusal>) -> Option<Refusal>
    ensures { result ≡ join rule found best }
{
    match found {
        None => best,
        Some(violation) => {
            let refusal = Refusal {
                rule,
                at: violation.at,
                other: violation.other,
            };
            match best {
                None => Some(refusal),
                Some(b) => if comes_earlier(refusal, b) {
                    Some(refusal)
                } else {
                    best
                },
            }
        }
    }
}

fn comes_earlier(r: Refusal, s: Refusal) -> bool
    ensures { result ≡ is_earlier r s }
{
    comes_before(r.at, s.at) || is_same_place(r.at, s.at) && is_lower(r, s)
}

fn is_lower(r: Refusal, s: Refusal) -> bool
    ensures { result ≡ is_lower r s }
{
    r.rule < s.rule || r.rule == s.rule && is_other_before(r.other, s.other)
}
