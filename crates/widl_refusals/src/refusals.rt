//! The first refusal by some rules: by one rule more, and of two that were found apart.

ghost use Rattle.std.specs.Prelude.{◌≡◌};
ghost use Rattle.widl_idl.specs.FirstRefusal.{join};
ghost use Rattle.widl_overload.specs.rules.Validity.{validity_number};
ghost use Rattle.widl_refusals.specs.Refusals.{earlier_refusal};

use widl_idl::{Refusal, Violation, joined};
use widl_overload::ValidityRule;

/// The first refusal by some rules and by this one, of which `found` is the first violation; `best` is the first by
/// the others.
pub fn first(best: Option<Refusal>, rule: ValidityRule, found: Option<Violation>) -> Option<Refusal>
    ensures { result ≡ join (validity_number rule) found best }
{
    joined(rule.number(), found, best)
}

/// Of what was found so far and of what was found now, the refusal that comes first.
pub fn earlier_refusal(best: Option<Refusal>, found: Option<Refusal>) -> Option<Refusal>
    ensures { result ≡ earlier_refusal found best }
{
    match found {
        None => best,
        Some(refusal) => {
            let violation = Violation {
                at: refusal.at,
                other: refusal.other,
            };
            joined(refusal.rule, Some(violation), best)
        }
    }
}
