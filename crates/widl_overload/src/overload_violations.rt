//! The violations at which overloads break the rules on them.

use widl_idl::{Violation, earlier_violation};

/// The first violations at which overloads break the two rules on them, each if there is one (Web IDL,
/// "Overloading").
#[derive(Clone, Copy, Debug, PartialEq, Eq)]
pub struct OverloadViolations {
    /// Where they aren't distinguishable.
    pub indistinguishable: Option<Violation>,
    /// Where they differ before the argument by which they are distinguished.
    pub early: Option<Violation>,
}

impl OverloadViolations {
    ghost use Rattle.std.specs.Prelude.{◌≡◌};
    ghost use Rattle.widl_overload.specs.rules.OverloadViolations.{earlier_violations, no_violations};

    /// No rule is broken.
    pub(crate) fn none() -> OverloadViolations
        ensures { result ≡ no_violations }
    {
        OverloadViolations {
            indistinguishable: None,
            early: None,
        }
    }

    /// Of what was found so far and of what was found now, the earlier violation by each rule.
    pub(crate) fn earlier(self, found: OverloadViolations) -> OverloadViolations
        ensures { result ≡ earlier_violations self found }
    {
        OverloadViolations {
            indistinguishable: earlier_violation(self.indistinguishable, found.indistinguishable),
            early: earlier_violation(self.early, found.early),
        }
    }
}
