//! Numbers that are ready for the next id.

ghost use Rattle.std.specs.Prelude.{◌≡◌, ◌∷◌, [], ℕ, false, MatchOption, OnOk};
ghost use Rattle.widl_spell.specs.Ready.{Adds, IsNone, TakesLeast, is_ready};

use std::alloc::{AllocError, Global};
use std::collections::BTreeSet;

/// Numbers, of which the least is taken first.
#[derive(Drop)]
pub struct Ready {
    numbers: BTreeSet<u32>,
}

impl Ready {
    /// No number.
    #[tactic(auto, unfolding(crate::specs::Ready::is_ready))]
    pub fn new(alloc: Global) -> Ready
        ensures { (q : ℕ) → is_ready result q ≡ false }
    {
        Ready {
            numbers: BTreeSet::new(alloc),
        }
    }

    /// Adds a number.
    #[tactic(auto, unfolding(crate::specs::Ready::is_ready))]
    pub fn add(&mut self, number: u32) -> Result<(), AllocError>
        ensures { OnOk result (Adds (number ∷ []) (is_ready self.old) (is_ready self.new)) }
    {
        self.numbers.insert(number)?;
        Ok(())
    }

    /// Adds each of the numbers.
    pub fn add_each(&mut self, numbers: &[u32]) -> Result<(), AllocError>
        ensures { OnOk result (Adds numbers.now (is_ready self.old) (is_ready self.new)) }
    {
        for number in numbers {
            self.add(*number)?;
        }
        Ok(())
    }

    /// Takes the least number away.
    #[tactic(auto, unfolding(crate::specs::Ready::is_ready))]
    pub fn take_least(&mut self) -> Option<u32>
        ensures { MatchOption result (IsNone (is_ready self.old) (is_ready self.new)) (TakesLeast (is_ready self.old) (is_ready self.new)) }
    {
        self.numbers.pop_first()
    }
}
