//! A law on inheritance: a function that takes no step, whose contract is the law.

ghost use Rattle.std.specs.Prelude.{◌≡◌, ◌↔◌, ℕ, List, true};
ghost use Rattle.widl_fits.specs.Hierarchies.{interface_parents};
ghost use Rattle.widl_graph.specs.Reaching.{Reaches, IsAcyclic};
ghost use Rattle.widl_idl.specs.DefinitionTerms.{IfaceTerm};
ghost use Rattle.widl_overload.specs.sets.Inheritance.{inherits};

/// An interface inherits from another one exactly where it reaches it through parents, in each list in which
/// none inherits from itself.
pub fn inherits_through_parents()
    ensures { (ifaces : List IfaceTerm) → IsAcyclic (interface_parents ifaces) → (m n : ℕ) → (inherits ifaces m n ≡ true) ↔ Reaches (interface_parents ifaces) m n }
{}
