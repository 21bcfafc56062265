//! The targets of operations, as keys of tables.

ghost use Rattle.std.specs.Prelude.{◌≡◌, MatchOption, None, ℕ};
ghost use Rattle.widl_idl.specs.DefinitionTerms.{DefsTerm, OpNameTerm, SpaceTerm};
ghost use Rattle.widl_script_rules.specs.OperationTargets.{are_names};
ghost use Rattle.widl_script_rules.specs.PassedTargets.{key_target};
ghost use Rattle.widl_script_rules.specs.Targets.{is_target_of};
ghost use Rattle.widl_script_rules.specs.Targets.{overload_of};

use widl_script_tree::Target;

/// An operation's target, by its names and the number of its overload.
#[derive(Clone, Copy, PartialEq, Eq, Hash)]
pub struct OperationTarget<'t> {
    /// The name of the operation's namespace.
    pub owner: &'t [u16],
    /// The operation's name.
    pub name: &'t [u16],
    /// The number of the overload.
    pub overload: u32,
}

/// The target, where it is that of an operation that isn't static.
pub fn operation_target(target: &Target) -> Option<OperationTarget<'_>>
    ensures target { MatchOption result ((list : DefsTerm) → overload_of list target.now ≡ None) (λ key. key_target key ≡ target.now) }
    ensures names { (space : SpaceTerm) (o : OpNameTerm) (k : ℕ) → is_target_of space o k target.now ≡ are_names result space.name o.name k }
{
    match target {
        Target::Operation {
            owner,
            name,
            fixed: false,
            overload,
        } => Some(OperationTarget {
            owner: owner.as_slice(),
            name: name.as_slice(),
            overload: *overload,
        }),
        _ => None,
    }
}
