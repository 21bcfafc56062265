//! Definitions that links between them lead back to.

ghost use Rattle.std.specs.Prelude.{ℕ, List};
ghost use Rattle.widl_graph.specs.Reaching.{TellsCyclic};
ghost use Rattle.widl_idl.specs.First.{FirstWhere};
ghost use Rattle.widl_idl.specs.MergingRules.{ComesBack};
ghost use Rattle.widl_idl.specs.PlainTrees.{definition_of};
ghost use Rattle.widl_merge.specs.Links.{Returns};
ghost use Rattle.widl_names.specs.Listings.{listed_definitions};

use widl_graph::flag_at;
use widl_idl::tree::Definition;
use widl_idl::{Violation, earlier_violation};
use widl_names::name_declared;

/// The first place of the name of a definition that comes back to itself, where a flag for each tells
/// which do.
pub fn first_coming_back(cyclic: &[bool], definitions: &[&Definition]) -> Option<Violation>
    ensures { (links : List (List ℕ)) → TellsCyclic links cyclic.now → FirstWhere (ComesBack links (listed_definitions definitions.now)) result }
{
    let mut best = None;
    for (number, definition) in definitions.iter().enumerate() {
        let found = coming_back(cyclic, number, definition);
        best = earlier_violation(best, found);
    }
    best
}

/// The place of the name of the definition with this number, if it comes back to itself.
fn coming_back(cyclic: &[bool], number: usize, definition: &Definition) -> Option<Violation>
    ensures { (links : List (List ℕ)) → TellsCyclic links cyclic.now → FirstWhere (Returns links number (definition_of definition.now)) result }
{
    match name_declared(&definition.kind) {
        None => None,
        Some(name) => if flag_at(cyclic, number) {
            Some(Violation::at(name.at))
        } else {
            None
        },
    }
}
