//! Which dictionaries have a required member, inherited ones included.

ghost use Rattle.std.specs.Prelude.{◌≡◌, ◌++◌, ◌∷◌, [], map, option_to_list, IfOk, OnOk};
ghost use Rattle.std.specs.List.{list_any};
ghost use Rattle.widl_idl.specs.DefinitionTerms.{dict_term};
ghost use Rattle.widl_fits.specs.Hierarchies.{IsHierarchy};
ghost use Rattle.widl_fits.specs.Required.{TellsRequired, has_own, is_flagged};
ghost use Rattle.widl_overload.specs.rules.Dictionaries.{dictionary_parents};

use std::alloc::{AllocError, Global};
use widl_graph::{Graph, Walk, either_flag, flags_reached};
use widl_idl::{Dict, Member};

/// For each dictionary, whether one of its members is required, inherited ones included (Web IDL,
/// "Dictionaries").
#[derive(Drop)]
pub struct RequiredMembers {
    /// Whether one of its own members is.
    own: Vec<bool>,
    /// Whether one that it inherits is.
    inherited: Vec<bool>,
}

impl RequiredMembers {
    /// Those of the dictionaries of a merged list.
    ///
    /// # Errors
    ///
    /// `AllocError` where there is no memory.
    pub fn of(alloc: Global, dicts: &[Dict]) -> Result<RequiredMembers, AllocError>
        requires { IsHierarchy (map dict_term dicts.now) }
        ensures { IfOk result (λ required. TellsRequired (map dict_term dicts.now) required) }
    {
        let own = own_flags(alloc, dicts)?;
        let graph = parents(alloc, dicts)?;
        let walk = Walk::over(alloc, &graph)?;
        let inherited = flags_reached(alloc, &graph, &walk, own.as_slice())?;
        Ok(RequiredMembers { own, inherited })
    }

    /// Whether the dictionary of this number has a required member.
    pub fn has(&self, number: usize) -> bool
        ensures { result ≡ is_flagged self.now number }
    {
        either_flag(self.own.as_slice(), self.inherited.as_slice(), number)
    }
}

/// For each dictionary, whether one of its own members is required.
fn own_flags(alloc: Global, dicts: &[Dict]) -> Result<Vec<bool>, AllocError>
    ensures { IfOk result (λ flags. flags.items ≡ map has_own (map dict_term dicts.now)) }
{
    let mut flags = Vec::new(alloc);
    for dict in dicts {
        flags.push(has_own(dict))?;
    }
    Ok(flags)
}

/// Whether one of its own members is required.
fn has_own(dict: &Dict) -> bool
    ensures { result ≡ has_own (dict_term dict.now) }
{
    any_required(dict.members.as_slice())
}

fn any_required(members: &[Member]) -> bool
    ensures { result ≡ list_any (λ m. m.required) members.now }
{
    members.iter().any(|member| member.required)
}

/// For each dictionary its parent, if it has one.
fn parents(alloc: Global, dicts: &[Dict]) -> Result<Graph, AllocError>
    ensures { IfOk result (λ graph. graph ≡ dictionary_parents (map dict_term dicts.now)) }
{
    let mut graph = Graph::new(alloc);
    for dict in dicts {
        add_child(&mut graph, dict.parent)?;
    }
    Ok(graph)
}

/// Adds a dictionary with its parent.
fn add_child(graph: &mut Graph, parent: Option<u32>) -> Result<(), AllocError>
    ensures { OnOk result (graph.new ≡ graph.old ++ option_to_list parent ∷ []) }
{
    match parent {
        None => graph.add_linked(&[]),
        Some(number) => graph.add_linked(&[number as usize]),
    }
}
