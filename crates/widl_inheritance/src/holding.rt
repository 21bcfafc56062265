//! Which dictionaries stand in the types of the members of which, and the rule on those that stand in
//! their own.
//!
//! A dictionary has the members that it inherits, too. So that each member is looked at once, and not
//! once for each dictionary that inherits it, dictionaries are put into a graph with two nodes for
//! each: dictionary n of `count` as a type has the number n, and the members of dictionary n with those
//! that it inherits have the number count + n. The first leads to the second; the second leads to the
//! dictionaries in the types of n's own members, and to the members of the dictionary from which n
//! inherits.

ghost use Rattle.std.specs.Prelude.{◌≡◌, ◌+◌, ◌^◌, ◌<◌, ◌↔◌, [], ◌∷◌, ◌++◌, IfOk, IsTrue, OnOk, Some, length, map, slice_get, true};
ghost use Rattle.widl_idl.specs.DefinitionTerms.{dict_term};
ghost use Rattle.widl_idl.specs.First.{FirstWhere};
ghost use Rattle.widl_idl.specs.MergingRules.{IsAt};
ghost use Rattle.widl_idl.specs.Terms.{packed, type_term};
ghost use Rattle.widl_inheritance.specs.HoldingGraph.{AreHoldings, AreWithin, IsAtName, IsHoldingGraph, IsTypeGraph, IsWithin, member_links};
ghost use Rattle.widl_overload.specs.rules.Dictionaries.{dictionaries_in, dictionaries_in_all, dictionaries_of_members};
ghost use Rattle.widl_overload.specs.rules.DictionaryRules.{HoldsItself};

use std::alloc::{AllocError, Global};
use widl_graph::{Graph, Walk, flag_at};
use widl_idl::{Dict, IdlType, Violation, earlier_violation};

/// Which dictionaries stand in the types of the members of which.
#[derive(Drop)]
pub struct Holdings {
    pub(crate) graph: Graph,
    pub(crate) walk: Walk,
}

impl Holdings {
    /// Walks from dictionaries to those in the types of their members, inherited ones included. It takes
    /// time that grows with the dictionaries and the types of their own members.
    ///
    /// # Errors
    ///
    /// `AllocError` where there is no memory.
    pub fn of(alloc: Global, dicts: &[Dict]) -> Result<Holdings, AllocError>
        requires { AreWithin (map dict_term dicts.now) }
        ensures { IfOk result (λ holdings. AreHoldings (map dict_term dicts.now) holdings) }
    {
        let mut graph = type_graph(alloc, dicts.len())?;
        add_members(alloc, &mut graph, dicts)?;
        let walk = Walk::over(alloc, &graph)?;
        Ok(Holdings { graph, walk })
    }
}

/// The first place of the name of a dictionary that stands in the type of a member of its own, at any
/// depth and through any number of dictionaries (Web IDL, "Dictionaries").
pub fn first_holding_itself(dicts: &[Dict], holdings: &Holdings) -> Option<Violation>
    requires { AreHoldings (map dict_term dicts.now) holdings.now }
    ensures { FirstWhere (HoldsItself (map dict_term dicts.now)) result }
{
    first_flagged(holdings.walk.cyclic.as_slice(), dicts)
}

/// The first place of the name of a dictionary whose flag is set.
pub(crate) fn first_flagged(flags: &[bool], dicts: &[Dict]) -> Option<Violation>
    ensures { FirstWhere (IsAtName (λ number. slice_get flags.now number ≡ Some true) (map dict_term dicts.now)) result }
{
    let mut best = None;
    for (number, dict) in dicts.iter().enumerate() {
        let found = flagged(flags, number, dict);
        best = earlier_violation(best, found);
    }
    best
}

/// The place of a dictionary's name, if the flag with this number is set.
fn flagged(flags: &[bool], number: usize, dict: &Dict) -> Option<Violation>
    ensures { FirstWhere (λ s. (slice_get flags.now number ≡ Some true) × IsAt dict.now.at s) result }
{
    if flag_at(flags, number) {
        Some(Violation::at(dict.at))
    } else {
        None
    }
}

/// The nodes of so many dictionaries as types, each followed by that of its members.
fn type_graph(alloc: Global, count: usize) -> Result<Graph, AllocError>
    requires { count + count < 2 ^ 64 }
    ensures { IfOk result (λ graph. IsTypeGraph count count graph) }
{
    let mut graph = Graph::new(alloc);
    for number in 0..count {
        graph.add_linked(&[count + number])?;
    }
    Ok(graph)
}

/// Adds the nodes of the members of dictionaries.
fn add_members(alloc: Global, graph: &mut Graph, dicts: &[Dict]) -> Result<(), AllocError>
    requires graph { IsTypeGraph (length dicts.now) (length dicts.now) graph.old }
    requires within { AreWithin (map dict_term dicts.now) }
    ensures { OnOk result (IsHoldingGraph (map dict_term dicts.now) (length dicts.now) graph.new) }
{
    for dict in dicts {
        let links = links_of(alloc, dicts.len(), dict)?;
        graph.add_linked(links.as_slice())?;
    }
    Ok(())
}

/// The nodes to which the members of one of `count` dictionaries lead.
fn links_of(alloc: Global, count: usize, dict: &Dict) -> Result<Vec<usize>, AllocError>
    requires room { count + count < 2 ^ 64 }
    requires within { IsWithin count (dict_term dict.now) }
    ensures { IfOk result (λ links. links.items ≡ member_links count (dict_term dict.now)) }
{
    let mut links = inside_of(alloc, dict)?;
    if let Some(parent) = dict.parent {
        links.push(count + parent as usize)?;
    }
    Ok(links)
}

/// The dictionaries in the types of a dictionary's own members.
fn inside_of(alloc: Global, dict: &Dict) -> Result<Vec<usize>, AllocError>
    ensures { IfOk result (λ inside. inside.items ≡ dictionaries_of_members (dict_term dict.now)) }
{
    let mut inside = Vec::new(alloc);
    let members = dict.members.as_slice();
    for member in members {
        add_inside(&mut inside, &member.ty)?;
    }
    Ok(inside)
}

/// Adds the dictionaries that stand in a type, at any depth.
#[cycle(inside)]
fn add_inside(inside: &mut Vec<usize>, ty: &IdlType) -> Result<(), AllocError>
    ensures { OnOk result (inside.new.items ≡ inside.old.items ++ dictionaries_in (type_term ty.now)) }
{
    match ty {
        IdlType::Dict(number) => {
            inside.push(*number as usize)?;
            Ok(())
        }
        IdlType::Seq(element) => add_inside(inside, element),
        IdlType::Rec(_, value) => add_inside(inside, value),
        IdlType::Promise(value) => add_inside(inside, value),
        IdlType::Nullable(inner) => add_inside(inside, inner),
        IdlType::Union(members) => add_inside_all(inside, members.as_slice()),
        _ => Ok(()),
    }
}

/// The same of the member types of a union.
#[cycle(inside)]
fn add_inside_all(inside: &mut Vec<usize>, types: &[IdlType]) -> Result<(), AllocError>
    ensures { OnOk result (inside.new.items ≡ inside.old.items ++ dictionaries_in_all (packed (map type_term types.now))) }
{
    for ty in types {
        add_inside(inside, ty)?;
    }
    Ok(())
}
