//! What a script is run over, and what is chosen by the class of a value: an overload of a callee, and a
//! member of a union. It stands on `widl_text`, `widl_idl`, `widl_overload`, `widl_value` and, for one
//! definition, on `widl_scalar`. The contracts that the crates above use: [`Tables`] is seen as the set of
//! files that it is made of, [`Tables::list`] gives it, and [`Tables::enum_at`] finds a value of an
//! enumeration; [`kept`] answers `kept_tuples` by the numbers of their overloads, with `argcount_of` and
//! `choosing_place`; [`pick_overload`] is `pick_kept`, and [`pick_member`] is `pick_member_of` (`specs`). The
//! laws are the contracts of the functions of [`laws`]. No entry of an overload set is built, and no type is
//! copied.
#![tactic(auto)]

ghost use Rattle.std.specs.Prelude.{◌≡◌, map, IfOk};
ghost use Rattle.widl_idl.specs.DefinitionTerms.{dict_term};
ghost use Rattle.widl_scalar.specs.Enumerations.{value_place};
ghost use Rattle.widl_tables.specs.Levels.{level_of};
ghost use Rattle.widl_tables.specs.MemberOrder.{own_order};

mod decision;
mod entry_test;
mod entry_types;
mod kept_overloads;
mod kept_type;
pub mod laws;
mod level;
mod member_orders;
mod member_pick;
mod overload_pick;
mod pick;
mod telling;
mod type_test;
mod type_walk;
mod value_places;
mod value_test;

pub use entry_test::Test;
pub use kept_overloads::kept;
pub use kept_type::Kept;
pub use level::{Level, parent_of};
use member_orders::{MemberOrder, level, orders_of, own_members};
pub use member_pick::pick_member;
pub use overload_pick::pick_overload;
pub use pick::Pick;
use std::alloc::{AllocError, Global};
use std::marker::Model;
use value_places::{ValuePlaces, place_in, places_of_choices};
use widl_overload::Accepted;
use widl_text::Units;

/// What a script is run over: a list of definitions, and tables for what would else be looked for in it.
#[derive(Drop)]
pub struct Tables {
    list: Accepted,
    values: Vec<ValuePlaces>,
    orders: Vec<MemberOrder>,
}

impl Model for Tables {
    ghost use Rattle.std.specs.Coded.{codes};
    ghost use Rattle.widl_idl.specs.contracts.types.IdlType as resolved;
    ghost use Rattle.widl_idl.specs.contracts.tree.types.TypeForm as written;
    ghost use Rattle.widl_idl.specs.MergedSets.{MergedSet};
    ghost use Rattle.std.specs.Prelude.{map};
    ghost use Rattle.widl_idl.specs.DefinitionTerms.{dict_term};
    ghost use Rattle.widl_tables.specs.MemberTables.{AreOrders};
    ghost use Rattle.widl_tables.specs.ValuePlaces.{Hold};

    ghost Value = { MergedSet };

    ghost view = { λ t. t.list };

    ghost coded = { Prim.hlevel (codes, resolved.the_row.coded, written.the_row.coded) };

    ghost invariant = { λ t. Hold t.values.items t.list.defs.choices × AreOrders (map dict_term t.list.defs.dicts) t.orders.items };
}

/// The tables of a list.
///
/// # Errors
///
/// `AllocError` where there is no memory.
pub fn compile(alloc: Global, list: Accepted) -> Result<Tables, AllocError>
    ensures { IfOk result (λ tables. tables ≡ list) }
{
    let values = places_of_choices(alloc, list.defs().choices.as_slice())?;
    let orders = orders_of(alloc, list.defs().dicts.as_slice())?;
    Ok(Tables {
        list,
        values,
        orders,
    })
}

impl Tables {
    /// The list that the tables are made of.
    pub fn list(&self) -> &Accepted
        ensures { result.now ≡ self.now }
    {
        &self.list
    }

    /// The place of a text among the values of the enumeration of this number (Web IDL, "Enumerations"):
    /// the first at which it stands. `None` where the enumeration hasn't the text in the places that 32
    /// bits tell, and where the list has no such enumeration. The values aren't walked.
    pub fn enum_at(&self, choice: u32, text: &Units) -> Option<u32>
        ensures { result ≡ value_place self.now.defs.choices choice text.now }
    {
        place_in(&self.values, choice, text)
    }

    /// The numbers of the members that a dictionary declares itself, in the order of their names by
    /// their code units (Web IDL, "Dictionary types"). None where the list has no such dictionary. Nothing
    /// is sorted, and no memory is taken.
    pub fn own_members(&self, dict: u32) -> &[u32]
        ensures { result.now ≡ own_order (map dict_term self.now.defs.dicts) dict }
    {
        own_members(&self.orders, dict)
    }

    /// The nearest dictionary that declares a member: this one, or one from which it inherits (Web IDL,
    /// "inherited dictionaries"). `None` where none does. No dictionary between is looked at, and no
    /// memory is taken.
    pub fn level(&self, dict: u32) -> Option<Level>
        ensures { result ≡ level_of (map dict_term self.now.defs.dicts) dict }
    {
        level(&self.orders, dict)
    }
}
