//! What the rules on step lines look up in a list of definitions.

ghost use Rattle.std.specs.Prelude.{◌≡◌, [], IfOk};
ghost use Rattle.widl_fits.specs.Hierarchies.{IsHierarchy};
ghost use Rattle.widl_idl.specs.DefinitionTerms.{defs_term};
ghost use Rattle.widl_overload.specs.rules.Dictionaries.{dictionary_terms};
ghost use Rattle.widl_script_rules.specs.ListLookups.{AreListTables};

use crate::callbacks_and_pairs::CallbackTakes;
use std::alloc::{AllocError, Global};
use widl_fits::Tables;
use widl_idl::Defs;

/// A list with its tables, which are made once for all step lines of a script.
#[derive(Drop)]
pub(crate) struct ListTables<'d> {
    /// The list.
    pub(crate) list: &'d Defs,
    /// What literals fit its types.
    pub(crate) fits: Tables<'d>,
    /// How many sources its callbacks take.
    pub(crate) callbacks: CallbackTakes,
}

impl<'d> ListTables<'d> {
    /// Those of a list without interfaces.
    pub(crate) fn of(alloc: Global, list: &'d Defs) -> Result<ListTables<'d>, AllocError>
        requires interfaces { (defs_term list.now).ifaces ≡ [] }
        requires hierarchy { IsHierarchy (dictionary_terms list.now) }
        ensures { IfOk result (λ tables. AreListTables (defs_term list.now) tables) }
    {
        let fits = Tables::of(alloc, list)?;
        let callbacks = CallbackTakes::of(alloc, list)?;
        Ok(ListTables {
            list,
            fits,
            callbacks,
        })
    }
}
