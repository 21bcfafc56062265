//! What the rules on default values look up in a merged list.

ghost use Rattle.std.specs.Prelude.{IfOk};
ghost use Rattle.widl_idl.specs.DefinitionTerms.{defs_term};
ghost use Rattle.widl_fits.specs.Fitting.{Knows, KnowsRequired};
ghost use Rattle.widl_fits.specs.Hierarchies.{IsHierarchy};
ghost use Rattle.widl_overload.specs.rules.Dictionaries.{dictionary_terms};

use crate::choice_values::{ChoiceValues, list_values};
use crate::required_members::RequiredMembers;
use std::alloc::{AllocError, Global};
use widl_idl::Defs;

/// Dictionaries and enumerations by their numbers, for those who ask for much.
#[derive(Drop)]
pub struct Tables<'d> {
    /// Which dictionaries have a required member, inherited ones included.
    pub required: RequiredMembers,
    /// The values of each enumeration.
    pub values: Vec<ChoiceValues<'d>>,
}

impl<'d> Tables<'d> {
    /// The dictionaries and the enumerations of a merged list.
    ///
    /// # Errors
    ///
    /// `AllocError` where there is no memory.
    pub fn of(alloc: Global, defs: &'d Defs) -> Result<Tables<'d>, AllocError>
        requires { IsHierarchy (dictionary_terms defs.now) }
        ensures { IfOk result (λ tables. Knows (defs_term defs.now) tables) }
    {
        let required = RequiredMembers::of(alloc, defs.dicts.as_slice())?;
        let values = list_values(alloc, defs.choices.as_slice())?;
        Ok(Tables { required, values })
    }

    /// The dictionaries alone, without a value of an enumeration.
    ///
    /// # Errors
    ///
    /// `AllocError` where there is no memory.
    pub fn of_dictionaries(alloc: Global, defs: &'d Defs) -> Result<Tables<'d>, AllocError>
        requires { IsHierarchy (dictionary_terms defs.now) }
        ensures { IfOk result (λ tables. KnowsRequired (defs_term defs.now) tables) }
    {
        let required = RequiredMembers::of(alloc, defs.dicts.as_slice())?;
        Ok(Tables {
            required,
            values: Vec::new(alloc),
        })
    }
}
