//! Merged lists of definitions.

use crate::defs::Defs;
use crate::tree::Fragments;
use std::marker::Model;

/// A set of files that breaks no rule of the profile and of merging, with the list of definitions that
/// it declares: partials and mixins are put together, and types are resolved (Web IDL, "Partial
/// definitions", "Interface mixins" and "Typedefs").
///
/// There are at most 64 files, each with its place as its number, and fewer than 4,294,967,296 tokens in
/// all of them.
#[derive(Drop)]
pub struct Merged {
    defs: Defs,
    fragments: Fragments,
}

impl Model for Merged {
    ghost use Rattle.std.specs.Coded.{codes};
    ghost use Rattle.widl_idl.specs.contracts.types.IdlType as resolved;
    ghost use Rattle.widl_idl.specs.contracts.tree.types.TypeForm as written;
    ghost use Rattle.widl_idl.specs.MergedSets.{IsMerged, MergedSet};

    ghost Value = { MergedSet };

    ghost view = { λ m. record { defs = m.defs; fragments = m.fragments } };

    ghost coded = { Prim.hlevel (codes, resolved.the_row.coded, written.the_row.coded) };

    ghost invariant = { λ m. IsMerged m.defs m.fragments };
}

impl Merged {
    ghost use Rattle.std.specs.Prelude.{◌≡◌};
    ghost use Rattle.widl_idl.specs.MergedSets.{IsMerged, MergedSet};

    /// The files with their merged list, which the caller has found to be that.
    pub fn new(defs: Defs, fragments: Fragments) -> Merged
        requires merged { IsMerged defs fragments }
        ensures defs { result.defs ≡ defs }
        ensures fragments { result.fragments ≡ fragments }
    {
        Merged { defs, fragments }
    }

    /// The merged list.
    pub fn defs(&self) -> &Defs
        ensures defs { result.now ≡ self.now.defs }
        ensures merged { IsMerged self.now.defs self.now.fragments }
    {
        &self.defs
    }

    /// The files.
    pub fn fragments(&self) -> &Fragments
        ensures fragments { result.now ≡ self.now.fragments }
        ensures merged { IsMerged self.now.defs self.now.fragments }
    {
        &self.fragments
    }
}
