//! Sets of files that break no rule.

use std::marker::Model;
use widl_idl::{Defs, Fragments, Merged};

/// A set of files that breaks no rule, with its merged list of definitions (Web IDL, "Interface
/// definition language").
#[derive(Drop)]
pub struct Accepted {
    merged: Merged,
}

impl Model for Accepted {
    ghost use Rattle.std.specs.Coded.{codes};
    ghost use Rattle.widl_idl.specs.contracts.types.IdlType as resolved;
    ghost use Rattle.widl_idl.specs.contracts.tree.types.TypeForm as written;
    ghost use Rattle.widl_idl.specs.MergedSets.{IsMerged, MergedSet};
    ghost use Rattle.widl_overload.specs.rules.Validity.{IsValid};

    ghost Value = { MergedSet };

    ghost view = { λ a. a.merged };

    ghost coded = { Prim.hlevel (codes, resolved.the_row.coded, written.the_row.coded) };

    ghost invariant = { λ a. IsMerged a.merged.defs a.merged.fragments × IsValid a.merged };
}

impl Accepted {
    ghost use Rattle.std.specs.Prelude.{◌≡◌};
    ghost use Rattle.widl_idl.specs.MergedSets.{IsMerged};
    ghost use Rattle.widl_overload.specs.rules.Validity.{IsValid};

    /// The files with their merged list, of which the caller has found that they break no rule of
    /// validity.
    pub fn new(merged: Merged) -> Accepted
        requires merged { IsMerged merged.defs merged.fragments }
        requires valid { IsValid merged }
        ensures { result ≡ merged }
    {
        Accepted { merged }
    }

    /// The merged list.
    pub fn defs(&self) -> &Defs
        ensures defs { result.now ≡ self.now.defs }
        ensures merged { IsMerged self.now.defs self.now.fragments }
        ensures valid { IsValid self.now }
    {
        self.merged.defs()
    }

    /// The files.
    pub fn fragments(&self) -> &Fragments
        ensures { result.now ≡ self.now.fragments }
    {
        self.merged.fragments()
    }
}
