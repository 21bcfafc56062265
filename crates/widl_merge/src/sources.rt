//! What the merged list is made from.

ghost use Rattle.std.specs.Prelude.{◌≡◌, ℕ, List, map, option_map, IfOk, true};
ghost use Rattle.widl_idl.specs.declared.kind.Kind.{Kind as KindType};
ghost use Rattle.widl_idl.specs.declared.kind.Kind.TheVariants as kinds;
ghost use Rattle.widl_idl.specs.MergedList.{parent_number};
ghost use Rattle.widl_idl.specs.Parts.{merged_dictionary_members, merged_members};
ghost use Rattle.widl_idl.specs.PlainTrees.{dictionary_member_of, plain_definitions};
ghost use Rattle.widl_idl.specs.PlainTypes.{name_of};
ghost use Rattle.widl_names.specs.PartTables.{has_parts};
ghost use Rattle.widl_merge.specs.GrownLists.{HasParentOf, Means};
ghost use Rattle.widl_names.specs.Listings.{listed_members};

use crate::dictionary_parts::DictionaryParts;
use std::alloc::{AllocError, Global};
use std::marker::Model;
use widl_idl::Kind;
use widl_idl::tree::{DictionaryMember, Member, Name};
use widl_names::{Resolver, Scope, list_members};

/// The definitions of a set of files, and the parts of dictionaries.
#[derive(Drop)]
pub struct Sources<'s, 'd, 'a> {
    scope: &'s Scope<'d, 'a>,
    dictionaries: DictionaryParts<'d, 'a>,
}

impl<'s, 'd, 'a> Model for Sources<'s, 'd, 'a> {
    ghost use Rattle.std.specs.Prelude.{◌≡◌, List};
    ghost use Rattle.std.specs.Coded.{codes};
    ghost use Rattle.widl_idl.specs.contracts.tree.types.TypeForm as written;
    ghost use Rattle.widl_idl.specs.declared.tree.definitions.Definition.{Definition as DefinitionType};

    ghost Value = { List DefinitionType };

    ghost coded = { Prim.hlevel (codes, written.the_row.coded) };

    ghost view = { λ s. s.scope.now };

    ghost invariant = { λ s. s.dictionaries ≡ s.scope.now };
}

impl<'s, 'd, 'a> Sources<'s, 'd, 'a> {
    /// What the merged list of these definitions is made from.
    ///
    /// # Errors
    ///
    /// `AllocError` where there is no memory.
    pub fn of(alloc: Global, scope: &'s Scope<'d, 'a>) -> Result<Sources<'s, 'd, 'a>, AllocError>
        ensures { IfOk result (λ sources. sources ≡ scope.now) }
    {
        let dictionaries = DictionaryParts::of(alloc, scope.meanings())?;
        Ok(Sources {
            scope,
            dictionaries,
        })
    }

    /// What types mean.
    pub fn resolver(&self) -> &Resolver<'d, 'a>
        ensures { result.now ≡ self.now }
    {
        self.scope.resolver()
    }

    /// The number of the parent, among the definitions of its kind, that a definition of this kind has.
    pub fn parent(&self, parent: Option<&Name>, kind: Kind) -> Option<u32>
        requires { HasParentOf (plain_definitions self.now) kind (option_map (λ name. name_of name.now) parent) }
        ensures { result ≡ parent_number (plain_definitions self.now) kind (option_map (λ name. name_of name.now) parent.entry) }
    {
        match parent {
            None => None,
            Some(name) => self.resolver().kind_number(name.text.as_str(), kind),
        }
    }

    /// The members of the interface or the namespace of this number in merged order.
    ///
    /// # Errors
    ///
    /// `AllocError` where there is no memory.
    pub fn members(&self, alloc: Global, number: usize) -> Result<Vec<&'a Member>, AllocError>
        ensures { IfOk result (λ list. (text : List ℕ) (kind : KindType) → Means (plain_definitions self.now) text number kind → has_parts kind ≡ true → listed_members list.items ≡ merged_members (plain_definitions self.now) kind text) }
    {
        let parts = self.scope.parts().list(alloc, number)?;
        list_members(alloc, &parts)
    }

    /// The members of the dictionary of this number, its own before those of its partials.
    ///
    /// # Errors
    ///
    /// `AllocError` where there is no memory.
    pub fn dictionary_members(
        &self,
        alloc: Global,
        number: usize,
    ) -> Result<Vec<&'a DictionaryMember>, AllocError>
        ensures { IfOk result (λ list. (text : List ℕ) → Means (plain_definitions self.now) text number kinds.Dictionary → map (λ m. dictionary_member_of m.now) list.items ≡ merged_dictionary_members (plain_definitions self.now) text) }
    {
        self.dictionaries.list(alloc, number)
    }
}
