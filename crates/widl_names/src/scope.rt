//! The tables that the rules over a set of files read, made once for all of them.

ghost use Rattle.std.specs.Prelude.{◌≡◌, ◌<◌, ◌^◌, IfOk, length, map};

use crate::meanings::Meanings;
use crate::parts::Parts;
use crate::resolver::Resolver;
use std::alloc::{AllocError, Global};
use std::marker::Model;
use widl_idl::tree::Definition;

/// The definitions of a set of files with what their names and types mean, and with their parts. It is
/// seen as the list of these definitions, which are fewer than 4,294,967,296.
#[derive(Drop)]
pub struct Scope<'d, 'a> {
    resolver: Resolver<'d, 'a>,
    parts: Parts<'d, 'a>,
}

impl<'d, 'a> Model for Scope<'d, 'a> {
    ghost use Rattle.std.specs.Prelude.{◌≡◌, ◌<◌, ◌^◌, List, length};
    ghost use Rattle.std.specs.Coded.{codes};
    ghost use Rattle.widl_idl.specs.contracts.tree.types.TypeForm as written;
    ghost use Rattle.widl_idl.specs.declared.tree.definitions.Definition.{Definition as DefinitionType};

    ghost Value = { List DefinitionType };

    ghost coded = { Prim.hlevel (codes, written.the_row.coded) };

    ghost view = { λ s. s.resolver };

    ghost invariant = { λ s. (s.parts ≡ s.resolver) × (length s.resolver < 2 ^ 32) };
}

impl<'d, 'a> Scope<'d, 'a> {
    /// The tables of these definitions.
    ///
    /// # Errors
    ///
    /// `AllocError` where there is no memory.
    pub fn of(alloc: Global, definitions: &'d [&'a Definition]) -> Result<Scope<'d, 'a>, AllocError>
        requires { length definitions.now < 2 ^ 32 }
        ensures { IfOk result (λ scope. scope ≡ map (λ d. d.now) definitions.now) }
    {
        let meanings = Meanings::of(alloc, definitions)?;
        let parts = Parts::of(alloc, &meanings)?;
        let resolver = Resolver::of(alloc, meanings)?;
        Ok(Scope { resolver, parts })
    }

    /// All definitions, in their order.
    pub fn all(&self) -> &'d [&'a Definition]
        ensures all { map (λ d. d.now) result.now ≡ self.now }
        ensures few { length self.now < 2 ^ 32 }
    {
        self.resolver.meanings().all()
    }

    /// What names mean.
    pub fn meanings(&self) -> &Meanings<'d, 'a>
        ensures { result.now ≡ self.now }
    {
        self.resolver.meanings()
    }

    /// What types mean.
    pub fn resolver(&self) -> &Resolver<'d, 'a>
        ensures { result.now ≡ self.now }
    {
        &self.resolver
    }

    /// The parts of definitions.
    pub fn parts(&self) -> &Parts<'d, 'a>
        ensures { result.now ≡ self.now }
    {
        &self.parts
    }
}
