//! The numbers of definitions among those of their kind.

ghost use Rattle.std.specs.Prelude.{◌≡◌, ◌+◌, ◌<◌, ◌^◌, List, map, length, IfOk, if◌then◌else◌};
ghost use Rattle.widl_idl.specs.declared.kind.Kind.{Kind};
ghost use Rattle.widl_idl.specs.PlainTrees.{definition_of};
ghost use Rattle.widl_idl.specs.WrittenTypes.{is_main_of};
ghost use Rattle.widl_names.specs.KindNumbers.{AreCounts, AreNumbers, count_of, with_count};
ghost use Rattle.widl_names.specs.Listings.{listed_definitions};

use crate::names::{is_partial, kind_of};
use std::alloc::{AllocError, Global};
use widl_idl::Kind;
use widl_idl::tree::Definition;

/// How many main definitions there are of each kind.
#[derive(Clone, Copy)]
pub struct Counts {
    callback_functions: u32,
    callback_interfaces: u32,
    interfaces: u32,
    mixins: u32,
    namespaces: u32,
    dictionaries: u32,
    enumerations: u32,
    typedefs: u32,
    includes: u32,
}

/// For each definition the number of main definitions of its kind before it, and how many there are of
/// each kind in all.
#[derive(Drop)]
pub struct KindNumbers {
    /// The numbers, by the places of the definitions.
    pub numbers: Vec<u32>,
    /// The counts of all.
    pub counts: Counts,
}

/// Numbers definitions by their kinds.
///
/// # Errors
///
/// `AllocError` where there is no memory.
pub fn number_kinds(alloc: Global, definitions: &[&Definition]) -> Result<KindNumbers, AllocError>
    requires few { length definitions.now < 2 ^ 32 }
    ensures numbers { IfOk result (λ found. AreNumbers (listed_definitions definitions.now) found.numbers.items) }
    ensures counts { IfOk result (λ found. AreCounts (listed_definitions definitions.now) found.counts) }
{
    let mut counts = Counts::none();
    let mut numbers = Vec::new(alloc);
    for definition in definitions {
        numbers.push(counts.count(kind_of(&definition.kind)))?;
        counts = counts.with(definition);
    }
    Ok(KindNumbers { numbers, counts })
}

impl Counts {
    fn none() -> Counts
        ensures { (kind : Kind) → count_of result kind ≡ 0 }
    {
        Counts {
            callback_functions: 0,
            callback_interfaces: 0,
            interfaces: 0,
            mixins: 0,
            namespaces: 0,
            dictionaries: 0,
            enumerations: 0,
            typedefs: 0,
            includes: 0,
        }
    }

    /// How many there are of a kind.
    pub fn count(&self, kind: Kind) -> u32
        ensures { result ≡ count_of self.now kind }
    {
        match kind {
            Kind::CallbackFunction => self.callback_functions,
            Kind::CallbackInterface => self.callback_interfaces,
            Kind::Interface => self.interfaces,
            Kind::Mixin => self.mixins,
            Kind::Namespace => self.namespaces,
            Kind::Dictionary => self.dictionaries,
            Kind::Enumeration => self.enumerations,
            Kind::Typedef => self.typedefs,
            Kind::Includes => self.includes,
        }
    }

    /// The counts with one definition more.
    fn with(self, definition: &Definition) -> Counts
        requires { (kind : Kind) → count_of self kind + 1 < 2 ^ 32 }
        ensures { (kind : Kind) → count_of result kind ≡ (if is_main_of kind (definition_of definition.now) then count_of self kind + 1 else count_of self kind) }
    {
        if is_partial(&definition.kind) {
            self
        } else {
            let kind = kind_of(&definition.kind);
            self.with_count(kind, self.count(kind) + 1)
        }
    }

    /// The counts with another count of a kind.
    fn with_count(self, kind: Kind, count: u32) -> Counts
        ensures { result ≡ with_count self kind count }
    {
        match kind {
            Kind::CallbackFunction => Counts {
                callback_functions: count,
                ..self
            },
            Kind::CallbackInterface => Counts {
                callback_interfaces: count,
                ..self
            },
            Kind::Interface => Counts {
                interfaces: count,
                ..self
            },
            Kind::Mixin => Counts {
                mixins: count,
                ..self
            },
            Kind::Namespace => Counts {
                namespaces: count,
                ..self
            },
            Kind::Dictionary => Counts {
                dictionaries: count,
                ..self
            },
            Kind::Enumeration => Counts {
                enumerations: count,
                ..self
            },
            Kind::Typedef => Counts {
                typedefs: count,
                ..self
            },
            Kind::Includes => Counts {
                includes: count,
                ..self
            },
        }
    }
}
