//! Which of many interfaces are related, told by two comparisons.

ghost use Rattle.std.specs.Prelude.{◌≡◌, map, IfOk};
ghost use Rattle.widl_graph.specs.Reaching.{IsForest};
ghost use Rattle.widl_fits.specs.Hierarchies.{interface_parents};
ghost use Rattle.widl_idl.specs.declared.interface.Iface.{Iface as IfaceType};
ghost use Rattle.widl_idl.specs.DefinitionTerms.{defs_term};
ghost use Rattle.widl_type_rules.specs.Lineages.{TellRelated, lineage_of};

use std::alloc::{AllocError, Global};
use widl_graph::{Span, Spans};
use widl_idl::{Defs, Iface};

/// The spans of interfaces, by their numbers.
#[derive(Drop)]
pub struct Lineages {
    /// The spans.
    pub spans: Vec<Option<Span>>,
}

impl Lineages {
    /// The spans of all interfaces of the definitions, in time that grows with their number.
    ///
    /// # Errors
    ///
    /// `AllocError` where there is no memory.
    pub fn of(alloc: Global, defs: &Defs) -> Result<Lineages, AllocError>
        requires { IsForest (interface_parents (defs_term defs.now).ifaces) }
        ensures { IfOk result (λ all. TellRelated (defs_term defs.now).ifaces all.spans.items) }
    {
        let parents = parents_of(alloc, defs.ifaces.as_slice())?;
        let spans = Spans::of(alloc, parents.as_slice())?;
        let Spans { by_node, order: _ } = spans;
        Ok(Lineages { spans: by_node })
    }

    /// The span of an interface. A number of none has a place of its own after all of them.
    pub fn span(&self, number: u32) -> Span
        ensures { result ≡ lineage_of self.now.spans.items number }
    {
        let number = number as usize;
        let alone = Span {
            start: self.spans.len() + number,
            past: self.spans.len() + number + 1,
        };
        self.spans.get(number).copied().flatten().unwrap_or(alone)
    }

    /// The spans of the interfaces with these numbers.
    ///
    /// # Errors
    ///
    /// `AllocError` where there is no memory.
    pub fn spans_of(&self, alloc: Global, numbers: &[u32]) -> Result<Vec<Span>, AllocError>
        ensures { IfOk result (λ found. found.items ≡ map (lineage_of self.now.spans.items) numbers.now) }
    {
        let mut spans = Vec::new(alloc);
        for number in numbers {
            spans.push(self.span(*number))?;
        }
        Ok(spans)
    }
}

/// The numbers of the interfaces from which these inherit directly.
fn parents_of(alloc: Global, ifaces: &[Iface]) -> Result<Vec<Option<u32>>, AllocError>
    ensures { IfOk result (λ parents. parents.items ≡ map (λ (i : IfaceType). i.parent) ifaces.now) }
{
    let mut parents = Vec::new(alloc);
    for iface in ifaces {
        parents.push(iface.parent)?;
    }
    Ok(parents)
}
