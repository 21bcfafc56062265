//! Which sources fit what a step line does with them.

ghost use Rattle.std.specs.Prelude.{◌≡◌, ◌↔◌, [], option_map, IsTrue};
ghost use Rattle.widl_fits.specs.Fitting.{Knows};
ghost use Rattle.widl_idl.specs.DefinitionTerms.{DefsTerm};
ghost use Rattle.widl_idl.specs.Terms.{type_term};
ghost use Rattle.widl_script_rules.specs.FitTests.{fits_by};
ghost use Rattle.widl_script_rules.specs.Fits.{FitsIfThere, SourceFits, TypeFits};
ghost use Rattle.widl_script_rules.specs.Lookups.{overload_term};

use crate::overloads::Overload;
use crate::same_types::same_without_annotations;
use crate::wanted::source_type;
use widl_fits::{Tables, literal_fits};
use widl_idl::IdlType;
use widl_script_tree::Source;

/// Whether a source of one type fits another, in a list without interfaces: without annotations they are the
/// same, or the other is nullable over a type that it fits.
pub(crate) fn type_fits(source: &IdlType, wanted: &IdlType) -> bool
    ensures { (list : DefsTerm) → list.ifaces ≡ [] → IsTrue result ↔ TypeFits list (type_term source.now) (type_term wanted.now) }
{
    fits_by(source, wanted)
}

/// The same. A type nests at most 16 levels, which bounds the recursion.
#[cycle(fits)]
fn fits_by(source: &IdlType, wanted: &IdlType) -> bool
    ensures { result ≡ fits_by (type_term source.now) (type_term wanted.now) }
{
    match wanted {
        IdlType::Nullable(inner) => {
            same_without_annotations(source, wanted) || fits_by(source, inner)
        }
        _ => same_without_annotations(source, wanted),
    }
}

/// Whether a source fits that has this type; where it has none, it names what isn't there and breaks another
/// rule.
fn fits_if_there(source: Option<&IdlType>, wanted: &IdlType) -> bool
    ensures { (list : DefsTerm) → list.ifaces ≡ [] → IsTrue result ↔ FitsIfThere list (option_map (λ t. type_term t.now) source.entry) (type_term wanted.now) }
{
    match source {
        None => true,
        Some(t) => type_fits(t, wanted),
    }
}

/// Whether a source fits in a block for an overload, in a list without interfaces.
pub(crate) fn source_fits(
    tables: &Tables<'_>,
    overload: Overload<'_>,
    source: &Source,
    wanted: &IdlType,
) -> bool
    ensures { (list : DefsTerm) → Knows list tables.now → list.ifaces ≡ [] → IsTrue result ↔ SourceFits list (overload_term overload.entry) source.now (type_term wanted.now) }
{
    match source {
        Source::Literal(literal) => literal_fits(tables, wanted, literal),
        Source::Arg(_) => fits_if_there(source_type(overload, source), wanted),
        Source::Slot(_) => fits_if_there(source_type(overload, source), wanted),
        Source::This => true,
    }
}
