//! What the types of the program say of its literals. These are laws, which take no step.

ghost use Rattle.std.specs.Int.{w128};
ghost use Rattle.std.specs.Prelude.{◌<◌, ℕ, slice_index, FitsSigned};
ghost use Rattle.widl_fits.specs.Literals.{IsOfProgram};

use widl_idl::Literal;

/// That an integer has 128 bits, and each unit of a text 16.
pub(crate) fn literal_is_of_program(literal: &Literal)
    ensures { IsOfProgram literal.now }
{
    match literal {
        Literal::Int(number) => number_fits(number),
        Literal::Text(text) => units_fit(text.as_slice()),
        Literal::Null => {}
        Literal::Undefined => {}
        Literal::Bool(_) => {}
        Literal::EmptyList => {}
        Literal::EmptyDict => {}
    }
}

fn number_fits(number: &i128)
    ensures { FitsSigned w128 number.now }
{
    let _number = *number;
}

fn units_fit(items: &[u16])
    ensures { (place : ℕ) → slice_index items.now place < 65536 }
{
    let _length = items.len();
}
