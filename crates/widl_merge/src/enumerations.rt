//! The enumerations that definitions declare.

ghost use Rattle.std.specs.Prelude.{◌≡◌, [], map, IfOk};
ghost use Rattle.widl_idl.specs.MergedList.{enumeration_of};
ghost use Rattle.widl_idl.specs.PlainTrees.{enumeration_value_of};
ghost use Rattle.widl_idl.specs.PlainTypes.{name_of};
ghost use Rattle.widl_merge.specs.ListedValues.{texts_of};

use std::alloc::{AllocError, Global};
use widl_idl::tree::{Enumeration, EnumerationValue};
use widl_idl::{Choice, Texts};
use widl_text::{Items, Units};

/// The enumeration that a definition declares.
///
/// # Errors
///
/// `AllocError` where there is no memory.
pub fn enumeration_meant(alloc: Global, enumeration: &Enumeration) -> Result<Choice, AllocError>
    ensures { IfOk result (λ c. c ≡ enumeration_of [] (record { name = name_of enumeration.now.name; values = map enumeration_value_of enumeration.now.values; trailing_comma = enumeration.now.trailing_comma })) }
{
    Ok(Choice {
        at: enumeration.name.at,
        name: Units::of_str(alloc, enumeration.name.text.as_str())?,
        values: texts_of(alloc, enumeration.values.as_slice())?,
    })
}

/// The texts of values.
fn texts_of(alloc: Global, values: &[EnumerationValue]) -> Result<Texts, AllocError>
    ensures { IfOk result (λ texts. texts ≡ texts_of values.now) }
{
    let mut texts = Items::with_room(alloc, values.len())?;
    for value in values {
        texts.push(Units::of_str(alloc, value.text.as_str())?)?;
    }
    Ok(texts)
}
