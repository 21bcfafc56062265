//! The long names and texts of members, of which each is made once.
//!
//! What a mixin brings stands in each interface that includes it. There the copies of a long text share its
//! units, so that a short file with a long name has no long list.

ghost use Rattle.std.specs.Prelude.{◌≡◌, IfOk};
ghost use Rattle.widl_idl.specs.PlainTypes.{value_of, written_default};
ghost use Rattle.widl_idl.specs.WrittenLiterals.{default_of, units_of, value_meant};
ghost use Rattle.widl_merge.specs.LongTexts.{KeepsUnits};

use indexmap::IndexMap;
use std::alloc::{AllocError, Global};
use std::marker::Model;
use widl_idl::Literal;
use widl_idl::tree::{self, LiteralValue};
use widl_names::value_meant;
use widl_text::Units;

/// The fewest bytes of a text that is kept. A shorter one is made anew sooner than it is found.
const FEWEST_KEPT: usize = 64;

/// The long texts that were met, with their units.
#[derive(Drop)]
pub struct LongTexts<'a> {
    kept: IndexMap<&'a str, Units>,
}

impl<'a> Model for LongTexts<'a> {
    ghost use Rattle.widl_merge.specs.LongTexts.{KeepsUnits};

    ghost Value = { Unit {0} };

    ghost view = { λ t. tt };

    ghost invariant = { λ t. KeepsUnits t.kept };
}

impl<'a> LongTexts<'a> {
    /// No texts.
    pub fn new(alloc: Global) -> LongTexts<'a> {
        LongTexts {
            kept: IndexMap::new(alloc),
        }
    }

    /// The units of a text.
    ///
    /// # Errors
    ///
    /// `AllocError` where there is no memory.
    pub fn units_of(&mut self, alloc: Global, text: &'a str) -> Result<Units, AllocError>
        ensures { IfOk result (λ units. units ≡ units_of text.now) }
    {
        if text.len() < FEWEST_KEPT {
            return Units::of_str(alloc, text);
        }
        match self.kept.get(text) {
            Some(units) => units.copy(),
            None => self.keep(alloc, text),
        }
    }

    /// Keeps the units of a text, and gives a copy.
    fn keep(&mut self, alloc: Global, text: &'a str) -> Result<Units, AllocError>
        ensures { IfOk result (λ units. units ≡ units_of text.now) }
    {
        let units = Units::of_str(alloc, text)?;
        let copy = units.copy()?;
        put(&mut self.kept, text, units)?;
        Ok(copy)
    }

    /// What a literal says.
    ///
    /// # Errors
    ///
    /// `AllocError` where there is no memory.
    fn value_of(&mut self, alloc: Global, value: &'a LiteralValue) -> Result<Literal, AllocError>
        ensures { IfOk result (λ l. l ≡ value_meant (value_of value.now)) }
    {
        match value {
            LiteralValue::Text(text) => Ok(Literal::Text(self.units_of(alloc, text.as_str())?)),
            other => value_meant(alloc, other),
        }
    }

    /// The default value that is written, if there is one.
    ///
    /// # Errors
    ///
    /// `AllocError` where there is no memory.
    pub fn default_of(
        &mut self,
        alloc: Global,
        default: &'a Option<Box<tree::Literal>>,
    ) -> Result<Option<Literal>, AllocError>
        ensures { IfOk result (λ l. l ≡ default_of (written_default default.now)) }
    {
        match default {
            None => Ok(None),
            Some(literal) => Ok(Some(self.value_of(alloc, &literal.value)?)),
        }
    }
}

/// Puts the units of a text in.
fn put<'a>(
    kept: &mut IndexMap<&'a str, Units>,
    text: &'a str,
    units: Units,
) -> Result<(), AllocError>
    requires kept { KeepsUnits kept.old }
    requires units { units ≡ units_of text.now }
    ensures { KeepsUnits kept.new }
{
    kept.insert(text, units)?;
    Ok(())
}
