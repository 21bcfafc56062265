//! Texts of 16-bit units.

ghost use Rattle.std.specs.Prelude.{◌≡◌, ◌<◌, ◌≤◌, ℕ, List, [], ◌∷◌, ◌++◌, length, nat_eq, slice_index, IfOk, OnOk, OnErr};
ghost use Rattle.std.proofs.Common.{rules};
ghost use Rattle.std.specs.Hash as fed;
ghost use Rattle.std.specs.Cmp.{on_equiv, on_per, partial_equiv_from_equiv};
ghost use Rattle.std.specs.Cmp.Lexicographic.{pointwise, nat_list_eq_equiv};
ghost use Rattle.std.specs.Cmp.Rules.{comparing, hashing};
ghost use Rattle.std.specs.Str.{IsAscii, chars};
ghost use Rattle.widl_text.specs.Storage.{HasRoom, units_in};
ghost use Rattle.widl_text.specs.Utf16.{utf16_of};
ghost use Rattle.std.specs.Char.Escape.{encode_utf16};

use std::alloc::{AllocError, Global};
use std::hash::{Hash, Hasher};
use std::marker::Model;
use std::rc::Rc;

/// The fewest units of a text that its copies share. A copy of a shorter one takes less memory than what
/// it stands in, and a text that isn't shared is read without a step more.
const FEWEST_SHARED: usize = 64;

/// The most units that lie in the text itself: so many take no more room than a list does.
const MOST_INLINE: usize = 15;

/// A text as a script sees it: a list of 16-bit units, in which surrogates need not come in pairs
/// (ECMA-262, "The String Type"; a `DOMString` of Web IDL). The units of a short text lie in the text itself
/// where it was made from bytes or is a copy, and the copies of a long one share its units.
#[derive(Debug, Drop)]
pub struct Units {
    storage: Storage,
}

/// Where the units of a text are.
#[derive(Debug, Drop)]
enum Storage {
    /// The first so many of these units. More units are put where the allocator says.
    Inline(Global, u8, [u16; MOST_INLINE]),
    /// In a list of its own.
    Owned(Vec<u16>),
    /// In a list that copies of the text have too.
    Shared(Rc<Vec<u16>>),
}

impl Model for Units {
    ghost use Rattle.std.specs.Prelude.{ℕ, List};
    ghost use Rattle.widl_text.specs.Storage.{HasRoom, units_in};

    ghost Value = { List ℕ };

    ghost view = { λ u. units_in u.storage };

    ghost invariant = { λ u. HasRoom u.storage };
}

impl PartialEq for Units {
    ghost eq = { pointwise nat_eq };

    ghost laws = { Prim.search (comparing, rules) };

    fn eq(&self, other: &Units) -> bool {
        self.as_slice() == other.as_slice()
    }
}

impl Eq for Units {
    ghost laws = { Prim.search (comparing, rules) };
}

impl Hash for Units {
    ghost hash_input = { fed.slice fed.u16 };

    ghost respects_eq = { Prim.search (hashing, rules) };

    fn hash<H: Hasher>(&self, state: &mut H) {
        self.as_slice().hash(state);
    }
}

impl Units {
    /// The empty text.
    pub fn new(alloc: Global) -> Units
        ensures { result ≡ [] }
    {
        Units {
            storage: Storage::Owned(Vec::new(alloc)),
        }
    }

    /// How many units the text has.
    pub fn len(&self) -> usize
        ensures { result ≡ length self.now }
    {
        self.as_slice().len()
    }

    /// The unit at a place below `len`.
    pub fn at(&self, place: usize) -> u16
        requires { place < length self.now }
        ensures { result ≡ slice_index self.now place }
    {
        self.as_slice()[place]
    }

    /// The units, in order.
    pub fn as_slice(&self) -> &[u16]
        ensures { result.now ≡ self.now }
    {
        match &self.storage {
            Storage::Inline(_, count, units) => &units[..usize::from(*count)],
            Storage::Owned(items) => items.as_slice(),
            Storage::Shared(items) => items.as_ref().as_slice(),
        }
    }

    /// Adds a unit at the end.
    ///
    /// # Errors
    ///
    /// `AllocError` where there is no memory. The text is then unchanged.
    pub fn push(&mut self, unit: u16) -> Result<(), AllocError>
        ensures ok { OnOk result (self.new ≡ self.old ++ unit ∷ []) }
        ensures err { OnErr result (self.new ≡ self.old) }
    {
        match &mut self.storage {
            Storage::Owned(items) => items.push(unit)?,
            Storage::Inline(alloc, _, _) => {
                let items = with_unit(*alloc, self.as_slice(), unit)?;
                *self = Units {
                    storage: Storage::Owned(items),
                };
            }
            Storage::Shared(items) => {
                let alloc = *items.as_ref().allocator();
                let items = with_unit(alloc, self.as_slice(), unit)?;
                *self = Units {
                    storage: Storage::Owned(items),
                };
            }
        }
        Ok(())
    }

    /// The units of the text in UTF-16 (ECMA-262, "UTF16EncodeCodePoint").
    ///
    /// # Errors
    ///
    /// `AllocError` where there is no memory.
    pub fn of_str(alloc: Global, text: &str) -> Result<Units, AllocError>
        ensures { IfOk result (λ units. units ≡ utf16_of (chars text.now)) }
    {
        // Names are mostly ASCII, whose characters are one byte and one unit each.
        if text.is_ascii() {
            let ascii = Units::of_ascii(alloc, text)?;
            return Ok(ascii);
        }
        let mut items = Vec::with_capacity(alloc, text.len())?;
        for character in text.chars() {
            push_character(&mut items, character)?;
        }
        let units = of_items(items)?;
        Ok(units)
    }

    /// The text of these ASCII characters, each of which is a unit.
    ///
    /// # Errors
    ///
    /// `AllocError` where there is no memory.
    #[tactic(auto, using(crate::proofs::AsciiTexts::units_of_ascii))]
    pub fn of_ascii(alloc: Global, text: &str) -> Result<Units, AllocError>
        requires { IsAscii text.now }
        ensures { IfOk result (λ units. units ≡ text.now) }
    {
        Units::of_bytes(alloc, text.as_bytes())
    }

    /// The text whose units are these bytes. Of ASCII characters it is their text.
    ///
    /// # Errors
    ///
    /// `AllocError` where there is no memory.
    pub fn of_bytes(alloc: Global, bytes: &[u8]) -> Result<Units, AllocError>
        ensures { IfOk result (λ units. units ≡ bytes.now) }
    {
        if bytes.len() <= MOST_INLINE {
            return Ok(Units {
                storage: inline_bytes(alloc, bytes),
            });
        }
        let mut items = Vec::with_capacity(alloc, bytes.len())?;
        for byte in bytes {
            items.push_reserved(u16::from(*byte));
        }
        of_items(items)
    }

    /// A text with the same units.
    ///
    /// # Errors
    ///
    /// `AllocError` where there is no memory.
    pub fn copy(&self) -> Result<Units, AllocError>
        ensures { IfOk result (λ copy. copy ≡ self.now) }
    {
        match &self.storage {
            Storage::Inline(alloc, count, units) => Ok(Units {
                storage: Storage::Inline(*alloc, *count, *units),
            }),
            Storage::Owned(items) => of_items(items.clone()?),
            Storage::Shared(items) => Ok(Units {
                storage: Storage::Shared(items.clone()?),
            }),
        }
    }
}

/// These bytes as units, of which there are few.
fn inline_bytes(alloc: Global, bytes: &[u8]) -> Storage
    requires { length bytes.now ≤ MOST_INLINE }
    ensures units { units_in result ≡ bytes.now }
    ensures room { HasRoom result }
{
    let mut units = [0; MOST_INLINE];
    for place in 0..bytes.len() {
        units[place] = u16::from(bytes[place]);
    }
    Storage::Inline(alloc, bytes.len() as u8, units)
}

/// The text of these units, which its copies share if it is long.
fn of_items(items: Vec<u16>) -> Result<Units, AllocError>
    ensures { IfOk result (λ units. units ≡ items.items) }
{
    let storage = if items.len() < FEWEST_SHARED {
        Storage::Owned(items)
    } else {
        Storage::Shared(Rc::new(*items.allocator(), items)?)
    };
    Ok(Units { storage })
}

/// A list of these units and one more.
fn with_unit(alloc: Global, items: &[u16], unit: u16) -> Result<Vec<u16>, AllocError>
    ensures { IfOk result (λ all. all.items ≡ items.now ++ unit ∷ []) }
{
    let mut all = Vec::from_slice(alloc, items)?;
    all.push(unit)?;
    Ok(all)
}

/// Adds the one or two units of a character.
fn push_character(items: &mut Vec<u16>, character: char) -> Result<(), AllocError>
    ensures { OnOk result (items.new.items ≡ items.old.items ++ encode_utf16 character) }
{
    if let Ok(unit) = u8::try_from(character) {
        items.push(u16::from(unit))?;
        return Ok(());
    }
    let mut pair = [0; 2];
    let units = character.encode_utf16(&mut pair);
    items.extend_from_slice(units)?;
    Ok(())
}
