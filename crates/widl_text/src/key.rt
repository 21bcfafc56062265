//! The keys of properties.

ghost use Rattle.std.specs.Prelude.{◌≡◌, IfOk, IfSome, IfNone, ℕ};
ghost use Rattle.widl_text.specs.Index.{IsIndex, index_of};

use crate::index::array_index;
use crate::units::Units;
use std::alloc::AllocError;

/// The key of a property (ECMA-262, "Property keys"): a text or a symbol, by its number.
///
/// Symbol 0 is `@iterator`, symbol 1 `@toPrimitive`, symbol 2 `@toStringTag`.
#[derive(Debug, PartialEq, Eq, Hash, Drop)]
pub enum Key {
    /// A text.
    Name(Units),
    /// The symbol of this number.
    Sym(u32),
}

impl Key {
    /// An equal key.
    ///
    /// # Errors
    ///
    /// `AllocError` where there is no memory.
    pub fn copy(&self) -> Result<Key, AllocError>
        ensures { IfOk result (λ copy. copy ≡ self.now) }
    {
        match self {
            Key::Name(name) => Ok(Key::Name(name.copy()?)),
            Key::Sym(id) => Ok(Key::Sym(*id)),
        }
    }

    /// The array index that the key is (ECMA-262, "array index"): the number from 0 to
    /// 4,294,967,294 of which the key is the decimal text, without leading zeros. A symbol is none.
    pub fn index(&self) -> Option<u32>
        ensures some { IfSome result (IsIndex self.now) }
        ensures none { IfNone result ((n : ℕ) → IsIndex self.now n → ⊥) }
        ensures value { result ≡ index_of self.now }
    {
        match self {
            Key::Name(text) => array_index(text.as_slice()),
            Key::Sym(_) => None,
        }
    }
}
