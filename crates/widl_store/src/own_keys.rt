//! The own keys of an object in their order.

ghost use Rattle.std.specs.Prelude.{◌≡◌, [], ◌∷◌, ◌++◌, filter, IfOk, OnOk, is_some};
ghost use Rattle.std.specs.List.{IsDistinct};
ghost use Rattle.std.specs.List.Sorted.{IsPermutation, IsNonDecreasingBy};
ghost use Rattle.widl_store.specs.Objects.{same_key};
ghost use Rattle.widl_store.specs.OwnKeys.{OwnKeys, is_index, is_name, is_symbol, number_of};

use std::alloc::{AllocError, Global};
use widl_text::Key;
use widl_value::Keys;

/// Keys by what they are.
#[derive(Drop)]
struct Groups {
    indices: Vec<Key>,
    names: Vec<Key>,
    symbols: Vec<Key>,
}

/// The keys of an object, which are given as they were created, in the order of the standard: array indices
/// by their numbers, the names that are none, and the symbols (ECMA-262, OrdinaryOwnPropertyKeys).
///
/// # Errors
///
/// `AllocError` where there is no memory.
pub(crate) fn own_keys(alloc: Global, keys: Vec<Key>) -> Result<Keys, AllocError>
    requires { IsDistinct same_key keys.items }
    ensures { IfOk result (λ all. OwnKeys keys.items all) }
{
    let groups = grouped(alloc, keys)?;
    let indices = ascending(groups.indices);
    let all = appended(Keys::new(alloc), indices)?;
    let all = appended(all, groups.names)?;
    let all = appended(all, groups.symbols)?;
    Ok(all)
}

/// The keys by what they are, each group in the order in which they came.
fn grouped(alloc: Global, keys: Vec<Key>) -> Result<Groups, AllocError>
    ensures indices { IfOk result (λ groups. groups.indices.items ≡ filter is_index keys.items) }
    ensures names { IfOk result (λ groups. groups.names.items ≡ filter is_name keys.items) }
    ensures symbols { IfOk result (λ groups. groups.symbols.items ≡ filter is_symbol keys.items) }
{
    let mut groups = Groups {
        indices: Vec::new(alloc),
        names: Vec::new(alloc),
        symbols: Vec::new(alloc),
    };
    for key in keys {
        put_key(&mut groups, key)?;
    }
    Ok(groups)
}

/// Puts a key at the end of its group.
fn put_key(groups: &mut Groups, key: Key) -> Result<(), AllocError>
    ensures indices { OnOk result (groups.new.indices.items ≡ groups.old.indices.items ++ filter is_index (key ∷ [])) }
    ensures names { OnOk result (groups.new.names.items ≡ groups.old.names.items ++ filter is_name (key ∷ [])) }
    ensures symbols { OnOk result (groups.new.symbols.items ≡ groups.old.symbols.items ++ filter is_symbol (key ∷ [])) }
{
    if key.index().is_some() {
        groups.indices.push(key)?;
    } else if matches!(&key, Key::Name(_)) {
        groups.names.push(key)?;
    } else {
        groups.symbols.push(key)?;
    }
    Ok(())
}

/// Array indices in ascending order.
fn ascending(keys: Vec<Key>) -> Vec<Key>
    ensures same { IsPermutation keys.items result.items }
    ensures ascending { IsNonDecreasingBy number_of result.items }
{
    let mut keys = keys;
    keys.sort_unstable_by_key(|key| number_of(key));
    keys
}

/// The array index that a key is.
fn number_of(key: &Key) -> u32
    ensures { result ≡ number_of key.now }
{
    key.index().unwrap_or(0)
}

/// The list with these keys at its end.
fn appended(all: Keys, keys: Vec<Key>) -> Result<Keys, AllocError>
    ensures { IfOk result (λ appended. appended ≡ all ++ keys.items) }
{
    let mut all = all;
    for key in keys {
        all.push(key)?;
    }
    Ok(all)
}
