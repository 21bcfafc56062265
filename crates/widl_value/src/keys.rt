//! Lists of keys.

use widl_text::{Items, Key};

/// The keys of properties, in an order.
pub type Keys = Items<Key>;
