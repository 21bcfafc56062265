//! Places in source files, texts of 16-bit units as scripts have them, the keys of properties, what integer
//! tokens mean, lists and the limits of the product. It stands on nothing. The contracts that the crates
//! above use: a [`Units`] is seen as the list of its units, an [`Items`] as the list of its items, and
//! [`Key::index`] is an index exactly for its decimal text.
#![tactic(auto)]

mod index;
mod integer_token;
mod items;
mod key;
pub mod limits;
mod place;
mod units;

pub use integer_token::{integer_of, magnitude};
pub use items::Items;
pub use key::Key;
pub use place::Place;
pub use units::Units;
