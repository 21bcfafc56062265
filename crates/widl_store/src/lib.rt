//! The objects of a run: each has a prototype, properties and an inner part. It stands on `widl_text`,
//! `widl_idl`, `widl_overload` and `widl_value`. Contracts see a [`Store`] as the list of its objects
//! with the numbers of those that stand for definitions (`StoreState`). Each change is a function of that
//! list (`put_in`, `defined`, `deleted`, `added`, `with_inner`), each answer one of the property that was
//! found (`put_of`, `define_of`, `delete_of`), and [`realm`] gives exactly the objects of `realm_of`.
#![tactic(auto)]

mod effects;
mod few;
mod found;
mod functions;
mod held;
mod homes;
mod initial_store;
mod inner;
mod intrinsics;
mod label;
pub mod laws;
mod meets;
mod namespaces;
mod numbered_map;
mod object;
mod own_keys;
mod plans;
mod property;
mod property_map;
mod store;

pub use effects::{DefineFault, NotConfigurable, Put, PutFault};
pub use found::Found;
pub use homes::{Home, Homes, IfaceHome, SpaceHome};
pub use initial_store::realm;
pub use inner::{Builtin, Inner, PairCall, PairKind, Settled, Turn};
pub use property::Prop;
pub use store::Store;
