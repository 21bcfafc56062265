//! Callback functions and callback interfaces.

use super::{Arguments, Members, Name, WrittenType};

/// A callback function ([Web IDL, Callback
/// functions](https://webidl.spec.whatwg.org/#idl-callback-functions)).
#[derive(Drop)]
pub struct Callback {
    /// Its name.
    pub name: Name,
    /// Its return type.
    pub result: WrittenType,
    /// Its arguments.
    pub arguments: Arguments,
}

/// A callback interface ([Web IDL, Callback
/// interfaces](https://webidl.spec.whatwg.org/#idl-callback-interfaces)).
#[derive(Drop)]
pub struct CallbackInterface {
    /// Its name.
    pub name: Name,
    /// Its constants and operations.
    pub members: Members,
}
