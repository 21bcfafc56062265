//! Constants.

use super::{Literal, Name, WrittenType};
use widl_text::Place;

/// A constant ([Web IDL, Constants](https://webidl.spec.whatwg.org/#idl-constants)).
#[derive(Drop)]
pub struct Constant {
    /// Where the word `const` stands.
    pub at: Place,
    /// Its type: a primitive type or a name, without a `?`.
    pub ty: WrittenType,
    /// Its name.
    pub name: Name,
    /// Its value.
    pub value: Literal,
}
