//! Definitions.

use super::{
    Callback, CallbackInterface, Dictionary, Enumeration, ExtendedAttributes, Includes, Interface,
    Mixin, Namespace, Typedef,
};
use widl_text::Items;

/// A definition with the extended attributes before it.
#[derive(Drop)]
pub struct Definition {
    /// The extended attributes.
    pub attributes: ExtendedAttributes,
    /// What is defined.
    pub kind: DefinitionKind,
}

/// What a definition defines.
#[derive(Drop)]
pub enum DefinitionKind {
    /// A callback function.
    Callback(Callback),
    /// A callback interface.
    CallbackInterface(CallbackInterface),
    /// An interface, or a part of one.
    Interface(Interface),
    /// An interface mixin, or a part of one.
    Mixin(Mixin),
    /// A namespace, or a part of one.
    Namespace(Namespace),
    /// A dictionary, or a part of one.
    Dictionary(Dictionary),
    /// An enumeration.
    Enumeration(Enumeration),
    /// A typedef.
    Typedef(Typedef),
    /// An includes statement.
    Includes(Includes),
}

/// Definitions in the order of the source.
pub type Definitions = Items<Definition>;
