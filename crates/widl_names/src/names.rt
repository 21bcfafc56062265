//! The names of definitions.

ghost use Rattle.std.specs.Prelude.{◌≡◌, option_map};
ghost use Rattle.widl_idl.specs.Meanings.{declared_name, main_name, partial_name, is_partial, kind_of};
ghost use Rattle.widl_idl.specs.PlainTrees.{definition_kind_of};
ghost use Rattle.widl_idl.specs.PlainTypes.{name_of};

use widl_idl::Kind;
use widl_idl::tree::{DefinitionKind, Name};

/// The kind of a definition.
pub fn kind_of(definition: &DefinitionKind) -> Kind
    ensures { result ≡ kind_of (definition_kind_of definition.now) }
{
    match definition {
        DefinitionKind::Callback(_) => Kind::CallbackFunction,
        DefinitionKind::CallbackInterface(_) => Kind::CallbackInterface,
        DefinitionKind::Interface(_) => Kind::Interface,
        DefinitionKind::Mixin(_) => Kind::Mixin,
        DefinitionKind::Namespace(_) => Kind::Namespace,
        DefinitionKind::Dictionary(_) => Kind::Dictionary,
        DefinitionKind::Enumeration(_) => Kind::Enumeration,
        DefinitionKind::Typedef(_) => Kind::Typedef,
        DefinitionKind::Includes(_) => Kind::Includes,
    }
}

/// Whether the word `partial` stands before a definition.
pub fn is_partial(definition: &DefinitionKind) -> bool
    ensures { result ≡ is_partial (definition_kind_of definition.now) }
{
    match definition {
        DefinitionKind::Interface(interface) => interface.partial,
        DefinitionKind::Mixin(mixin) => mixin.partial,
        DefinitionKind::Namespace(namespace) => namespace.partial,
        DefinitionKind::Dictionary(dictionary) => dictionary.partial,
        DefinitionKind::Callback(_)
        | DefinitionKind::CallbackInterface(_)
        | DefinitionKind::Enumeration(_)
        | DefinitionKind::Typedef(_)
        | DefinitionKind::Includes(_) => false,
    }
}

/// The name that a definition declares or adds to; an includes statement has none.
pub fn name_declared<'a>(definition: &'a DefinitionKind) -> Option<&'a Name>
    ensures { option_map (λ name. name_of name.now) result ≡ declared_name (definition_kind_of definition.now) }
{
    match definition {
        DefinitionKind::Callback(callback) => Some(&callback.name),
        DefinitionKind::CallbackInterface(callback) => Some(&callback.name),
        DefinitionKind::Interface(interface) => Some(&interface.name),
        DefinitionKind::Mixin(mixin) => Some(&mixin.name),
        DefinitionKind::Namespace(namespace) => Some(&namespace.name),
        DefinitionKind::Dictionary(dictionary) => Some(&dictionary.name),
        DefinitionKind::Enumeration(enumeration) => Some(&enumeration.name),
        DefinitionKind::Typedef(typedef) => Some(&typedef.name),
        DefinitionKind::Includes(_) => None,
    }
}

/// The name of a main definition: of one that is no partial and no includes statement.
pub fn main_name<'a>(definition: &'a DefinitionKind) -> Option<&'a Name>
    ensures { option_map (λ name. name_of name.now) result ≡ main_name (definition_kind_of definition.now) }
{
    if is_partial(definition) {
        None
    } else {
        name_declared(definition)
    }
}

/// The name of a partial definition.
pub fn partial_name<'a>(definition: &'a DefinitionKind) -> Option<&'a Name>
    ensures { option_map (λ name. name_of name.now) result ≡ partial_name (definition_kind_of definition.now) }
{
    if is_partial(definition) {
        name_declared(definition)
    } else {
        None
    }
}
