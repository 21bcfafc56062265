//! What is asked of a type.

ghost use Rattle.std.specs.Prelude.{◌≡◌, ◌||◌};
ghost use Rattle.widl_value.specs.declared.class.Class.TheVariants as classes;
ghost use Rattle.widl_idl.specs.DefinitionTerms.{defs_term};
ghost use Rattle.widl_idl.specs.Flattened.{unannotated};
ghost use Rattle.widl_idl.specs.Terms.{type_term};
ghost use Rattle.widl_overload.specs.sets.Distinct.{is_dictionary as is_dictionary_of};
ghost use Rattle.widl_tables.specs.Kept.{implements as implements_of};
ghost use Rattle.widl_tables.specs.Tests.{is_any_type, is_boolean_type, is_callback_function as is_callback_function_of, is_callback_interface as is_callback_interface_of, is_implemented_by as is_implemented_by_of, is_numeric as is_numeric_of, is_object_type, is_record as is_record_of, is_sequence as is_sequence_of, is_string};
ghost use Rattle.widl_tables.specs.TypeTests.{suits};

use widl_idl::{Defs, IdlType};
use widl_overload::inherits;
use widl_value::Class;

/// What a test asks of a type that is neither nullable nor a union.
#[derive(Clone, Copy, Debug, PartialEq, Eq)]
pub enum TypeTest {
    /// An interface that the value implements.
    Implemented,
    /// The same, or `object`.
    ImplementedOrObject,
    /// A callback function.
    CallbackFunction,
    /// The same, or `object`.
    CallbackFunctionOrObject,
    /// A callback interface.
    CallbackInterface,
    /// A dictionary.
    Dictionary,
    /// A record.
    Record,
    /// `object`.
    Object,
    /// What any object is converted to: a callback interface, a dictionary, a record, or `object`.
    FromObject,
    /// A sequence.
    Sequence,
    /// `boolean`.
    Boolean,
    /// An integer type.
    Numeric,
    /// A string type or an enumeration.
    Text,
    /// `any`.
    Any,
}

impl TypeTest {
    /// Whether the type meets it, for a value of the class.
    pub(crate) fn holds(self, defs: &Defs, class: Class, t: &IdlType) -> bool
        ensures { result ≡ suits (defs_term defs.now) class self (unannotated (type_term t.now)) }
    {
        match self {
            TypeTest::Implemented => is_implemented_by(defs, class, t),
            TypeTest::ImplementedOrObject => is_implemented_by(defs, class, t) || is_object(t),
            TypeTest::CallbackFunction => is_callback_function(t),
            TypeTest::CallbackFunctionOrObject => is_callback_function(t) || is_object(t),
            TypeTest::CallbackInterface => is_callback_interface(t),
            TypeTest::Dictionary => is_dictionary(t),
            TypeTest::Record => is_record(t),
            TypeTest::Object => is_object(t),
            TypeTest::FromObject => is_from_object(t),
            TypeTest::Sequence => is_sequence(t),
            TypeTest::Boolean => is_boolean(t),
            TypeTest::Numeric => is_numeric(t),
            TypeTest::Text => is_text(t),
            TypeTest::Any => is_any(t),
        }
    }
}

/// Whether a platform object of the first interface implements the second.
fn implements(defs: &Defs, own: u32, other: u32) -> bool
    ensures { result ≡ implements_of (defs_term defs.now) own other }
{
    if own == other {
        (own as usize) < defs.ifaces.len()
    } else {
        inherits(defs.ifaces.as_slice(), own, other)
    }
}

/// Whether the type is an interface that a value of the class implements.
fn is_implemented_by(defs: &Defs, class: Class, t: &IdlType) -> bool
    ensures { result ≡ is_implemented_by_of (defs_term defs.now) class (unannotated (type_term t.now)) }
{
    match class {
        Class::Platform(own) => is_interface_of(defs, own, t),
        _ => false,
    }
}

/// Whether the type is an interface that a platform object of an interface implements.
fn is_interface_of(defs: &Defs, own: u32, t: &IdlType) -> bool
    ensures { result ≡ is_implemented_by_of (defs_term defs.now) (classes.Platform own) (unannotated (type_term t.now)) }
{
    match t {
        IdlType::Interface(other) => implements(defs, own, *other),
        _ => false,
    }
}

fn is_callback_function(t: &IdlType) -> bool
    ensures { result ≡ is_callback_function_of (unannotated (type_term t.now)) }
{
    matches!(t, IdlType::CallbackFn(_))
}

fn is_callback_interface(t: &IdlType) -> bool
    ensures { result ≡ is_callback_interface_of (unannotated (type_term t.now)) }
{
    matches!(t, IdlType::CallbackIface(_))
}

fn is_dictionary(t: &IdlType) -> bool
    ensures { result ≡ is_dictionary_of (unannotated (type_term t.now)) }
{
    matches!(t, IdlType::Dict(_))
}

fn is_record(t: &IdlType) -> bool
    ensures { result ≡ is_record_of (unannotated (type_term t.now)) }
{
    matches!(t, IdlType::Rec(_, _))
}

fn is_object(t: &IdlType) -> bool
    ensures { result ≡ is_object_type (unannotated (type_term t.now)) }
{
    matches!(t, IdlType::Object)
}

/// Whether the type is one that any object is converted to.
fn is_from_object(t: &IdlType) -> bool
    ensures { result ≡ ((is_callback_interface_of (unannotated (type_term t.now)) || is_dictionary_of (unannotated (type_term t.now))) || (is_record_of (unannotated (type_term t.now)) || is_object_type (unannotated (type_term t.now)))) }
{
    (is_callback_interface(t) || is_dictionary(t)) || (is_record(t) || is_object(t))
}

fn is_sequence(t: &IdlType) -> bool
    ensures { result ≡ is_sequence_of (unannotated (type_term t.now)) }
{
    matches!(t, IdlType::Seq(_))
}

fn is_boolean(t: &IdlType) -> bool
    ensures { result ≡ is_boolean_type (unannotated (type_term t.now)) }
{
    matches!(t, IdlType::Boolean)
}

fn is_numeric(t: &IdlType) -> bool
    ensures { result ≡ is_numeric_of (unannotated (type_term t.now)) }
{
    matches!(t, IdlType::Int(_, _))
}

fn is_text(t: &IdlType) -> bool
    ensures { result ≡ is_string (unannotated (type_term t.now)) }
{
    matches!(t, IdlType::Text { .. } | IdlType::Choice(_))
}

fn is_any(t: &IdlType) -> bool
    ensures { result ≡ is_any_type (unannotated (type_term t.now)) }
{
    matches!(t, IdlType::Any)
}
