//! Whether a default value fits its type by the way in which both are written.

ghost use Rattle.std.specs.Prelude.{◌≡◌};
ghost use Rattle.widl_idl.specs.PlainTypes.{form_term, type_of, value_of};
ghost use Rattle.widl_inheritance.specs.WrittenFitting.{fits_as_written, has_each_text, is_boolean_value, is_empty_sequence, is_questioned_null, is_sequence, is_text_value, is_value_of_form};

use widl_idl::TextKind;
use widl_idl::tree::{Container, LiteralValue, TypeForm, WrittenType};
use widl_text::Place;

/// Whether a value fits a type whatever the names in the type mean: it is null after a `?`, or a boolean,
/// a text or an empty sequence of such a type. Where this is false the value may fit nevertheless.
pub fn fits_as_written(ty: &WrittenType, value: &LiteralValue) -> bool
    ensures { result ≡ fits_as_written (type_of ty.now) (value_of value.now) }
{
    is_questioned_null(ty.question, value) || is_value_of_form(&ty.form, value)
}

/// Whether the value is null, and a `?` stands after the type.
fn is_questioned_null(question: Option<Place>, value: &LiteralValue) -> bool
    ensures { result ≡ is_questioned_null question (value_of value.now) }
{
    match question {
        None => false,
        Some(_) => matches!(value, LiteralValue::Null),
    }
}

/// Whether the value is one of each type of this form.
fn is_value_of_form(form: &TypeForm, value: &LiteralValue) -> bool
    ensures { result ≡ is_value_of_form (form_term form.now) (value_of value.now) }
{
    match form {
        TypeForm::Boolean => is_boolean_value(value),
        TypeForm::Text(kind) => is_text_value(value) && has_each_text(*kind),
        TypeForm::Container(kind, _) => is_empty_sequence(value) && is_sequence(*kind),
        TypeForm::Any
        | TypeForm::Undefined
        | TypeForm::Object
        | TypeForm::Symbol
        | TypeForm::BigInt
        | TypeForm::Integer(_)
        | TypeForm::Float(_)
        | TypeForm::Buffer(_)
        | TypeForm::Named(_)
        | TypeForm::Record(_, _)
        | TypeForm::Promise(_)
        | TypeForm::Union(_) => false,
    }
}

fn is_boolean_value(value: &LiteralValue) -> bool
    ensures { result ≡ is_boolean_value (value_of value.now) }
{
    matches!(value, LiteralValue::Boolean(_))
}

fn is_text_value(value: &LiteralValue) -> bool
    ensures { result ≡ is_text_value (value_of value.now) }
{
    matches!(value, LiteralValue::Text(_))
}

fn is_empty_sequence(value: &LiteralValue) -> bool
    ensures { result ≡ is_empty_sequence (value_of value.now) }
{
    matches!(value, LiteralValue::EmptySequence)
}

/// Whether a string type has each text.
fn has_each_text(kind: TextKind) -> bool
    ensures { result ≡ has_each_text kind }
{
    match kind {
        TextKind::Byte => false,
        TextKind::Dom | TextKind::Usv => true,
    }
}

fn is_sequence(kind: Container) -> bool
    ensures { result ≡ is_sequence kind }
{
    matches!(kind, Container::Sequence)
}
