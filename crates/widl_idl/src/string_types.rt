//! The string types whose texts may have any units.

ghost use Rattle.std.specs.Prelude.{◌≡◌};
ghost use Rattle.widl_idl.specs.Terms.{type_term};
ghost use Rattle.widl_idl.specs.StringTypes.{is_unit_string};

use crate::text_kind::TextKind;
use crate::types::IdlType;

/// Whether a type is one of the string types DOMString and USVString.
pub fn is_unit_string(t: &IdlType) -> bool
    ensures { result ≡ is_unit_string (type_term t.now) }
{
    match t {
        IdlType::Text { kind, .. } => matches!(kind, TextKind::Dom | TextKind::Usv),
        _ => false,
    }
}
