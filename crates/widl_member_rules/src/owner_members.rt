//! What the rules read of the members of one owner.

ghost use Rattle.std.specs.Prelude.{◌≡◌, option_map};
ghost use Rattle.widl_idl.specs.MergedMembers.{operation_text};
ghost use Rattle.widl_idl.specs.PlainTrees.{member_kind_of, operation_of};
ghost use Rattle.widl_idl.specs.PlainTypes.{name_of};
ghost use Rattle.widl_overload.specs.rules.MemberRules.{identifier, is_operation};

use widl_idl::tree::{MemberKind, Name, Operation};

/// The name of a constant, an attribute or an operation.
pub fn identifier(kind: &MemberKind) -> Option<&Name>
    ensures { option_map (λ name. name_of name.now) result ≡ identifier (member_kind_of kind.now) }
{
    match kind {
        MemberKind::Constant(constant) => Some(&constant.name),
        MemberKind::Attribute(attribute) => Some(&attribute.name),
        MemberKind::Operation(operation) => operation.name.as_ref(),
        _ => None,
    }
}

/// Whether a member is an operation.
pub fn is_operation(kind: &MemberKind) -> bool
    ensures { result ≡ is_operation (member_kind_of kind.now) }
{
    match kind {
        MemberKind::Operation(_) => true,
        _ => false,
    }
}

/// The name of an operation; empty where it has none.
pub fn operation_text(operation: &Operation) -> &str
    ensures { result.now ≡ operation_text (operation_of operation.now).name }
{
    match &operation.name {
        None => "",
        Some(name) => name.text.as_str(),
    }
}
