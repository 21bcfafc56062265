//! Types in lines.
//!
//! A resolved type nests at most 16 levels. That bounds the recursion here. It goes over the members of
//! a union by a loop.

ghost use Rattle.std.specs.Prelude.{◌≡◌, ◌++◌, OnOk, codes, map};
ghost use Rattle.std.specs.Option.{option_copied};
ghost use Rattle.widl_idl.specs.DefinitionTerms.{callback_term, defs_term};
ghost use Rattle.widl_idl.specs.Terms.{packed, type_term, type_terms};
ghost use Rattle.widl_spell.specs.Names.{separated, sign_before};
ghost use Rattle.widl_spell.specs.TypeTexts.{callback_name, dictionary_name, enumeration_name, integer_text, interface_name, member_texts, string_text, type_text, written_or_nothing};

use crate::names::{push_name, sign_before};
use std::alloc::{AllocError, Global};
use widl_idl::{Callback, Defs, IdlType, IdlTypes, IntKind, TextKind};
use widl_text::Units;

/// Adds the text of a type as a file has it, without annotations (Web IDL, "Types").
#[cycle(texts)]
pub fn push_type(
    alloc: Global,
    text: &mut Vec<u8>,
    defs: &Defs,
    t: &IdlType,
) -> Result<(), AllocError>
    ensures { OnOk result (text.new.items ≡ text.old.items ++ type_text (defs_term defs.now) (type_term t.now)) }
{
    match t {
        IdlType::Any => push(text, b"any"),
        IdlType::Undefined => push(text, b"undefined"),
        IdlType::Boolean => push(text, b"boolean"),
        IdlType::Int(kind, _) => push(text, integer_text(*kind)),
        IdlType::Text { kind, .. } => push(text, string_text(*kind)),
        IdlType::Choice(n) => push_named(alloc, text, enumeration_name(defs, *n)),
        IdlType::Interface(n) => push_named(alloc, text, interface_name(defs, *n)),
        IdlType::CallbackFn(n) => push_named(alloc, text, callback_function_name(defs, *n)),
        IdlType::CallbackIface(n) => push_named(alloc, text, callback_interface_name(defs, *n)),
        IdlType::Dict(n) => push_named(alloc, text, dictionary_name(defs, *n)),
        IdlType::Object => push(text, b"object"),
        IdlType::Seq(element) => {
            push(text, b"sequence<")?;
            push_closed(alloc, text, defs, element)
        }
        IdlType::Rec(key, value) => {
            push_key(text, *key)?;
            push_closed(alloc, text, defs, value)
        }
        IdlType::Promise(value) => {
            push(text, b"Promise<")?;
            push_closed(alloc, text, defs, value)
        }
        IdlType::Nullable(inner) => {
            push_type(alloc, text, defs, inner)?;
            push(text, b"?")
        }
        IdlType::Union(members) => {
            push(text, b"(")?;
            push_members(alloc, text, defs, members)?;
            push(text, b")")
        }
    }
}

/// Adds the text of a type and the `>` after it.
#[cycle(texts)]
fn push_closed(
    alloc: Global,
    text: &mut Vec<u8>,
    defs: &Defs,
    t: &IdlType,
) -> Result<(), AllocError>
    ensures { OnOk result (text.new.items ≡ text.old.items ++ type_text (defs_term defs.now) (type_term t.now) ++ codes ">") }
{
    push_type(alloc, text, defs, t)?;
    push(text, b">")
}

/// Adds the texts of the members of a union.
#[cycle(texts)]
fn push_members(
    alloc: Global,
    text: &mut Vec<u8>,
    defs: &Defs,
    members: &IdlTypes,
) -> Result<(), AllocError>
    ensures { OnOk result (text.new.items ≡ text.old.items ++ separated (codes " or ") (member_texts (defs_term defs.now) (packed (type_terms members.now)))) }
{
    for (place, member) in members.as_slice().iter().enumerate() {
        push(text, sign_before(b" or ", place))?;
        push_type(alloc, text, defs, member)?;
    }
    Ok(())
}

/// Adds a text.
fn push(text: &mut Vec<u8>, more: &[u8]) -> Result<(), AllocError>
    ensures { OnOk result (text.new.items ≡ text.old.items ++ more.now) }
{
    text.extend_from_slice(more)?;
    Ok(())
}

/// Adds what the text of a record begins with.
fn push_key(text: &mut Vec<u8>, key: TextKind) -> Result<(), AllocError>
    ensures { OnOk result (text.new.items ≡ text.old.items ++ codes "record<" ++ string_text key ++ codes ", ") }
{
    text.extend_from_slice(b"record<")?;
    text.extend_from_slice(string_text(key))?;
    text.extend_from_slice(b", ")?;
    Ok(())
}

/// Adds the name of a definition, if there is one.
fn push_named(alloc: Global, text: &mut Vec<u8>, name: Option<&Units>) -> Result<(), AllocError>
    ensures { OnOk result (text.new.items ≡ text.old.items ++ written_or_nothing (option_copied name.entry)) }
{
    match name {
        None => Ok(()),
        Some(name) => push_name(alloc, text, name),
    }
}

fn integer_text(kind: IntKind) -> &'static [u8]
    ensures { result.now ≡ integer_text kind }
{
    match kind {
        IntKind::Byte => b"byte",
        IntKind::Octet => b"octet",
        IntKind::Short => b"short",
        IntKind::UShort => b"unsigned short",
        IntKind::Long => b"long",
        IntKind::ULong => b"unsigned long",
        IntKind::LongLong => b"long long",
        IntKind::ULongLong => b"unsigned long long",
    }
}

fn string_text(kind: TextKind) -> &'static [u8]
    ensures { result.now ≡ string_text kind }
{
    match kind {
        TextKind::Dom => b"DOMString",
        TextKind::Usv => b"USVString",
        TextKind::Byte => b"ByteString",
    }
}

fn interface_name(defs: &Defs, number: u32) -> Option<&Units>
    ensures { option_copied result ≡ interface_name (defs_term defs.now).ifaces number }
{
    match defs.ifaces.as_slice().get(number as usize) {
        None => None,
        Some(iface) => Some(&iface.name),
    }
}

fn dictionary_name(defs: &Defs, number: u32) -> Option<&Units>
    ensures { option_copied result ≡ dictionary_name (defs_term defs.now).dicts number }
{
    match defs.dicts.as_slice().get(number as usize) {
        None => None,
        Some(dict) => Some(&dict.name),
    }
}

fn enumeration_name(defs: &Defs, number: u32) -> Option<&Units>
    ensures { option_copied result ≡ enumeration_name (defs_term defs.now).choices number }
{
    match defs.choices.as_slice().get(number as usize) {
        None => None,
        Some(choice) => Some(&choice.name),
    }
}

fn callback_function_name(defs: &Defs, number: u32) -> Option<&Units>
    ensures { option_copied result ≡ callback_name (defs_term defs.now).callback_fns number }
{
    callback_name(defs.callback_fns.as_slice(), number)
}

fn callback_interface_name(defs: &Defs, number: u32) -> Option<&Units>
    ensures { option_copied result ≡ callback_name (defs_term defs.now).callback_ifaces number }
{
    callback_name(defs.callback_ifaces.as_slice(), number)
}

fn callback_name(callbacks: &[Callback], number: u32) -> Option<&Units>
    ensures { option_copied result ≡ callback_name (map callback_term callbacks.now) number }
{
    match callbacks.get(number as usize) {
        None => None,
        Some(callback) => Some(&callback.name),
    }
}
