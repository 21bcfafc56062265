//! The overloads of a callee.

ghost use Rattle.std.specs.Prelude.{◌≡◌, map, slice_get, option_and_then};
ghost use Rattle.std.specs.Option.{option_copied, option_map};
ghost use Rattle.widl_idl.specs.DefinitionTerms.{defs_term, sig_term, iface_term, op_name_term, space_term};
ghost use Rattle.widl_overload.specs.sets.Entries.{overloads_of as overload_terms_of};
ghost use Rattle.widl_overload.specs.sets.Sets.{interface_overloads, namespace_overloads, overloads_named, overloads_of, sig_terms};

use widl_idl::{Callee, Defs, Iface, OpName, Owner, Part, Sig, Sigs, Space};

/// The overloads of a callee; none where it is no operation name and no constructor of the list.
pub fn overloads<'a>(defs: &'a Defs, callee: &Callee) -> Option<&'a Sigs>
    ensures { option_map sig_terms (option_copied result) ≡ overloads_of (defs_term defs.now) callee.now }
{
    match callee.owner {
        Owner::Iface(number) => of_interface(defs.ifaces.as_slice(), number, callee.part),
        Owner::Space(number) => of_namespace(defs.spaces.as_slice(), number, callee.part),
    }
}

/// The same as a list, which is empty where the callee is no operation name and no constructor of the list.
pub fn overload_list<'d>(defs: &'d Defs, callee: &Callee) -> &'d [Sig]
    ensures { map sig_term result.now ≡ overload_terms_of (defs_term defs.now) callee.now }
{
    match overloads(defs, callee) {
        None => &[],
        Some(sigs) => sigs.as_slice(),
    }
}

fn of_interface(ifaces: &[Iface], number: u32, part: Part) -> Option<&Sigs>
    ensures { option_map sig_terms (option_copied result) ≡ option_and_then (interface_overloads part) (slice_get (map iface_term ifaces.now) number) }
{
    match ifaces.get(number as usize) {
        None => None,
        Some(iface) => interface_part(iface, part),
    }
}

fn interface_part(iface: &Iface, part: Part) -> Option<&Sigs>
    ensures { option_map sig_terms (option_copied result) ≡ interface_overloads part (iface_term iface.now) }
{
    match part {
        Part::Op(name) => named(iface.ops.as_slice(), name),
        Part::Constructor => Some(&iface.ctors),
        Part::Get(_) | Part::Set(_) | Part::Text => None,
    }
}

fn of_namespace(spaces: &[Space], number: u32, part: Part) -> Option<&Sigs>
    ensures { option_map sig_terms (option_copied result) ≡ option_and_then (namespace_overloads part) (slice_get (map space_term spaces.now) number) }
{
    match spaces.get(number as usize) {
        None => None,
        Some(space) => namespace_part(space, part),
    }
}

fn namespace_part(space: &Space, part: Part) -> Option<&Sigs>
    ensures { option_map sig_terms (option_copied result) ≡ namespace_overloads part (space_term space.now) }
{
    match part {
        Part::Op(name) => named(space.ops.as_slice(), name),
        Part::Constructor | Part::Get(_) | Part::Set(_) | Part::Text => None,
    }
}

/// The overloads of the operations with this number.
fn named(ops: &[OpName], number: u32) -> Option<&Sigs>
    ensures { option_map sig_terms (option_copied result) ≡ overloads_named (map op_name_term ops.now) number }
{
    match ops.get(number as usize) {
        None => None,
        Some(op) => Some(&op.sigs),
    }
}
