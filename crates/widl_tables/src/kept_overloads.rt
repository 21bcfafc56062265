//! The overloads that a number of arguments keeps.

ghost use Rattle.std.specs.Prelude.{◌≡◌, ◌<◌, ◌≤◌, ◌^◌, ◌++◌, drop, length, map, min, IfOk, IfSome, OnOk};
ghost use Rattle.std.specs.List.{list_any};
ghost use Rattle.widl_idl.specs.DefinitionTerms.{arg_term, defs_term, sig_term};
ghost use Rattle.widl_overload.specs.sets.Entries.{entry_of, is_variadic_list, optionalities_of, overloads_of};
ghost use Rattle.widl_overload.specs.sets.Sets.{are_free};
ghost use Rattle.widl_tables.specs.Kept.{argcount_of, choosing_place as choosing_place_of, counted_args, entries_for, entries_of, kept_tuples, numbers_of};
ghost use Rattle.widl_tables.specs.EntriesByNumber.{has_entry as has_entry_of};

use crate::kept_type::Kept;
use crate::telling::choosing_place;
use std::alloc::{AllocError, Global};
use widl_idl::{Arg, Callee, Defs, Optionality, Sig};
use widl_overload::{all_free, longest_list, overload_list};
use widl_text::Items;

/// The overloads of a callee that `args` arguments keep, with the place that tells them apart: the entries
/// of the effective overload set for so many arguments that have the length that counts (Web IDL,
/// "overload resolution algorithm", steps 1 to 8; "compute the effective overload set"). Where the list
/// has no such callee nothing is kept. No entry is built.
///
/// It asks for fewer than 4,294,967,296 overloads.
///
/// # Errors
///
/// `AllocError` where there is no memory.
pub fn kept(alloc: Global, defs: &Defs, callee: &Callee, args: u32) -> Result<Kept, AllocError>
    requires few { length (overloads_of (defs_term defs.now) callee.now) < 2 ^ 32 }
    ensures callee { IfOk result (λ k. k.callee ≡ callee.now) }
    ensures argcount { IfOk result (λ k. k.argcount ≡ argcount_of (defs_term defs.now) callee.now args) }
    ensures overloads { IfOk result (λ k. k.overloads ≡ numbers_of (kept_tuples (defs_term defs.now) callee.now args)) }
    ensures entries { IfOk result (λ k. entries_for (defs_term defs.now) callee.now k.argcount k.overloads ≡ kept_tuples (defs_term defs.now) callee.now args) }
    ensures place { IfOk result (λ k. k.place ≡ choosing_place_of (defs_term defs.now) (kept_tuples (defs_term defs.now) callee.now args)) }
{
    let sigs = overload_list(defs, callee);
    let argcount = counted(sigs, args);
    let overloads = having_entries(alloc, sigs, argcount)?;
    let place = choosing_place(defs, sigs, overloads.as_slice(), argcount);
    Ok(Kept {
        callee: *callee,
        overloads,
        argcount,
        place,
    })
}

/// How many arguments count.
fn counted(sigs: &[Sig], args: u32) -> u32
    ensures { result ≡ counted_args (map sig_term sigs.now) args }
{
    if any_variadic(sigs) {
        args
    } else {
        lesser(args, longest_list(sigs))
    }
}

fn lesser(args: u32, most: usize) -> u32
    ensures { result ≡ min args most }
{
    if (args as usize) < most {
        args
    } else {
        most as u32
    }
}

/// Whether one of the overloads is variadic.
fn any_variadic(sigs: &[Sig]) -> bool
    ensures { result ≡ list_any (λ s. is_variadic_list s.args) (map sig_term sigs.now) }
{
    for sig in sigs {
        if is_variadic(sig.args.as_slice()) {
            return true;
        }
    }
    false
}

/// Whether the last argument is variadic.
fn is_variadic(args: &[Arg]) -> bool
    ensures { result ≡ is_variadic_list (map arg_term args.now) }
{
    match args.last() {
        None => false,
        Some(arg) => arg.opt == Optionality::Variadic,
    }
}

/// The numbers of the overloads that have an entry of a length.
fn having_entries(alloc: Global, sigs: &[Sig], m: u32) -> Result<Items<u32>, AllocError>
    requires { length sigs.now < 2 ^ 32 }
    ensures numbers { IfOk result (λ numbers. numbers ≡ numbers_of (entries_of m 0 (map sig_term sigs.now))) }
{
    let mut numbers = Items::new(alloc);
    for (number, sig) in sigs.iter().enumerate() {
        if has_entry(sig.args.as_slice(), m as usize) {
            numbers.push(number as u32)?;
        }
    }
    Ok(numbers)
}

/// Whether an overload with these arguments has an entry of a length: it is variadic where the length is
/// greater, and else a call may leave out each argument from there on.
fn has_entry(args: &[Arg], m: usize) -> bool
    ensures { result ≡ has_entry_of (map arg_term args.now) m }
{
    if args.len() < m {
        is_variadic(args)
    } else {
        is_free_from(args, m)
    }
}

/// Whether a call may leave out each argument from a place on.
fn is_free_from(args: &[Arg], m: usize) -> bool
    requires { m ≤ length args.now }
    ensures { result ≡ are_free (optionalities_of (drop m (map arg_term args.now))) }
{
    let (_, others) = args.split_at(m);
    all_free(others)
}
