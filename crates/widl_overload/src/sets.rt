//! Effective overload sets.

ghost use Rattle.std.specs.Prelude.{◌≡◌, ◌+◌, ◌-◌, ◌<◌, ◌≤◌, ◌++◌, [], ◌↔◌, ℕ, List, Contains, Some, None, IfOk, IsSome, OnOk, Option, drop, length, map, replicate, slice_get, take};
ghost use Rattle.std.specs.List.{list_any};
ghost use Rattle.std.specs.Option.{ForSome, option_copied, option_map};
ghost use Rattle.widl_idl.specs.DefinitionTerms.{SigTerm, arg_term, defs_term, sig_term};
ghost use Rattle.widl_idl.specs.Terms.{type_term, type_terms};
ghost use Rattle.widl_overload.specs.sets.Construction.{constructed};
ghost use Rattle.widl_overload.specs.sets.Sets.{AreNumbered, TupleTerm, declared_opts, declared_types, are_free, effective_set_of, effective_tuples, has_variadic, is_free as is_free_in, is_variadic, longer as longer_of, longest, of_length, of_lengths, overloads_of, shorter as shorter_of, tuple_of, tuple_term, tuples_in, variadic_last, with_tuple};

use crate::callees::overloads;
use crate::tuple::{OverloadSet, Tuple};
use std::alloc::{AllocError, Global};
use widl_idl::{Arg, Callee, Defs, IdlTypes, Optionalities, Optionality, Sig};

/// The effective overload set of an operation name or of the constructors of an interface, for
/// calls with up to `n` arguments: each tuple once, by length, then overload (Web IDL, "effective
/// overload set"). It asks for fewer than 4,294,967,296 overloads, each with fewer arguments than
/// that.
///
/// # Errors
///
/// `AllocError` where there is no memory.
pub fn effective_set(
    alloc: Global,
    defs: &Defs,
    callee: &Callee,
    n: u32,
) -> Result<OverloadSet, AllocError>
    requires callee { IsSome (overloads_of (defs_term defs.now) callee.now) }
    requires numbered { ForSome (overloads_of (defs_term defs.now) callee.now) AreNumbered }
    ensures { IfOk result (λ set. tuples_in set ≡ effective_set_of (defs_term defs.now) callee.now n) }
{
    match overloads(defs, callee) {
        Some(sigs) => set_of(alloc, sigs.as_slice(), n),
        None => unreachable!(),
    }
}

/// The standard's own construction, which grows the declared lists of each overload and cuts them at
/// their end, gives the same tuples.
pub fn effective_set_is_as_constructed()
    ensures { (sigs : List SigTerm) (n : ℕ) (t : TupleTerm) → Contains (constructed sigs n) t ↔ Contains (effective_tuples sigs n) t }
{}

/// The effective overload set of these overloads.
pub(crate) fn set_of(alloc: Global, sigs: &[Sig], n: u32) -> Result<OverloadSet, AllocError>
    requires { AreNumbered (map sig_term sigs.now) }
    ensures { IfOk result (λ set. tuples_in set ≡ effective_tuples (map sig_term sigs.now) n) }
{
    let mut set = OverloadSet {
        tuples: Vec::new(alloc),
    };
    let most = greatest_length(sigs, n);
    for m in 0..most + 1 {
        add_length(alloc, &mut set, sigs, m)?;
    }
    Ok(set)
}

/// The greatest length that the set has tuples of: beyond the longest list of arguments only a
/// variadic overload has any.
fn greatest_length(sigs: &[Sig], n: u32) -> usize
    requires { AreNumbered (map sig_term sigs.now) }
    ensures few { result < 4294967296 }
    ensures all { of_lengths 0 (result + 1) (map sig_term sigs.now) ≡ effective_tuples (map sig_term sigs.now) n }
{
    let most = longest_list(sigs);
    if any_variadic(sigs) {
        most.max(n as usize)
    } else {
        most
    }
}

/// The length of the longest list of arguments.
pub fn longest_list(sigs: &[Sig]) -> usize
    ensures is { result ≡ longest (map sig_term sigs.now) }
    ensures few { AreNumbered (map sig_term sigs.now) → result < 4294967296 }
{
    let mut most = 0usize;
    for sig in sigs {
        most = most.max(sig.args.len());
    }
    most
}

/// Whether one of the overloads is variadic.
fn any_variadic(sigs: &[Sig]) -> bool
    ensures { result ≡ list_any (λ s. has_variadic (sig_term s)) sigs.now }
{
    sigs.iter()
        .any(|sig| last_variadic(sig.args.as_slice()).is_some())
}

/// The last argument, if it is variadic.
pub(crate) fn last_variadic(args: &[Arg]) -> Option<&Arg>
    ensures { option_map arg_term (option_copied result) ≡ variadic_last (map arg_term args.now) }
{
    match args.last() {
        None => None,
        Some(arg) => if is_last_variadic(arg.opt) {
            Some(arg)
        } else {
            None
        },
    }
}

fn is_last_variadic(opt: Optionality) -> bool
    ensures { result ≡ is_variadic opt }
{
    opt == Optionality::Variadic
}

/// Adds the tuples of a length, by overload.
fn add_length(
    alloc: Global,
    set: &mut OverloadSet,
    sigs: &[Sig],
    m: usize,
) -> Result<(), AllocError>
    requires { AreNumbered (map sig_term sigs.now) }
    ensures { OnOk result (tuples_in set.new ≡ tuples_in set.old ++ of_length m 0 (map sig_term sigs.now)) }
{
    for (number, sig) in sigs.iter().enumerate() {
        add_tuple(alloc, set, number as u32, sig.args.as_slice(), m)?;
    }
    Ok(())
}

/// Adds the tuple of a length of one overload, if it has one.
fn add_tuple(
    alloc: Global,
    set: &mut OverloadSet,
    number: u32,
    args: &[Arg],
    m: usize,
) -> Result<(), AllocError>
    ensures { OnOk result (tuples_in set.new ≡ tuples_in set.old ++ with_tuple (tuple_of number (map arg_term args.now) m) []) }
{
    if let Some(tuple) = make_tuple(alloc, number, args, m)? {
        set.push(tuple)?;
    }
    Ok(())
}

/// The tuple of a length of one overload, if it has one.
fn make_tuple(
    alloc: Global,
    number: u32,
    args: &[Arg],
    m: usize,
) -> Result<Option<Tuple>, AllocError>
    ensures { IfOk result (λ tuple. option_map tuple_term tuple ≡ tuple_of number (map arg_term args.now) m) }
{
    if args.len() < m {
        longer(alloc, number, args, m - args.len())
    } else {
        shorter(alloc, number, args, m)
    }
}

/// The declared lists, and then so many copies of the variadic argument, if there is one.
fn longer(
    alloc: Global,
    number: u32,
    args: &[Arg],
    count: usize,
) -> Result<Option<Tuple>, AllocError>
    ensures { IfOk result (λ tuple. option_map tuple_term tuple ≡ longer_of number (map arg_term args.now) count (variadic_last (map arg_term args.now))) }
{
    match last_variadic(args) {
        None => Ok(None),
        Some(last) => {
            let mut tuple = declared(alloc, number, args)?;
            for _copy in 0..count {
                tuple.types.push(last.ty.copy(alloc)?)?;
                tuple.opts.push(Optionality::Variadic)?;
            }
            Ok(Some(tuple))
        }
    }
}

/// The declared lists as far as a length, if each argument from there on may be left out.
fn shorter(alloc: Global, number: u32, args: &[Arg], m: usize) -> Result<Option<Tuple>, AllocError>
    requires { m ≤ length args.now }
    ensures { IfOk result (λ tuple. option_map tuple_term tuple ≡ shorter_of number (map arg_term args.now) m) }
{
    let (first, others) = args.split_at(m);
    if all_free(others) {
        Ok(Some(declared(alloc, number, first)?))
    } else {
        Ok(None)
    }
}

/// The tuple of the declared lists.
fn declared(alloc: Global, number: u32, args: &[Arg]) -> Result<Tuple, AllocError>
    ensures { IfOk result (λ tuple. tuple_term tuple ≡ record { overload = number; types = declared_types (map arg_term args.now); opts = declared_opts (map arg_term args.now) }) }
{
    Ok(Tuple {
        overload: number,
        types: types_of(alloc, args)?,
        opts: opts_of(alloc, args)?,
    })
}

fn types_of(alloc: Global, args: &[Arg]) -> Result<IdlTypes, AllocError>
    ensures { IfOk result (λ types. type_terms types ≡ declared_types (map arg_term args.now)) }
{
    let mut types = IdlTypes::new(alloc);
    for arg in args {
        let ty = arg.ty.copy(alloc)?;
        types.push(ty)?;
    }
    Ok(types)
}

fn opts_of(alloc: Global, args: &[Arg]) -> Result<Optionalities, AllocError>
    ensures { IfOk result (λ opts. opts ≡ declared_opts (map arg_term args.now)) }
{
    let mut opts = Optionalities::new(alloc);
    for arg in args {
        opts.push(arg.opt)?;
    }
    Ok(opts)
}

/// Whether a call may leave out each of these arguments, which are the last ones of an overload.
pub fn all_free(args: &[Arg]) -> bool
    ensures { result ≡ are_free (declared_opts (map arg_term args.now)) }
{
    for (place, arg) in args.iter().enumerate() {
        if !is_free(arg.opt, place + 1 == args.len()) {
            return false;
        }
    }
    true
}

/// Whether a call may leave out an argument: an optional one, or a variadic one that is the last (Web
/// IDL, "effective overload set").
pub fn is_free(opt: Optionality, is_last: bool) -> bool
    ensures { result ≡ is_free_in opt is_last }
{
    match opt {
        Optionality::Required => false,
        Optionality::Optional => true,
        Optionality::Variadic => is_last,
    }
}
