//! The operation that is measured: the first name of the first namespace.

use anyhow::{Result, bail};
use widl_idl::{Callee, Defs, IdlType, Owner, Part};
use widl_overload::type_at;

/// The overloads of the first operation name of the first namespace.
pub const FIRST: Callee = Callee {
    owner: Owner::Space(0),
    part: Part::Op(0),
};

/// The type of the first argument of the callee's first overload.
pub fn first_type<'d>(defs: &'d Defs, callee: &Callee) -> Result<&'d IdlType> {
    match type_at(defs, callee, 0, 0) {
        Some(first) => Ok(first.ty),
        None => bail!("an argument is wanted"),
    }
}
