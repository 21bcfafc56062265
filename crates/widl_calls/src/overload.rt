//! Overloads of operations, where they stand in the list of definitions and in the script.

ghost use Rattle.std.specs.Prelude.{◌≡◌, ℕ, map, option_map, slice_get};
ghost use Rattle.std.specs.List.{list_any};
ghost use Rattle.std.specs.Option.{option_copied, option_map_or};
ghost use Rattle.widl_idl.specs.DefinitionTerms.{defs_term, sig_term};
ghost use Rattle.widl_idl.specs.Terms.{UndefinedType, type_term};
ghost use Rattle.widl_overload.specs.sets.Entries.{overloads_of};
ghost use Rattle.widl_steps.specs.FoundSteps.{lines_found, steps_over};
ghost use Rattle.widl_steps.specs.Operations.{is_promise, lines_of, result_type, returns_promise};

use widl_idl::{Callee, Defs, IdlType, Part, Sig};
use widl_overload::overload_list;
use widl_script_tree::{Script, StepLine};
use widl_tables::Tables;

/// An overload of an operation.
#[derive(Clone, Copy)]
pub struct Overload {
    /// The operations of its name.
    pub callee: Callee,
    /// Its number among them.
    pub number: u32,
}

/// Whether a type is a promise.
fn is_promise(ty: &IdlType) -> bool
    ensures { result ≡ is_promise (type_term ty.now) }
{
    match ty {
        IdlType::Promise(_) => true,
        IdlType::Any => false,
        IdlType::Undefined => false,
        IdlType::Boolean => false,
        IdlType::Int(_, _) => false,
        IdlType::Text {
            kind: _,
            null_empty: _,
        } => false,
        IdlType::Choice(_) => false,
        IdlType::Interface(_) => false,
        IdlType::CallbackFn(_) => false,
        IdlType::CallbackIface(_) => false,
        IdlType::Dict(_) => false,
        IdlType::Object => false,
        IdlType::Seq(_) => false,
        IdlType::Rec(_, _) => false,
        IdlType::Nullable(_) => false,
        IdlType::Union(_) => false,
    }
}

/// Whether one of these gives a promise.
fn any_promise(sigs: &[Sig]) -> bool
    ensures { result ≡ list_any (λ s. is_promise s.returned) (map sig_term sigs.now) }
{
    for sig in sigs {
        if is_promise(&sig.result) {
            return true;
        }
    }
    false
}

/// Whether an overload of a callee gives a promise.
pub(crate) fn gives_promise(tables: &Tables, callee: &Callee) -> bool
    ensures { result ≡ returns_promise (defs_term tables.now.defs) callee.now }
{
    any_promise(overload_list(tables.list().defs(), callee))
}

impl Overload {
    /// The signature of the overload; none where the list hasn't it.
    fn signature<'d>(&self, defs: &'d Defs) -> Option<&'d Sig>
        ensures { option_map sig_term (option_copied result) ≡ slice_get (overloads_of (defs_term defs.now) self.now.callee) self.now.number }
    {
        overload_list(defs, &self.callee).get(self.number as usize)
    }

    /// The type of its result; none where the list hasn't the overload, which stands for `undefined`.
    pub(crate) fn result_type<'d>(&self, tables: &'d Tables) -> Option<&'d IdlType>
        ensures { option_map_or (λ t. type_term t.now) result UndefinedType ≡ result_type (defs_term tables.now.defs) self.now.callee self.now.number }
    {
        match self.signature(tables.list().defs()) {
            None => None,
            Some(sig) => Some(&sig.result),
        }
    }

    /// The lines of its steps block; none where there is no block.
    pub(crate) fn lines<'s>(&self, tables: &Tables, script: &'s Script) -> &'s [StepLine]
        ensures { result.now ≡ steps_over tables.now script.now self.now.callee self.now.number }
    {
        match self.callee.part {
            Part::Op(_) => match self.signature(tables.list().defs()) {
                None => &[],
                Some(_) => self.lines_found(script),
            },
            Part::Constructor | Part::Get(_) | Part::Set(_) | Part::Text => &[],
        }
    }

    /// The lines that the script has for it.
    fn lines_found<'s>(&self, script: &'s Script) -> &'s [StepLine]
        ensures { result.now ≡ lines_found script.now self.now.callee self.now.number }
    {
        match script.steps_of(&self.callee, Some(self.number)) {
            None => &[],
            Some(lines) => lines.as_slice(),
        }
    }
}
