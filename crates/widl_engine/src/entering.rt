//! Contexts are entered and left.

ghost use Rattle.std.specs.Prelude.{◌≡◌, ◌++◌, ◌∷◌, [], map, IfOk, IfSome, IfNone, OnOk};
ghost use Rattle.widl_script_tree.specs.Tables.{Tables, name_at, script_tree};
ghost use Rattle.widl_runs.specs.Calls.{function_in};
ghost use Rattle.widl_runs.specs.Jobs.{Program};
ghost use Rattle.widl_runs.specs.Worlds.{bound_parameters, builtin_context, function_context, outer_contexts};
ghost use Rattle.widl_engine.specs.Frames.{program_of};
ghost use Rattle.widl_engine.specs.Place.{OtherContexts, Performed, context_of, contexts_in, named};

use crate::bindings::Bindings;
use crate::contexts::{Context, Place};
use crate::due::Due;
use crate::ends::Completion;
use crate::frames::Frame;
use crate::jobs::{BuiltinCall, Job};
use crate::moves::{Move, completes};
use std::alloc::{AllocError, Global};
use std::mem;
use widl_script_tree::Script;
use widl_script_tree::laws::parts_are_lower;
use widl_store::{Builtin, Store};
use widl_value::{ObjRef, Value, Values};

/// Binds each parameter to its argument, as far as there are arguments.
fn bind_parameters(
    script: &Script,
    locals: &mut Bindings,
    params: &[u32],
    args: Values,
) -> Result<(), AllocError>
    ensures { OnOk result (named (name_at script.now) locals.new ≡ bound_parameters (named (name_at script.now) locals.old) (map (name_at script.now) params.now) args) }
{
    parts_are_lower(script);
    let mut args = args;
    let count = params.len().min(args.len());
    'each: for place in 0..count {
        locals.set(params[place], args.replace(place, Value::Undefined))?;
    }
    Ok(())
}

/// The context of a function of the script.
fn new_context(
    alloc: Global,
    script: &Script,
    number: u32,
    this: Value,
    args: Values,
) -> Result<Context, AllocError>
    ensures { IfOk result (λ c. context_of script.now c ≡ function_context (function_in (script_tree script.now) number) this args) }
{
    let mut locals = Bindings::new(alloc);
    bind_parameters(
        script,
        &mut locals,
        script.function(number).params.as_slice(),
        args,
    )?;
    Ok(Context {
        this,
        function: Some(number),
        locals,
    })
}

/// Puts a context around the innermost one.
fn push(outer: &mut Vec<Context>, context: Context) -> Result<(), AllocError>
    ensures { OnOk result (outer.new.items ≡ outer.old.items ++ context ∷ []) }
{
    outer.push(context)?;
    Ok(())
}

/// Takes the innermost of the contexts around.
fn pop(outer: &mut Vec<Context>) -> Option<Context>
    ensures some { IfSome result (λ c. outer.old.items ≡ outer.new.items ++ c ∷ []) }
    ensures none { IfNone result (outer.old.items ≡ []) }
{
    outer.pop()
}

/// No contexts.
fn clear(outer: &mut Vec<Context>)
    ensures { outer.new.items ≡ [] }
{
    outer.clear();
}

/// A context is the innermost one.
fn enter_context(place: &mut Place, inner: Context) -> Result<(), AllocError>
    ensures { OnOk result ((s : Tables) → OtherContexts s place.old place.new (context_of s inner ∷ contexts_in s place.old)) }
{
    match mem::replace(&mut place.here, Some(inner)) {
        None => {
            clear(&mut place.outer);
            Ok(())
        }
        Some(context) => push(&mut place.outer, context),
    }
}

/// A function of the script is entered.
#[inline(always)]
pub(crate) fn enter(
    alloc: Global,
    script: &Script,
    store: &Store,
    place: &mut Place,
    number: u32,
    this: Value,
    args: Values,
) -> Result<Move, AllocError>
    ensures { IfOk result (λ m. (p : Program) → p.script ≡ script_tree script.now → Performed p script.now (Due.Enter number this args) store.now place.old store.now place.new m) }
{
    let inner = new_context(alloc, script, number, this, args)?;
    enter_context(place, inner)?;
    Ok(Move::Steps(Frame::Called, Job::Statements(script.function(number).body)))
}

/// The context of a function that isn't written in the script.
fn enter_plain(alloc: Global, place: &mut Place, this: Value) -> Result<(), AllocError>
    ensures { OnOk result ((s : Tables) → OtherContexts s place.old place.new (builtin_context this ∷ contexts_in s place.old)) }
{
    let inner = Context {
        this,
        function: None,
        locals: Bindings::new(alloc),
    };
    enter_context(place, inner)
}

/// A function is entered that isn't written in the script.
pub(crate) fn enter_builtin(
    alloc: Global,
    store: &Store,
    place: &mut Place,
    f: ObjRef,
    function: Builtin,
    this: Value,
    args: Values,
) -> Result<Move, AllocError>
    ensures { IfOk result (λ m. (p : Program) (s : Tables) → Performed p s (Due.EnterBuiltin f function this args) store.now place.old store.now place.new m) }
{
    enter_plain(alloc, place, this.copy()?)?;
    let call = BuiltinCall {
        f,
        what: function,
        this,
        args,
    };
    Ok(Move::Steps(Frame::Talked, Job::Function(Box::new(alloc, call)?)))
}

/// A context is no longer used.
fn discard(_context: Option<Context>) {}

/// The innermost context is left.
fn leave_context(place: &mut Place)
    ensures { (s : Tables) → OtherContexts s place.old place.new (outer_contexts (contexts_in s place.old)) }
{
    match place.here {
        None => {}
        Some(_) => {
            let next = pop(&mut place.outer);
            discard(mem::replace(&mut place.here, next));
        }
    }
}

/// A call leaves its context.
#[inline(always)]
pub(crate) fn leave(store: &Store, place: &mut Place, completion: Completion) -> Move
    ensures { (p : Program) (s : Tables) → Performed p s (Due.Leave completion) store.now place.old store.now place.new result }
{
    leave_context(place);
    completes(completion)
}
