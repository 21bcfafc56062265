//! Changes of the inner parts of objects, done.

ghost use Rattle.std.specs.Prelude.{◌≡◌, ℕ, IfSome, IfNone};
ghost use Rattle.widl_store.specs.Inners.{AnArrayIterator, ArrayIteratorPart, inner_term, kind_of as the_kind_of};
ghost use Rattle.widl_store.specs.declared.inner.Turn.{Turn as IteratorTurn};
ghost use Rattle.widl_steps.specs.AskTerms.{SetCursor};
ghost use Rattle.widl_runs.specs.Actions.{changed_part};
ghost use Rattle.widl_script_tree.specs.Tables.{Tables};
ghost use Rattle.widl_store.specs.Objects.{IsLive};
ghost use Rattle.widl_runs.specs.Jobs.{Program, nothing};
ghost use Rattle.widl_engine.specs.Frames.{move_of};
ghost use Rattle.widl_engine.specs.Place.{Performed};

use crate::contexts::Place;
use crate::due::Due;
use crate::moves::{Move, ends};
use widl_steps::Change;
use widl_store::{Inner, Store, Turn};
use widl_value::ObjRef;

/// The object of an Array Iterator.
fn iterated(inner: &Inner) -> Option<ObjRef>
    ensures moved { IfSome result (λ of. (next : ℕ) (turn : IteratorTurn) → changed_part (SetCursor next turn) (inner_term inner.now) ≡ ArrayIteratorPart of next turn) }
    ensures kind { IfSome result (λ of. the_kind_of (inner_term inner.now) ≡ AnArrayIterator) }
    ensures still { IfNone result ((next : ℕ) (turn : IteratorTurn) → changed_part (SetCursor next turn) (inner_term inner.now) ≡ inner_term inner.now) }
{
    match inner {
        Inner::ArrayIterator { of, .. } => Some(*of),
        Inner::PairIterator { .. } => None,
        Inner::Plain => None,
        Inner::Array => None,
        Inner::Error => None,
        Inner::Script(_) => None,
        Inner::Builtin(_) => None,
        Inner::Interface { .. } => None,
        Inner::Platform { .. } => None,
        Inner::Space { .. } => None,
        Inner::Promise(_) => None,
    }
}

/// The end of a change that has replaced an inner part.
fn moved(_former: Inner) -> Move
    ensures { (p : Program) (s : Tables) → move_of p s result ≡ nothing }
{
    ends()
}

/// An Array Iterator is moved on.
fn move_cursor(store: &mut Store, place: &Place, obj: ObjRef, next: u64, turn: Turn) -> Move
    requires { IsLive store.old.objects obj }
    ensures { (p : Program) (s : Tables) → Performed p s (Due.Change obj (Change.Cursor next turn)) store.old place.now store.new place.now result }
{
    match iterated(store.inner(obj)) {
        None => ends(),
        Some(of) => moved(store.set_inner(obj, Inner::ArrayIterator { of, next, turn })),
    }
}

/// The inner part of an object is changed.
pub(crate) fn change_part(store: &mut Store, place: &Place, obj: ObjRef, change: Change) -> Move
    requires { IsLive store.old.objects obj }
    ensures { (p : Program) (s : Tables) → Performed p s (Due.Change obj change) store.old place.now store.new place.now result }
{
    match change {
        Change::Cursor { next, turn } => move_cursor(store, place, obj, next, turn),
    }
}
