//! Looks at objects, done.

ghost use Rattle.std.specs.Prelude.{◌≡◌, IfOk};
ghost use Rattle.widl_store.specs.Inners.{inner_term};
ghost use Rattle.widl_steps.specs.ArrayFunctions.{cursor_in as the_cursor_in};
ghost use Rattle.widl_steps.specs.AskTerms.{SightAnswer, answer_term};
ghost use Rattle.widl_steps.specs.ObjectFunctions.{kind_in as the_kind_in};
ghost use Rattle.widl_runs.specs.Looks.{cursor_of as the_cursor_of, kind_of_inner, sight_in as the_sight_in, sight_of as the_sight_of};
ghost use Rattle.widl_script_tree.specs.Tables.{Tables};
ghost use Rattle.widl_store.specs.Objects.{IsLive};
ghost use Rattle.widl_runs.specs.Jobs.{Program};
ghost use Rattle.widl_engine.specs.Place.{Performed};

use crate::contexts::Place;
use crate::due::Due;
use crate::ends::JobEnd;
use crate::moves::Move;
use std::alloc::AllocError;
use widl_steps::{Answer, CursorState, KindName, Look};
use widl_store::{Inner, Store};
use widl_text::Key;
use widl_value::ObjRef;

/// The end of a look.
fn seen(answer: Answer) -> Move
    ensures { result ≡ Move.Gives (JobEnd.Seen answer) }
{
    Move::Gives(JobEnd::Seen(answer))
}

/// The kind of an object by its inner part.
fn kind_of(inner: &Inner) -> KindName
    ensures { result ≡ kind_of_inner (inner_term inner.now) }
{
    match inner {
        Inner::Array => KindName::Array,
        Inner::Error => KindName::Error,
        Inner::Script(_) => KindName::Function,
        Inner::Builtin(_) => KindName::Function,
        Inner::Interface { .. } => KindName::Function,
        Inner::Promise(_) => KindName::Promise,
        Inner::Plain => KindName::Other,
        Inner::Platform { .. } => KindName::Other,
        Inner::Space { .. } => KindName::Other,
        Inner::PairIterator { .. } => KindName::Other,
        Inner::ArrayIterator { .. } => KindName::Other,
    }
}

/// How far an iterator has come, by its inner part.
fn cursor_of(inner: &Inner) -> Option<CursorState>
    ensures { result ≡ the_cursor_of (inner_term inner.now) }
{
    match inner {
        Inner::PairIterator { of, kind, next } => Some(CursorState::Pairs {
            of: *of,
            kind: *kind,
            next: *next,
        }),
        Inner::ArrayIterator { of, next, turn } => Some(CursorState::Array {
            of: *of,
            next: *next,
            turn: *turn,
        }),
        Inner::Plain => None,
        Inner::Array => None,
        Inner::Error => None,
        Inner::Script(_) => None,
        Inner::Builtin(_) => None,
        Inner::Interface { .. } => None,
        Inner::Platform { .. } => None,
        Inner::Space { .. } => None,
        Inner::Promise(_) => None,
    }
}

/// What a look sees, by the inner part.
fn sight_of(what: Look, inner: &Inner) -> Answer
    ensures { answer_term result ≡ SightAnswer (the_sight_of what (inner_term inner.now)) }
{
    match what {
        Look::Kind => Answer::Kind(kind_of(inner)),
        Look::Cursor => Answer::Cursor(cursor_of(inner)),
    }
}

/// An object is looked at.
pub(crate) fn look(store: &Store, place: &Place, obj: ObjRef, what: Look) -> Move
    requires { IsLive store.now.objects obj }
    ensures { (p : Program) (s : Tables) → Performed p s (Due.Look obj what) store.now place.now store.now place.now result }
{
    seen(sight_of(what, store.inner(obj)))
}

/// The kind of an object in an answer.
fn kind_in(answer: Answer) -> KindName
    ensures { result ≡ the_kind_in (answer_term answer) }
{
    match answer {
        Answer::Kind(kind) => kind,
        _ => KindName::Other,
    }
}

/// How far an iterator has come, in an answer.
fn cursor_in(answer: Answer) -> Option<CursorState>
    ensures { result ≡ the_cursor_in (answer_term answer) }
{
    match answer {
        Answer::Cursor(state) => state,
        _ => None,
    }
}

/// What an answer shows that was asked for by this look.
pub(crate) fn sight_in(what: Look, answer: Answer) -> Answer
    ensures { answer_term result ≡ SightAnswer (the_sight_in what (answer_term answer)) }
{
    match what {
        Look::Kind => Answer::Kind(kind_in(answer)),
        Look::Cursor => Answer::Cursor(cursor_in(answer)),
    }
}

/// The own keys of an object are found.
pub(crate) fn find_keys(store: &Store, place: &Place, obj: ObjRef) -> Result<Move, AllocError>
    requires { IsLive store.now.objects obj }
    ensures { IfOk result (λ m. (p : Program) (s : Tables) → Performed p s (Due.FindKeys obj) store.now place.now store.now place.now m) }
{
    Ok(seen(Answer::Keys(store.own_keys(obj)?)))
}

/// An own property is found.
pub(crate) fn find_own(store: &Store, place: &Place, obj: ObjRef, key: Key) -> Move
    requires { IsLive store.now.objects obj }
    ensures { (p : Program) (s : Tables) → Performed p s (Due.FindOwn obj key) store.now place.now store.now place.now result }
{
    seen(Answer::Own(store.own(obj, &key)))
}
