//! Suspended conversations.

ghost use Rattle.std.specs.Prelude.{◌≡◌, ◌<◌, ◌+◌, ◌^◌, [], length, Option, None, Some, IfOk};
ghost use Rattle.widl_dialog.specs.Conversation.{Ends};
ghost use Rattle.widl_dialog.specs.Stack.{longer};
ghost use Rattle.widl_idl.specs.DefinitionTerms.{DefsTerm, defs_term};
ghost use Rattle.widl_idl.specs.Terms.{type_term};
ghost use Rattle.widl_value.specs.IdlTerms.{idl_term};
ghost use Rattle.widl_steps.specs.AskTerms.{AskTerm, BeginAnswer, answer_term};
ghost use Rattle.widl_steps.specs.Built.{built_today};
ghost use Rattle.widl_steps.specs.Laws.{Said};
ghost use Rattle.widl_steps.specs.Rules.{rule};
ghost use Rattle.widl_steps.specs.Tasks.{Convert, Out, Resolve, Scalar, Task};
ghost use Rattle.widl_convert.specs.Frames.{end_of, job_of, move_dialog};
ghost use Rattle.widl_convert.specs.Loads.{load, weight};
ghost use Rattle.widl_convert.specs.Stack.{Awaits, EndsUnlessAsks, Expects, IsCalmer, IsQuiet, IsQuietState, Leads, Resumes, Stands, Tells, left, next_said, pause, quiet, rest};

use crate::jobs::Job;
use crate::moves::{Asking, Ending, Move};
use crate::outcome::Next;
use crate::resolution::Call;
use crate::scalar_types::type_for;
use crate::settle::{Settled, settle};
use crate::stack::Stack;
use crate::steps::{answered, begin};
use crate::waits::Wait;
use std::alloc::{AllocError, Global};
use std::mem;
use widl_idl::{Callee, IdlType};
use widl_steps::{Answer, Want};
use widl_tables::Tables;
use widl_value::{IdlValue, Value, Values};

/// Where a conversation stands.
#[derive(Drop)]
pub enum State {
    /// Nothing has been asked.
    Begins(Job),
    /// An ask waits for its answer.
    Waits(Wait),
    /// It has ended.
    Ended,
}

/// A suspended conversation: the conversion of a value, which hands out each thing that it asks and
/// goes on with the answer.
///
/// It holds values and numbers, and no borrow of a store: so any script may run between an ask and its
/// answer. Its frames lie on a stack of its own.
#[derive(Drop)]
pub struct Asker {
    alloc: Global,
    state: State,
    frames: Stack,
}

impl Asker {
    /// The conversion of a value to an IDL value of a type (Web IDL, "JavaScript type mapping"). The
    /// conversion to a type that isn't built ends at an end of the profile.
    ///
    /// # Errors
    ///
    /// `AllocError` where there is no memory.
    pub fn start_convert(alloc: Global, ty: &IdlType, value: Value) -> Result<Asker, AllocError>
        ensures stands { IfOk result (λ asker. (list : DefsTerm) → Stands list asker (Convert (type_term ty.now) value) [] None) }
        ensures begins { IfOk result (λ asker. Expects asker BeginAnswer) }
        ensures rest { IfOk result (λ asker. (list : DefsTerm) → rest list asker BeginAnswer ≡ rule built_today list (Convert (type_term ty.now) value)) }
        ensures ready { IfOk result IsQuiet }
        ensures quiet { IfOk result (λ asker. (list : DefsTerm) → quiet list asker ≡ 1 + load list (Convert (type_term ty.now) value)) }
    {
        let ty = type_for(alloc, ty, &value)?;
        Ok(start(alloc, Job::Convert { ty, value }))
    }

    /// The conversion of a value to a Number, a String or a length (ECMA-262, "ToNumber", "ToString",
    /// "ToLength").
    ///
    /// # Errors
    ///
    /// `AllocError` where there is no memory.
    pub fn start_scalar(alloc: Global, want: Want, value: Value) -> Result<Asker, AllocError>
        ensures stands { IfOk result (λ asker. (list : DefsTerm) → Stands list asker (Scalar want value) [] None) }
        ensures begins { IfOk result (λ asker. Expects asker BeginAnswer) }
        ensures rest { IfOk result (λ asker. (list : DefsTerm) → rest list asker BeginAnswer ≡ rule built_today list (Scalar want value)) }
        ensures ready { IfOk result IsQuiet }
        ensures quiet { IfOk result (λ asker. (list : DefsTerm) → quiet list asker ≡ 1 + load list (Scalar want value)) }
    {
        Ok(start(alloc, Job::Scalar { want, value }))
    }

    /// The choice of an overload of a callee for the arguments of a call, with their conversion (Web IDL,
    /// "overload resolution algorithm"). A callee that the list hasn't has no overload. There are fewer
    /// than 4,294,967,296 arguments.
    ///
    /// # Errors
    ///
    /// `AllocError` where there is no memory.
    pub fn start_resolve(alloc: Global, callee: Callee, args: Values) -> Result<Asker, AllocError>
        requires few { length args < 2 ^ 32 }
        ensures stands { IfOk result (λ asker. (list : DefsTerm) → Stands list asker (Resolve callee args) [] None) }
        ensures begins { IfOk result (λ asker. Expects asker BeginAnswer) }
        ensures rest { IfOk result (λ asker. (list : DefsTerm) → rest list asker BeginAnswer ≡ rule built_today list (Resolve callee args)) }
        ensures ready { IfOk result IsQuiet }
        ensures quiet { IfOk result (λ asker. (list : DefsTerm) → quiet list asker ≡ 1 + load list (Resolve callee args)) }
    {
        Ok(start(alloc, Job::Resolve(Call { callee, args })))
    }

    /// The conversion of an IDL value of a type to a value of the script (Web IDL, "JavaScript type
    /// mapping"). That of a value which isn't built ends at an end of the profile, and so does that of an
    /// integer of a magnitude greater than 2^64, which no integer type has.
    ///
    /// # Errors
    ///
    /// `AllocError` where there is no memory.
    pub fn start_out(alloc: Global, ty: &IdlType, value: IdlValue) -> Result<Asker, AllocError>
        ensures stands { IfOk result (λ asker. (list : DefsTerm) → Stands list asker (Out (type_term ty.now) (idl_term value)) [] None) }
        ensures begins { IfOk result (λ asker. Expects asker BeginAnswer) }
        ensures rest { IfOk result (λ asker. (list : DefsTerm) → rest list asker BeginAnswer ≡ rule built_today list (Out (type_term ty.now) (idl_term value))) }
        ensures ready { IfOk result IsQuiet }
        ensures quiet { IfOk result (λ asker. (list : DefsTerm) → quiet list asker ≡ 1 + load list (Out (type_term ty.now) (idl_term value))) }
    {
        let ty = ty.copy(alloc)?;
        Ok(start(alloc, Job::Out { ty, value }))
    }

    /// What comes next after an answer: [`Answer::Begin`] first, and then one that fits the ask that
    /// this has answered last. After anything but an ask the conversation has ended, and isn't resumed
    /// again.
    pub fn resume(&mut self, tables: &Tables, answer: Answer) -> Next
        requires { Expects self.old (answer_term answer) }
        ensures next { (task : Task) (said : Said) (last : Option AskTerm) → Stands (defs_term tables.now.defs) self.old task said last → Tells (defs_term tables.now.defs) self.new task (longer said last (answer_term answer)) result }
        ensures goes { Resumes (defs_term tables.now.defs) (rest (defs_term tables.now.defs) self.old (answer_term answer)) self.new result }
        ensures quiet { IsCalmer (defs_term tables.now.defs) self.old self.new result }
        ensures ended { EndsUnlessAsks self.new result }
    {
        self.go(tables, answer)
    }

    /// The same, without the talk of its task.
    fn go(&mut self, tables: &Tables, answer: Answer) -> Next
        requires { Expects self.old (answer_term answer) }
        ensures goes { Resumes (defs_term tables.now.defs) (rest (defs_term tables.now.defs) self.old (answer_term answer)) self.new result }
        ensures quiet { IsCalmer (defs_term tables.now.defs) self.old self.new result }
        ensures ended { EndsUnlessAsks self.new result }
    {
        let alloc = self.alloc;
        let state = mem::replace(&mut self.state, State::Ended);
        match first_move(alloc, tables, state, answer) {
            Ok(first) => match settle(alloc, tables, &mut self.frames, first) {
                Settled::Waits(asking) => self.wait(asking),
                Settled::Ends(ending) => ending.told(),
                Settled::Memory => Next::Memory,
            },
            Err(_) => Next::Memory,
        }
    }

    /// Hands out an ask, and waits for its answer.
    fn wait(&mut self, asking: Asking) -> Next
        ensures ask { result ≡ Next.Ask asking.ask }
        ensures state { self.new.state ≡ State.Waits asking.wait }
        ensures frames { self.new.frames ≡ self.old.frames }
    {
        let Asking { ask, wait } = asking;
        discard(mem::replace(&mut self.state, State::Waits(wait)));
        Next::Ask(ask)
    }
}

/// Lets a state go.
fn discard(_state: State) {}

/// The conversation of a task, of which nothing has been asked.
fn start(alloc: Global, job: Job) -> Asker
    ensures stands { (list : DefsTerm) → Stands list result (job_of list job) [] None }
    ensures begins { Expects result BeginAnswer }
    ensures rest { (list : DefsTerm) → rest list result BeginAnswer ≡ rule built_today list (job_of list job) }
    ensures ready { IsQuiet result }
    ensures quiet { (list : DefsTerm) → quiet list result ≡ 1 + load list (job_of list job) }
{
    Asker {
        alloc,
        state: State::Begins(job),
        frames: Stack::new(alloc),
    }
}

/// The first move after an answer.
///
/// # Errors
///
/// `AllocError` where there is no memory.
#[tactic(auto, using(crate::proofs::Suspending::led_all))]
fn first_move(
    alloc: Global,
    tables: &Tables,
    state: State,
    answer: Answer,
) -> Result<Move, AllocError>
    requires { Awaits state (answer_term answer) }
    ensures leads { IfOk result (λ m. Leads (defs_term tables.now.defs) (left (defs_term tables.now.defs) state (answer_term answer)) (move_dialog (defs_term tables.now.defs) m)) }
    ensures weight { IfOk result (λ m. IsQuietState state → weight (defs_term tables.now.defs) m < pause (defs_term tables.now.defs) state) }
{
    match state {
        State::Begins(job) => begin(alloc, tables, job),
        State::Waits(wait) => answered(alloc, tables, wait, answer),
        State::Ended => unreachable!(),
    }
}

impl Ending {
    /// The end as it is told.
    pub fn told(self) -> Next
        ensures { next_said result ≡ Some (Ends (end_of self)) }
    {
        match self {
            Ending::Done(outcome) => Next::Done(outcome),
            Ending::Throw(reason) => Next::Throw(reason),
            Ending::Rethrow(value) => Next::Rethrow(value),
            Ending::Profile(number) => Next::Profile(number),
        }
    }
}
