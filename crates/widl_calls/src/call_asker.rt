//! Suspended calls.

ghost use Rattle.std.specs.Prelude.{◌≡◌, ◌<◌, ◌+◌, ◌^◌, [], Option, None, Some, true, length, IfOk};
ghost use Rattle.widl_dialog.specs.Conversation.{Ends};
ghost use Rattle.widl_dialog.specs.Stack.{longer};
ghost use Rattle.widl_idl.specs.DefinitionTerms.{DefsTerm, defs_term};
ghost use Rattle.widl_steps.specs.Operations.{StepsOf};
ghost use Rattle.widl_steps.specs.AskTerms.{AskTerm, BeginAnswer, answer_term};
ghost use Rattle.widl_steps.specs.Laws.{Said};
ghost use Rattle.widl_steps.specs.BuiltCalls.{calls_built_today};
ghost use Rattle.widl_steps.specs.CallRules.{call_rule};
ghost use Rattle.widl_steps.specs.CallTasks.{CallTask, Function};
ghost use Rattle.widl_steps.specs.FoundSteps.{steps_over};
ghost use Rattle.widl_convert.specs.Frames.{end_of};
ghost use Rattle.widl_convert.specs.Stack.{next_said};
ghost use Rattle.widl_calls.specs.Frames.{CallLeads, call_dialog, call_job_of, call_weight, function_load, job_load};
ghost use Rattle.widl_calls.specs.Stack.{CallAwaits, CallEndsUnlessAsks, CallExpects, CallResumes, CallStands, CallTells, IsCallCalmer, IsInterfaceObject, IsCallQuiet, IsCallQuietState, call_left, call_pause, call_quiet, call_rest};

use crate::arguments::Arguments;
use crate::frames::CallFrame;
use crate::jobs::CallJob;
use crate::moves::{CallAsking, CallMove};
use crate::settle::{CallSettled, settle};
use crate::steps::{answered, begin};
use crate::waits::CallWait;
use std::alloc::{AllocError, Global};
use std::mem;
use widl_convert::{Ending, Next};
use widl_script_tree::Script;
use widl_steps::Answer;
use widl_store::Builtin;
use widl_tables::Tables;
use widl_value::{ObjRef, Value, Values};

/// Where a call stands.
#[derive(Drop)]
pub enum CallState {
    /// Nothing has been asked.
    Begins(CallJob),
    /// An ask waits for its answer.
    Waits(CallWait),
    /// It has ended.
    Ended,
}

/// A suspended call of a function that is there before a script begins: from behind its line `call` to
/// before its line `ret` or `thr`. It hands out each thing that it asks and goes on with the answer.
///
/// It holds values and numbers, and no borrow of a store: so any script may run between an ask and its
/// answer.
#[derive(Drop)]
pub struct CallAsker {
    alloc: Global,
    state: CallState,
    frames: Vec<CallFrame>,
}

impl CallAsker {
    /// The call of a function: the function's object, which function it is, `this`, the arguments, and
    /// whether it constructs (ECMA-262, "Built-in Function Objects"). A function that isn't built ends at
    /// an end of the profile.
    ///
    /// # Errors
    ///
    /// `AllocError` where there is no memory.
    pub fn start(
        alloc: Global,
        f: ObjRef,
        what: Builtin,
        this: Value,
        args: Values,
        construct: bool,
    ) -> Result<CallAsker, AllocError>
        requires few { length args < 2 ^ 32 }
        requires constructs { construct ≡ true → IsInterfaceObject what }
        ensures stands { IfOk result (λ asker. (list : DefsTerm) (steps : StepsOf) → CallStands list steps asker (Function f what this args construct) [] None) }
        ensures begins { IfOk result (λ asker. CallExpects asker BeginAnswer) }
        ensures rest { IfOk result (λ asker. (list : DefsTerm) (steps : StepsOf) → call_rest list steps asker BeginAnswer ≡ call_rule calls_built_today list steps (Function f what this args construct)) }
        ensures ready { IfOk result IsCallQuiet }
        ensures quiet { IfOk result (λ asker. (list : DefsTerm) → call_quiet list asker ≡ 1 + function_load list what args) }
    {
        Ok(start(
            alloc,
            CallJob::Function {
                f,
                what,
                this,
                args: Arguments { values: args },
                construct,
            },
        ))
    }

    /// What comes next after an answer: `Begin` first, and then one that fits the ask that this has
    /// answered last. After anything but an ask the call has ended, and isn't resumed again.
    pub fn resume(&mut self, tables: &Tables, script: &Script, answer: Answer) -> Next
        requires { CallExpects self.old (answer_term answer) }
        ensures next { (task : CallTask) (said : Said) (last : Option AskTerm) → CallStands (defs_term tables.now.defs) (steps_over tables.now script.now) self.old task said last → CallTells (defs_term tables.now.defs) (steps_over tables.now script.now) self.new task (longer said last (answer_term answer)) result }
        ensures goes { CallResumes (defs_term tables.now.defs) (steps_over tables.now script.now) (call_rest (defs_term tables.now.defs) (steps_over tables.now script.now) self.old (answer_term answer)) self.new result }
        ensures quiet { IsCallCalmer (defs_term tables.now.defs) self.old self.new result }
        ensures ended { CallEndsUnlessAsks self.new result }
    {
        self.go(tables, script, answer)
    }

    /// The same, without the talk of its task.
    fn go(&mut self, tables: &Tables, script: &Script, answer: Answer) -> Next
        requires { CallExpects self.old (answer_term answer) }
        ensures goes { CallResumes (defs_term tables.now.defs) (steps_over tables.now script.now) (call_rest (defs_term tables.now.defs) (steps_over tables.now script.now) self.old (answer_term answer)) self.new result }
        ensures quiet { IsCallCalmer (defs_term tables.now.defs) self.old self.new result }
        ensures ended { CallEndsUnlessAsks self.new result }
    {
        let alloc = self.alloc;
        let state = mem::replace(&mut self.state, CallState::Ended);
        match first_move(alloc, tables, script, state, answer) {
            Ok(first) => match settle(alloc, tables, script, &mut self.frames, first) {
                CallSettled::Waits(asking) => self.wait(asking),
                CallSettled::Ends(ending) => ending.told(),
                CallSettled::Memory => Next::Memory,
            },
            Err(_) => Next::Memory,
        }
    }

    /// Hands out an ask, and waits for its answer.
    fn wait(&mut self, asking: CallAsking) -> Next
        ensures ask { result ≡ Next.Ask asking.ask }
        ensures state { self.new.state ≡ CallState.Waits asking.wait }
        ensures frames { self.new.frames ≡ self.old.frames }
    {
        let CallAsking { ask, wait } = asking;
        match mem::replace(&mut self.state, CallState::Waits(wait)) {
            CallState::Ended => {}
            former => discard(former),
        }
        Next::Ask(ask)
    }
}

/// Lets a state go.
fn discard(_state: CallState) {}

/// The call of a task, of which nothing has been asked.
fn start(alloc: Global, job: CallJob) -> CallAsker
    ensures stands { (list : DefsTerm) (steps : StepsOf) → CallStands list steps result (call_job_of list steps job) [] None }
    ensures begins { CallExpects result BeginAnswer }
    ensures rest { (list : DefsTerm) (steps : StepsOf) → call_rest list steps result BeginAnswer ≡ call_rule calls_built_today list steps (call_job_of list steps job) }
    ensures ready { IsCallQuiet result }
    ensures quiet { (list : DefsTerm) → call_quiet list result ≡ 1 + job_load list job }
{
    CallAsker {
        alloc,
        state: CallState::Begins(job),
        frames: Vec::new(alloc),
    }
}

/// The first move after an answer.
///
/// # Errors
///
/// `AllocError` where there is no memory.
fn first_move(
    alloc: Global,
    tables: &Tables,
    script: &Script,
    state: CallState,
    answer: Answer,
) -> Result<CallMove, AllocError>
    requires { CallAwaits state (answer_term answer) }
    ensures leads { IfOk result (λ m. CallLeads (defs_term tables.now.defs) (steps_over tables.now script.now) (call_left (defs_term tables.now.defs) (steps_over tables.now script.now) state (answer_term answer)) (call_dialog (defs_term tables.now.defs) (steps_over tables.now script.now) m)) }
    ensures weight { IfOk result (λ m. IsCallQuietState state → call_weight (defs_term tables.now.defs) m < call_pause (defs_term tables.now.defs) state) }
{
    match state {
        CallState::Begins(job) => begin(alloc, tables, script, job),
        CallState::Waits(wait) => answered(alloc, tables, script, wait, answer),
        CallState::Ended => unreachable!(),
    }
}
