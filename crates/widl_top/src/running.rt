//! Running a script over an accepted set that the engine serves.

ghost use Rattle.std.specs.Prelude.{◌≡◌, ◌≤◌, ◌↔◌, IsTrue, List, length, ℕ};
ghost use Rattle.widl_text.specs.Limits.{most_file_bytes};
ghost use Rattle.widl_idl.specs.DefinitionTerms.{defs_term};
ghost use Rattle.widl_convert.specs.Served.{IsServed};
ghost use Rattle.widl_script_tree.specs.Tables.{script_tree};
ghost use Rattle.widl_script.specs.Scripts.{IsReadAs};
ghost use Rattle.widl_top.specs.Answers.{Answered, Answers};
ghost use Rattle.widl_top.specs.Output.{last};
ghost use Rattle.widl_top.specs.Requests.{IsWithin};
ghost use Rattle.widl_top.specs.ScriptOutputs.{IsScriptOutput, IsScriptRun, script_line, status_of_end};
ghost use Rattle.widl_top.specs.declared.request.Command.TheVariants as commands;
ghost use Rattle.widl_top.specs.declared.status.Status.TheVariants as ends;

use crate::Status;
use crate::answer::last_line;
use crate::script_line::line_of_script_place;
use std::alloc::{AllocError, Global};
use widl_engine::{End, run};
use widl_lines::{ScriptFault, ScriptPlace};
use widl_overload::Accepted;
use widl_runs::laws::has_one_trace;
use widl_script::read_script;
use widl_script_tree::Script;
use widl_sink::{Sink, Writer};
use widl_store::realm;
use widl_tables::compile;

/// Names the first rule that a script breaks, or runs it.
pub fn run_script<K: Sink>(
    alloc: Global,
    budget: u64,
    text: &[u8],
    accepted: Accepted,
    out: &mut K,
) -> Status
    requires served { IsServed (defs_term accepted.defs) }
    requires short { length text.now ≤ most_file_bytes }
    requires within { IsWithin (commands.Run budget) }
    ensures { Answered (IsScriptOutput (defs_term accepted.defs) text.now budget) (K.held out.old) (K.held out.new) (K.faults out.old) (K.faults out.new) result }
{
    match read_script(alloc, text, &accepted) {
        Ok(script) => run_read(alloc, budget, &script, accepted, out),
        Err(ScriptFault::Refused(place)) => answer_place(alloc, place, out),
        Err(ScriptFault::Memory) => Status::Memory,
    }
}

/// Names a place at which a script breaks a rule.
fn answer_place<K: Sink>(alloc: Global, place: ScriptPlace, out: &mut K) -> Status
    ensures { Answers (last (script_line place) ends.ScriptRefused) (K.held out.old) (K.held out.new) (K.faults out.old) (K.faults out.new) result }
{
    match line_of_script_place(alloc, place) {
        Err(AllocError) => Status::Memory,
        Ok(line) => last_line(alloc, &line, b"", Status::ScriptRefused, out),
    }
}

/// Runs a script that breaks no rule.
fn run_read<K: Sink>(
    alloc: Global,
    budget: u64,
    script: &Script,
    accepted: Accepted,
    out: &mut K,
) -> Status
    requires served { IsServed (defs_term accepted.defs) }
    requires read { (text : List ℕ) × IsReadAs text (defs_term accepted.defs) script.now }
    requires within { IsWithin (commands.Run budget) }
    ensures { (text : List ℕ) → IsReadAs text (defs_term accepted.defs) script.now → Answered (IsScriptRun (defs_term accepted.defs) text budget) (K.held out.old) (K.held out.new) (K.faults out.old) (K.faults out.new) result }
{
    has_one_trace();
    let Ok(store) = realm(alloc, &accepted) else {
        return Status::Memory;
    };
    let Ok(tables) = compile(alloc, accepted) else {
        return Status::Memory;
    };
    let Ok(mut writer) = Writer::new(alloc) else {
        return Status::Memory;
    };
    let (end, _) = run(
        alloc,
        &tables,
        store,
        script,
        budget as u32,
        &mut writer,
        out,
    );
    if is_write_fault(end) {
        return Status::WriteFault;
    }
    match writer.flush(out) {
        Ok(()) => status_of(end),
        Err(_) => Status::WriteFault,
    }
}

/// Whether a run ended since the sink failed.
fn is_write_fault(end: End) -> bool
    ensures { IsTrue result ↔ (end ≡ End.WriteFault) }
{
    matches!(end, End::WriteFault)
}

/// The status of a run that ended so.
fn status_of(end: End) -> Status
    ensures { result ≡ status_of_end end }
{
    match end {
        End::Done => Status::Done,
        End::Uncaught => Status::Uncaught,
        End::Stopped(_) => Status::Stopped,
        End::WriteFault => Status::WriteFault,
        End::Memory => Status::Memory,
    }
}
