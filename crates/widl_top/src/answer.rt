//! Writing the answer of a command.

ghost use Rattle.std.specs.Prelude.{◌≡◌, ◌≢◌, ◌≤◌, ◌++◌, IfOk, OnOk, OnErr, codes, length};
ghost use Rattle.std.specs.Io.KnownBytes.{append_known};
ghost use Rattle.widl_text.specs.Limits.{most_file_bytes, most_files};
ghost use Rattle.widl_sink.specs.Causes.{HasCause};
ghost use Rattle.widl_sink.specs.Growth.{GrewByPrefix};
ghost use Rattle.widl_sink.specs.Lines.{ended};
ghost use Rattle.widl_front.specs.Findings.{finding_line};
ghost use Rattle.widl_front.specs.Texts.{AreShort};
ghost use Rattle.widl_front.specs.Verdicts.{refusal_line};
ghost use Rattle.widl_top.specs.Answers.{Answered, Answers, CanDo, DoesAtOnce, IsTaskOutput, unread_output};
ghost use Rattle.widl_top.specs.Output.{last};
ghost use Rattle.widl_top.specs.Outputs.{later_output, sets_output, IsCommandOutput, IsRunOutput, IsVerdictOutput};
ghost use Rattle.widl_top.specs.Readings.{IsMemory};
ghost use Rattle.widl_top.specs.Requests.{HasTexts, IsWithin, WritesAtOnce};
ghost use Rattle.widl_top.specs.declared.request.Command.TheVariants as commands;
ghost use Rattle.widl_top.specs.declared.status.Status.TheVariants as ends;
ghost use Rattle.widl_folder.specs.declared.whole_file.FetchError.TheVariants as causes;

use crate::Status;
use crate::request::Command;
use crate::running::run_script;
use crate::task::Task;
use std::alloc::{AllocError, Global};
use std::mem;
use widl_convert::is_served;
use widl_folder::FetchError;
use widl_front::{Finding, Texts, Verdict, judge, line_of_finding, line_of_refusal};
use widl_idl::Refusal;
use widl_overload::Accepted;
use widl_sets::set_lines;
use widl_sink::{Line, Sink, WriteFailed, Writer, write_all};

/// Answers a command over the texts of its files: for a run the first text is the script, and the others are
/// the fragments; for the other commands all are fragments.
pub fn answer_texts<K: Sink>(alloc: Global, command: Command, texts: Texts, out: &mut K) -> Status
    requires texts { HasTexts command (length texts) }
    requires short { AreShort texts }
    requires within { IsWithin command }
    ensures answered { Answered (IsCommandOutput command texts) (K.held out.old) (K.held out.new) (K.faults out.old) (K.faults out.new) result }
    ensures at_once { WritesAtOnce command → result ≡ Status.Memory → K.held out.new ≡ K.held out.old }
{
    match command {
        Command::Check => answer_fragments(alloc, &Task::Check, &texts, out),
        Command::Sets => answer_fragments(alloc, &Task::Sets, &texts, out),
        Command::Run(budget) => answer_run(alloc, budget, texts, out),
    }
}

/// Takes the script off the texts, and runs it over the others.
fn answer_run<K: Sink>(alloc: Global, budget: u64, texts: Texts, out: &mut K) -> Status
    requires texts { HasTexts (commands.Run budget) (length texts) }
    requires short { AreShort texts }
    requires within { IsWithin (commands.Run budget) }
    ensures { Answered (IsCommandOutput (commands.Run budget) texts) (K.held out.old) (K.held out.new) (K.faults out.old) (K.faults out.new) result }
{
    let mut fragments = texts;
    let script = fragments.take_first();
    answer_fragments(alloc, &Task::Run(budget, script), &fragments, out)
}

/// Names what is found in some fragments, or does a task with their accepted set.
fn answer_fragments<K: Sink>(alloc: Global, task: &Task, fragments: &Texts, out: &mut K) -> Status
    requires few { length fragments.now ≤ most_files }
    requires short { AreShort fragments.now }
    requires task { CanDo task.now }
    ensures answered { Answered (IsVerdictOutput fragments.now (IsTaskOutput task.now)) (K.held out.old) (K.held out.new) (K.faults out.old) (K.faults out.new) result }
    ensures at_once { DoesAtOnce task.now → result ≡ Status.Memory → K.held out.new ≡ K.held out.old }
{
    match judge(alloc, fragments) {
        Err(AllocError) => Status::Memory,
        Ok(Verdict::Fault(finding)) => answer_finding(alloc, finding, out),
        Ok(Verdict::Broken(refusal)) => answer_refusal(alloc, refusal, out),
        Ok(Verdict::Accepted(accepted)) => do_task(alloc, task, accepted, out),
    }
}

/// Does a task with an accepted set.
fn do_task<K: Sink>(alloc: Global, task: &Task, accepted: Accepted, out: &mut K) -> Status
    requires { CanDo task.now }
    ensures answered { Answered (IsTaskOutput task.now accepted) (K.held out.old) (K.held out.new) (K.faults out.old) (K.faults out.new) result }
    ensures at_once { DoesAtOnce task.now → result ≡ Status.Memory → K.held out.new ≡ K.held out.old }
{
    match task {
        Task::Check => {
            leave_to_the_end(accepted);
            answer_accepted(alloc, out)
        }
        Task::Sets => answer_lines(alloc, &accepted, out),
        Task::Run(budget, script) => answer_script(alloc, *budget, script, accepted, out),
    }
}

/// Leaves the memory of an accepted set to the end of the program, which is near. The system then takes it
/// all back at once; giving back its many small pieces takes a tenth of the time of a check.
fn leave_to_the_end(accepted: Accepted) {
    mem::forget(accepted);
}

/// Names the first fault of the files.
fn answer_finding<K: Sink>(alloc: Global, finding: Finding, out: &mut K) -> Status
    ensures { Answers (last (finding_line finding) ends.Refused) (K.held out.old) (K.held out.new) (K.faults out.old) (K.faults out.new) result }
{
    match line_of_finding(alloc, finding) {
        Err(AllocError) => Status::Memory,
        Ok(line) => last_line(alloc, &line, b"", Status::Refused, out),
    }
}

/// Names the first refusal of the files by a rule.
fn answer_refusal<K: Sink>(alloc: Global, refusal: Refusal, out: &mut K) -> Status
    ensures { Answers (last (refusal_line refusal) ends.Refused) (K.held out.old) (K.held out.new) (K.faults out.old) (K.faults out.new) result }
{
    match line_of_refusal(alloc, refusal) {
        Err(AllocError) => Status::Memory,
        Ok(line) => last_line(alloc, &line, b"", Status::Refused, out),
    }
}

/// Says that a set is accepted.
fn answer_accepted<K: Sink>(alloc: Global, out: &mut K) -> Status
    ensures { Answers (last (codes "accepted") ends.Done) (K.held out.old) (K.held out.new) (K.faults out.old) (K.faults out.new) result }
{
    last_line(alloc, b"accepted", b"", Status::Done, out)
}

/// Writes the effective overload sets of an accepted set, a line for each tuple.
fn answer_lines<K: Sink>(alloc: Global, accepted: &Accepted, out: &mut K) -> Status
    ensures { Answers (sets_output accepted.now) (K.held out.old) (K.held out.new) (K.faults out.old) (K.faults out.new) result }
{
    match set_lines(alloc, accepted.defs()) {
        Err(AllocError) => Status::Memory,
        Ok(lines) => write_lines(&lines, out),
    }
}

/// Writes lines that all have their line feeds.
fn write_lines<K: Sink>(lines: &[u8], out: &mut K) -> Status
    ensures { Answers (record { bytes = lines.now; status = ends.Done }) (K.held out.old) (K.held out.new) (K.faults out.old) (K.faults out.new) result }
{
    match write_all(out, lines) {
        Ok(()) => Status::Done,
        Err(_) => Status::WriteFault,
    }
}

/// Runs a script over an accepted set, where runs over it are supported today.
fn answer_script<K: Sink>(
    alloc: Global,
    budget: u64,
    script: &[u8],
    accepted: Accepted,
    out: &mut K,
) -> Status
    requires short { length script.now ≤ most_file_bytes }
    requires within { IsWithin (commands.Run budget) }
    ensures { Answered (IsRunOutput budget script.now accepted) (K.held out.old) (K.held out.new) (K.faults out.old) (K.faults out.new) result }
{
    if is_served(&accepted) {
        run_script(alloc, budget, script, accepted, out)
    } else {
        answer_later(alloc, out)
    }
}

/// Says that scripts can't be run over a set yet.
fn answer_later<K: Sink>(alloc: Global, out: &mut K) -> Status
    ensures { Answers later_output (K.held out.old) (K.held out.new) (K.faults out.old) (K.faults out.new) result }
{
    last_line(alloc, b"refused later 0 0", b"", Status::Refused, out)
}

/// Says why a file was not read.
pub fn answer_unread<K: Sink>(alloc: Global, cause: FetchError, name: &str, out: &mut K) -> Status
    ensures answers { Answers (unread_output cause name.now) (K.held out.old) (K.held out.new) (K.faults out.old) (K.faults out.new) result }
    ensures memory { IsMemory cause → result ≡ Status.Memory }
{
    match cause {
        FetchError::Memory(_) => Status::Memory,
        FetchError::Missing => missing_line(alloc, name, out),
        FetchError::Failed => fault_line(alloc, name, out),
        FetchError::TooLong => long_line(alloc, name, out),
    }
}

/// Says that a file is not there.
#[tactic(auto, unfolding(crate::specs::Outputs::missing_line))]
fn missing_line<K: Sink>(alloc: Global, name: &str, out: &mut K) -> Status
    ensures { Answers (unread_output causes.Missing name.now) (K.held out.old) (K.held out.new) (K.faults out.old) (K.faults out.new) result }
{
    last_line(alloc, b"missing ", name.as_bytes(), Status::Missing, out)
}

/// Says that a file could not be read.
#[tactic(auto, unfolding(crate::specs::Outputs::fault_line))]
fn fault_line<K: Sink>(alloc: Global, name: &str, out: &mut K) -> Status
    ensures { Answers (unread_output causes.Failed name.now) (K.held out.old) (K.held out.new) (K.faults out.old) (K.faults out.new) result }
{
    last_line(
        alloc,
        b"read fault ",
        name.as_bytes(),
        Status::ReadFault,
        out,
    )
}

/// Says that a file is too long.
#[tactic(auto, unfolding(crate::specs::Outputs::long_line))]
fn long_line<K: Sink>(alloc: Global, name: &str, out: &mut K) -> Status
    ensures { Answers (unread_output causes.TooLong name.now) (K.held out.old) (K.held out.new) (K.faults out.old) (K.faults out.new) result }
{
    last_line(alloc, b"too long ", name.as_bytes(), Status::TooLong, out)
}

/// Writes one line, and answers the status that goes with it.
pub fn last_line<K: Sink>(
    alloc: Global,
    front: &[u8],
    name: &[u8],
    status: Status,
    out: &mut K,
) -> Status
    requires plain { status ≢ Status.WriteFault }
    requires known { status ≢ Status.Memory }
    ensures { Answers (last (front.now ++ name.now) status) (K.held out.old) (K.held out.new) (K.faults out.old) (K.faults out.new) result }
{
    let Ok(line) = joined_line(alloc, front, name) else {
        return Status::Memory;
    };
    let Ok(mut writer) = Writer::new(alloc) else {
        return Status::Memory;
    };
    match write_line(&line, &mut writer, out) {
        Ok(()) => status,
        Err(_) => Status::WriteFault,
    }
}

/// Writes a line, and what the writer holds, to the sink.
///
/// # Errors
///
/// `WriteFailed` where the sink failed.
fn write_line<K: Sink>(line: &Line, writer: &mut Writer, out: &mut K) -> Result<(), WriteFailed>
    ensures wrote { OnOk result (K.held out.new ≡ append_known (K.held out.old) (writer.old ++ ended line.now)) }
    ensures torn { OnErr result (GrewByPrefix (K.held out.old) (K.held out.new) (writer.old ++ ended line.now)) }
    ensures cause { HasCause (K.faults out.old) (K.faults out.new) result }
{
    writer.emit(line, out)?;
    writer.flush(out)
}

/// The line of two texts, one after the other.
///
/// # Errors
///
/// `AllocError` where there is no memory.
fn joined_line(alloc: Global, front: &[u8], name: &[u8]) -> Result<Line, AllocError>
    ensures { IfOk result (λ line. line ≡ front.now ++ name.now) }
{
    let mut bytes = Vec::from_slice(alloc, front)?;
    bytes.extend_from_slice(name)?;
    Ok(Line::new(bytes))
}
