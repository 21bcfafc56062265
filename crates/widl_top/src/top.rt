//! The top call.

ghost use Rattle.std.specs.Prelude.{◌≡◌, ◌≢◌, [], ◌+◌, ◌-◌, ◌<◌, ◌⊎◌, ℕ, List, Some, None, length, drop};
ghost use Rattle.std.specs.Io.KnownBytes.{append_known};
ghost use Rattle.widl_text.specs.Limits.{most_file_bytes};
ghost use Rattle.widl_sink.specs.Causes.{Rose};
ghost use Rattle.widl_sink.specs.Growth.{GrewByPrefix};
ghost use Rattle.widl_top.specs.Outputs.{IsOutput, IsReadingOutput, IsCommandOutput, Writes, WritesPart};
ghost use Rattle.widl_top.specs.Requests.{request_of, names_of, first_name, AnswersAtOnce, HasNames, IsWithin, WritesAtOnce};
ghost use Rattle.widl_top.specs.Readings.{read_in_order};
ghost use Rattle.widl_top.specs.Causes.{Ends, fault_of};

use crate::answer::{answer_texts, answer_unread, last_line};
use crate::fetching::fetch_all;
use crate::help::{HELP, VERSION};
use crate::reader::read_request;
use crate::request::{Command, Request};
use crate::{Folder, Status, Words};
use std::alloc::Global;
use widl_sink::Sink;

/// Answers the arguments of a command line over a folder, writes the answer to a sink and tells how it
/// ended.
pub fn widl<F: Folder, K: Sink>(alloc: Global, words: &Words, folder: &mut F, out: &mut K) -> Status
    // What is answered and written, where the files are told: the defined output.
    ensures output { (told : List (List ℕ × List ℕ)) → F.files folder.old ≡ Some told → result ≢ Status.Memory → result ≢ Status.ReadFault → result ≢ Status.WriteFault
        → Writes (IsOutput words.now told) (K.held out.old) (K.held out.new) result }

    // `Usage` comes exactly where the arguments have no form.
    ensures usage { result ≡ Status.Usage → request_of words.now ≡ None }
    ensures usage_always { request_of words.now ≡ None → (result ≡ Status.WriteFault) ⊎ ((result ≡ Status.Usage) ⊎ (result ≡ Status.Memory)) }

    // Each failure comes only where its count rose, and where a count grew nothing but it comes.
    ensures write_fault { result ≡ Status.WriteFault → Rose (K.faults out.old) (K.faults out.new) }
    ensures write_always { K.faults out.old < K.faults out.new → result ≡ Status.WriteFault }
    ensures read_fault { result ≡ Status.ReadFault → Rose (F.faults folder.old) (F.faults folder.new) }
    ensures fault_always { F.faults folder.old < F.faults folder.new → (result ≡ Status.WriteFault) ⊎ ((result ≡ Status.ReadFault) ⊎ (result ≡ Status.Memory)) }
    ensures missing { result ≡ Status.Missing → Rose (F.misses folder.old) (F.misses folder.new) }
    ensures miss_always { F.misses folder.old < F.misses folder.new → (result ≡ Status.WriteFault) ⊎ ((result ≡ Status.Missing) ⊎ (result ≡ Status.Memory)) }

    // `TooLong` comes exactly where the arguments name files and the folder gave one byte too many.
    ensures too_long { result ≡ Status.TooLong → (names_of (request_of words.now) words.now ≢ []) × (F.given folder.new ≡ most_file_bytes + 1) }
    ensures long_always { names_of (request_of words.now) words.now ≢ [] → F.given folder.new ≡ most_file_bytes + 1
        → (result ≡ Status.WriteFault) ⊎ ((result ≡ Status.TooLong) ⊎ (result ≡ Status.Memory)) }

    // What the sink holds after a failure. After out of memory: nothing more, but where a script runs a
    // prefix of the defined output. After a fault: such a prefix, or one of the line that names the file
    // that was started last.
    ensures short { AnswersAtOnce (request_of words.now) → result ≡ Status.Memory → K.held out.new ≡ K.held out.old }
    ensures short_part { (told : List (List ℕ × List ℕ)) → F.files folder.old ≡ Some told → result ≡ Status.Memory
        → (K.held out.new ≡ K.held out.old) ⊎ WritesPart (IsOutput words.now told) (K.held out.old) (K.held out.new) }
    ensures short_fault { F.faults folder.old < F.faults folder.new → result ≡ Status.Memory → K.held out.new ≡ K.held out.old }
    ensures torn { (told : List (List ℕ × List ℕ)) → F.files folder.old ≡ Some told → (Rose (F.faults folder.old) (F.faults folder.new) → ⊥)
        → result ≡ Status.WriteFault → WritesPart (IsOutput words.now told) (K.held out.old) (K.held out.new) }
    ensures torn_fault { (told : List (List ℕ × List ℕ)) → F.files folder.old ≡ Some told → F.starts folder.old < 18446744073709551000
        → result ≡ Status.WriteFault → WritesPart (IsOutput words.now told) (K.held out.old) (K.held out.new)
        ⊎ GrewByPrefix (K.held out.old) (K.held out.new) (fault_of (names_of (request_of words.now) words.now) (F.starts folder.new - F.starts folder.old)) }
    ensures fault_written { F.starts folder.old < 18446744073709551000 → result ≡ Status.ReadFault
        → K.held out.new ≡ append_known (K.held out.old) (fault_of (names_of (request_of words.now) words.now) (F.starts folder.new - F.starts folder.old)) }
{
    match read_request(words) {
        None => last_line(alloc, b"usage", b"", Status::Usage, out),
        Some(Request::Help) => last_line(alloc, HELP, b"", Status::Done, out),
        Some(Request::Version) => last_line(alloc, VERSION, b"", Status::Done, out),
        Some(Request::OverFiles(command)) => answer_files(alloc, command, words, folder, out),
    }
}

/// Reads the files of a command, and answers it over them.
fn answer_files<F: Folder, K: Sink>(
    alloc: Global,
    command: Command,
    words: &Words,
    folder: &mut F,
    out: &mut K,
) -> Status
    requires names { HasNames command (length words.now) }
    requires within { IsWithin command }
    ensures ends { Ends (WritesAtOnce command) (F.files folder.old) (λ told. IsReadingOutput (IsCommandOutput command) (read_in_order told (drop (first_name command) words.now))) (drop (first_name command) words.now)
        (record { held = K.held out.old; sink_faults = K.faults out.old; faults = F.faults folder.old; misses = F.misses folder.old; given = F.given folder.old; starts = F.starts folder.old })
        (record { held = K.held out.new; sink_faults = K.faults out.new; faults = F.faults folder.new; misses = F.misses folder.new; given = F.given folder.new; starts = F.starts folder.new })
        result }
    ensures usage { result ≡ Status.Usage → ⊥ }
{
    match fetch_all(alloc, folder, words, command.first_name()) {
        Ok(texts) => answer_texts(alloc, command, texts, out),
        Err(unread) => {
            let name = words.at(unread.place).as_str();
            answer_unread(alloc, unread.cause, name, out)
        }
    }
}
