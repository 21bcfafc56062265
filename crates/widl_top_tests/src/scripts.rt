//! The rules of scripts over sets that no run is served over, and in scripts of about the greatest length: the first rule that each
//! script breaks, and its place.

ghost use Rattle.std.specs.Prelude.{◌≤◌, length};
ghost use Rattle.widl_idl.specs.DefinitionTerms.{defs_term};
ghost use Rattle.widl_overload.specs.OperationsAlone.{HasOperationsAlone};
ghost use Rattle.widl_text.specs.Limits.{most_file_bytes};

use std::alloc::Global;
use std::mem::{self, ManuallyDrop};
use std::process::Abort;
use widl_front::{Verdict, judge_one};
use widl_lines::{ScriptFault, ScriptPlace};
use widl_overload::{Accepted, has_operations_alone};
use widl_script::read_script;
use widl_text::limits::MOST_FILE_BYTES;

mod fitting;
mod invoked;
mod long;

/// The first rule that a script breaks; none where it breaks none.
fn first_break(
    rt: &impl Abort,
    alloc: Global,
    list: &Accepted,
    script: &[u8],
) -> Option<ScriptPlace>
    requires short { length script.now ≤ most_file_bytes }
    requires rules { HasOperationsAlone (defs_term list.now.defs) }
{
    match read_script(alloc, script, list) {
        Ok(read) => {
            mem::forget(read);
            None
        }
        Err(ScriptFault::Refused(place)) => Some(place),
        Err(ScriptFault::Memory) => panic!(rt; "memory"),
    }
}

/// Reads a script over an accepted set, and compares the identifier of the first rule that it breaks, its line and its column with
/// a text; `read` where it breaks none.
pub fn expect_break(rt: &impl Abort, alloc: Global, list: &Accepted, script: &[u8], text: &str) {
    assert!(rt; script.len() <= MOST_FILE_BYTES);
    assert!(rt; has_operations_alone(list));
    match first_break(rt, alloc, list, script) {
        None => assert!(rt; text == "read", "{text}"),
        Some(place) => {
            let found = format!(in alloc; "S{} {} {}", place.rule, place.line, place.column).expect(
                rt, "memory",
            );
            assert!(rt; found.as_str() == text, "{text}");
        }
    }
}

/// The set of one file, which is accepted. It is left to the end of the tests.
pub fn accepted_set(rt: &impl Abort, alloc: Global, file: &[u8]) -> ManuallyDrop<Accepted> {
    assert!(rt; file.len() <= MOST_FILE_BYTES);
    match judge_one(alloc, file) {
        Ok(Verdict::Accepted(list)) => ManuallyDrop::new(list),
        _ => panic!(rt; "the set is accepted"),
    }
}

/// Reads scripts over the set of one file.
pub fn expect_breaks(rt: &impl Abort, alloc: Global, file: &str, rows: &[(&str, &str)]) {
    let list = accepted_set(rt, alloc, file.as_bytes());
    for (script, text) in rows {
        expect_break(rt, alloc, &list, script.as_bytes(), text);
    }
}
