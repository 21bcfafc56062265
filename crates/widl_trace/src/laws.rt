//! How long lines are for what they cost.

ghost use Rattle.std.specs.Prelude.{ℕ, ◌*◌, ◌≤◌, List, length};
ghost use Rattle.widl_idl.specs.DefinitionTerms as list;
ghost use Rattle.widl_sink.specs.Lines.{ended, line_cost};
ghost use Rattle.widl_trace.specs.EventLines.{line_of};
ghost use Rattle.widl_trace.specs.EventTerms.{EventTerm, IsStop};

/// For each unit of its cost a line has at most 64 bytes, its line feed among them.
pub fn line_has_64_bytes_a_unit()
    ensures { (line : List ℕ) → length (ended line) ≤ 64 * line_cost line }
{}

/// The line of a stop, which costs nothing, has at most 64 bytes with its line feed.
pub fn stop_line_has_64_bytes()
    ensures { (defs : list.DefsTerm) (event : EventTerm) → IsStop event → length (ended (line_of defs event)) ≤ 64 }
{}
