//! The texts of `--help` and `--version`.

/// The help text, without its last line feed: each form of the command line with an example, what is served, and the statuses.
pub const HELP: &[u8] =
    b"widl reads Web IDL files and a call script, and writes the trace of the calls.

  widl check FILE..              checks whether 1 to 64 fragments are a valid set, or names the first fault
                                 widl check event_target.idl url.idl
  widl sets FILE..               writes the effective overload sets of 1 to 64 fragments
                                 widl sets url.idl
  widl run BUDGET SCRIPT FILE..  runs a script over 1 to 64 fragments; BUDGET is 1 to 2000000 units
                                 widl run 100000 calls.txt chart.idl
  widl --help                    writes this text
  widl --version                 writes the version

run serves sets that have only dictionaries, enumerations and namespaces with operations alone, of all types
but promises, interfaces and callbacks. Any other set is refused as `later`. Of the functions that a script finds
toString and join of arrays aren't built: a call of one ends the run with `stop profile 99`.

status 0 done, 1 out of memory, 2 usage, 3 fragments refused, 4 script refused,
5 read fault, 6 missing file, 7 file too long, 8 write fault, 9 stopped, 10 uncaught exception";

/// The version, without its line feed.
pub const VERSION: &[u8] = b"widl 0.1.0";
