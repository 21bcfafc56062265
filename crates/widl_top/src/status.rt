//! How a call ends.

ghost use Rattle.std.specs.Prelude.{◌≡◌};
ghost use Rattle.widl_top.specs.Statuses.{number_of};

/// How a call of the program ended; its number is the exit status.
#[derive(Clone, Copy, Debug, PartialEq, Eq)]
pub enum Status {
    /// 0: all was done.
    Done,
    /// 1: there was no memory.
    Memory,
    /// 2: the arguments have no known form.
    Usage,
    /// 3: the set of fragments was refused.
    Refused,
    /// 4: the script was refused.
    ScriptRefused,
    /// 5: a file could not be read.
    ReadFault,
    /// 6: a file is not there.
    Missing,
    /// 7: a file is too long.
    TooLong,
    /// 8: the output could not be written.
    WriteFault,
    /// 9: the run was stopped.
    Stopped,
    /// 10: the script ended with an uncaught exception.
    Uncaught,
}

impl Status {
    /// The number of the status.
    pub fn number(self) -> u8
        ensures { result ≡ number_of self }
    {
        self as u8
    }
}
