//! What the arguments of a command line ask for.

ghost use Rattle.std.specs.Prelude.{◌≡◌};
ghost use Rattle.widl_top.specs.Requests.{first_fragment, first_name};

/// What the arguments of a command line ask for, by their form.
#[derive(Clone, Copy, Debug, PartialEq, Eq)]
pub enum Request {
    /// `--help`: the help text.
    Help,
    /// `--version`: the version.
    Version,
    /// A command, then the names of files.
    OverFiles(Command),
}

/// A command over files.
#[derive(Clone, Copy, Debug, PartialEq, Eq)]
pub enum Command {
    /// `check`, then 1 to 64 file names: whether the files are a valid set of fragments.
    Check,
    /// `sets`, then 1 to 64 file names: the effective overload sets of the files.
    Sets,
    /// `run BUDGET SCRIPT FILE..`, with 1 to 64 files: a run of the script over the files, with a budget in units.
    Run(u64),
}

impl Command {
    /// The place of the first file's name among the arguments.
    pub fn first_name(self) -> usize
        ensures { result ≡ first_name self }
    {
        match self {
            Command::Check | Command::Sets => 1,
            Command::Run(_) => 2,
        }
    }

    /// The place of the first fragment's name among the arguments.
    pub fn first_fragment(self) -> usize
        ensures { result ≡ first_fragment self }
    {
        match self {
            Command::Check | Command::Sets => 1,
            Command::Run(_) => 3,
        }
    }
}
