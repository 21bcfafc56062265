//! What is done with a set that is accepted.

/// What is done with a set that is accepted.
#[derive(Debug, Drop)]
pub enum Task {
    /// It is said to be accepted.
    Check,
    /// Its effective overload sets are written.
    Sets,
    /// A script, given by its bytes, is run over it, with a budget in units.
    Run(u64, Vec<u8>),
}
