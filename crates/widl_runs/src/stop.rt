//! Stops.

/// What stops a run before its script has ended; no script can catch it.
#[derive(Clone, Copy, Debug, PartialEq, Eq)]
pub enum Stop {
    /// Fewer units of the budget were left than a step takes.
    Budget,
    /// As many calls were open as may be.
    Depth,
    /// The script asked for something that this program doesn't run, by its number.
    Profile(u8),
}
