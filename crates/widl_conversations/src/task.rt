//! What rows do.

/// What rows do: what their first field says, and what they are given.
#[derive(Clone, Copy)]
pub enum Task {
    /// They convert a value to a type.
    Conversions,
    /// `N TYPE`: they begin N conversions of a value to a type, and go on with none before each of them waits.
    Many,
    /// They convert a value to a `Number`, a `String` or a `length`.
    Scalars,
    /// They convert an IDL value of a type to a value of the script.
    Results,
    /// They choose an overload of those with these lists of arguments, which have semicolons between, and convert
    /// the arguments of a call.
    Resolutions,
    /// They do so for this callee, where a namespace has the operation `undefined f(long... a)` alone.
    Callees,
    /// They call the first of these operations with arguments. Steps between braces behind the operations are
    /// those of its first overload, or of that of a number, which is written with `#` before them.
    Operations,
    /// They call the function of this number, which is there before a script begins, or that of a callee, on a value of
    /// `this` and without arguments.
    Functions,
}

impl Task {
    /// The task of a name.
    pub fn named(name: &str) -> Option<Task> {
        match name {
            "conversions" => Some(Task::Conversions),
            "many" => Some(Task::Many),
            "scalars" => Some(Task::Scalars),
            "results" => Some(Task::Results),
            "resolutions" => Some(Task::Resolutions),
            "callees" => Some(Task::Callees),
            "operations" => Some(Task::Operations),
            "functions" => Some(Task::Functions),
            _ => None,
        }
    }
}

/// The number and the type of many conversions.
pub fn many_of(of: &str) -> (&str, &str) {
    of.split_once(' ').unwrap_or(("", of))
}

/// Operations, and the steps behind them.
pub fn with_steps(of: &str) -> (&str, Option<&str>) {
    match of.split_once(" { ") {
        Some((operations, steps)) => (operations, Some(steps.trim_end_matches(" }"))),
        None => (of, None),
    }
}
