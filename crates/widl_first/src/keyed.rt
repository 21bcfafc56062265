//! Things that have keys.

ghost use Rattle.std.specs.Prelude.{◌≡◌};
ghost use Rattle.widl_first.specs.Keys.{first_of};

/// What has a key: a list of numbers, which are compared one after another.
pub trait Keyed: Copy {
    ghost use Rattle.std.specs.Prelude.{◌≡◌, ℕ, List};
    ghost use Rattle.widl_first.specs.Keys.{precedes};

    ghost key: { Self → List ℕ };

    /// Whether the key is before the other one.
    fn precedes(self, other: Self) -> bool
        ensures { result ≡ precedes key self other };
}

/// The first of two: where both are there the former, unless the latter is before it.
pub fn first_of<P: Keyed>(a: Option<P>, b: Option<P>) -> Option<P>
    ensures { result ≡ first_of P.key a b }
{
    match (a, b) {
        (None, b) => b,
        (Some(p), None) => Some(p),
        (Some(p), Some(q)) => { if q.precedes(p) { Some(q) } else { Some(p) } }
    }
}
