//! How much of a type is made.

/// How much of what a type means is made.
#[derive(Clone, Copy)]
pub enum Extent {
    /// The whole type.
    Whole,
    /// The type as far as rules on types look into it: what stands inside a sequence, a record or a promise
    /// stands as `any`.
    Outline,
}
