//! Distinguishable types and effective overload sets.

mod apart;
mod sets;
