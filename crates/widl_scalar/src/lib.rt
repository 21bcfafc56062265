//! The conversions of numbers and texts that take one step and ask nothing of a script. It stands on
//! `widl_text`, `widl_idl` and `widl_value`. The one contract that the crates above use: each
//! conversion is its definition in `specs/`.
#![tactic(auto)]

mod decimal_scale;
mod enumerations;
mod int;
mod number_to_text;
mod numeral_parts;
mod numerals;
mod primitives;
mod shortest_digits;
mod unit_texts;
mod white_space;

pub use enumerations::{enum_at, place_of_text_is_first};
pub use int::{NotInRange, to_int};
pub use number_to_text::{number_text, number_text_of_is_its_text};
pub use numerals::{Read, number_of, read_of_reads};
pub use primitives::{
    ValueNumber, ValueText, length_of_number, number_in_value, text_in_value, truth,
};
pub use unit_texts::{is_byte_text, scalar_text};
