//! Texts that are made of many parts.

ghost use Rattle.std.specs.Prelude.{◌≤◌};

use std::alloc::Global;
use std::process::Abort;

/// A fragment, a script or an output: texts, each of which comes so many times. What stands between two backquotes stands for
/// what depends on the number of the time, from 0 on: `n` for this number, `m` for the next one, `A+B` and `A-B` for A and B times
/// the number more or less, `any A+B` for as many more arguments, and `a` and `A` for a name of three bytes, the first of which is
/// a small or a capital letter.
pub type Parts = &'static [(&'static str, usize)];

/// Appends a text.
fn add(rt: &impl Abort, text: &mut Vec<u8>, part: &str) {
    text.extend_from_slice(part.as_bytes()).expect(rt, "memory");
}

/// The number that a text is.
fn number_of(text: &str) -> usize {
    match text.parse::<usize>() {
        Ok(number) => number,
        Err(_) => 0,
    }
}

/// The number that a formula stands for in the time of this number.
fn value_at(formula: &str, time: usize) -> usize {
    if formula == "n" {
        return time;
    }
    if let Some((from, step)) = formula.split_once('-') {
        return number_of(from).saturating_sub(number_of(step).saturating_mul(time));
    }
    let (from, step) = formula.split_once('+').unwrap_or(("1", "1"));
    number_of(from).saturating_add(number_of(step).saturating_mul(time))
}

/// Appends a number.
fn add_number(rt: &impl Abort, alloc: Global, text: &mut Vec<u8>, number: usize) {
    let digits = format!(in alloc; "{number}").expect(rt, "memory");
    add(rt, text, digits.as_str());
}

/// Appends so many more arguments.
fn add_arguments(rt: &impl Abort, alloc: Global, text: &mut Vec<u8>, count: usize) {
    for number in 0..count {
        add(rt, text, ", any a");
        add_number(rt, alloc, text, number);
    }
}

/// The second and the third bytes of names. No keyword of three letters has one of the first as its second.
const SECOND: &[u8] = b"0123456789ABCDEFGHIJKLMNOPQRSTUVWXYZbcdfghijklmopqstuvwxyz";

const THIRD: &[u8] = b"0123456789ABCDEFGHIJKLMNOPQRSTUVWXYZabcdefghijklmnopqrstuvwxyz";

/// Appends the name of this number, of three bytes: the first is one of 26 letters from the given one on.
fn add_name(rt: &impl Abort, text: &mut Vec<u8>, first: u8, number: usize)
    requires { first ≤ 97 }
{
    assert!(rt; number < 70_000);
    let letter = number / (SECOND.len() * THIRD.len());
    text.push(first + letter as u8).expect(rt, "memory");
    text.push(SECOND[number / THIRD.len() % SECOND.len()])
        .expect(rt, "memory");
    text.push(THIRD[number % THIRD.len()]).expect(rt, "memory");
}

/// Appends what a formula stands for in the time of this number.
fn add_formula(rt: &impl Abort, alloc: Global, text: &mut Vec<u8>, formula: &str, time: usize) {
    if let Some(count) = formula.strip_prefix("any ") {
        return add_arguments(rt, alloc, text, value_at(count, time));
    }
    match formula {
        "a" => add_name(rt, text, b'a', time),
        "A" => add_name(rt, text, b'A', time),
        _ => add_number(rt, alloc, text, value_at(formula, time)),
    }
}

/// Appends a part in the time of this number.
fn add_part(rt: &impl Abort, alloc: Global, text: &mut Vec<u8>, part: &str, time: usize) {
    for (place, piece) in part.split('`').enumerate() {
        if place % 2 == 0 {
            add(rt, text, piece);
        } else {
            add_formula(rt, alloc, text, piece, time);
        }
    }
}

/// The bytes of a fragment, a script or an output.
pub fn made(rt: &impl Abort, alloc: Global, parts: Parts) -> Vec<u8> {
    let mut text = Vec::new(alloc);
    for (part, times) in parts {
        for time in 0..*times {
            add_part(rt, alloc, &mut text, part, time);
        }
    }
    text
}
