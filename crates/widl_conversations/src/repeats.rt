//! Texts with parts that stand many times.

use crate::fault::Fault;
use std::alloc::Global;

/// A part of a text that stands many times.
#[derive(Clone, Copy)]
struct Repeat<'a> {
    before: &'a str,
    count: &'a str,
    part: &'a str,
    after: &'a str,
}

/// The first part that ends, and so one without another in it.
fn first_repeat(text: &str) -> Option<Repeat<'_>> {
    let (start, after) = text.split_once(")%")?;
    let (before, inside) = start.rsplit_once("%(")?;
    let (count, part) = inside.split_once(' ')?;
    Some(Repeat {
        before,
        count,
        part,
        after,
    })
}

/// Adds the part with the number of its time in the place of each `$`.
fn push_numbered(text: &mut String, part: &str, number: u32) -> Result<(), Fault> {
    for (place, piece) in part.split('$').enumerate() {
        if place > 0 {
            write!(text, "{number}")?;
        }
        text.push_str(piece)?;
    }
    Ok(())
}

/// The text with the part as many times as is said.
fn repeated(alloc: Global, repeat: &Repeat<'_>) -> Result<String, Fault> {
    let mut text = String::from_str(alloc, repeat.before)?;
    for number in 0..repeat.count.parse::<u32>()? {
        push_numbered(&mut text, repeat.part, number)?;
    }
    text.push_str(repeat.after)?;
    Ok(text)
}

/// The text in which each `%(N PART)%` stands for N times PART, those inside of others first; `$` stands for the
/// number of the time, from 0.
pub fn expanded(alloc: Global, text: &str) -> Result<String, Fault> {
    let mut whole = String::from_str(alloc, text)?;
    // each time there is an end of a part less
    for _ in text.split(")%") {
        let next = match first_repeat(whole.as_str()) {
            Some(repeat) => repeated(alloc, &repeat)?,
            None => return Ok(whole),
        };
        whole = next;
    }
    Err(Fault::Line("a part that stands many times makes another one"))
}
