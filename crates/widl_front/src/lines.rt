//! The lines of refusals, without their line feeds.

ghost use Rattle.std.specs.Prelude.{◌≡◌, IfOk, Some};
ghost use Rattle.widl_front.specs.Findings.{finding_line, rule_of, place_of};
ghost use Rattle.widl_front.specs.Verdicts.{refusal_line, rule_prefix, rule_number, with_other};

use crate::finding::Finding;
use itoa::Buffer;
use std::alloc::{AllocError, Global};
use widl_idl::Refusal;
use widl_text::Place;

/// The line `refused RULE FILE OFFSET` of a finding, without its line feed.
///
/// # Errors
///
/// `AllocError` where there is no memory.
#[tactic(auto, unfolding(crate::specs::Findings::finding_line))]
pub fn line_of_finding(alloc: Global, finding: Finding) -> Result<Vec<u8>, AllocError>
    ensures { IfOk result (λ line. line.items ≡ finding_line finding) }
{
    let place = place_of(finding);
    let mut file = Buffer::new();
    let mut at = Buffer::new();
    let mut bytes = Vec::from_slice(alloc, b"refused ")?;
    bytes.extend_from_slice(rule_of(finding))?;
    bytes.extend_from_slice(b" ")?;
    bytes.extend_from_slice(file.format(place.file).as_bytes())?;
    bytes.extend_from_slice(b" ")?;
    bytes.extend_from_slice(at.format(place.at).as_bytes())?;
    Ok(bytes)
}

/// The word that stands for the rule of a finding.
fn rule_of(finding: Finding) -> &'static [u8]
    ensures { result.now ≡ rule_of finding }
{
    match finding {
        Finding::Encoding(_) => b"utf8",
        Finding::Syntax(_) => b"syntax",
        Finding::Deep(_) => b"deep",
    }
}

/// The place of a finding.
fn place_of(finding: Finding) -> Place
    ensures { result ≡ place_of finding }
{
    match finding {
        Finding::Encoding(place) | Finding::Syntax(place) | Finding::Deep(place) => place,
    }
}

/// The line `refused RULE FILE OFFSET` of a broken rule, without its line feed, and ` other FILE OFFSET`
/// after it where the rule speaks of another place. The rules of the profile are `X1`, `X2` and so on.
///
/// # Errors
///
/// `AllocError` where there is no memory.
#[tactic(auto, unfolding(crate::specs::Verdicts::refusal_line))]
pub fn line_of_refusal(alloc: Global, refusal: Refusal) -> Result<Vec<u8>, AllocError>
    ensures { IfOk result (λ line. line.items ≡ refusal_line refusal) }
{
    let mut rule = Buffer::new();
    let mut file = Buffer::new();
    let mut at = Buffer::new();
    let mut bytes = Vec::from_slice(alloc, b"refused ")?;
    bytes.extend_from_slice(rule_prefix(refusal.rule))?;
    bytes.extend_from_slice(rule.format(rule_number(refusal.rule)).as_bytes())?;
    bytes.extend_from_slice(b" ")?;
    bytes.extend_from_slice(file.format(refusal.at.file).as_bytes())?;
    bytes.extend_from_slice(b" ")?;
    bytes.extend_from_slice(at.format(refusal.at.at).as_bytes())?;
    with_other(bytes, refusal.other)
}

/// A line with the other place after it, if there is one.
///
/// # Errors
///
/// `AllocError` where there is no memory.
fn with_other(line: Vec<u8>, other: Option<Place>) -> Result<Vec<u8>, AllocError>
    ensures { IfOk result (λ whole. whole.items ≡ with_other line.items other) }
{
    match other {
        None => Ok(line),
        Some(place) => add_other(line, place),
    }
}

/// A line with the other place after it.
///
/// # Errors
///
/// `AllocError` where there is no memory.
fn add_other(line: Vec<u8>, place: Place) -> Result<Vec<u8>, AllocError>
    ensures { IfOk result (λ whole. whole.items ≡ with_other line.items (Some place)) }
{
    let mut file = Buffer::new();
    let mut at = Buffer::new();
    let mut bytes = line;
    bytes.extend_from_slice(b" other ")?;
    bytes.extend_from_slice(file.format(place.file).as_bytes())?;
    bytes.extend_from_slice(b" ")?;
    bytes.extend_from_slice(at.format(place.at).as_bytes())?;
    Ok(bytes)
}

/// What stands before a rule's number: `X` for the rules of the profile, which count from 101 on.
fn rule_prefix(number: u8) -> &'static [u8]
    ensures { result.now ≡ rule_prefix number }
{
    if number > 100 { b"X" } else { b"" }
}

/// The number of a rule among its kind: the rules of the profile count from 101 on.
fn rule_number(number: u8) -> u8
    ensures { result ≡ rule_number number }
{
    if number > 100 { number - 100 } else { number }
}
