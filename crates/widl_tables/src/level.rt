//! Levels: the dictionaries of a line of inheritance that declare members of their own.

ghost use Rattle.std.specs.Prelude.{◌≡◌, List, map, IfOk};
ghost use Rattle.widl_idl.specs.DefinitionTerms.{DictTerm, dict_term};
ghost use Rattle.widl_tables.specs.Levels.{declares, further, level_of};
ghost use Rattle.widl_tables.specs.MemberOrder.{parent_in};
ghost use Rattle.widl_tables.specs.MemberTables.{AreKnown};

use std::alloc::{AllocError, Global};
use widl_idl::Dict;

/// The nearest dictionary of a line that declares a member: a dictionary itself, or one from which it
/// inherits (Web IDL, "inherited dictionaries").
#[derive(Clone, Copy, Debug, PartialEq, Eq)]
pub struct Level {
    /// Its number.
    pub dictionary: u32,
    /// How many dictionaries of the line come before it.
    pub links: usize,
}

/// What is known of a dictionary's level.
#[derive(Clone, Copy)]
pub(crate) enum Known {
    /// Nothing yet.
    Not,
    /// The level, where it has one.
    Level(Option<Level>),
}

/// The levels of so many dictionaries, of which nothing is known yet.
///
/// # Errors
///
/// `AllocError` where there is no memory.
pub(crate) fn unknown(alloc: Global, count: usize) -> Result<Vec<Known>, AllocError>
    ensures { IfOk result (λ known. (dicts : List DictTerm) → AreKnown dicts known.items) }
{
    let mut known = Vec::new(alloc);
    for _n in 0..count {
        known.push(Known::Not)?;
    }
    Ok(known)
}

/// Finds the level of a dictionary, and of those of its line up to the level, of which it wasn't known.
///
/// # Errors
///
/// `AllocError` where there is no memory.
pub(crate) fn learn(
    alloc: Global,
    dicts: &[Dict],
    known: &mut Vec<Known>,
    dictionary: u32,
) -> Result<(), AllocError>
    requires { AreKnown (map dict_term dicts.now) known.old.items }
    ensures { AreKnown (map dict_term dicts.now) known.new.items }
{
    let mut line = unknown_line(alloc, dicts, known, dictionary)?;
    while let Some(number) = line.pop() {
        let level = level_in(dicts, known, number);
        if let Some(entry) = known.get_mut(number as usize) {
            *entry = Known::Level(level);
        }
    }
    Ok(())
}

/// The dictionaries of a line before the first that declares a member or whose level is known: the
/// levels of these are that of the next one, so the last of them is to be found first.
fn unknown_line(
    alloc: Global,
    dicts: &[Dict],
    known: &[Known],
    dictionary: u32,
) -> Result<Vec<u32>, AllocError> {
    let mut line = Vec::new(alloc);
    let mut at = Some(dictionary);
    for _link in 0..dicts.len() {
        let Some(number) = at else {
            break;
        };
        if is_known(known, number) || declares(dicts, number) {
            break;
        }
        line.push(number)?;
        at = parent_of(dicts, number);
    }
    Ok(line)
}

fn is_known(known: &[Known], dictionary: u32) -> bool {
    matches!(known.get(dictionary as usize), Some(Known::Level(_)))
}

/// The level of a dictionary, from that of its parent.
pub(crate) fn level_in(dicts: &[Dict], known: &[Known], dictionary: u32) -> Option<Level>
    requires { AreKnown (map dict_term dicts.now) known.now }
    ensures { result ≡ level_of (map dict_term dicts.now) dictionary }
{
    if declares(dicts, dictionary) {
        return Some(Level {
            dictionary,
            links: 0,
        });
    }
    match parent_of(dicts, dictionary) {
        None => None,
        Some(parent) => further(dicts.len(), known_level(dicts, known, parent)),
    }
}

/// The level of a dictionary that comes one link further than a level.
fn further(count: usize, level: Option<Level>) -> Option<Level>
    ensures { result ≡ further count level }
{
    match level {
        None => None,
        Some(level) => if level.links < count.saturating_sub(1) {
            Some(Level {
                dictionary: level.dictionary,
                links: level.links + 1,
            })
        } else {
            None
        },
    }
}

/// The level of a dictionary, where it is known; else the line is walked.
fn known_level(dicts: &[Dict], known: &[Known], dictionary: u32) -> Option<Level>
    requires { AreKnown (map dict_term dicts.now) known.now }
    ensures { result ≡ level_of (map dict_term dicts.now) dictionary }
{
    match known.get(dictionary as usize) {
        Some(Known::Level(level)) => *level,
        _ => walked_level(dicts, dictionary),
    }
}

/// The level of a dictionary, by a walk along its line.
fn walked_level(dicts: &[Dict], dictionary: u32) -> Option<Level>
    ensures { result ≡ level_of (map dict_term dicts.now) dictionary }
{
    let mut at = Some(dictionary);
    for links in 0..dicts.len() {
        match at {
            None => return None,
            Some(number) => {
                if declares(dicts, number) {
                    return Some(Level {
                        dictionary: number,
                        links,
                    });
                }
                at = parent_of(dicts, number);
            }
        }
    }
    None
}

/// Whether a dictionary declares a member.
fn declares(dicts: &[Dict], dictionary: u32) -> bool
    ensures { result ≡ declares (map dict_term dicts.now) dictionary }
{
    match dicts.get(dictionary as usize) {
        None => false,
        Some(dict) => dict.members.len() > 0,
    }
}

/// The dictionary from which one inherits directly (Web IDL, "Dictionaries"); none where it isn't there.
pub fn parent_of(dicts: &[Dict], dictionary: u32) -> Option<u32>
    ensures { result ≡ parent_in (map dict_term dicts.now) dictionary }
{
    match dicts.get(dictionary as usize) {
        None => None,
        Some(dict) => dict.parent,
    }
}
