//! The keys of objects that have few properties.

ghost use Rattle.std.specs.Prelude.{◌≡◌, IfOk, bytes_eq};
ghost use Rattle.widl_store.specs.Objects.{same_key};
ghost use Rattle.widl_store.specs.Labels.{key_of};

use std::alloc::{AllocError, Global};
use std::marker::Model;
use widl_text::{Key, Units};

/// The units of `length`.
const LENGTH: [u16; 6] = [0x6C, 0x65, 0x6E, 0x67, 0x74, 0x68];

/// The units of `name`.
const NAME: [u16; 4] = [0x6E, 0x61, 0x6D, 0x65];

/// A key, without units where it is one that each function has.
#[derive(Drop)]
pub(crate) enum Short {
    /// `length`.
    Length,
    /// `name`.
    Name,
    /// A text, whose units stand apart so that a label is small.
    Text(Box<Units>),
    /// The symbol of this number.
    Sym(u32),
}

/// A key, which takes no memory of its own where it is `length` or `name`.
#[derive(Drop)]
pub(crate) struct Label {
    short: Short,
}

impl Model for Label {
    ghost use Rattle.widl_store.specs.Labels.{key_of};
    ghost use Rattle.widl_text.specs.declared.key.Key.{Key as KeyTerm};

    ghost Value = { KeyTerm };

    ghost view = { λ l. key_of l.short };
}

impl Label {
    /// The label of the key.
    ///
    /// # Errors
    ///
    /// `AllocError` where there is no memory.
    pub(crate) fn new(alloc: Global, key: Key) -> Result<Label, AllocError>
        ensures { IfOk result (λ label. label ≡ key) }
    {
        match key {
            Key::Sym(id) => Ok(Label {
                short: Short::Sym(id),
            }),
            Key::Name(units) => named(alloc, units),
        }
    }

    /// Whether it is the label of the key.
    pub(crate) fn is(&self, key: &Key) -> bool
        ensures { result ≡ same_key key.now self.now }
    {
        match key {
            Key::Sym(id) => is_sym(&self.short, *id),
            Key::Name(units) => is_named(&self.short, units),
        }
    }

    /// The key.
    ///
    /// # Errors
    ///
    /// `AllocError` where there is no memory.
    pub(crate) fn key(&self, alloc: Global) -> Result<Key, AllocError>
        ensures { IfOk result (λ key. key ≡ self.now) }
    {
        match &self.short {
            Short::Length => Ok(Key::Name(units_of(alloc, &LENGTH)?)),
            Short::Name => Ok(Key::Name(units_of(alloc, &NAME)?)),
            Short::Text(units) => Ok(Key::Name(units.copy()?)),
            Short::Sym(id) => Ok(Key::Sym(*id)),
        }
    }
}

/// The label of a text.
fn named(alloc: Global, units: Units) -> Result<Label, AllocError>
    ensures { IfOk result (λ label. label ≡ Key.Name units) }
{
    let short = if is_text(&units, &LENGTH) {
        Short::Length
    } else if is_text(&units, &NAME) {
        Short::Name
    } else {
        Short::Text(Box::new(alloc, units)?)
    };
    Ok(Label { short })
}

fn is_sym(short: &Short, id: u32) -> bool
    ensures { result ≡ same_key (Key.Sym id) (key_of short.now) }
{
    match short {
        Short::Sym(own) => id == *own,
        Short::Length | Short::Name | Short::Text(_) => false,
    }
}

fn is_named(short: &Short, units: &Units) -> bool
    ensures { result ≡ same_key (Key.Name units.now) (key_of short.now) }
{
    match short {
        Short::Length => is_text(units, &LENGTH),
        Short::Name => is_text(units, &NAME),
        Short::Text(own) => is_text(units, own.as_slice()),
        Short::Sym(_) => false,
    }
}

/// Whether these are the units.
fn is_text(units: &Units, text: &[u16]) -> bool
    ensures { result ≡ bytes_eq units.now text.now }
{
    units.as_slice() == text
}

fn units_of(alloc: Global, text: &[u16]) -> Result<Units, AllocError>
    ensures { IfOk result (λ units. units ≡ text.now) }
{
    let mut units = Units::new(alloc);
    for unit in text {
        units.push(*unit)?;
    }
    Ok(units)
}
