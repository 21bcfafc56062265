//! Values that were begun and aren't written to their end yet.

ghost use Rattle.std.specs.Prelude.{◌≡◌, ◌+◌, ◌^◌, ◌<◌, ◌++◌, IsSome, option_map, slice_get, length};
ghost use Rattle.widl_idl.specs.DefinitionTerms.{DefsTerm};
ghost use Rattle.widl_trace.specs.IdlValueTexts.{idl_value_text};
ghost use Rattle.widl_trace.specs.Unfinished.{end_text, head_text, labelled, left_or_nothing};
ghost use Rattle.widl_value.specs.IdlTerms.{idl_term};

use widl_value::{IdlEntries, IdlMembers, IdlValue, IdlValues};

/// The values in another one.
#[derive(Clone, Copy)]
pub enum Contents<'v> {
    /// Those of a sequence.
    Values(&'v IdlValues),
    /// Those of a record, with their keys.
    Entries(&'v IdlEntries),
    /// Those of a dictionary, with their names.
    Members(&'v IdlMembers),
}

/// A value with others in it, of which those from a place on are left.
#[derive(Clone, Copy)]
pub struct Unfinished<'v> {
    /// The values in it.
    pub contents: Contents<'v>,
    /// The place of the next one.
    pub place: usize,
}

impl<'v> Unfinished<'v> {
    /// A value of which all others in it are left, if it is of a type that has any.
    pub fn of(value: &'v IdlValue) -> Option<Unfinished<'v>>
        ensures whole { (defs : DefsTerm) → idl_value_text defs (idl_term value.now) ≡ head_text defs (idl_term value.now) ++ left_or_nothing defs result }
        ensures headed { (defs : DefsTerm) → IsSome result → 0 < length (head_text defs (idl_term value.now)) }
    {
        match value {
            IdlValue::List(values) => Some(Unfinished {
                contents: Contents::Values(values),
                place: 0,
            }),
            IdlValue::Entries(entries) => Some(Unfinished {
                contents: Contents::Entries(entries),
                place: 0,
            }),
            IdlValue::Dict { members, .. } => Some(Unfinished {
                contents: Contents::Members(members),
                place: 0,
            }),
            IdlValue::Undefined
            | IdlValue::Null
            | IdlValue::Missing
            | IdlValue::Bool(_)
            | IdlValue::Int(_)
            | IdlValue::Text(_)
            | IdlValue::Choice { .. }
            | IdlValue::Object(_)
            | IdlValue::Any(_)
            | IdlValue::Promise(_) => None,
        }
    }
}

impl<'v> Contents<'v> {
    /// The value at a place.
    pub fn value(self, place: usize) -> Option<&'v IdlValue>
        ensures few { IsSome result → place + 1 < 2 ^ 64 }
        ensures value { (defs : DefsTerm) → option_map (λ value. idl_term value.now) result ≡ option_map (λ item. item.1) (slice_get (labelled defs self.entry) place) }
    {
        match self {
            Contents::Values(values) => {
                if place < values.len() {
                    Some(values.at(place))
                } else {
                    None
                }
            }
            Contents::Entries(entries) => {
                if place < entries.len() {
                    Some(&entries.at(place).1)
                } else {
                    None
                }
            }
            Contents::Members(members) => {
                if place < members.len() {
                    Some(&members.at(place).2)
                } else {
                    None
                }
            }
        }
    }

    /// The sign behind them.
    pub fn end(self) -> &'static [u8]
        ensures { result.now ≡ end_text self.entry }
    {
        match self {
            Contents::Values(_) => b"]",
            Contents::Entries(_) | Contents::Members(_) => b"}",
        }
    }
}
