//! Actions that take units.

use crate::due::Body;
use crate::ends::JobEnd;
use widl_steps::New;
use widl_trace::{Code, Event};
use widl_value::ObjRef;

/// What a unit is paid for.
#[derive(Drop)]
pub enum Unit {
    /// The statement at this place.
    Statement(u32),
    /// A new symbol.
    Symbol,
    /// A new ordinary object with this prototype.
    Object(Option<ObjRef>),
    /// The function of this number.
    Function(u32),
    /// What a conversation asks it for.
    Asked,
    /// What a conversation asks for, or an array of the script.
    New(New),
    /// A TypeError with this code.
    Fail(Code),
}

/// What comes after a line. The line's event keeps what it shows.
#[derive(Drop)]
pub enum AfterLine {
    /// Nothing.
    Shown,
    /// The call of the line enters its body.
    Enters(Body),
    /// What is constructed isn't there yet.
    Constructs,
    /// The property of the line is read.
    Gets,
    /// The keys of the line's object are listed.
    Keys,
    /// The own property of the line is looked at.
    Own,
    /// The call that the line ends leaves its context.
    Leaves,
    /// The object of the line is thrown.
    Throws,
    /// The script ends so.
    Ends(Box<JobEnd>),
    /// The script ends with the thrown value of the line.
    EndsThrown,
}

/// An action that takes units, with what is kept for what comes after it.
#[derive(Drop)]
pub enum Charge {
    /// One unit.
    Unit(Unit),
    /// The units of a line, which is written.
    Line {
        /// The event of the line.
        event: Event,
        /// What comes after it.
        then: AfterLine,
    },
}
