//! The trace of a run: its events, the codes of its errors, and the line of each event. It stands on the
//! texts, definitions and values of the crates below and on the sinks of `widl_sink`, whose names it
//! passes on, so that whoever writes a trace needs this crate alone.
#![tactic(auto)]

mod callee_text;
mod code;
mod cut;
mod draft;
mod event;
mod event_line;
mod idl_value_text;
mod laws;
mod unfinished;
mod value_text;
mod whole;

pub use callee_text::{constructor_text, operation_text};
pub use code::Code;
pub use event::Event;
pub use event_line::{line, line_within};
pub use laws::{line_has_64_bytes_a_unit, stop_line_has_64_bytes};
pub use widl_sink::{
    Line, MemorySink, Numbers, Sink, StdoutSink, SureSink, WriteFailed, Writer, cost, write_all,
};
