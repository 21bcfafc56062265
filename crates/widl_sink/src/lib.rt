//! The lines of a trace, what they cost, and the sinks that they are written to. It stands on nothing
//! of this repository. The one contract that the crates above use: after a [`Writer::flush`] that
//! answered `Ok` the bytes that the sink holds have grown by exactly the lines that were emitted, and
//! a call that failed is tied to the count of the sink's faults.
#![tactic(auto)]

mod line;
mod memory_sink;
mod numbers;
mod sink;
mod stdout_sink;
mod sure_sink;
mod writer;

pub use line::{Line, cost};
pub use memory_sink::MemorySink;
pub use numbers::Numbers;
pub use sink::{Sink, WriteFailed};
pub use stdout_sink::StdoutSink;
pub use sure_sink::SureSink;
pub use writer::{Writer, keeps_few, write_all};
