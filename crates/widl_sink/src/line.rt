//! Lines of a trace and their cost.

ghost use Rattle.std.specs.Prelude.{◌≡◌, ℕ, List};
ghost use Rattle.widl_sink.specs.Lines.{line_cost};

use std::marker::Model;

/// The bytes of a line, without the line feed that ends it.
#[derive(Drop)]
pub struct Line {
    bytes: Vec<u8>,
}

impl Model for Line {
    ghost Value = { List ℕ };

    ghost view = { λ l. l.bytes.items };
}

impl Line {
    /// The line that has these bytes.
    pub fn new(bytes: Vec<u8>) -> Line
        ensures { result ≡ bytes.items }
    {
        Line { bytes }
    }

    /// The bytes of the line.
    pub fn bytes(&self) -> &[u8]
        ensures { result.now ≡ self.now }
    {
        &self.bytes
    }
}

/// The units of a budget that a line takes: one, and one more for each 64 whole bytes.
pub fn cost(line: &Line) -> u64
    ensures { result ≡ line_cost line.now }
{
    1 + line.bytes().len() as u64 / 64
}
