//! Open blocks.

use crate::functions::FunctionHead;
use crate::nodes::Nodes;
use std::alloc::Global;
use widl_script_tree::{LocalNames, Row, StepLines, Target};

/// What an open block is, and what is known of it.
#[derive(Drop)]
pub(crate) enum OpenBlock {
    /// `try`, before its `catch`.
    Try,
    /// The lines after a `catch`.
    Catch {
        /// The statements that are tried.
        body: Row,
        /// The number of the name.
        name: u32,
    },
    /// `if`, before its `else`.
    Then {
        /// The place of the first expression.
        left: u32,
        /// The place of the second expression.
        right: u32,
    },
    /// The lines after an `else`.
    Else {
        /// The place of the first expression.
        left: u32,
        /// The place of the second expression.
        right: u32,
        /// The statements before the `else`.
        then: Row,
    },
    /// The body of a function.
    Function {
        /// What its first line says.
        head: FunctionHead,
        /// The names that are bound outside it.
        outer: LocalNames,
    },
    /// A steps block.
    Steps {
        /// What it is for.
        target: Target,
        /// Its lines so far.
        lines: StepLines,
    },
}

/// An open block, and the statements before it in the list that it stands in. A steps block has none: what
/// stands in it goes on in the list outside it.
#[derive(Drop)]
pub(crate) struct Frame {
    pub(crate) block: OpenBlock,
    /// The places of the statements before it.
    pub(crate) before: Vec<u32>,
}

/// The tables of the lines so far, and the blocks that are open.
#[derive(Drop)]
pub(crate) struct Builder {
    pub(crate) nodes: Nodes,
    /// The open blocks, the innermost last.
    pub(crate) frames: Vec<Frame>,
    /// The places of the statements so far in the innermost list.
    pub(crate) places: Vec<u32>,
    /// The names that the innermost function has bound.
    pub(crate) names: LocalNames,
}

impl Builder {
    ghost use Rattle.std.specs.Prelude.{◌≡◌, []};
    ghost use Rattle.widl_script_tree.specs.Puts.{no_tables};

    /// No line.
    pub(crate) fn new(alloc: Global) -> Builder
        ensures nodes { result.nodes ≡ no_tables }
        ensures frames { result.frames.items ≡ [] }
        ensures places { result.places.items ≡ [] }
        ensures names { result.names ≡ [] }
    {
        Builder {
            nodes: Nodes::new(alloc),
            frames: Vec::new(alloc),
            places: Vec::new(alloc),
            names: LocalNames::new(alloc),
        }
    }
}
