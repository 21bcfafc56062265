//! Steps blocks: what operations, constructors, getters, setters and stringifiers do.

use widl_idl::Literal;
use widl_text::{Items, Units};
use widl_value::Value;

/// What a step reads.
#[derive(Drop)]
pub enum Source {
    /// `arg K`: the argument of this number.
    Arg(u32),
    /// `this`.
    This,
    /// `slot A`: the slot of the attribute of this name.
    Slot(Units),
    /// `literal L`.
    Literal(Literal),
}

/// Sources in order.
pub type Sources = Items<Source>;

/// `invoke arg K (SRC, SRC)`: the call of a callback.
#[derive(Drop)]
pub struct Invoke {
    /// The number of the argument that is called.
    pub arg: u32,
    /// The arguments of the call.
    pub sources: Sources,
}

/// A line of a steps block.
#[derive(Drop)]
pub enum StepLine {
    /// `return SRC`.
    Return(Source),
    /// `return invoke arg K (SRC, SRC)`.
    ReturnInvoke(Invoke),
    /// `slot A = SRC`.
    SetSlot {
        /// The attribute's name.
        slot: Units,
        /// What it is set to.
        source: Source,
    },
    /// `append SRC SRC`.
    Append(Source, Source),
    /// `clear`.
    Clear,
    /// `throw E`.
    Throw(Value),
    /// `invoke arg K (SRC, SRC)`.
    Invoke(Invoke),
}

/// Step lines in order.
pub type StepLines = Items<StepLine>;

/// What a steps block is for, by the names of the script.
#[derive(Drop)]
pub enum Target {
    /// `N.f#K`, or `I.static f#K`.
    Operation {
        /// The name of the interface or the namespace.
        owner: Units,
        /// The operation's name.
        name: Units,
        /// Whether it is written with `static`.
        fixed: bool,
        /// The number of the overload.
        overload: u32,
    },
    /// `I.constructor#K`.
    Constructor {
        /// The interface's name.
        owner: Units,
        /// The number of the overload.
        overload: u32,
    },
    /// `I.get A`.
    Getter {
        /// The name of the interface or the namespace.
        owner: Units,
        /// The attribute's name.
        name: Units,
    },
    /// `I.set A`.
    Setter {
        /// The name of the interface or the namespace.
        owner: Units,
        /// The attribute's name.
        name: Units,
    },
    /// `I.toString`.
    Stringifier {
        /// The interface's name.
        owner: Units,
    },
}

/// A steps block.
#[derive(Drop)]
pub struct StepsBlock {
    /// What it is for.
    pub target: Target,
    /// Its lines.
    pub lines: StepLines,
}
