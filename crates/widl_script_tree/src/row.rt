//! Rows of nodes.

ghost use Rattle.std.specs.Prelude.{◌≡◌, ◌<◌};
ghost use Rattle.widl_script_tree.specs.Rows.{rest_of};

/// A list of parts: the `count` nodes from the place `first` on, each an `Item`.
#[derive(Clone, Copy, Debug, PartialEq, Eq)]
pub struct Row {
    /// The place of the first node.
    pub first: u32,
    /// How many nodes there are.
    pub count: u32,
}

impl Row {
    /// The row without its first node.
    pub fn rest(self) -> Row
        requires { 0 < self.count }
        ensures { result ≡ rest_of self }
    {
        Row {
            first: self.first.saturating_add(1),
            count: self.count - 1,
        }
    }
}
