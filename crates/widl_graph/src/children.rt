//! The children of the nodes of a forest, taken one after another.

ghost use Rattle.std.specs.Prelude.{◌≡◌, [], ℕ, ◌<◌, length, map, replicate, vec_items, IfOk, OnOk};
ghost use Rattle.widl_graph.specs.Children.{AreChildren, IsAdded, IsTaken};

use std::alloc::{AllocError, Global};
use std::marker::Model;

/// For each node those of its children that were not taken yet.
#[derive(Drop)]
pub struct Children {
    lists: Vec<Vec<usize>>,
}

impl Model for Children {
    ghost use Rattle.std.specs.Prelude.{ℕ, List, map, vec_items};

    ghost Value = { List (List ℕ) };

    ghost view = { λ children. map vec_items children.lists.items };
}

impl Children {
    /// The children of nodes with these parents. A parent past the last node has none.
    ///
    /// # Errors
    ///
    /// `AllocError` where there is no memory.
    pub fn of(alloc: Global, parents: &[Option<u32>]) -> Result<Children, AllocError>
        ensures { IfOk result (λ children. AreChildren parents.now (length parents.now) children) }
    {
        let mut children = Children::none(alloc, parents.len())?;
        for number in 0..parents.len() {
            if let Some(parent) = parents[number] {
                children.add(parent as usize, number)?;
            }
        }
        Ok(children)
    }

    /// No children of so many nodes.
    fn none(alloc: Global, count: usize) -> Result<Children, AllocError>
        ensures { IfOk result (λ children. children ≡ replicate count []) }
    {
        let mut lists = Vec::new(alloc);
        for _number in 0..count {
            lists.push(Vec::new(alloc))?;
        }
        Ok(Children { lists })
    }

    /// Adds a child to those of its parent, if there is such a node.
    fn add(&mut self, parent: usize, number: usize) -> Result<(), AllocError>
        ensures { OnOk result (IsAdded self.old self.new parent number) }
    {
        if parent < self.lists.len() {
            self.lists[parent].push(number)?;
        }
        Ok(())
    }

    /// Takes a child of the node, if one is left.
    pub fn take(&mut self, parent: usize) -> Option<usize>
        requires { parent < length self.old }
        ensures { IsTaken self.old self.new parent result }
    {
        self.lists[parent].pop()
    }
}
