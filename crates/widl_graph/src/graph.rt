//! Graphs of numbered nodes.

ghost use Rattle.std.specs.Prelude.{◌≡◌, ◌++◌, ◌∷◌, [], ℕ, ◌<◌, ◌≤◌, List, length, OnErr, OnOk, slice_index, slice_index_or, ◌+◌, ◌↔◌, EachIndex, IsTrue};
ghost use Rattle.widl_graph.specs.Lists.{lists_of, with_successor, Begins};
ghost use Rattle.widl_graph.specs.Reaching.{AreNodes, successors_of};

use std::alloc::{AllocError, Global};
use std::marker::Model;

/// A directed graph: its nodes are numbered from 0, and each has the numbers of the nodes that follow
/// it, in order.
///
/// Contracts see it as a list that has, for each node, the list of its successors.
#[derive(Drop)]
pub struct Graph {
    /// Where in `successors` those of each node begin. They end where those of the next node begin.
    begins: Vec<usize>,
    successors: Vec<usize>,
}

impl Model for Graph {
    ghost Value = { List (List ℕ) };

    ghost view = { λ g. lists_of g.begins.items g.successors.items };

    ghost invariant = { λ g. Begins g.begins.items (length g.successors.items) };
}

impl Graph {
    /// A graph without nodes.
    pub fn new(alloc: Global) -> Graph
        ensures { result ≡ [] }
    {
        Graph {
            begins: Vec::new(alloc),
            successors: Vec::new(alloc),
        }
    }

    /// Adds a node that has no successors. After an error the graph is as it was.
    pub fn add_node(&mut self) -> Result<(), AllocError>
        ensures added { OnOk result (self.new ≡ self.old ++ [] ∷ []) }
        ensures unchanged { OnErr result (self.new ≡ self.old) }
    {
        let begin = self.successors.len();
        self.begins.push(begin)?;
        Ok(())
    }

    /// Adds a successor to the node that was added last. After an error the graph is as it was.
    pub fn add_successor(&mut self, successor: usize) -> Result<(), AllocError>
        requires { 0 < length self.old }
        ensures added { OnOk result (self.new ≡ with_successor self.old successor) }
        ensures unchanged { OnErr result (self.new ≡ self.old) }
    {
        self.successors.push(successor)?;
        Ok(())
    }

    /// Adds a node with its successors.
    ///
    /// # Errors
    ///
    /// `AllocError` where there is no memory.
    pub fn add_linked(&mut self, successors: &[usize]) -> Result<(), AllocError>
        ensures { OnOk result (self.new ≡ self.old ++ successors.now ∷ []) }
    {
        self.add_node()?;
        for successor in successors {
            self.add_successor(*successor)?;
        }
        Ok(())
    }

    /// How many nodes there are.
    pub fn len(&self) -> usize
        ensures { result ≡ length self.now }
    {
        self.begins.len()
    }

    /// The numbers of the nodes that follow the node, in the order in which they were added.
    pub fn successors(&self, node: usize) -> &[usize]
        requires { node < length self.now }
        ensures { result.now ≡ successors_of self.now node }
    {
        part(&self.begins, &self.successors, node)
    }

    /// Whether each successor is the number of a node.
    pub fn is_complete(&self) -> bool
        ensures { IsTrue result ↔ AreNodes self.now }
    {
        for node in 0..self.len() {
            if !all_below(self.successors(node), self.len()) {
                return false;
            }
        }
        true
    }
}

fn all_below(numbers: &[usize], count: usize) -> bool
    ensures { IsTrue result ↔ EachIndex numbers.now (λ k. slice_index numbers.now k < count) }
{
    numbers.iter().all(|number| *number < count)
}

/// Where the part that begins at the place in `begins` ends.
fn end_at(begins: &[usize], place: usize, end: usize) -> usize
    requires begins { Begins begins.now end }
    requires place { place < length begins.now }
    ensures value { result ≡ slice_index_or begins.now (place + 1) end }
    ensures after { slice_index begins.now place ≤ result }
    ensures within { result ≤ end }
{
    if place + 1 < begins.len() {
        begins[place + 1]
    } else {
        end
    }
}

/// The part of the items that begins at the place in `begins`.
fn part<'a>(begins: &[usize], items: &'a [usize], place: usize) -> &'a [usize]
    requires begins { Begins begins.now (length items.now) }
    requires place { place < length begins.now }
    ensures { result.now ≡ slice_index_or (lists_of begins.now items.now) place [] }
{
    let begin = begins[place];
    let end = end_at(begins, place, items.len());
    &items[begin..end]
}
