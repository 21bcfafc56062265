//! What no clause says: that memory is found where there is some, and the time of long chains.

use crate::shared::{expect, sure};
use std::alloc::Global;
use std::process::Abort;
use widl_graph::{Graph, Walk};

/// A graph: its nodes with their successors, which are cyclic, and of its order the start and the end.
struct Walked {
    what: &'static str,
    nodes: &'static [&'static [usize]],
    cyclic: &'static [bool],
    start: &'static [usize],
    end: &'static [usize],
}

const WALKS: [Walked; 7] = [
    Walked {
        what: "no nodes",
        nodes: &[],
        cyclic: &[],
        start: &[],
        end: &[],
    },
    Walked {
        what: "one node",
        nodes: &[&[]],
        cyclic: &[false],
        start: &[0],
        end: &[0],
    },
    Walked {
        what: "an edge to itself",
        nodes: &[&[0]],
        cyclic: &[true],
        start: &[],
        end: &[],
    },
    Walked {
        what: "a chain",
        nodes: &[&[1], &[2], &[]],
        cyclic: &[false; 3],
        start: &[2, 1, 0],
        end: &[2, 1, 0],
    },
    Walked {
        what: "two cycles share a node",
        nodes: &[&[1], &[0, 2, 4], &[3], &[1], &[], &[4, 2]],
        cyclic: &[true, true, true, true, false, false],
        start: &[4],
        end: &[5],
    },
    Walked {
        what: "a node leads into a cycle",
        nodes: &[&[1], &[2], &[1]],
        cyclic: &[false, true, true],
        start: &[],
        end: &[0],
    },
    Walked {
        what: "a diamond",
        nodes: &[&[1, 2], &[3], &[3], &[]],
        cyclic: &[false; 4],
        start: &[3, 1, 2, 0],
        end: &[3, 1, 2, 0],
    },
];

/// The walk over a complete graph.
fn walk(rt: &impl Abort, alloc: Global, graph: &Graph) -> Walk {
    assert!(rt; graph.is_complete());
    sure(rt, Walk::over(alloc, graph))
}

fn expect_walk(rt: &impl Abort, alloc: Global, row: &Walked) {
    let mut graph = Graph::new(alloc);
    for successors in row.nodes {
        sure(rt, graph.add_linked(successors));
    }
    let found = walk(rt, alloc, &graph);
    let order = found.order.as_slice();
    let is_whole = order.len() == row.nodes.len() && found.cyclic.as_slice() == row.cyclic;
    let has_ends = order.starts_with(row.start) && order.ends_with(row.end);
    expect(rt, is_whole && has_ends, row.what);
}

fn expect_walks(rt: &impl Abort, alloc: Global, rows: &[Walked]) {
    for row in rows {
        expect_walk(rt, alloc, row);
    }
}

/// A chain of so many nodes and one more.
fn long_chain(rt: &impl Abort, alloc: Global, count: usize) -> Graph {
    let mut graph = Graph::new(alloc);
    for node in 0..count {
        sure(rt, graph.add_node());
        sure(rt, graph.add_successor(node + 1));
    }
    sure(rt, graph.add_node());
    graph
}

fn expect_long_chain(rt: &impl Abort, alloc: Global, count: usize) {
    let found = walk(rt, alloc, &long_chain(rt, alloc, count));
    let order = found.order.as_slice();
    expect(rt, order.len() == count.saturating_add(1), "the length");
    expect(
        rt,
        order.starts_with(&[count]) && order.ends_with(&[0]),
        "the ends",
    );
}

#[test]
fn graphs_are_walked(rt: HostRuntime) {
    expect_walks(&rt, rt.alloc(), &WALKS);
    expect_long_chain(&rt, rt.alloc(), 200_000);
}
