//! A depth-first search that finds which nodes reach each other. It keeps its stacks on the heap, so
//! that the length of a path is bounded by memory alone.

ghost use Rattle.std.specs.Prelude.{◌≡◌, [], ℕ, ◌<◌, ◌≤◌, ◌+◌, ◌-◌, ◌^◌, ◌↔◌, ◌≢◌, true, length, map, replicate, slice_get, slice_set, Some, None, IfOk, OnOk, IsTrue, MatchOption};
ghost use Rattle.widl_graph.specs.Reaching.{Step, AreNodes, successors_of};
ghost use Rattle.widl_graph.specs.Search.{is_cyclic, Rising, AreJoined, AreJoinedAt, IsCut, IsClosing, AreMoved, IsEntered, UnderWay, StaysKnown, top_of, work_of};
ghost use Rattle.widl_graph.specs.declared.search.Mark.TheVariants.{New as NewMark, Open as OpenMark};
ghost use Rattle.widl_graph.specs.declared.search.Visit.{Visit as VisitOf};

use crate::Graph;
use std::alloc::{AllocError, Global};

/// What is known of a node.
#[derive(Clone, Copy)]
pub enum Mark {
    /// Nothing yet.
    New,
    /// It is being visited, at this place among the visits.
    Open(usize),
    /// It does not reach itself. Its group begins at this place of the order.
    Plain(usize),
    /// It reaches itself. Its group begins at this place of the order.
    Cyclic(usize),
}

/// A node that is being visited.
#[derive(Clone, Copy)]
pub struct Visit {
    pub node: usize,
    /// How many of its successors have been looked at.
    pub next: usize,
}

/// A search under way.
#[derive(Drop)]
pub struct Search {
    /// What is known of each node.
    pub marks: Vec<Mark>,
    /// The nodes that are done, those of a group one after another.
    pub order: Vec<usize>,
    /// The open nodes, in the order in which they were entered.
    pub visits: Vec<Visit>,
    /// The places of the visits that lead to the one that goes on.
    pub path: Vec<usize>,
    /// The places of the visits at which a group begins: all nodes of a group reach each other.
    pub groups: Vec<usize>,
}

fn new_marks(alloc: Global, count: usize) -> Result<Vec<Mark>, AllocError>
    ensures { IfOk result (λ marks. marks.items ≡ replicate count NewMark) }
{
    let mut marks = Vec::new(alloc);
    for _i in 0..count {
        marks.push(Mark::New)?;
    }
    Ok(marks)
}

fn is_new(marks: &Vec<Mark>, node: usize) -> bool
    requires { node < length marks.now.items }
    ensures { IsTrue result ↔ (slice_get marks.now.items node ≡ Some NewMark) }
{
    match marks[node] {
        Mark::New => true,
        Mark::Open(_) => false,
        Mark::Plain(_) => false,
        Mark::Cyclic(_) => false,
    }
}

fn is_cyclic(mark: Mark) -> bool
    ensures { result ≡ is_cyclic mark }
{
    match mark {
        Mark::New => false,
        Mark::Open(_) => false,
        Mark::Plain(_) => false,
        Mark::Cyclic(_) => true,
    }
}

fn visit_at(visits: &Vec<Visit>, place: usize) -> Visit
    requires { place < length visits.now.items }
    ensures { slice_get visits.now.items place ≡ Some result }
{
    visits[place]
}

fn ends_with(places: &Vec<usize>, place: usize) -> bool
    ensures { IsTrue result ↔ (top_of places.now.items ≡ Some place) }
{
    places.last().copied() == Some(place)
}

/// How many of the groups begin at the place or before it.
fn groups_up_to(groups: &[usize], place: usize) -> usize
    requires { Rising groups.now }
    ensures { IsCut groups.now place result }
{
    let mut count = groups.len();
    while count > 0 && groups[count - 1] > place {
        count -= 1;
    }
    count
}

/// Joins the groups that begin after the place to the one before them.
fn join(groups: &mut Vec<usize>, place: usize)
    requires { Rising groups.old.items }
    ensures { AreJoined groups.old.items groups.new.items place }
{
    let count = groups_up_to(groups.as_slice(), place);
    groups.truncate(count);
}

/// Joins the groups from that of the node on, where it is open.
fn join_at(groups: &mut Vec<usize>, mark: Mark)
    requires { Rising groups.old.items }
    ensures { AreJoinedAt (Some mark) groups.old.items groups.new.items }
{
    match mark {
        Mark::New => {}
        Mark::Open(place) => join(groups, place),
        Mark::Plain(_) => {}
        Mark::Cyclic(_) => {}
    }
}

fn follows_itself(graph: &Graph, node: usize) -> bool
    requires { node < length graph.now }
    ensures { IsTrue result ↔ Step graph.now node node }
{
    graph.successors(node).contains(&node)
}

/// The mark of the nodes that are visited from the place on, which are a group.
fn closing_mark(graph: &Graph, visits: &Vec<Visit>, base: usize, rank: usize) -> Mark
    requires base { base < length visits.now.items }
    requires node { (v : VisitOf) → slice_get visits.now.items base ≡ Some v → v.node < length graph.now }
    ensures { IsClosing graph.now visits.now.items base rank result }
{
    if base + 1 < visits.len() || follows_itself(graph, visit_at(visits, base).node) {
        Mark::Cyclic(rank)
    } else {
        Mark::Plain(rank)
    }
}

/// Marks the nodes that are visited from the place on, and puts them at the end of the order.
fn close_visits(
    marks: &mut Vec<Mark>,
    order: &mut Vec<usize>,
    visits: &Vec<Visit>,
    base: usize,
    mark: Mark,
) -> Result<(), AllocError>
    requires base { base ≤ length visits.now.items }
    requires open { (p : ℕ) (v : VisitOf) → slice_get visits.now.items p ≡ Some v → slice_get marks.old.items v.node ≡ Some (OpenMark p) }
    requires known { mark ≢ NewMark }
    ensures { OnOk result (AreMoved visits.now.items base (length visits.now.items) mark marks.old.items marks.new.items order.old.items order.new.items) }
{
    for place in base..visits.len() {
        let node = visit_at(visits, place).node;
        marks[node] = mark;
        order.push(node)?;
    }
    Ok(())
}

impl Search {
    /// A search of so many nodes, none of which is known.
    pub fn new(alloc: Global, count: usize) -> Result<Search, AllocError>
        ensures { IfOk result (λ s. (s.marks.items ≡ replicate count NewMark) × (s.order.items ≡ []) × (s.visits.items ≡ []) × (s.path.items ≡ []) × (s.groups.items ≡ [])) }
    {
        Ok(Search {
            marks: new_marks(alloc, count)?,
            order: Vec::new(alloc),
            visits: Vec::new(alloc),
            path: Vec::new(alloc),
            groups: Vec::new(alloc),
        })
    }

    /// Visits the node and all that it reaches, unless it is known.
    pub fn search_from(&mut self, graph: &Graph, root: usize) -> Result<(), AllocError>
        requires nodes { AreNodes graph.now }
        requires under_way { UnderWay graph.now self.old }
        requires idle { self.old.path.items ≡ [] }
        requires root { root < length graph.now }
        ensures under_way { OnOk result (UnderWay graph.now self.new) }
        ensures idle { OnOk result (self.new.path.items ≡ []) }
        ensures known { OnOk result (StaysKnown self.old.marks.items self.new.marks.items) }
        ensures root { OnOk result (slice_get self.new.marks.items root ≢ Some NewMark) }
    {
        if is_new(&self.marks, root) {
            self.enter(root)?;
            self.finish(graph)?;
        }
        Ok(())
    }

    /// Goes on until the path is empty.
    fn finish(&mut self, graph: &Graph) -> Result<(), AllocError>
        requires nodes { AreNodes graph.now }
        requires under_way { UnderWay graph.now self.old }
        ensures under_way { OnOk result (UnderWay graph.now self.new) }
        ensures idle { OnOk result (self.new.path.items ≡ []) }
        ensures known { OnOk result (StaysKnown self.old.marks.items self.new.marks.items) }
    {
        while let Some(place) = self.top() {
            self.advance(graph, place)?;
        }
        Ok(())
    }

    fn top(&self) -> Option<usize>
        ensures { result ≡ top_of self.now.path.items }
    {
        self.path.last().copied()
    }

    /// Enters a new node, or leaves the visit at the place where there is none.
    fn advance(&mut self, graph: &Graph, place: usize) -> Result<(), AllocError>
        requires nodes { AreNodes graph.now }
        requires under_way { UnderWay graph.now self.old }
        requires top { top_of self.old.path.items ≡ Some place }
        ensures under_way { OnOk result (UnderWay graph.now self.new) }
        ensures known { OnOk result (StaysKnown self.old.marks.items self.new.marks.items) }
        ensures less { OnOk result (work_of self.new < work_of self.old) }
    {
        match self.next_new(graph, place) {
            Some(node) => self.enter(node),
            None => self.leave(graph, place),
        }
    }

    /// Begins to visit the node.
    fn enter(&mut self, node: usize) -> Result<(), AllocError>
        requires { node < length self.old.marks.items }
        ensures { OnOk result (IsEntered self.old self.new node) }
    {
        let place = self.visits.len();
        self.marks[node] = Mark::Open(place);
        self.visits.push(Visit { node, next: 0 })?;
        self.path.push(place)?;
        self.groups.push(place)?;
        Ok(())
    }

    /// The successor that the visit at the place has to look at next.
    fn successor(&self, graph: &Graph, place: usize) -> Option<usize>
        requires place { place < length self.now.visits.items }
        requires node { (v : VisitOf) → slice_get self.now.visits.items place ≡ Some v → v.node < length graph.now }
        ensures value { (v : VisitOf) → slice_get self.now.visits.items place ≡ Some v → result ≡ slice_get (successors_of graph.now v.node) v.next }
        ensures room { (v : VisitOf) → slice_get self.now.visits.items place ≡ Some v → result ≢ None → v.next + 1 < 2 ^ 64 }
    {
        let visit = visit_at(&self.visits, place);
        let successors = graph.successors(visit.node);
        if visit.next < successors.len() {
            Some(successors[visit.next])
        } else {
            None
        }
    }

    /// The next new successor of the node that is visited at the place, after those that are known.
    fn next_new(&mut self, graph: &Graph, place: usize) -> Option<usize>
        requires nodes { AreNodes graph.now }
        requires under_way { UnderWay graph.now self.old }
        requires top { top_of self.old.path.items ≡ Some place }
        ensures under_way { UnderWay graph.now self.new }
        ensures marks { self.new.marks.items ≡ self.old.marks.items }
        ensures path { self.new.path.items ≡ self.old.path.items }
        ensures found { MatchOption result ((v : VisitOf) → slice_get self.new.visits.items place ≡ Some v → length (successors_of graph.now v.node) ≤ v.next) (λ y. (slice_get self.new.marks.items y ≡ Some NewMark) × ((v : VisitOf) → slice_get self.new.visits.items place ≡ Some v → Step graph.now v.node y)) }
    {
        while let Some(target) = self.successor(graph, place) {
            if is_new(&self.marks, target) {
                return Some(target);
            }
            self.pass(place, target);
        }
        None
    }

    /// Counts the successor as looked at. One that is open makes a group of all that is visited from
    /// its group on, since it leads there and is reached from there.
    fn pass(&mut self, place: usize, target: usize)
        requires place { place < length self.old.visits.items }
        requires target { target < length self.old.marks.items }
        requires rising { Rising self.old.groups.items }
        requires room { (v : VisitOf) → slice_get self.old.visits.items place ≡ Some v → v.next + 1 < 2 ^ 64 }
        ensures marks { self.new.marks.items ≡ self.old.marks.items }
        ensures order { self.new.order.items ≡ self.old.order.items }
        ensures path { self.new.path.items ≡ self.old.path.items }
        ensures visits { (v : VisitOf) → slice_get self.old.visits.items place ≡ Some v → self.new.visits.items ≡ slice_set self.old.visits.items place (record { node = v.node; next = v.next + 1 }) }
        ensures groups { AreJoinedAt (slice_get self.old.marks.items target) self.old.groups.items self.new.groups.items }
    {
        let visit = visit_at(&self.visits, place);
        self.visits[place] = Visit {
            node: visit.node,
            next: visit.next + 1,
        };
        join_at(&mut self.groups, self.marks[target]);
    }

    /// Ends the visit at the place, and closes the group that begins there.
    fn leave(&mut self, graph: &Graph, place: usize) -> Result<(), AllocError>
        requires nodes { AreNodes graph.now }
        requires under_way { UnderWay graph.now self.old }
        requires top { top_of self.old.path.items ≡ Some place }
        requires finished { (v : VisitOf) → slice_get self.old.visits.items place ≡ Some v → length (successors_of graph.now v.node) ≤ v.next }
        ensures under_way { OnOk result (UnderWay graph.now self.new) }
        ensures known { OnOk result (StaysKnown self.old.marks.items self.new.marks.items) }
        ensures less { OnOk result (work_of self.new < work_of self.old) }
    {
        if ends_with(&self.groups, place) {
            self.close_group(graph, place)?;
        } else {
            let _ = self.path.pop();
        }
        Ok(())
    }

    /// Ends the visit at the place, and closes its group, the last.
    fn close_group(&mut self, graph: &Graph, base: usize) -> Result<(), AllocError>
        requires nodes { AreNodes graph.now }
        requires under_way { UnderWay graph.now self.old }
        requires top { top_of self.old.path.items ≡ Some base }
        requires last { top_of self.old.groups.items ≡ Some base }
        requires finished { (v : VisitOf) → slice_get self.old.visits.items base ≡ Some v → length (successors_of graph.now v.node) ≤ v.next }
        ensures under_way { OnOk result (UnderWay graph.now self.new) }
        ensures known { OnOk result (StaysKnown self.old.marks.items self.new.marks.items) }
        ensures less { OnOk result (work_of self.new < work_of self.old) }
    {
        let mark = closing_mark(graph, &self.visits, base, self.order.len());
        close_visits(&mut self.marks, &mut self.order, &self.visits, base, mark)?;
        self.visits.truncate(base);
        let _ = self.groups.pop();
        let _ = self.path.pop();
        Ok(())
    }

    /// For each node, whether it reaches itself.
    pub fn cyclic(&self, alloc: Global) -> Result<Vec<bool>, AllocError>
        ensures { IfOk result (λ flags. flags.items ≡ map is_cyclic self.now.marks.items) }
    {
        self.marks
            .iter()
            .map(|mark| is_cyclic(*mark))
            .collect(alloc)
    }

    /// The nodes that are done, in their order.
    pub fn into_order(self) -> Vec<usize>
        ensures { result.items ≡ self.order.items }
    {
        let Search {
            marks: _,
            order,
            visits: _,
            path: _,
            groups: _,
        } = self;
        order
    }
}
