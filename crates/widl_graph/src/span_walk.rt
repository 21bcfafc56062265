//! The walk that finds the spans of the nodes of a forest: it visits each node once, directly followed by
//! those that come from it.

ghost use Rattle.std.specs.Prelude.{◌≡◌, ◌↔◌, ◌∷◌, ◌++◌, ◌-◌, ◌<◌, ℕ, [], IfOk, OnOk, IsTrue, None, Some, length, slice_get};
ghost use Rattle.widl_graph.specs.Reaching.{IsForest};
ghost use Rattle.widl_graph.specs.Search.{Has};
ghost use Rattle.widl_graph.specs.Children.{IsVisited};
ghost use Rattle.widl_graph.specs.SpanWalks.{IsUnderWay, work_of};
ghost use Rattle.widl_graph.specs.Spans.{AreSpans, AreWhole, IsWalk, parent_graph, parent_in, span_of};
ghost use Rattle.widl_graph.specs.declared.spans.Span as declared;

use crate::children::Children;
use crate::spans::{Span, Spans};
use std::alloc::{AllocError, Global};

/// The spans of nodes with these parents.
///
/// # Errors
///
/// `AllocError` where there is no memory.
pub fn walked(alloc: Global, parents: &[Option<u32>]) -> Result<Spans, AllocError>
    requires { IsForest (parent_graph parents.now) }
    ensures spans { IfOk result (λ found. AreSpans parents.now found.by_node.items found.order.items) }
    ensures whole { IfOk result (λ found. AreWhole found.by_node.items) }
{
    let mut walk = SpanWalk::begun(alloc, parents)?;
    for number in 0..parents.len() {
        if parents[number].is_none() {
            walk.visit_all(parents, number)?;
        }
    }
    Ok(Spans {
        by_node: walk.spans,
        order: walk.order,
    })
}

/// A walk over the nodes.
#[derive(Drop)]
struct SpanWalk {
    /// The spans of those that were visited. Of those on the path, the end is not known: it is taken for
    /// the number of all.
    spans: Vec<Option<Span>>,
    /// Those that were visited, in order.
    order: Vec<usize>,
    /// The node whose children are visited next and those from which it comes, the oldest one first.
    path: Vec<usize>,
    /// The children to which the walk has yet to come.
    children: Children,
}

impl SpanWalk {
    /// The walk before its first visit.
    fn begun(alloc: Global, parents: &[Option<u32>]) -> Result<SpanWalk, AllocError>
        ensures under_way { IfOk result (λ walk. IsUnderWay parents.now walk) }
        ensures idle { IfOk result (λ walk. walk.path.items ≡ []) }
    {
        Ok(SpanWalk {
            spans: no_spans(alloc, parents.len())?,
            order: Vec::new(alloc),
            path: Vec::new(alloc),
            children: Children::of(alloc, parents)?,
        })
    }

    /// Visits a node without a parent, and all that come from it.
    fn visit_all(&mut self, parents: &[Option<u32>], root: usize) -> Result<(), AllocError>
        requires under_way { IsUnderWay parents.now self.old }
        requires idle { self.old.path.items ≡ [] }
        requires below { root < length parents.now }
        requires root { parent_in parents.now root ≡ None }
        ensures under_way { OnOk result (IsUnderWay parents.now self.new) }
        ensures idle { OnOk result (self.new.path.items ≡ []) }
        ensures kept { OnOk result ((n : ℕ) → Has self.old.order.items n → Has self.new.order.items n) }
        ensures root { OnOk result (Has self.new.order.items root) }
    {
        self.enter(parents, root)?;
        self.finish(parents)
    }

    /// Goes on until the path is empty.
    fn finish(&mut self, parents: &[Option<u32>]) -> Result<(), AllocError>
        requires { IsUnderWay parents.now self.old }
        ensures under_way { OnOk result (IsUnderWay parents.now self.new) }
        ensures idle { OnOk result (self.new.path.items ≡ []) }
        ensures kept { OnOk result ((n : ℕ) → Has self.old.order.items n → Has self.new.order.items n) }
    {
        while let Some(last) = self.last() {
            self.advance(parents, last)?;
        }
        Ok(())
    }

    /// The last node of the path.
    fn last(&self) -> Option<usize>
        ensures { result ≡ slice_get self.now.path.items (length self.now.path.items - 1) }
    {
        self.path.last().copied()
    }

    /// Visits a child of the last node of the path, or leaves that node where no child is left.
    fn advance(&mut self, parents: &[Option<u32>], last: usize) -> Result<(), AllocError>
        requires under_way { IsUnderWay parents.now self.old }
        requires last { slice_get self.old.path.items (length self.old.path.items - 1) ≡ Some last }
        ensures under_way { OnOk result (IsUnderWay parents.now self.new) }
        ensures kept { OnOk result ((n : ℕ) → Has self.old.order.items n → Has self.new.order.items n) }
        ensures less { OnOk result (work_of self.new < work_of self.old) }
    {
        match self.children.take(last) {
            Some(child) => self.enter(parents, child),
            None => {
                self.leave(parents);
                Ok(())
            }
        }
    }

    /// Leaves the last node of the path: all that come from it were visited.
    fn leave(&mut self, parents: &[Option<u32>])
        requires walk { IsWalk parents.now self.old.spans.items self.old.order.items self.old.path.items }
        requires some { 0 < length self.old.path.items }
        ensures walk { IsWalk parents.now self.new.spans.items self.new.order.items self.new.path.items }
        ensures order { self.new.order ≡ self.old.order }
        ensures children { self.new.children ≡ self.old.children }
        ensures path { (n : ℕ) → slice_get self.old.path.items (length self.old.path.items - 1) ≡ Some n → self.old.path.items ≡ self.new.path.items ++ n ∷ [] }
    {
        if let Some(number) = self.path.pop() {
            self.spans[number] = ended(self.spans[number], self.order.len());
        }
    }

    /// Whether a node was not visited yet.
    fn is_new(&self, number: usize) -> bool
        requires { number < length self.now.spans.items }
        ensures { IsTrue result ↔ (span_of self.now.spans.items number ≡ None) }
    {
        self.spans[number].is_none()
    }

    /// Visits a node whose parent is the end of the path, or none where the path is empty, unless it was
    /// visited before.
    fn enter(&mut self, parents: &[Option<u32>], number: usize) -> Result<(), AllocError>
        requires walk { IsWalk parents.now self.old.spans.items self.old.order.items self.old.path.items }
        requires below { number < length parents.now }
        requires parent { parent_in parents.now number ≡ slice_get self.old.path.items (length self.old.path.items - 1) }
        ensures walk { OnOk result (IsWalk parents.now self.new.spans.items self.new.order.items self.new.path.items) }
        ensures visited { OnOk result (IsVisited self.old.order.items self.old.path.items self.new.order.items self.new.path.items number) }
        ensures children { self.new.children ≡ self.old.children }
    {
        if self.is_new(number) {
            self.spans[number] = Some(Span {
                start: self.order.len(),
                past: parents.len(),
            });
            self.order.push(number)?;
            self.path.push(number)?;
        }
        Ok(())
    }
}

/// The span of a node that is left.
fn ended(span: Option<Span>, past: usize) -> Option<Span>
    ensures { (s : declared.Span) → span ≡ Some s → result ≡ Some (record { start = s.start; past = past }) }
{
    match span {
        None => None,
        Some(span) => Some(Span {
            start: span.start,
            past,
        }),
    }
}

/// As many nodes without a span.
fn no_spans(alloc: Global, count: usize) -> Result<Vec<Option<Span>>, AllocError>
    ensures none { IfOk result (λ spans. (n : ℕ) → span_of spans.items n ≡ None) }
    ensures count { IfOk result (λ spans. length spans.items ≡ count) }
{
    let mut spans = Vec::new(alloc);
    for _number in 0..count {
        spans.push(None)?;
    }
    Ok(spans)
}
