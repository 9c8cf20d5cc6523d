//! Where the children of each task stand: a task gets all its children at once, so they stand side by side.

ghost use Rattle.std.specs.Prelude.{◌≡◌, ◌≤◌, ℕ, length, map, IfOk};
ghost use Rattle.tk_verdict.specs.Facts.{all_ended, children_at, is_good_where};
ghost use Rattle.tk_labels.specs.Spans.{AreSpanned, HasSpan, span_at};

use std::alloc::{AllocError, Global};
use std::marker::Model;
use tk_types::Child;
use tk_verdict::judging::ended_well;

/// Where the children of one task stand: from a place on, and before another.
#[derive(Clone, Copy)]
pub(crate) struct Span {
    pub from: usize,
    pub to: usize,
}

/// The span of the task at a place.
fn span_at(spans: &[Span], place: u32) -> Span
    ensures { result ≡ span_at spans.now place }
{
    spans
        .get(place as usize)
        .copied()
        .unwrap_or(Span { from: 0, to: 0 })
}

/// The spans, and more without children, so that there are at least so many.
fn padded(alloc: Global, spans: &[Span], count: usize) -> Result<Vec<Span>, AllocError>
    ensures many { IfOk result (λ made. count ≤ length made.items) }
    ensures same { IfOk result (λ made. (place : ℕ) → span_at made.items place ≡ span_at spans.now place) }
{
    let mut made = Vec::from_slice(alloc, spans)?;
    for _i in spans.len()..count {
        made.push(Span { from: 0, to: 0 })?;
    }
    Ok(made)
}

/// The spans, of which one task's is another.
pub(crate) fn with_span(
    alloc: Global,
    spans: &[Span],
    task: u32,
    span: Span,
) -> Result<Vec<Span>, AllocError>
    ensures { IfOk result (λ made. HasSpan task span spans.now made.items) }
{
    let mut made = padded(alloc, spans, task as usize + 1)?;
    made[task as usize] = span;
    Ok(made)
}

/// The children of a run, found by their tasks. A contract sees all children.
#[derive(Drop)]
pub(crate) struct Kids<'a> {
    children: &'a [Child],
    spans: &'a [Span],
}

impl<'a> Model for Kids<'a> {
    ghost use Rattle.std.specs.Prelude.{List};
    ghost use Rattle.tk_types.specs.declared.run.Child.{Child};
    ghost use Rattle.tk_labels.specs.Spans.{AreSpanned};

    ghost Value = { List Child };

    ghost view = { λ kids. kids.children.now };

    ghost invariant = { λ kids. AreSpanned kids.children.now kids.spans.now };
}

impl<'a> Kids<'a> {
    /// Children of which each task's stand there.
    pub(crate) fn new(children: &'a [Child], spans: &'a [Span]) -> Kids<'a>
        requires spanned { AreSpanned children.now spans.now }
        ensures { result ≡ children.now }
    {
        Kids { children, spans }
    }

    /// The children of the task at a place.
    pub(crate) fn at(&self, place: u32) -> &'a [Child]
        ensures { result.now ≡ children_at self.now place }
    {
        let span = span_at(self.spans, place);
        &self.children[span.from..span.to]
    }

    /// The same, one by one.
    pub(crate) fn each(&self, alloc: Global, place: u32) -> Result<Vec<&'a Child>, AllocError>
        ensures { IfOk result (λ made. map (λ child. child.now) made.items ≡ children_at self.now place) }
    {
        each_of(alloc, self.at(place))
    }
}

/// Children one by one.
fn each_of<'a>(alloc: Global, children: &'a [Child]) -> Result<Vec<&'a Child>, AllocError>
    ensures { IfOk result (λ made. map (λ child. child.now) made.items ≡ children.now) }
{
    let mut made = Vec::new(alloc);
    for child in children {
        made.push(child)?;
    }
    Ok(made)
}

/// Whether there are children, and all of them ended well, for a task that ignores failures or not.
pub(crate) fn are_all_good(children: &[Child], ignores: bool) -> bool
    ensures { result ≡ all_ended (is_good_where ignores) children.now }
{
    if children.is_empty() {
        return false;
    }
    for child in children {
        if !ended_well(child, ignores) {
            return false;
        }
    }
    true
}
