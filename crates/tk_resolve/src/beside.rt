ghost use Rattle.std.specs.Prelude.{◌≡◌, ◌<◌, [], ◌++◌, All, Some, filter, flat_map, not, true, IfOk};
ghost use Rattle.std.specs.List.{list_all, range_with_len};
ghost use Rattle.std.specs.Option.{ForSome};
ghost use Rattle.tk_types.specs.Names.{is_in};
ghost use Rattle.tk_types.specs.declared.value.ParamSpec.{ParamSpec as Wanted};
ghost use Rattle.tk_bind.specs.Readings.{ReadsPipelineTask, ReadsStep};
ghost use Rattle.tk_matrix.specs.Product.{HasLists};
ghost use Rattle.tk_matrix.specs.Task.{task_combination_count};
ghost use Rattle.tk_early.specs.Settled.{is_settled};
ghost use Rattle.tk_shape.specs.ShapeEnv.{shapes_of, without_results};
ghost use Rattle.tk_resolve.specs.Asks.{AsksTheSame};
ghost use Rattle.tk_resolve.specs.Due.{step_dues};
ghost use Rattle.tk_resolve.specs.Settled.{all_fit, early_params, judged_count, late_names};
ghost use Rattle.tk_resolve.specs.Shapes.{any_lacks, fit_beside, shapes_at};
ghost use Rattle.tk_resolve.specs.TaskRun.{spec_of};

use crate::body_asks::BodyAsks;
use crate::lookup::Earlier;
use crate::questions::any_lacks;
use crate::settled::{KnownShapes, OwnParams, known_shapes, own_params};
use std::alloc::{AllocError, Global};
use std::marker::Model;
use tk_bind::{BindError, Lookup};
use tk_early::is_settled;
use tk_shape::{
    BoundShape, NamedShape, ShapeSources, TaskShapes, WantedShape, bound_shapes, shapes_of,
    shapes_with, wanted_shapes,
};
use tk_types::{
    FirstNamed, List, Param, ParamSpec, PipelineTask, TaskBody, TaskSource, Text, TryCopy,
};

/// A body beside late parameters: what it wants of the others, and what the texts of its steps ask. A contract sees the
/// names of the late parameters and the body.
#[derive(Drop)]
struct Beside<'a, 'k> {
    late: FirstNamed<'a, Text>,
    body: &'a TaskBody,
    wanted: List<ParamSpec>,
    asks: &'k BodyAsks<'a>,
}

impl<'a, 'k> Model for Beside<'a, 'k> {
    ghost use Rattle.std.specs.Prelude.{◌≡◌, List as Items, ℕ, filter, flat_map, not};
    ghost use Rattle.tk_types.specs.declared.value.ParamSpec.{ParamSpec as Wanted};
    ghost use Rattle.tk_types.specs.declared.task.TaskBody.{TaskBody};
    ghost use Rattle.tk_types.specs.Names.{is_in};
    ghost use Rattle.tk_resolve.specs.Asks.{AsksTheSame};
    ghost use Rattle.tk_resolve.specs.Due.{step_dues};

    ghost Value = { Items (Items ℕ) × TaskBody };

    ghost view = { λ beside. (beside.late, beside.body.now) };

    ghost invariant = { λ beside. (beside.wanted ≡ filter (λ (w : Wanted). not (is_in beside.late w.name)) beside.body.now.spec.params)
        × AsksTheSame (flat_map step_dues beside.body.now.spec.steps) beside.asks.now };
}

/// Whether a declared parameter is late.
fn is_late(late: &FirstNamed<'_, Text>, spec: &ParamSpec) -> bool
    ensures { result ≡ is_in late.now spec.now.name }
{
    late.contains(spec.name.as_str())
}

/// The declared parameters that aren't late.
fn early_specs(
    alloc: Global,
    late: &FirstNamed<'_, Text>,
    params: &[ParamSpec],
) -> Result<List<ParamSpec>, AllocError>
    ensures { IfOk result (λ specs. specs ≡ filter (λ (w : Wanted). not (is_in late.now w.name)) params.now) }
{
    let mut specs = List::new(alloc);
    for spec in params {
        if !is_late(late, spec) {
            specs.push(spec.copy(alloc)?)?;
        }
    }
    Ok(specs)
}

/// The same; where no parameter is late they are shared.
fn wanted_beside(
    alloc: Global,
    late: &[Text],
    params: &List<ParamSpec>,
) -> Result<List<ParamSpec>, AllocError>
    ensures { IfOk result (λ specs. specs ≡ filter (λ (w : Wanted). not (is_in late.now w.name)) params.now) }
{
    if late.is_empty() {
        return params.copy(alloc);
    }
    let late = FirstNamed::new(alloc, late)?;
    early_specs(alloc, &late, params.as_slice())
}

impl<'a, 'k> Beside<'a, 'k> {
    /// This body, whose texts ask this, beside these late parameters.
    fn new(
        alloc: Global,
        late: &'a [Text],
        body: &'a TaskBody,
        asks: &'k BodyAsks<'a>,
    ) -> Result<Self, AllocError>
        requires { AsksTheSame (flat_map step_dues body.now.spec.steps) asks.now }
        ensures { IfOk result (λ beside. beside ≡ (late.now, body.now)) }
    {
        let wanted = wanted_beside(alloc, late, &body.spec.params)?;
        let late = FirstNamed::new(alloc, late)?;
        Ok(Beside {
            late,
            body,
            wanted,
            asks,
        })
    }

    /// Whether a text of the steps takes, of a parameter that isn't late, what isn't there or isn't due.
    fn lacks<'b, 'v>(
        &self,
        alloc: Global,
        bound: &[BoundShape<'b, 'v>],
        sources: &ShapeSources<'b, 'v>,
    ) -> Result<bool, AllocError>
        requires { All ReadsStep self.now.1.spec.steps }
        ensures { IfOk result (λ lacks. lacks ≡ any_lacks (without_results (bound.now ++ sources.now.given ++ sources.now.outer ++ sources.now.fallback) []) self.now.0 (flat_map step_dues self.now.1.spec.steps)) }
    {
        let shapes = TaskShapes::new(alloc, bound, sources, &[])?;
        any_lacks(alloc, &shapes, &self.late, self.asks.as_slice())
    }

    /// Whether shapes among these and the late parameters fit the body, which wants these.
    fn fit_bound<'b, 'v>(
        &self,
        alloc: Global,
        wanted: &'b [WantedShape<'v>],
        sources: &ShapeSources<'b, 'v>,
    ) -> Result<bool, AllocError>
        requires steps { All ReadsStep self.now.1.spec.steps }
        requires wanted { wanted.now ≡ filter (λ (w : Wanted). not (is_in self.now.0 w.name)) self.now.1.spec.params }
        requires outer { sources.now.outer ≡ shapes_of self.now.1.outer }
        requires fallback { sources.now.fallback ≡ shapes_of self.now.1.fallback }
        ensures { IfOk result (λ fit. fit ≡ fit_beside self.now.0 self.now.1 sources.now.given) }
    {
        match bound_shapes(alloc, wanted, sources) {
            Ok(bound) => Ok(!self.lacks(alloc, bound.as_slice(), sources)?),
            Err(BindError::Memory) => Err(AllocError),
            Err(_) => Ok(false),
        }
    }

    /// Whether these shapes and the late parameters fit the body.
    fn fit_shapes<'b, 'v>(
        &self,
        alloc: Global,
        wanted: &'b [WantedShape<'v>],
        given: &'b [NamedShape<'v>],
        outer: &'b [NamedShape<'v>],
        fallback: &'b [NamedShape<'v>],
    ) -> Result<bool, AllocError>
        requires steps { All ReadsStep self.now.1.spec.steps }
        requires wanted { wanted.now ≡ filter (λ (w : Wanted). not (is_in self.now.0 w.name)) self.now.1.spec.params }
        requires outer { outer.now ≡ shapes_of self.now.1.outer }
        requires fallback { fallback.now ≡ shapes_of self.now.1.fallback }
        ensures { IfOk result (λ fit. fit ≡ fit_beside self.now.0 self.now.1 given.now) }
    {
        let sources = ShapeSources::new(alloc, given, outer, fallback)?;
        self.fit_bound(alloc, wanted, &sources)
    }

    /// Whether shapes, given parameters and the late ones fit the body.
    fn fit_given<'v>(
        &'v self,
        alloc: Global,
        early: &'v [NamedShape<'_>],
        given: &'v [Param],
    ) -> Result<bool, AllocError>
        requires { All ReadsStep self.now.1.spec.steps }
        ensures { IfOk result (λ fit. fit ≡ fit_beside self.now.0 self.now.1 (early.now ++ shapes_of given.now)) }
    {
        let wanted = wanted_shapes(alloc, self.wanted.as_slice())?;
        let given = shapes_with(alloc, early, given)?;
        let outer = shapes_of(alloc, self.body.outer.as_slice())?;
        let fallback = shapes_of(alloc, self.body.fallback.as_slice())?;
        self.fit_shapes(
            alloc,
            wanted.as_slice(),
            given.as_slice(),
            outer.as_slice(),
            fallback.as_slice(),
        )
    }

    /// Whether the combination at an index and the late parameters fit the body.
    fn fit_at(&self, alloc: Global, known: &KnownShapes<'_>, index: u32) -> Result<bool, AllocError>
        requires steps { All ReadsStep self.now.1.spec.steps }
        requires lists { ForSome known.now.matrix HasLists }
        requires below { index < task_combination_count known.now.matrix }
        ensures { IfOk result (λ fit. fit ≡ fit_beside self.now.0 self.now.1 (shapes_at known.now.early.items known.now.matrix index)) }
    {
        let given = known.given_at(alloc, index)?;
        self.fit_given(alloc, known.early.as_slice(), given.as_slice())
    }

    /// Whether each of so many combinations and the late parameters fit the body.
    fn fit_all(
        &self,
        alloc: Global,
        known: &KnownShapes<'_>,
        count: u32,
    ) -> Result<bool, AllocError>
        requires steps { All ReadsStep self.now.1.spec.steps }
        requires lists { ForSome known.now.matrix HasLists }
        requires count { count ≡ judged_count known.now.matrix }
        ensures { IfOk result (λ fit. fit ≡ list_all (λ i. fit_beside self.now.0 self.now.1 (shapes_at known.now.early.items known.now.matrix i)) (range_with_len 0 count)) }
    {
        for index in 0..count {
            if !self.fit_at(alloc, known, index)? {
                return Ok(false);
            }
        }
        Ok(true)
    }
}

/// Whether each combination of these and the late parameters fit a body, which runs this source.
fn all_fit_known<'a>(
    alloc: Global,
    earlier: &'a Earlier<'_>,
    source: &TaskSource,
    late: &'a [Text],
    body: &'a TaskBody,
    known: &KnownShapes<'_>,
) -> Result<bool, AllocError>
    requires body { All ReadsStep body.now.spec.steps }
    requires source { spec_of earlier.now source.now ≡ Some body.now.spec }
    requires lists { ForSome known.now.matrix HasLists }
    ensures { IfOk result (λ fit. fit ≡ list_all (λ i. fit_beside late.now body.now (shapes_at known.now.early.items known.now.matrix i)) (range_with_len 0 (judged_count known.now.matrix))) }
{
    let count = known.judged_count();
    if count == 0 {
        return Ok(true);
    }
    let steps = body.spec.steps.as_slice();
    let asks = BodyAsks::new(alloc, earlier, source, steps, count > 1)?;
    let beside = Beside::new(alloc, late, body, &asks)?;
    beside.fit_all(alloc, known, count)
}

/// Whether each known combination of a settled task, whose own parameters these are, fits its body.
fn all_fit_settled<'s>(
    alloc: Global,
    earlier: &'s Earlier<'_>,
    lookup: &'s Lookup,
    task: &PipelineTask,
    body: &'s TaskBody,
    own: &'s OwnParams,
) -> Result<bool, AllocError>
    requires task { ReadsPipelineTask task.now }
    requires body { All ReadsStep body.now.spec.steps }
    requires source { spec_of earlier.now task.now.source ≡ Some body.now.spec }
    requires settled { is_settled task.now ≡ true }
    requires early { own.now.early ≡ early_params task.now }
    requires late { own.now.late ≡ late_names task.now }
    ensures { IfOk result (λ fit. fit ≡ all_fit lookup.now task.now body.now) }
{
    match known_shapes(alloc, lookup, task, own.early.as_slice())? {
        Some(known) => {
            let late = own.late.as_slice();
            all_fit_known(alloc, earlier, &task.source, late, body, &known)
        }
        None => Ok(true),
    }
}

/// Whether each known combination of a task fits its body. The only error is want of memory.
pub(crate) fn all_fit(
    alloc: Global,
    earlier: &Earlier<'_>,
    lookup: &Lookup,
    task: &PipelineTask,
    body: &TaskBody,
) -> Result<bool, AllocError>
    requires task { ReadsPipelineTask task.now }
    requires body { All ReadsStep body.now.spec.steps }
    requires source { spec_of earlier.now task.now.source ≡ Some body.now.spec }
    ensures { IfOk result (λ fit. fit ≡ all_fit lookup.now task.now body.now) }
{
    if !is_settled(alloc, task)? {
        return Ok(true);
    }
    let own = own_params(alloc, task)?;
    all_fit_settled(alloc, &*earlier, &*lookup, task, &*body, &own)
}
