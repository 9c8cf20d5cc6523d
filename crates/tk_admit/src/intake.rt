ghost use Rattle.std.specs.Prelude.{◌≡◌, ◌∷◌, [], ◌++◌, All, IfErr, IfOk, None, OnErr, OnOk, Some, option_map};
ghost use Rattle.std.specs.Option.{ForSome};
ghost use Rattle.tk_types.specs.declared.object.Item.{Item as I};
ghost use Rattle.tk_types.specs.Rejected.{IsRefusal};
ghost use Rattle.tk_bind.specs.Readings.{ReadsObject};
ghost use Rattle.tk_journal.specs.declared.act.Admission.TheVariants.{Run};
ghost use Rattle.tk_admit.specs.Measure.{HasSize, IsMeasureOf, named_pipeline as pipeline_named_in};
ghost use Rattle.tk_admit.specs.Objects.{matrix_finding};
ghost use Rattle.tk_admit.specs.Sound.{HasFewEach, IsSound};
ghost use Rattle.tk_admit.specs.Taken.{resolved, taken_of};

use crate::matrices::check_run;
use crate::measure::{Measure, RunSize, has_tasks, measure_by, size_of};
use crate::taken::{Taken, taken_item};
use crate::weight::{pipeline_weight, task_run_weight};
use std::alloc::{AllocError, Global};
use std::collections::HashMap;
use std::marker::Model;
use tk_journal::Admission;
use tk_resolve::Resolver;
use tk_types::{Item, ItemObject, PipelineSource, Place, Rejected, RunSpec, Text};

/// The objects that stand earlier in an input, with the size of the runs of each Pipeline without a matrix of which one was
/// taken. A contract sees the objects, in their order.
#[derive(Drop)]
pub(crate) struct Intake<'a> {
    earlier: Resolver<'a>,
    sizes: HashMap<&'a str, RunSize>,
}

impl<'a> Model for Intake<'a> {
    ghost use Rattle.std.specs.Prelude.{List as Items, ℕ, bytes_eq};
    ghost use Rattle.std.specs.Option.{ForSome};
    ghost use Rattle.std.specs.HashMap.{get_by};
    ghost use Rattle.tk_types.specs.declared.object.Item.{Item};
    ghost use Rattle.tk_admit.specs.Measure.{IsKnownSize};

    ghost Value = { Items Item };

    ghost view = { λ intake. intake.earlier };

    ghost invariant = { λ intake. (name : Items ℕ) → ForSome (get_by (λ k. bytes_eq name k.now) intake.sizes) (IsKnownSize intake.earlier name) };
}

/// The name of the Pipeline that a PipelineRun refers to.
fn named_pipeline(object: &ItemObject) -> Option<&Text>
    ensures { option_map (λ name. name.now) result ≡ pipeline_named_in object.now }
{
    match object {
        ItemObject::PipelineRun(run) => match &run.source {
            PipelineSource::Named(name) => Some(name),
            PipelineSource::Inlined(_) => None,
        },
        _ => None,
    }
}

impl<'a> Intake<'a> {
    /// No object.
    pub(crate) fn new(alloc: Global) -> Self
        ensures { result ≡ [] }
    {
        Intake {
            earlier: Resolver::new(alloc),
            sizes: HashMap::new(alloc),
        }
    }

    /// Adds the object that stands next. The only error is want of memory, and nothing is added then.
    pub(crate) fn add(&mut self, alloc: Global, item: &'a Item) -> Result<(), AllocError>
        ensures added { OnOk result (self.new ≡ self.old ++ item.now ∷ []) }
        ensures kept { OnErr result (self.new ≡ self.old) }
    {
        self.earlier.add(alloc, item)
    }

    /// An object as a run that is taken in, if it is one. The only error is want of memory.
    pub(crate) fn run(&mut self, alloc: Global, item: &'a Item) -> Result<Option<Taken>, AllocError>
        requires own { ReadsObject item.now.object }
        requires earlier { All (λ (i : I). ReadsObject i.object) self.old }
        ensures run { IfOk result (λ run. run ≡ taken_of (self.old, item.now)) }
        ensures kept { self.new ≡ self.old }
    {
        taken_item(alloc, &mut self.earlier, item)
    }

    /// The size of a run with tasks, if it is known.
    fn known_size(&self, object: &ItemObject, spec: &RunSpec) -> Option<RunSize>
        requires { resolved self.now object.now ≡ Some (Run spec.now) }
        ensures { ForSome result (HasSize spec.now) }
    {
        if !has_tasks(spec) {
            return None;
        }
        match named_pipeline(object) {
            Some(name) => self.sizes.get(name.as_str()).copied(),
            None => None,
        }
    }

    /// Keeps the size of a run with tasks, if it names a Pipeline. The only error is want of memory.
    fn learn(
        &mut self,
        object: &'a ItemObject,
        spec: &RunSpec,
        size: RunSize,
    ) -> Result<(), AllocError>
        requires run { resolved self.old object.now ≡ Some (Run spec.now) }
        requires size { HasSize spec.now size }
        ensures { self.new ≡ self.old }
    {
        if !has_tasks(spec) {
            return Ok(());
        }
        if let Some(name) = named_pipeline(object) {
            self.sizes.insert(name.as_str(), size)?;
        }
        Ok(())
    }

    /// What is found of a run whose size isn't known, and is kept for the next of its Pipeline.
    fn measure_anew(
        &mut self,
        alloc: Global,
        object: &'a ItemObject,
        spec: &RunSpec,
    ) -> Result<Measure, AllocError>
        requires run { resolved self.old object.now ≡ Some (Run spec.now) }
        requires sound { IsSound (Run spec.now) }
        ensures measure { IfOk result (IsMeasureOf (Run spec.now)) }
        ensures kept { self.new ≡ self.old }
    {
        let weight = pipeline_weight(alloc, spec)?;
        match size_of(spec, weight) {
            Some(size) => {
                self.learn(object, spec, size)?;
                Ok(measure_by(spec, size))
            }
            None => Ok(Measure {
                weight,
                whole: false,
            }),
        }
    }

    /// The same of a PipelineRun, which is refused where a settled matrix of it has too many combinations. No task is looked
    /// at where the size is known.
    fn measure_run(
        &mut self,
        alloc: Global,
        place: &Place,
        object: &'a ItemObject,
        spec: &RunSpec,
    ) -> Result<Measure, Rejected>
        requires run { resolved self.old object.now ≡ Some (Run spec.now) }
        requires sound { IsSound (Run spec.now) }
        ensures refused { IfErr result (IsRefusal (matrix_finding place.now (Run spec.now))) }
        ensures none { OnOk result (matrix_finding place.now (Run spec.now) ≡ None) }
        ensures few { OnOk result (HasFewEach (Run spec.now)) }
        ensures measure { IfOk result (IsMeasureOf (Run spec.now)) }
        ensures kept { self.new ≡ self.old }
    {
        if let Some(size) = self.known_size(object, spec) {
            return Ok(measure_by(spec, size));
        }
        check_run(alloc, place, spec)?;
        Ok(self.measure_anew(alloc, object, spec)?)
    }

    /// What is found of a run, which is refused where a settled matrix of it has too many combinations.
    pub(crate) fn measure(
        &mut self,
        alloc: Global,
        object: &'a ItemObject,
        run: &Taken,
    ) -> Result<Measure, Rejected>
        requires run { resolved self.old object.now ≡ Some run.now.spec }
        requires sound { IsSound run.now.spec }
        ensures refused { IfErr result (IsRefusal (matrix_finding run.now.place run.now.spec)) }
        ensures none { OnOk result (matrix_finding run.now.place run.now.spec ≡ None) }
        ensures few { OnOk result (HasFewEach run.now.spec) }
        ensures measure { IfOk result (IsMeasureOf run.now.spec) }
        ensures kept { self.new ≡ self.old }
    {
        match &run.spec {
            Admission::Run(spec) => self.measure_run(alloc, &run.place, object, spec),
            Admission::Task(spec) => Ok(Measure {
                weight: task_run_weight(spec),
                whole: true,
            }),
        }
    }
}
