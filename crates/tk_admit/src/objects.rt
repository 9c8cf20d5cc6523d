ghost use Rattle.std.specs.Prelude.{◌≡◌, ◌∷◌, [], ◌++◌, All, IfErr, IfOk, None, OnOk, option_map, option_to_list};
ghost use Rattle.std.specs.List.{list_any};
ghost use Rattle.std.specs.Option.{ForSome};
ghost use Rattle.tk_types.specs.declared.fault.Detail.TheVariants.{Names};
ghost use Rattle.tk_types.specs.Rejected.{IsRefusal, Reads};
ghost use Rattle.tk_admit.specs.Measure.{IsMeasureOf, IsTallied};
ghost use Rattle.tk_admit.specs.Objects.{is_same_object as is_same, object_finding, objects_finding, same_name_finding};
ghost use Rattle.tk_admit.specs.Sound.{IsTaken, IsValid};
ghost use Rattle.tk_admit.specs.Taken.{taken, taken_of};

use crate::intake::Intake;
use crate::laws::taken_is_sound;
use crate::measure::Measure;
use crate::taken::Taken;
use std::alloc::{AllocError, Global};
use tk_types::{Detail, Fault, Item, ItemObject, List, Location, Rejected, Text, TryCopy, told};
use tk_validate::laws::valid_reads;

/// The runs of an input that are taken in, what they weigh, and whether the children of each PipelineRun are seen to have
/// whole names.
#[derive(Drop)]
pub(crate) struct TakenRuns {
    pub runs: Vec<Taken>,
    pub weight: u64,
    pub whole: bool,
}

/// Whether another object has the kind and the name.
fn is_same_object(object: &ItemObject, other: &Item) -> bool
    ensures { result ≡ is_same object.now other.now }
{
    object.kind() == other.object.kind() && object.name().as_str() == other.object.name().as_str()
}

/// Whether an object of the kind and the name stood before; an input has at most 1,000.
fn stood_before(earlier: &[Item], object: &ItemObject) -> bool
    ensures { result ≡ list_any (is_same object.now) earlier.now }
{
    earlier.iter().any(|other| is_same_object(object, other))
}

/// What tells one name.
pub(crate) fn one_name(alloc: Global, name: &Text) -> Result<Detail, AllocError>
    ensures { IfOk result (λ detail. detail ≡ Names (name.now ∷ [])) }
{
    let mut names = List::new(alloc);
    names.push(name.copy(alloc)?)?;
    Ok(Detail::Names(names))
}

/// Refuses an object of whose kind and name one stood before.
fn check_name(alloc: Global, earlier: &[Item], item: &Item) -> Result<(), Rejected>
    ensures { Reads (same_name_finding earlier.now item.now) tt result }
{
    if stood_before(earlier, &item.object) {
        let detail = one_name(alloc, item.object.name())?;
        return Err(told(alloc, Fault::DUPLICATE, &Location::of(&item.place), detail));
    }
    Ok(())
}

/// An object, behind those before it, as a run that is taken in with what is found of it, if it is one; it is refused where
/// one of its kind and name stood before, or where a settled matrix of it has too many combinations.
fn take<'a>(
    alloc: Global,
    before: &[Item],
    earlier: &mut Intake<'a>,
    item: &'a Item,
) -> Result<Option<(Taken, Measure)>, Rejected>
    requires same { earlier.old ≡ before.now }
    requires valid { All IsValid before.now }
    requires own { IsValid item.now }
    ensures refused { IfErr result (IsRefusal (object_finding (before.now, item.now))) }
    ensures none { OnOk result (object_finding (before.now, item.now) ≡ None) }
    ensures run { IfOk result (λ run. option_map (λ r. r.0) run ≡ taken_of (before.now, item.now)) }
    ensures taken { IfOk result (λ run. ForSome run (λ r. IsTaken r.0 × IsMeasureOf r.0.spec r.1)) }
    ensures kept { earlier.new ≡ earlier.old }
{
    valid_reads();
    taken_is_sound();
    check_name(alloc, before, item)?;
    let Some(run) = earlier.run(alloc, item)? else {
        return Ok(None);
    };
    let measure = earlier.measure(alloc, &item.object, &run)?;
    Ok(Some((run, measure)))
}

impl TakenRuns {
    /// No run.
    fn new(alloc: Global) -> Self
        ensures none { result.runs.items ≡ [] }
        ensures tallied { IsTallied result }
    {
        TakenRuns {
            runs: Vec::new(alloc),
            weight: 0,
            whole: true,
        }
    }

    /// Adds a run with what is found of it, if it is there. The only error is want of memory.
    fn add(&mut self, run: Option<(Taken, Measure)>) -> Result<(), AllocError>
        requires tallied { IsTallied self.old }
        requires run { ForSome run (λ r. IsTaken r.0 × IsMeasureOf r.0.spec r.1) }
        ensures runs { OnOk result (self.new.runs.items ≡ self.old.runs.items ++ option_to_list (option_map (λ r. r.0) run)) }
        ensures tallied { OnOk result (IsTallied self.new) }
    {
        if let Some((run, measure)) = run {
            self.runs.push(run)?;
            self.weight = self.weight.saturating_add(measure.weight);
            self.whole = self.whole && measure.whole;
        }
        Ok(())
    }
}

/// Takes the object that stands next: its run is added, if it is one, and it is then one of the earlier objects.
fn take_next<'a>(
    alloc: Global,
    runs: &mut TakenRuns,
    before: &[Item],
    earlier: &mut Intake<'a>,
    item: &'a Item,
) -> Result<(), Rejected>
    requires same { earlier.old ≡ before.now }
    requires valid { All IsValid before.now }
    requires own { IsValid item.now }
    requires tallied { IsTallied runs.old }
    ensures found { Reads (object_finding (before.now, item.now)) tt result }
    ensures earlier { OnOk result (earlier.new ≡ before.now ++ item.now ∷ []) }
    ensures runs { OnOk result (runs.new.runs.items ≡ runs.old.runs.items ++ option_to_list (taken_of (before.now, item.now))) }
    ensures tallied { OnOk result (IsTallied runs.new) }
{
    let run = take(alloc, before, earlier, item)?;
    runs.add(run)?;
    earlier.add(alloc, item)?;
    Ok(())
}

/// The runs of an input that are taken in, each with all that it refers to among the objects before it; refused is the
/// first object of whose kind and name one stood before, or of which a settled matrix has too many combinations.
pub(crate) fn take_all(alloc: Global, items: &[Item]) -> Result<TakenRuns, Rejected>
    requires { All IsValid items.now }
    ensures refused { IfErr result (IsRefusal (objects_finding items.now)) }
    ensures none { OnOk result (objects_finding items.now ≡ None) }
    ensures runs { IfOk result (λ runs. runs.runs.items ≡ taken items.now) }
    ensures tallied { IfOk result IsTallied }
{
    let mut earlier = Intake::new(alloc);
    let mut runs = TakenRuns::new(alloc);
    for (index, item) in items.iter().enumerate() {
        take_next(alloc, &mut runs, &items[..index], &mut earlier, item)?;
    }
    Ok(runs)
}
