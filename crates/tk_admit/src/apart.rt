ghost use Rattle.std.specs.Prelude.{◌≡◌, ◌++◌, All, IfOk, OnOk, IsTrue, None};
ghost use Rattle.tk_admit.specs.Apart.{Differ, HasNoFront, HasWholeNames, pipeline_run_name, pipeline_run_names, standalone_name, standalone_names};
ghost use Rattle.tk_admit.specs.Names.{names_finding};
ghost use Rattle.tk_admit.specs.Sound.{IsTaken};
ghost use Rattle.tk_admit.specs.Taken.{run_name};
ghost use Rattle.tk_admit.specs.declared.taken.Taken.{Taken as T};

use crate::taken::Taken;
use std::alloc::{AllocError, Global};
use tk_journal::Admission;
use tk_types::NameSet;

/// Adds the name of a PipelineRun, and tells whether it is new.
#[tactic(auto, using(crate::proofs::NamesAdded::differ_more))]
fn add_pipeline_run<'a>(names: &mut NameSet<'a>, run: &'a Admission) -> Result<bool, AllocError>
    ensures names { OnOk result (names.new ≡ names.old ++ pipeline_run_name run.now) }
    ensures differ { IfOk result (λ is_new. IsTrue is_new → Differ names.old → Differ names.new) }
{
    match run {
        Admission::Run(spec) => Ok(!names.add(spec.name.as_str())?),
        Admission::Task(_) => Ok(true),
    }
}

/// Adds the names of PipelineRuns, and tells whether they are new.
fn add_pipeline_runs<'a>(names: &mut NameSet<'a>, runs: &'a [Taken]) -> Result<bool, AllocError>
    ensures names { IfOk result (λ is_new. IsTrue is_new → names.new ≡ names.old ++ pipeline_run_names runs.now) }
    ensures differ { IfOk result (λ is_new. IsTrue is_new → Differ names.old → Differ names.new) }
{
    for run in runs {
        if !add_pipeline_run(names, &run.spec)? {
            return Ok(false);
        }
    }
    Ok(true)
}

/// Adds the name of a standalone TaskRun, and tells whether it is new.
#[tactic(auto, using(crate::proofs::NamesAdded::differ_more))]
fn add_standalone<'a>(names: &mut NameSet<'a>, run: &'a Admission) -> Result<bool, AllocError>
    ensures names { OnOk result (names.new ≡ names.old ++ standalone_name run.now) }
    ensures differ { IfOk result (λ is_new. IsTrue is_new → Differ names.old → Differ names.new) }
{
    match run {
        Admission::Run(_) => Ok(true),
        Admission::Task(spec) => Ok(!names.add(spec.name.as_str())?),
    }
}

/// Whether the names of standalone TaskRuns differ.
fn standalone_differ(alloc: Global, runs: &[Taken]) -> Result<bool, AllocError>
    ensures { IfOk result (λ differ. IsTrue differ → Differ (standalone_names runs.now)) }
{
    let mut names = NameSet::new(alloc);
    for run in runs {
        if !add_standalone(&mut names, &run.spec)? {
            return Ok(false);
        }
    }
    Ok(true)
}

/// Whether no front of the name that ends before a `-` is one of some names.
fn has_no_front(names: &NameSet<'_>, name: &str) -> bool
    ensures { IsTrue result → HasNoFront names.now name.now }
{
    for (at, byte) in name.as_bytes().iter().enumerate() {
        if *byte == b'-' && names.contains(&name[..at]) {
            return false;
        }
    }
    true
}

/// Whether no run's name begins as that of a child of one of some PipelineRuns.
fn have_no_fronts(names: &NameSet<'_>, runs: &[Taken]) -> bool
    ensures { IsTrue result → All (λ (run : T). HasNoFront names.now (run_name run.spec)) runs.now }
{
    runs.iter().all(|run| match &run.spec {
        Admission::Run(spec) => has_no_front(names, spec.name.as_str()),
        Admission::Task(spec) => has_no_front(names, spec.name.as_str()),
    })
}

/// Whether the runs' own names show that no two of their TaskRuns can share a name, where the children of each are seen
/// to have whole names. No name is made: each front of a run's name that ends before a `-` is looked up once. The only
/// error is want of memory.
#[tactic(auto, using(crate::proofs::RunsApart::no_clash))]
pub(crate) fn are_apart(alloc: Global, runs: &[Taken], whole: bool) -> Result<bool, AllocError>
    requires taken { All IsTaken runs.now }
    requires whole { IsTrue whole → All (λ (run : T). HasWholeNames run.spec) runs.now }
    ensures { IfOk result (λ apart. IsTrue apart → names_finding runs.now ≡ None) }
{
    let mut names = NameSet::new(alloc);
    Ok(
        whole
            && add_pipeline_runs(&mut names, runs)?
            && have_no_fronts(&names, runs)
            && standalone_differ(alloc, runs)?,
    )
}
