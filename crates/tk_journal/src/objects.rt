ghost use Rattle.std.specs.Prelude.{◌≡◌, ◌≤◌, length, option_copied, IfOk};
ghost use Rattle.tk_journal.specs.Effects.{task_run_made};
ghost use Rattle.tk_journal.specs.History.{counts, object_of, past, pod_of, pod_written, run_of, run_written, task_run_of, task_run_written, version_of};

use crate::act::Act;
use crate::entry::Entry;
use crate::journal::Journal;
use crate::object::{Object, PodState, RunState, TaskRunState};
use std::alloc::{AllocError, Global};
use tk_types::Kind;

/// A run after an entry that writes it.
fn run_written(
    alloc: Global,
    before: Option<RunState>,
    entry: &Entry,
) -> Result<Option<RunState>, AllocError>
    ensures { IfOk result (λ after. after ≡ run_written entry.now before) }
{
    match before {
        None => RunState::made(alloc, &entry.act),
        Some(mut run) => {
            run.apply(alloc, entry.moment, &entry.act)?;
            Ok(Some(run))
        }
    }
}

/// A pod after an entry that writes it.
fn pod_written(
    alloc: Global,
    before: Option<PodState>,
    entry: &Entry,
) -> Result<Option<PodState>, AllocError>
    ensures { IfOk result (λ after. after ≡ pod_written entry.now before) }
{
    match before {
        None => PodState::made(alloc, &entry.act),
        Some(mut pod) => {
            pod.apply(alloc, entry.actor, &entry.act)?;
            Ok(Some(pod))
        }
    }
}

/// Whether an entry that writes an object gives it a new version: it makes it, or the object is there.
fn counts(entry: &Entry, version: u64) -> bool
    ensures { result ≡ counts entry.now version }
{
    entry.act.is_create() || 0 < version
}

impl Journal {
    /// The version of an object after so many entries: the position of the last one that wrote it, or 0 where it isn't
    /// there.
    #[tactic(auto, using(crate::proofs::Positions::version_counts, crate::proofs::Positions::version_waits, crate::proofs::Positions::version_other))]
    pub fn version_of(&self, kind: Kind, name: &str, position: u64) -> u64
        requires within { position ≤ length self.now.history }
        ensures { result ≡ version_of kind name.now (past position self.now.history) }
    {
        let mut version = 0;
        for place in 0..position {
            let entry = self.entry(place + 1);
            if entry.writes(kind, name) && counts(entry, version) {
                version = place + 1;
            }
        }
        version
    }

    /// A run after so many entries, if it is there. The only error is want of memory.
    #[tactic(auto, using(crate::proofs::Positions::run_hit, crate::proofs::Positions::run_miss))]
    pub fn run_at(
        &self,
        alloc: Global,
        name: &str,
        position: u64,
    ) -> Result<Option<RunState>, AllocError>
        requires within { position ≤ length self.now.history }
        ensures { IfOk result (λ run. run ≡ run_of (past position self.now.history) name.now) }
    {
        let mut run = None;
        for place in 0..position {
            let entry = self.entry(place + 1);
            if entry.writes(Kind::Runs, name) {
                run = run_written(alloc, run, entry)?;
            }
        }
        Ok(run)
    }

    /// The TaskRun that an entry behind so many entries makes, if it makes one.
    fn task_run_made(
        &self,
        alloc: Global,
        act: &Act,
        position: u64,
    ) -> Result<Option<TaskRunState>, AllocError>
        requires within { position ≤ length self.now.history }
        ensures { IfOk result (λ made. made ≡ task_run_made (run_of (past position self.now.history)) act.now) }
    {
        if let Act::MakeTaskRun { run, .. } = act {
            let run = self.run_at(alloc, run.as_str(), position)?;
            return TaskRunState::made(alloc, act, run.as_ref());
        }
        TaskRunState::made(alloc, act, None)
    }

    /// A TaskRun after an entry that writes it and stands behind so many entries.
    fn task_run_written(
        &self,
        alloc: Global,
        before: Option<TaskRunState>,
        entry: &Entry,
        position: u64,
    ) -> Result<Option<TaskRunState>, AllocError>
        requires within { position ≤ length self.now.history }
        ensures { IfOk result (λ after. after ≡ task_run_written (run_of (past position self.now.history)) entry.now before) }
    {
        match before {
            None => self.task_run_made(alloc, &entry.act, position),
            Some(mut task_run) => {
                task_run.apply(alloc, entry.moment, &entry.act)?;
                Ok(Some(task_run))
            }
        }
    }

    /// A TaskRun after so many entries, if it is there. The only error is want of memory.
    #[tactic(auto, using(crate::proofs::Positions::task_run_hit, crate::proofs::Positions::task_run_miss))]
    pub fn task_run_at(
        &self,
        alloc: Global,
        name: &str,
        position: u64,
    ) -> Result<Option<TaskRunState>, AllocError>
        requires within { position ≤ length self.now.history }
        ensures { IfOk result (λ task_run. task_run ≡ task_run_of (past position self.now.history) name.now) }
    {
        let mut task_run = None;
        for place in 0..position {
            let entry = self.entry(place + 1);
            if entry.writes(Kind::TaskRuns, name) {
                task_run = self.task_run_written(alloc, task_run, entry, place)?;
            }
        }
        Ok(task_run)
    }

    /// A pod after so many entries, if it is there. The only error is want of memory.
    #[tactic(auto, using(crate::proofs::Positions::pod_hit, crate::proofs::Positions::pod_miss))]
    pub fn pod_at(
        &self,
        alloc: Global,
        name: &str,
        position: u64,
    ) -> Result<Option<PodState>, AllocError>
        requires within { position ≤ length self.now.history }
        ensures { IfOk result (λ pod. pod ≡ pod_of (past position self.now.history) name.now) }
    {
        let mut pod = None;
        for place in 0..position {
            let entry = self.entry(place + 1);
            if entry.writes(Kind::Pods, name) {
                pod = pod_written(alloc, pod, entry)?;
            }
        }
        Ok(pod)
    }

    /// An object after so many entries; None exactly where it isn't there. The only error is want of memory.
    pub fn object_at(
        &self,
        alloc: Global,
        kind: Kind,
        name: &str,
        position: u64,
    ) -> Result<Option<Object>, AllocError>
        requires within { position ≤ length self.now.history }
        ensures { IfOk result (λ object. object ≡ object_of kind (past position self.now.history) name.now) }
    {
        match kind {
            Kind::Runs => Ok(self.run_at(alloc, name, position)?.map(Object::Run)),
            Kind::TaskRuns => Ok(
                self.task_run_at(alloc, name, position)?
                    .map(Object::TaskRun),
            ),
            Kind::Pods => Ok(self.pod_at(alloc, name, position)?.map(Object::Pod)),
        }
    }
}
