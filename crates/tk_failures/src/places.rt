use indexmap::IndexMap;
use std::alloc::{AllocError, Global};
use tk_journal::{Act, Admission, Closing, Journal};
use tk_types::Step;

/// Positions in a journal by names.
type Names = IndexMap<String, u64>;

/// Where a journal has what it says of each object.
#[derive(Drop)]
pub(crate) struct Places {
    /// The entries that admitted runs.
    pub(crate) runs: Names,
    /// The entries that made TaskRuns.
    pub(crate) task_runs: Names,
    /// The entries that made pods.
    pub(crate) pods: Names,
    /// The last end of a pod of each TaskRun.
    pub(crate) ends: Names,
    /// The entries that closed runs whose condition holds.
    pub(crate) held: Names,
}

/// What the entry at a position does, where there is one.
pub(crate) fn act_at(journal: &Journal, position: u64) -> Option<&Act> {
    if position == 0 || position > journal.len() {
        None
    } else {
        Some(&journal.entry(position).act)
    }
}

/// What the entry of a name does.
pub(crate) fn act_of<'a>(journal: &'a Journal, names: &Names, name: &str) -> Option<&'a Act> {
    act_at(journal, *names.get(name)?)
}

/// Notes where the entry of a name stands; an earlier one of the name no longer counts.
fn note(alloc: Global, names: &mut Names, name: &str, position: u64) -> Result<(), AllocError> {
    let name = String::from_str(alloc, name)?;
    names.insert(name, position)?;
    Ok(())
}

/// The TaskRun of a pod.
pub(crate) fn task_run_of<'a>(journal: &'a Journal, pods: &Names, pod: &str) -> Option<&'a str> {
    match act_of(journal, pods, pod) {
        Some(Act::MakePod { task_run, .. }) => Some(task_run.as_str()),
        _ => None,
    }
}

/// Notes one entry.
fn note_act(
    alloc: Global,
    journal: &Journal,
    places: &mut Places,
    position: u64,
) -> Result<(), AllocError> {
    match act_at(journal, position) {
        Some(
            Act::Admit {
                name,
                spec: Admission::Run(_),
                ..
            },
        ) => note(alloc, &mut places.runs, name.as_str(), position),
        Some(Act::Admit { name, .. }) => note(
            alloc,
            &mut places.task_runs,
            name.as_str(),
            position,
        ),
        Some(Act::MakeTaskRun { name, .. }) => {
            note(alloc, &mut places.task_runs, name.as_str(), position)
        }
        Some(Act::MakePod { name, .. }) => note(alloc, &mut places.pods, name.as_str(), position),
        Some(Act::EndPod { name, .. }) => match task_run_of(journal, &places.pods, name.as_str()) {
            Some(task_run) => note(alloc, &mut places.ends, task_run, position),
            None => Ok(()),
        },
        Some(
            Act::Close {
                name,
                closing: Closing::Run { condition, .. },
            },
        ) if condition.holds => note(alloc, &mut places.held, name.as_str(), position),
        _ => Ok(()),
    }
}

impl Places {
    /// Those of a journal. The only error is want of memory.
    pub(crate) fn of(alloc: Global, journal: &Journal) -> Result<Self, AllocError> {
        let mut places = Places {
            runs: IndexMap::new(alloc),
            task_runs: IndexMap::new(alloc),
            pods: IndexMap::new(alloc),
            ends: IndexMap::new(alloc),
            held: IndexMap::new(alloc),
        };
        for place in 0..journal.len() {
            note_act(alloc, journal, &mut places, place + 1)?;
        }
        Ok(places)
    }

    /// The steps of a TaskRun as its Task declares them.
    pub(crate) fn steps<'a>(&self, journal: &'a Journal, task_run: &str) -> &'a [Step] {
        match act_of(journal, &self.task_runs, task_run) {
            Some(
                Act::Admit {
                    spec: Admission::Task(spec),
                    ..
                },
            ) => spec.body.spec.steps.as_slice(),
            Some(Act::MakeTaskRun { run, task, .. }) => {
                match act_of(journal, &self.runs, run.as_str()) {
                    Some(
                        Act::Admit {
                            spec: Admission::Run(spec),
                            ..
                        },
                    ) => match spec.bodies.as_slice().get(*task as usize) {
                        Some(body) => body.spec.steps.as_slice(),
                        None => &[],
                    },
                    _ => &[],
                }
            }
            _ => &[],
        }
    }

    /// The folder below which the files of a TaskRun stand.
    pub(crate) fn root<'a>(&self, journal: &'a Journal, task_run: &str) -> &'a str {
        match act_of(journal, &self.task_runs, task_run) {
            Some(Act::Admit { root, .. }) => root.as_str(),
            Some(Act::MakeTaskRun { run, .. }) => match act_of(journal, &self.runs, run.as_str()) {
                Some(Act::Admit { root, .. }) => root.as_str(),
                _ => "",
            },
            _ => "",
        }
    }
}
