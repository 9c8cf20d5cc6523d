ghost use Rattle.std.specs.Prelude.{◌≡◌, IfOk, map};
ghost use Rattle.tk_admit.specs.Taken.{entry_of as entry_of_run, run_name as name_of_run};

use crate::taken::Taken;
use std::alloc::{AllocError, Global};
use tk_journal::{Act, Actor, Admission, Entry, Fronts};
use tk_types::{List, Text, TryCopy};

/// A run's name.
fn run_name(admission: &Admission) -> &Text
    ensures { result.now ≡ name_of_run admission.now }
{
    match admission {
        Admission::Run(spec) => &spec.name,
        Admission::Task(spec) => &spec.name,
    }
}

/// The entry by which a run is taken in: admission has seen nothing of the journal.
fn entry_of(alloc: Global, root: &str, run: Taken) -> Result<Entry, AllocError>
    ensures { IfOk result (λ entry. entry ≡ entry_of_run root.now run) }
{
    let name = run_name(&run.spec).copy(alloc)?;
    let root = Text::from_str(alloc, root)?;
    let Taken {
        spec,
        pending,
        asked,
        ..
    } = run;
    Ok(Entry {
        actor: Actor::Admission,
        fronts: Fronts {
            runs: 0,
            task_runs: 0,
            pods: 0,
        },
        moment: 0,
        act: Act::Admit {
            name,
            spec,
            pending,
            asked,
            root,
        },
    })
}

/// The entries by which runs are taken in, in their order.
pub(crate) fn entries(
    alloc: Global,
    root: &str,
    runs: Vec<Taken>,
) -> Result<List<Entry>, AllocError>
    ensures { IfOk result (λ entries. entries ≡ map (entry_of_run root.now) runs.items) }
{
    let mut entries = Vec::new(alloc);
    for run in runs {
        entries.push(entry_of(alloc, root, run)?)?;
    }
    Ok(List::from_vec(entries))
}
