use crate::places::{Places, act_at, act_of, task_run_of};
use std::alloc::{AllocError, Global};
use tk_journal::{Act, Journal};
use tk_types::{List, Outcome, Text, TryCopy};

/// Whether a TaskRun belongs to a run that closed with a condition that holds, or stands alone and succeeded.
fn is_spent(journal: &Journal, places: &Places, task_run: &str) -> bool {
    match act_of(journal, &places.task_runs, task_run) {
        Some(Act::MakeTaskRun { run, .. }) => places.held.get(run.as_str()).is_some(),
        Some(Act::Admit { .. }) => matches!(
            act_of(journal, &places.ends, task_run),
            Some(Act::EndPod {
                outcome: Outcome::Succeeded(_),
                ..
            })
        ),
        _ => false,
    }
}

/// The pods of runs that closed with a condition that holds, and of TaskRuns that stand alone and succeeded: what is in their
/// folders nobody needs to look for a failure. The only error is want of memory.
pub fn spent_pods(alloc: Global, journal: &Journal) -> Result<List<Text>, AllocError> {
    let places = Places::of(alloc, journal)?;
    let mut pods = List::new(alloc);
    for (_, position) in places.pods.iter() {
        let Some(Act::MakePod { name, .. }) = act_at(journal, *position) else {
            continue;
        };
        if let Some(task_run) = task_run_of(journal, &places.pods, name.as_str()) {
            if is_spent(journal, &places, task_run) {
                pods.push(name.copy(alloc)?)?;
            }
        }
    }
    Ok(pods)
}

/// Whether a run or a TaskRun of this name was admitted.
pub fn is_admitted(journal: &Journal, name: &str) -> bool {
    for place in 0..journal.len() {
        if let Some(Act::Admit { name: other, .. }) = act_at(journal, place + 1) {
            if other.as_str() == name {
                return true;
            }
        }
    }
    false
}
