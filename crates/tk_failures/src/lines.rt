use crate::places::{Places, act_at, act_of};
use crate::results::why_refused;
use std::alloc::{AllocError, Global};
use tk_edge::Host;
use tk_journal::{Act, Journal, Plan};
use tk_types::{List, Outcome, Step, Text};

/// A step by its place, and by its name where it has one.
fn step_at(alloc: Global, steps: &[Step], place: usize) -> Result<Text, AllocError> {
    match steps.get(place) {
        Some(
            Step {
                name: Some(name),
                ..
            },
        ) => {
            let name = name.as_str();
            Ok(Text::from_string(format!(in alloc; "step {place} ({name})")?))
        }
        _ => Ok(Text::from_string(format!(in alloc; "step {place}")?)),
    }
}

/// Why an attempt failed without an exit.
fn why_without_exit<H: Host>(
    alloc: Global,
    host: &mut H,
    folder: &str,
    plan: &Plan,
    steps: &[Step],
    exits: &[u8],
) -> Result<Text, AllocError> {
    if exits.len() < plan.orders.len() {
        let step = step_at(alloc, steps, exits.len())?;
        let step = step.as_str();
        return Ok(Text::from_string(format!(in alloc;
            "{step} came to no exit; why stands above"
        )?));
    }
    why_refused(alloc, host, folder, plan.results.as_slice())
}

/// What an attempt came to that failed or timed out.
fn what<H: Host>(
    alloc: Global,
    host: &mut H,
    folder: &str,
    plan: &Plan,
    steps: &[Step],
    exits: &[u8],
    outcome: &Outcome,
) -> Result<Option<Text>, AllocError> {
    match outcome {
        Outcome::Failed {
            exit: Some(exit),
            ..
        } => {
            let step = step_at(alloc, steps, exits.len().saturating_sub(1))?;
            let step = step.as_str();
            Ok(Some(Text::from_string(format!(in alloc; "{step} ended with exit {exit}")?)))
        }
        Outcome::Failed { exit: None, .. } => Ok(Some(why_without_exit(
            alloc, host, folder, plan, steps, exits,
        )?)),
        Outcome::TimedOut => {
            let step = step_at(alloc, steps, exits.len())?;
            let step = step.as_str();
            Ok(Some(Text::from_string(format!(in alloc; "its time was over before {step} ended")?)))
        }
        _ => Ok(None),
    }
}

/// The line of a TaskRun whose last pod ended at a position, where it failed or timed out.
fn line<H: Host>(
    alloc: Global,
    journal: &Journal,
    places: &Places,
    host: &mut H,
    task_run: &str,
    end: u64,
) -> Result<Option<Text>, AllocError> {
    let Some(
        Act::EndPod {
            name,
            exits,
            outcome,
        },
    ) = act_at(journal, end)
    else {
        return Ok(None);
    };
    let pod = name.as_str();
    let Some(Act::MakePod { attempt, plan, .. }) = act_of(journal, &places.pods, pod) else {
        return Ok(None);
    };
    let root = places.root(journal, task_run);
    let folder = format!(in alloc; "{root}/{pod}")?;
    let folder = folder.as_str();
    let steps = places.steps(journal, task_run);
    match what(alloc, host, folder, plan, steps, exits.as_slice(), outcome)? {
        Some(what) => {
            let what = what.as_str();
            Ok(Some(Text::from_string(format!(in alloc;
                "{task_run} failed in attempt {attempt}: {what}; its files are in {folder}"
            )?)))
        }
        None => Ok(None),
    }
}

/// A line for each TaskRun of a journal whose last attempt failed or timed out, in the order in which they first ended: the
/// attempt, counted from 1, the step by its place from 0 and its name, its exit or why there is none, and the pod's folder. The
/// host is asked for the files of results that were refused. The only error is want of memory.
pub fn failures<H: Host>(
    alloc: Global,
    journal: &Journal,
    host: &mut H,
) -> Result<List<Text>, AllocError> {
    let places = Places::of(alloc, journal)?;
    let mut lines = List::new(alloc);
    for (task_run, end) in places.ends.iter() {
        if let Some(line) = line(alloc, journal, &places, host, task_run.as_str(), *end)? {
            lines.push(line)?;
        }
    }
    Ok(lines)
}
