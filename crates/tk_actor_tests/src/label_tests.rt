//! Kept labels beside labels made anew, after each change of runs that are drawn by their number.
ghost use Rattle.std.specs.Prelude.{IfOk, OnOk};
ghost use Rattle.std.specs.Option.{ForSome};
ghost use Rattle.tk_cache.specs.Fronts.{Shows};
ghost use Rattle.tk_cache.specs.Views.{seen};
ghost use Rattle.tk_journal.specs.Legal.{IsLegal};

use crate::journals::{delivered, fresh, journal_of, show};
use std::alloc::{AllocError, Global};
use std::test::Fail;
use tk_gen::generate;
use tk_journal::Journal;
use tk_labels::Labels;
use tk_run_cache::RunCache;
use tk_types::{Kind, List, Verdict};
use tk_verdict::verdicts;

/// How many tasks a run has in `tasks`.
const SIZE: u32 = 5;

/// Two tasks of `finally`, the second behind a guard, in front of `tasks`.
const FINALLY: &str = r#""finally":[
    {"name":"f","taskSpec":{"steps":[{"command":["true"]}]}},
    {"name":"g","when":[{"input":"$(tasks.t0.status)","operator":"notin","values":["Failed"]}],
     "taskSpec":{"steps":[{"command":["true"]}]}}],
    "tasks":"#;

/// A Scenario up to its outcomes.
const SCENARIO: &str =
    r#",{"apiVersion":"tkn.local/v1","kind":"Scenario","metadata":{"name":"s"},"spec":{"outcomes":["#;

/// What ends its outcomes, and begins its events.
const EVENTS: &str = r#"{"taskRun":"other","attempt":1,"exits":[1]}],"events":["#;

/// What ends all.
const END: &str = r#""round"]}}],"kind":"List"}"#;

/// What is asked of the run behind some rounds, by its number.
fn asked(number: u32) -> &'static str {
    match number % 5 {
        0 => r#""ask gen StoppedRunFinally","#,
        1 => r#""ask gen CancelledRunFinally","#,
        2 => r#""ask gen Cancelled","#,
        _ => "",
    }
}

/// Writes that all attempts of a task fail, and of its second combination where it has a matrix.
fn write_failure(alloc: Global, text: &mut String, task: u32) -> Result<(), AllocError> {
    for attempt in 1..4 {
        for end in ["", "-1"] {
            let outcome = format!(in alloc;
                r#"{{"taskRun":"gen-t{task}{end}","attempt":{attempt},"exits":[1]}},"#
            )?;
            text.push_str(outcome.as_str())?;
        }
    }
    Ok(())
}

/// Writes rounds, each with a comma behind it.
fn write_rounds(text: &mut String, count: u32) -> Result<(), AllocError> {
    for _ in 0..count {
        text.push_str(r#""round","#)?;
    }
    Ok(())
}

/// Writes a Scenario in which one task fails of three runs of four, and something is asked of three runs of five.
fn write_scenario(alloc: Global, text: &mut String, number: u32) -> Result<(), AllocError> {
    text.push_str(SCENARIO)?;
    if number % 4 != 0 {
        write_failure(alloc, text, number % SIZE)?;
    }
    text.push_str(EVENTS)?;
    write_rounds(text, number % 7 + 2)?;
    text.push_str(asked(number))?;
    text.push_str(END)
}

/// The generated run of a number up to its tasks, and its tasks, where the text has the form that is looked for.
fn parts_of(generated: &str) -> Option<(&str, &str)> {
    let (front, rest) = generated.split_once(r#""tasks":"#)?;
    let (tasks, _) = rest.split_once(r#"],"kind":"List""#)?;
    Some((front, tasks))
}

/// The run of a number, with its Scenario.
fn input(alloc: Global, number: u32) -> Result<Option<String>, AllocError> {
    let generated = generate(alloc, number, SIZE)?;
    let Some((front, tasks)) = parts_of(generated.as_str()) else {
        return Ok(None);
    };
    let mut text = String::from_str(alloc, front)?;
    text.push_str(FINALLY)?;
    text.push_str(tasks)?;
    write_scenario(alloc, &mut text, number)?;
    Ok(Some(text))
}

/// The journal of the run of a number.
fn played(alloc: Global, number: u32) -> Result<Option<Journal>, AllocError>
    ensures { IfOk result (λ found. ForSome found (λ journal. IsLegal journal.history)) }
{
    match input(alloc, number)? {
        Some(text) => Ok(journal_of(alloc, text.as_str())),
        None => Ok(None),
    }
}

/// What was seen of runs: at how many positions labels were those made anew and at how many others, and how many of these positions
/// had a stop, and had all done.
#[derive(Drop)]
struct Tally {
    same: u32,
    different: u32,
    stopped: u32,
    done: u32,
}

/// The labels that are made anew of the same facts.
fn anew(alloc: Global, labels: &Labels) -> Result<List<Verdict>, AllocError> {
    labels.formed();
    let facts = labels.facts(alloc)?;
    verdicts(alloc, &facts)
}

/// Whether these are the same labels.
fn are_same(labels: &[Verdict], others: &[Verdict]) -> bool {
    labels == others
}

/// Whether labels are those that are made anew of the same facts.
fn is_as_anew(alloc: Global, labels: &Labels) -> Result<bool, AllocError> {
    let anew = anew(alloc, labels)?;
    Ok(are_same(anew.as_slice(), labels.labels()))
}

impl Tally {
    /// Compares the labels of the run, where it is shown.
    fn compare(&mut self, alloc: Global, cache: &RunCache) -> Result<(), AllocError> {
        let Some(labels) = cache.labels("gen") else {
            return Ok(());
        };
        if is_as_anew(alloc, labels)? {
            self.same = self.same.saturating_add(1);
        } else {
            self.different = self.different.saturating_add(1);
        }
        self.look(labels);
        Ok(())
    }

    /// Counts what can be seen of labels.
    fn look(&mut self, labels: &Labels) {
        if !labels.stops().is_empty() {
            self.stopped = self.stopped.saturating_add(1);
        }
        if labels.all_done() {
            self.done = self.done.saturating_add(1);
        }
    }

    /// Shows a cache a kind as it stood at a position, and compares.
    fn step(
        &mut self,
        alloc: Global,
        cache: &mut RunCache,
        journal: &Journal,
        shown: (Kind, u64),
    ) -> Result<(), AllocError>
        requires legal { IsLegal journal.now.history }
        requires shows { Shows (seen cache.old) journal.now.history }
        ensures { OnOk result (Shows (seen cache.new) journal.now.history) }
    {
        show(cache, journal, shown.0, shown.1)?;
        self.compare(alloc, cache)
    }

    /// Compares at each position of a journal, once the TaskRuns are shown and again once the runs are, and where all was
    /// delivered at once.
    fn go(&mut self, alloc: Global, journal: &Journal) -> Result<(), AllocError>
        requires { IsLegal journal.now.history }
    {
        let mut cache = fresh(alloc, journal);
        for place in 0..journal.len() {
            self.step(alloc, &mut cache, journal, (Kind::TaskRuns, place + 1))?;
            self.step(alloc, &mut cache, journal, (Kind::Runs, place + 1))?;
        }
        self.compare(alloc, &delivered(alloc, journal)?)
    }
}

/// What is seen of the run of a number.
fn tallied(alloc: Global, number: u32, tally: &mut Tally) -> Result<bool, AllocError> {
    let Some(journal) = played(alloc, number)? else {
        return Ok(false);
    };
    tally.go(alloc, &journal)?;
    Ok(true)
}

#[test]
fn kept_labels_are_those_made_anew(rt: HostRuntime) -> Result<(), Fail> {
    let alloc = rt.alloc();
    let mut tally = Tally {
        same: 0,
        different: 0,
        stopped: 0,
        done: 0,
    };
    for number in 1..51 {
        assert!(rt; tallied(alloc, number, &mut tally)?);
    }
    assert_eq!(rt; (tally.same, tally.different), (3860, 0));
    assert!(rt; tally.stopped > 0 && tally.done > 0);
    Ok(())
}
