ghost use Rattle.std.specs.Prelude.{◌≡◌, [], true, IfOk, is_some};
ghost use Rattle.std.specs.Option.{ForSome};
ghost use Rattle.tk_types.specs.Fault.{too_long};
ghost use Rattle.tk_verdict.specs.WellFormed.{IsWellFormed};
ghost use Rattle.tk_journal.specs.Legal.{IsLegal};
ghost use Rattle.tk_report.specs.Objects.{HasMoments};
ghost use Rattle.tk_commands.specs.Answer.{IsAnswer, reported as reported_by};
ghost use Rattle.tk_commands.specs.Due.{decided as decided_facts, rejected as due_rejected, IsCheckDue, IsDecideDue, IsDecided, IsRefusalDue};

use crate::command::Command;
use crate::due::{Due, checked, decided, rejected, reported};
use crate::unready::said_of;
use std::alloc::{AllocError, Global};
use std::mem;
use tk_admit::admit;
use tk_journal::Journal;
use tk_manifest::{Document, KindSet};
use tk_simulate::simulate;
use tk_types::{Detail, Facts, Fault, Place, Rejected};
use tk_verdict::Decision;

/// The folder below which a run's files would stand; `check` and `decide` start none.
const ROOT: &str = "/work";

/// What a command answers for an input: what is due, and the journal that its runs come to, which is empty where none ran.
/// Beside it, what is said to people of what is admitted and can't start, if anything.
#[derive(Drop)]
pub struct Answer {
    pub due: Due,
    pub journal: Journal,
    pub warnings: Option<String>,
}

/// What is due for the facts of a run.
fn decided_run(alloc: Global, facts: &Facts) -> Result<Due, AllocError>
    requires { IsWellFormed facts.now }
    ensures { IfOk result (λ due. due ≡ decided_facts facts.now) }
{
    let decision = Decision::new(alloc, facts)?;
    let labels = decision.labels(alloc)?;
    let condition = decision.condition_with(alloc, labels.as_slice())?;
    let results = decision.results(alloc)?;
    decided(
        alloc,
        facts,
        labels.as_slice(),
        &condition,
        results.as_slice(),
    )
}

/// The same of facts that are there.
fn decided_there(alloc: Global, facts: &Option<Facts>) -> Result<Due, AllocError>
    requires well_formed { ForSome facts.now IsWellFormed }
    requires there { is_some facts.now ≡ true }
    ensures { IfOk result (IsDecided facts.now) }
{
    match facts {
        Some(facts) => decided_run(alloc, facts),
        None => unreachable!(),
    }
}

/// What is due for an input that is refused.
pub(crate) fn refused(alloc: Global, refused: &Rejected) -> Result<Due, AllocError>
    ensures { IfOk result (IsRefusalDue refused.now) }
{
    match refused {
        Rejected::Fault(fault) => rejected(alloc, fault),
        Rejected::Memory => Err(AllocError),
    }
}

/// What `decide` prints for the bytes of an input.
fn decide(alloc: Global, bytes: &[u8]) -> Result<Due, AllocError>
    ensures { IfOk result (IsDecideDue bytes.now) }
{
    let document = Document::new(alloc, bytes)?;
    let admitted = admit(alloc, &document, KindSet::WithOutcomes, 0, ROOT);
    mem::forget(document);
    match admitted {
        Ok(admitted) => {
            let due = decided_there(alloc, &admitted.outcomes);
            mem::forget(admitted);
            due
        }
        Err(error) => refused(alloc, &error),
    }
}

/// What is due without a journal.
pub(crate) fn without_journal(alloc: Global, due: Due) -> Answer
    ensures due { result.due ≡ due }
    ensures journal { result.journal.history ≡ [] }
{
    Answer {
        due,
        journal: Journal::empty(alloc),
        warnings: None,
    }
}

/// What `check` answers for the bytes of an input.
fn check(alloc: Global, bytes: &[u8]) -> Result<Answer, AllocError>
    ensures due { IfOk result (λ answer. IsCheckDue bytes.now answer.due) }
    ensures journal { IfOk result (λ answer. answer.journal.history ≡ []) }
{
    let document = Document::new(alloc, bytes)?;
    let admitted = admit(alloc, &document, KindSet::Four, 0, ROOT);
    // What was read, and below what was admitted, goes with the program, which ends once this is printed.
    mem::forget(document);
    match admitted {
        Ok(admitted) => {
            let due = checked(alloc, admitted.objects);
            let warnings = said_of(alloc, admitted.entries.as_slice(), bytes);
            mem::forget(admitted);
            Ok(Answer {
                due: due?,
                journal: Journal::empty(alloc),
                warnings,
            })
        }
        Err(error) => Ok(without_journal(alloc, refused(alloc, &error)?)),
    }
}

/// What `simulate` answers for the bytes of an input.
fn simulated(alloc: Global, json: bool, bytes: &[u8]) -> Result<Answer, AllocError>
    ensures { IfOk result (IsAnswer (Command.Simulate json) bytes.now) }
{
    match simulate(alloc, bytes) {
        Ok(journal) => Ok(Answer {
            due: reported(alloc, json, &journal)?,
            journal,
            warnings: None,
        }),
        Err(error) => Ok(without_journal(alloc, refused(alloc, &error)?)),
    }
}

/// What a command answers for the bytes of an input.
pub fn answer_of(alloc: Global, command: Command, bytes: &[u8]) -> Result<Answer, AllocError>
    ensures { IfOk result (IsAnswer command bytes.now) }
{
    match command {
        Command::Check => check(alloc, bytes),
        Command::Decide => Ok(without_journal(alloc, decide(alloc, bytes)?)),
        Command::Simulate { json } => simulated(alloc, json, bytes),
    }
}

/// What a command answers for an input that is too long.
pub fn too_long_answer(alloc: Global) -> Result<Answer, AllocError>
    ensures due { IfOk result (λ answer. answer.due ≡ due_rejected too_long) }
    ensures journal { IfOk result (λ answer. answer.journal.history ≡ []) }
{
    let fault = Fault {
        number: Fault::TOO_LONG,
        place: Place::root(alloc),
        detail: Detail::Nothing,
    };
    Ok(without_journal(alloc, rejected(alloc, &fault)?))
}
