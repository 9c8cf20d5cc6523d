ghost use Rattle.std.specs.Prelude.{◌≡◌, ◌≤◌, ◌∷◌, length, OnOk};
ghost use Rattle.json.specs.Reads.{token_of};
ghost use Rattle.tk_journal.specs.declared.act.Act.TheVariants.{Admit, Ask, CancelTaskRun, ClaimPod, Close, EndPod, Halt, MakePod, MakeTaskRun, OpenAttempt, Schedule, Start};
ghost use Rattle.tk_journal.specs.declared.act.Closing.TheVariants.{Run};
ghost use Rattle.tk_payload.specs.Fits.{ActFits, AdmissionFits, ClosingFits, SkipFits};
ghost use Rattle.tk_payload.specs.Forms.{act_json, admission_json, closing_json, skip_json};
ghost use Rattle.tk_payload.specs.Reading.{act_admit_at, act_ask_at, act_at, act_cancel_task_run_at, act_claim_pod_at, act_close_at, act_end_pod_at, act_halt_at, act_make_pod_at, act_make_task_run_at, act_open_attempt_at, act_schedule_at, act_start_at, act_under, admission_at, admission_under, closing_at, closing_named, closing_run_at, closing_under, skip_at};
ghost use Rattle.tk_payload.specs.Sound.{IsSound};
ghost use Rattle.tk_payload.specs.Steps.{Gives};
ghost use Rattle.tk_payload.specs.Writing.{appended};

use crate::part::Part;
use crate::refusal::Refusal;
use crate::steps::{
    close, close_under, key, open, open_under, read_member, write_member, write_under, write_word,
};
use json::{Reader, Token, Writer};
use std::alloc::{AllocError, Global};
use tk_journal::{Act, Admission, Closing, Plan, Skip};
use tk_types::{Asked, Binding, Condition, List, Outcome, Param, Stop, Text};

impl Part for Skip {
    ghost fits = { SkipFits };

    ghost json = { skip_json };

    ghost at = { skip_at };

    fn write(&self, out: &mut Writer) -> Result<(), AllocError> {
        out.begin_object()?;
        write_member(out, "reason", &self.reason)?;
        write_member(out, "task", &self.task)?;
        out.end_object()?;
        Ok(())
    }

    #[tactic(auto, unfolding(crate::specs::Reading::skip_at))]
    fn read(alloc: Global, first: Token<'_>, reader: &mut Reader<'_>) -> Result<Skip, Refusal> {
        open(first)?;
        let reason = read_member(alloc, reader, "reason")?;
        let task = read_member(alloc, reader, "task")?;
        close(reader)?;
        Ok(Skip { task, reason })
    }
}

impl Part for Admission {
    ghost fits = { AdmissionFits };

    ghost json = { admission_json };

    ghost at = { admission_at };

    fn write(&self, out: &mut Writer) -> Result<(), AllocError> {
        match self {
            Admission::Run(inner) => write_under(out, "Run", inner),
            Admission::Task(inner) => write_under(out, "Task", inner),
        }
    }

    #[tactic(auto, unfolding(crate::specs::Reading::admission_at))]
    fn read(
        alloc: Global,
        first: Token<'_>,
        reader: &mut Reader<'_>,
    ) -> Result<Admission, Refusal> {
        open(first)?;
        let (name, first) = key(reader)?;
        let admission = admission_under(alloc, name, first, reader)?;
        close(reader)?;
        Ok(admission)
    }
}

impl Part for Closing {
    ghost fits = { ClosingFits };

    ghost json = { closing_json };

    ghost at = { closing_at };

    fn write(&self, out: &mut Writer) -> Result<(), AllocError> {
        match self {
            Closing::Attempt(inner) => write_under(out, "Attempt", inner),
            Closing::TaskRun => write_word(out, "TaskRun"),
            Closing::Run {
                condition,
                skipped,
                results,
            } => write_closing_run(out, condition, skipped, results),
        }
    }

    #[tactic(auto, unfolding(crate::specs::Reading::closing_at, crate::specs::Steps::word_at))]
    fn read(alloc: Global, first: Token<'_>, reader: &mut Reader<'_>) -> Result<Closing, Refusal> {
        match first {
            Token::String(word) => match closing_named(word) {
                Some(closing) => Ok(closing),
                None => Err(Refusal::Unlike),
            },
            Token::BeginObject => {
                let (name, first) = key(reader)?;
                let closing = closing_under(alloc, name, first, reader)?;
                close(reader)?;
                Ok(closing)
            }
            _ => Err(Refusal::Unlike),
        }
    }
}

impl Part for Act {
    ghost fits = { ActFits };

    ghost json = { act_json };

    ghost at = { act_at };

    fn write(&self, out: &mut Writer) -> Result<(), AllocError> {
        match self {
            Act::Admit {
                name,
                spec,
                pending,
                asked,
                root,
            } => write_act_admit(out, name, spec, *pending, asked, root),
            Act::Ask { name, status } => write_act_ask(out, name, *status),
            Act::Start { name } => write_act_start(out, name),
            Act::Schedule {
                name,
                task,
                bindings,
            } => write_act_schedule(out, name, *task, bindings),
            Act::MakeTaskRun {
                name,
                run,
                task,
                index,
                mark,
            } => write_act_make_task_run(out, name, run, *task, *index, *mark),
            Act::Halt { name, stop } => write_act_halt(out, name, *stop),
            Act::CancelTaskRun { name } => write_act_cancel_task_run(out, name),
            Act::OpenAttempt { name } => write_act_open_attempt(out, name),
            Act::MakePod {
                name,
                task_run,
                attempt,
                plan,
                mark,
            } => write_act_make_pod(out, name, task_run, *attempt, plan, *mark),
            Act::ClaimPod { name } => write_act_claim_pod(out, name),
            Act::EndPod {
                name,
                exits,
                outcome,
            } => write_act_end_pod(out, name, exits, outcome),
            Act::Close { name, closing } => write_act_close(out, name, closing),
        }
    }

    #[tactic(auto, unfolding(crate::specs::Reading::act_at))]
    fn read(alloc: Global, first: Token<'_>, reader: &mut Reader<'_>) -> Result<Act, Refusal> {
        open(first)?;
        let (name, first) = key(reader)?;
        let act = act_under(alloc, name, first, reader)?;
        close(reader)?;
        Ok(act)
    }
}

/// Reads what stands under a variant's name.
#[tactic(auto, unfolding(crate::specs::Reading::admission_under))]
fn admission_under(
    alloc: Global,
    name: &str,
    first: Token<'_>,
    reader: &mut Reader<'_>,
) -> Result<Admission, Refusal>
    ensures gives { Gives result reader.new (admission_under name.now (token_of first.entry ∷ reader.old)) }
    ensures shorter { OnOk result (length reader.new ≤ length reader.old) }
{
    match name {
        "Run" => {
            let inner = Part::read(alloc, first, reader)?;
            Ok(Admission::Run(inner))
        }
        "Task" => {
            let inner = Part::read(alloc, first, reader)?;
            Ok(Admission::Task(inner))
        }
        _ => Err(Refusal::Unlike),
    }
}

/// The variant of a word.
fn closing_named(word: &str) -> Option<Closing>
    ensures { result ≡ closing_named word.now }
{
    match word {
        "TaskRun" => Some(Closing::TaskRun),
        _ => None,
    }
}

/// Writes the fields of a variant under its name.
fn write_closing_run(
    out: &mut Writer,
    condition: &Condition,
    skipped: &List<Skip>,
    results: &List<Param>,
) -> Result<(), AllocError>
    ensures fits { OnOk result (ClosingFits (Run condition.now skipped.now results.now)) }
    ensures sound { OnOk result (IsSound (closing_json (Run condition.now skipped.now results.now))) }
    ensures ok { OnOk result (out.new.tokens ≡ appended out.old.tokens (closing_json (Run condition.now skipped.now results.now))) }
    ensures before { out.new.before ≡ out.old.before }
{
    open_under(out, "Run")?;
    write_member(out, "condition", condition)?;
    write_member(out, "results", results)?;
    write_member(out, "skipped", skipped)?;
    close_under(out)?;
    Ok(())
}

/// Reads the fields of a variant.
#[tactic(auto, unfolding(crate::specs::Reading::closing_run_at))]
fn read_closing_run(
    alloc: Global,
    first: Token<'_>,
    reader: &mut Reader<'_>,
) -> Result<Closing, Refusal>
    ensures gives { Gives result reader.new (closing_run_at (token_of first.entry ∷ reader.old)) }
    ensures shorter { OnOk result (length reader.new ≤ length reader.old) }
{
    open(first)?;
    let condition = read_member(alloc, reader, "condition")?;
    let results = read_member(alloc, reader, "results")?;
    let skipped = read_member(alloc, reader, "skipped")?;
    close(reader)?;
    Ok(Closing::Run {
        condition,
        skipped,
        results,
    })
}

/// Reads what stands under a variant's name.
#[tactic(auto, unfolding(crate::specs::Reading::closing_under))]
fn closing_under(
    alloc: Global,
    name: &str,
    first: Token<'_>,
    reader: &mut Reader<'_>,
) -> Result<Closing, Refusal>
    ensures gives { Gives result reader.new (closing_under name.now (token_of first.entry ∷ reader.old)) }
    ensures shorter { OnOk result (length reader.new ≤ length reader.old) }
{
    match name {
        "Attempt" => {
            let inner = Part::read(alloc, first, reader)?;
            Ok(Closing::Attempt(inner))
        }
        "Run" => read_closing_run(alloc, first, reader),
        _ => Err(Refusal::Unlike),
    }
}

/// Writes the fields of a variant under its name.
fn write_act_admit(
    out: &mut Writer,
    name: &Text,
    spec: &Admission,
    pending: bool,
    asked: &Option<Asked>,
    root: &Text,
) -> Result<(), AllocError>
    ensures fits { OnOk result (ActFits (Admit name.now spec.now pending asked.now root.now)) }
    ensures sound { OnOk result (IsSound (act_json (Admit name.now spec.now pending asked.now root.now))) }
    ensures ok { OnOk result (out.new.tokens ≡ appended out.old.tokens (act_json (Admit name.now spec.now pending asked.now root.now))) }
    ensures before { out.new.before ≡ out.old.before }
{
    open_under(out, "Admit")?;
    write_member(out, "asked", asked)?;
    write_member(out, "name", name)?;
    write_member(out, "pending", &pending)?;
    write_member(out, "root", root)?;
    write_member(out, "spec", spec)?;
    close_under(out)?;
    Ok(())
}

/// Writes the fields of a variant under its name.
fn write_act_ask(out: &mut Writer, name: &Text, status: Asked) -> Result<(), AllocError>
    ensures fits { OnOk result (ActFits (Ask name.now status)) }
    ensures sound { OnOk result (IsSound (act_json (Ask name.now status))) }
    ensures ok { OnOk result (out.new.tokens ≡ appended out.old.tokens (act_json (Ask name.now status))) }
    ensures before { out.new.before ≡ out.old.before }
{
    open_under(out, "Ask")?;
    write_member(out, "name", name)?;
    write_member(out, "status", &status)?;
    close_under(out)?;
    Ok(())
}

/// Writes the fields of a variant under its name.
fn write_act_start(out: &mut Writer, name: &Text) -> Result<(), AllocError>
    ensures fits { OnOk result (ActFits (Start name.now)) }
    ensures sound { OnOk result (IsSound (act_json (Start name.now))) }
    ensures ok { OnOk result (out.new.tokens ≡ appended out.old.tokens (act_json (Start name.now))) }
    ensures before { out.new.before ≡ out.old.before }
{
    open_under(out, "Start")?;
    write_member(out, "name", name)?;
    close_under(out)?;
    Ok(())
}

/// Writes the fields of a variant under its name.
fn write_act_schedule(
    out: &mut Writer,
    name: &Text,
    task: u32,
    bindings: &List<Binding>,
) -> Result<(), AllocError>
    ensures fits { OnOk result (ActFits (Schedule name.now task bindings.now)) }
    ensures sound { OnOk result (IsSound (act_json (Schedule name.now task bindings.now))) }
    ensures ok { OnOk result (out.new.tokens ≡ appended out.old.tokens (act_json (Schedule name.now task bindings.now))) }
    ensures before { out.new.before ≡ out.old.before }
{
    open_under(out, "Schedule")?;
    write_member(out, "bindings", bindings)?;
    write_member(out, "name", name)?;
    write_member(out, "task", &task)?;
    close_under(out)?;
    Ok(())
}

/// Writes the fields of a variant under its name.
fn write_act_make_task_run(
    out: &mut Writer,
    name: &Text,
    run: &Text,
    task: u32,
    index: u32,
    mark: bool,
) -> Result<(), AllocError>
    ensures fits { OnOk result (ActFits (MakeTaskRun name.now run.now task index mark)) }
    ensures sound { OnOk result (IsSound (act_json (MakeTaskRun name.now run.now task index mark))) }
    ensures ok { OnOk result (out.new.tokens ≡ appended out.old.tokens (act_json (MakeTaskRun name.now run.now task index mark))) }
    ensures before { out.new.before ≡ out.old.before }
{
    open_under(out, "MakeTaskRun")?;
    write_member(out, "index", &index)?;
    write_member(out, "mark", &mark)?;
    write_member(out, "name", name)?;
    write_member(out, "run", run)?;
    write_member(out, "task", &task)?;
    close_under(out)?;
    Ok(())
}

/// Writes the fields of a variant under its name.
fn write_act_halt(out: &mut Writer, name: &Text, stop: Stop) -> Result<(), AllocError>
    ensures fits { OnOk result (ActFits (Halt name.now stop)) }
    ensures sound { OnOk result (IsSound (act_json (Halt name.now stop))) }
    ensures ok { OnOk result (out.new.tokens ≡ appended out.old.tokens (act_json (Halt name.now stop))) }
    ensures before { out.new.before ≡ out.old.before }
{
    open_under(out, "Halt")?;
    write_member(out, "name", name)?;
    write_member(out, "stop", &stop)?;
    close_under(out)?;
    Ok(())
}

/// Writes the fields of a variant under its name.
fn write_act_cancel_task_run(out: &mut Writer, name: &Text) -> Result<(), AllocError>
    ensures fits { OnOk result (ActFits (CancelTaskRun name.now)) }
    ensures sound { OnOk result (IsSound (act_json (CancelTaskRun name.now))) }
    ensures ok { OnOk result (out.new.tokens ≡ appended out.old.tokens (act_json (CancelTaskRun name.now))) }
    ensures before { out.new.before ≡ out.old.before }
{
    open_under(out, "CancelTaskRun")?;
    write_member(out, "name", name)?;
    close_under(out)?;
    Ok(())
}

/// Writes the fields of a variant under its name.
fn write_act_open_attempt(out: &mut Writer, name: &Text) -> Result<(), AllocError>
    ensures fits { OnOk result (ActFits (OpenAttempt name.now)) }
    ensures sound { OnOk result (IsSound (act_json (OpenAttempt name.now))) }
    ensures ok { OnOk result (out.new.tokens ≡ appended out.old.tokens (act_json (OpenAttempt name.now))) }
    ensures before { out.new.before ≡ out.old.before }
{
    open_under(out, "OpenAttempt")?;
    write_member(out, "name", name)?;
    close_under(out)?;
    Ok(())
}

/// Writes the fields of a variant under its name.
fn write_act_make_pod(
    out: &mut Writer,
    name: &Text,
    task_run: &Text,
    attempt: u32,
    plan: &Plan,
    mark: bool,
) -> Result<(), AllocError>
    ensures fits { OnOk result (ActFits (MakePod name.now task_run.now attempt plan.now mark)) }
    ensures sound { OnOk result (IsSound (act_json (MakePod name.now task_run.now attempt plan.now mark))) }
    ensures ok { OnOk result (out.new.tokens ≡ appended out.old.tokens (act_json (MakePod name.now task_run.now attempt plan.now mark))) }
    ensures before { out.new.before ≡ out.old.before }
{
    open_under(out, "MakePod")?;
    write_member(out, "attempt", &attempt)?;
    write_member(out, "mark", &mark)?;
    write_member(out, "name", name)?;
    write_member(out, "plan", plan)?;
    write_member(out, "task_run", task_run)?;
    close_under(out)?;
    Ok(())
}

/// Writes the fields of a variant under its name.
fn write_act_claim_pod(out: &mut Writer, name: &Text) -> Result<(), AllocError>
    ensures fits { OnOk result (ActFits (ClaimPod name.now)) }
    ensures sound { OnOk result (IsSound (act_json (ClaimPod name.now))) }
    ensures ok { OnOk result (out.new.tokens ≡ appended out.old.tokens (act_json (ClaimPod name.now))) }
    ensures before { out.new.before ≡ out.old.before }
{
    open_under(out, "ClaimPod")?;
    write_member(out, "name", name)?;
    close_under(out)?;
    Ok(())
}

/// Writes the fields of a variant under its name.
fn write_act_end_pod(
    out: &mut Writer,
    name: &Text,
    exits: &List<u8>,
    outcome: &Outcome,
) -> Result<(), AllocError>
    ensures fits { OnOk result (ActFits (EndPod name.now exits.now outcome.now)) }
    ensures sound { OnOk result (IsSound (act_json (EndPod name.now exits.now outcome.now))) }
    ensures ok { OnOk result (out.new.tokens ≡ appended out.old.tokens (act_json (EndPod name.now exits.now outcome.now))) }
    ensures before { out.new.before ≡ out.old.before }
{
    open_under(out, "EndPod")?;
    write_member(out, "exits", exits)?;
    write_member(out, "name", name)?;
    write_member(out, "outcome", outcome)?;
    close_under(out)?;
    Ok(())
}

/// Writes the fields of a variant under its name.
fn write_act_close(out: &mut Writer, name: &Text, closing: &Closing) -> Result<(), AllocError>
    ensures fits { OnOk result (ActFits (Close name.now closing.now)) }
    ensures sound { OnOk result (IsSound (act_json (Close name.now closing.now))) }
    ensures ok { OnOk result (out.new.tokens ≡ appended out.old.tokens (act_json (Close name.now closing.now))) }
    ensures before { out.new.before ≡ out.old.before }
{
    open_under(out, "Close")?;
    write_member(out, "closing", closing)?;
    write_member(out, "name", name)?;
    close_under(out)?;
    Ok(())
}

/// Reads the fields of a variant.
#[tactic(auto, unfolding(crate::specs::Reading::act_admit_at))]
fn read_act_admit(alloc: Global, first: Token<'_>, reader: &mut Reader<'_>) -> Result<Act, Refusal>
    ensures gives { Gives result reader.new (act_admit_at (token_of first.entry ∷ reader.old)) }
    ensures shorter { OnOk result (length reader.new ≤ length reader.old) }
{
    open(first)?;
    let asked = read_member(alloc, reader, "asked")?;
    let name = read_member(alloc, reader, "name")?;
    let pending = read_member(alloc, reader, "pending")?;
    let root = read_member(alloc, reader, "root")?;
    let spec = read_member(alloc, reader, "spec")?;
    close(reader)?;
    Ok(Act::Admit {
        name,
        spec,
        pending,
        asked,
        root,
    })
}

/// Reads the fields of a variant.
#[tactic(auto, unfolding(crate::specs::Reading::act_ask_at))]
fn read_act_ask(alloc: Global, first: Token<'_>, reader: &mut Reader<'_>) -> Result<Act, Refusal>
    ensures gives { Gives result reader.new (act_ask_at (token_of first.entry ∷ reader.old)) }
    ensures shorter { OnOk result (length reader.new ≤ length reader.old) }
{
    open(first)?;
    let name = read_member(alloc, reader, "name")?;
    let status = read_member(alloc, reader, "status")?;
    close(reader)?;
    Ok(Act::Ask { name, status })
}

/// Reads the fields of a variant.
#[tactic(auto, unfolding(crate::specs::Reading::act_start_at))]
fn read_act_start(alloc: Global, first: Token<'_>, reader: &mut Reader<'_>) -> Result<Act, Refusal>
    ensures gives { Gives result reader.new (act_start_at (token_of first.entry ∷ reader.old)) }
    ensures shorter { OnOk result (length reader.new ≤ length reader.old) }
{
    open(first)?;
    let name = read_member(alloc, reader, "name")?;
    close(reader)?;
    Ok(Act::Start { name })
}

/// Reads the fields of a variant.
#[tactic(auto, unfolding(crate::specs::Reading::act_schedule_at))]
fn read_act_schedule(
    alloc: Global,
    first: Token<'_>,
    reader: &mut Reader<'_>,
) -> Result<Act, Refusal>
    ensures gives { Gives result reader.new (act_schedule_at (token_of first.entry ∷ reader.old)) }
    ensures shorter { OnOk result (length reader.new ≤ length reader.old) }
{
    open(first)?;
    let bindings = read_member(alloc, reader, "bindings")?;
    let name = read_member(alloc, reader, "name")?;
    let task = read_member(alloc, reader, "task")?;
    close(reader)?;
    Ok(Act::Schedule {
        name,
        task,
        bindings,
    })
}

/// Reads the fields of a variant.
#[tactic(auto, unfolding(crate::specs::Reading::act_make_task_run_at))]
fn read_act_make_task_run(
    alloc: Global,
    first: Token<'_>,
    reader: &mut Reader<'_>,
) -> Result<Act, Refusal>
    ensures gives { Gives result reader.new (act_make_task_run_at (token_of first.entry ∷ reader.old)) }
    ensures shorter { OnOk result (length reader.new ≤ length reader.old) }
{
    open(first)?;
    let index = read_member(alloc, reader, "index")?;
    let mark = read_member(alloc, reader, "mark")?;
    let name = read_member(alloc, reader, "name")?;
    let run = read_member(alloc, reader, "run")?;
    let task = read_member(alloc, reader, "task")?;
    close(reader)?;
    Ok(Act::MakeTaskRun {
        name,
        run,
        task,
        index,
        mark,
    })
}

/// Reads the fields of a variant.
#[tactic(auto, unfolding(crate::specs::Reading::act_halt_at))]
fn read_act_halt(alloc: Global, first: Token<'_>, reader: &mut Reader<'_>) -> Result<Act, Refusal>
    ensures gives { Gives result reader.new (act_halt_at (token_of first.entry ∷ reader.old)) }
    ensures shorter { OnOk result (length reader.new ≤ length reader.old) }
{
    open(first)?;
    let name = read_member(alloc, reader, "name")?;
    let stop = read_member(alloc, reader, "stop")?;
    close(reader)?;
    Ok(Act::Halt { name, stop })
}

/// Reads the fields of a variant.
#[tactic(auto, unfolding(crate::specs::Reading::act_cancel_task_run_at))]
fn read_act_cancel_task_run(
    alloc: Global,
    first: Token<'_>,
    reader: &mut Reader<'_>,
) -> Result<Act, Refusal>
    ensures gives { Gives result reader.new (act_cancel_task_run_at (token_of first.entry ∷ reader.old)) }
    ensures shorter { OnOk result (length reader.new ≤ length reader.old) }
{
    open(first)?;
    let name = read_member(alloc, reader, "name")?;
    close(reader)?;
    Ok(Act::CancelTaskRun { name })
}

/// Reads the fields of a variant.
#[tactic(auto, unfolding(crate::specs::Reading::act_open_attempt_at))]
fn read_act_open_attempt(
    alloc: Global,
    first: Token<'_>,
    reader: &mut Reader<'_>,
) -> Result<Act, Refusal>
    ensures gives { Gives result reader.new (act_open_attempt_at (token_of first.entry ∷ reader.old)) }
    ensures shorter { OnOk result (length reader.new ≤ length reader.old) }
{
    open(first)?;
    let name = read_member(alloc, reader, "name")?;
    close(reader)?;
    Ok(Act::OpenAttempt { name })
}

/// Reads the fields of a variant.
#[tactic(auto, unfolding(crate::specs::Reading::act_make_pod_at))]
fn read_act_make_pod(
    alloc: Global,
    first: Token<'_>,
    reader: &mut Reader<'_>,
) -> Result<Act, Refusal>
    ensures gives { Gives result reader.new (act_make_pod_at (token_of first.entry ∷ reader.old)) }
    ensures shorter { OnOk result (length reader.new ≤ length reader.old) }
{
    open(first)?;
    let attempt = read_member(alloc, reader, "attempt")?;
    let mark = read_member(alloc, reader, "mark")?;
    let name = read_member(alloc, reader, "name")?;
    let plan = read_member(alloc, reader, "plan")?;
    let task_run = read_member(alloc, reader, "task_run")?;
    close(reader)?;
    Ok(Act::MakePod {
        name,
        task_run,
        attempt,
        plan,
        mark,
    })
}

/// Reads the fields of a variant.
#[tactic(auto, unfolding(crate::specs::Reading::act_claim_pod_at))]
fn read_act_claim_pod(
    alloc: Global,
    first: Token<'_>,
    reader: &mut Reader<'_>,
) -> Result<Act, Refusal>
    ensures gives { Gives result reader.new (act_claim_pod_at (token_of first.entry ∷ reader.old)) }
    ensures shorter { OnOk result (length reader.new ≤ length reader.old) }
{
    open(first)?;
    let name = read_member(alloc, reader, "name")?;
    close(reader)?;
    Ok(Act::ClaimPod { name })
}

/// Reads the fields of a variant.
#[tactic(auto, unfolding(crate::specs::Reading::act_end_pod_at))]
fn read_act_end_pod(
    alloc: Global,
    first: Token<'_>,
    reader: &mut Reader<'_>,
) -> Result<Act, Refusal>
    ensures gives { Gives result reader.new (act_end_pod_at (token_of first.entry ∷ reader.old)) }
    ensures shorter { OnOk result (length reader.new ≤ length reader.old) }
{
    open(first)?;
    let exits = read_member(alloc, reader, "exits")?;
    let name = read_member(alloc, reader, "name")?;
    let outcome = read_member(alloc, reader, "outcome")?;
    close(reader)?;
    Ok(Act::EndPod {
        name,
        exits,
        outcome,
    })
}

/// Reads the fields of a variant.
#[tactic(auto, unfolding(crate::specs::Reading::act_close_at))]
fn read_act_close(alloc: Global, first: Token<'_>, reader: &mut Reader<'_>) -> Result<Act, Refusal>
    ensures gives { Gives result reader.new (act_close_at (token_of first.entry ∷ reader.old)) }
    ensures shorter { OnOk result (length reader.new ≤ length reader.old) }
{
    open(first)?;
    let closing = read_member(alloc, reader, "closing")?;
    let name = read_member(alloc, reader, "name")?;
    close(reader)?;
    Ok(Act::Close { name, closing })
}

/// Reads what stands under a variant's name.
#[tactic(auto, unfolding(crate::specs::Reading::act_under))]
fn act_under(
    alloc: Global,
    name: &str,
    first: Token<'_>,
    reader: &mut Reader<'_>,
) -> Result<Act, Refusal>
    ensures gives { Gives result reader.new (act_under name.now (token_of first.entry ∷ reader.old)) }
    ensures shorter { OnOk result (length reader.new ≤ length reader.old) }
{
    match name {
        "Admit" => read_act_admit(alloc, first, reader),
        "Ask" => read_act_ask(alloc, first, reader),
        "Start" => read_act_start(alloc, first, reader),
        "Schedule" => read_act_schedule(alloc, first, reader),
        "MakeTaskRun" => read_act_make_task_run(alloc, first, reader),
        "Halt" => read_act_halt(alloc, first, reader),
        "CancelTaskRun" => read_act_cancel_task_run(alloc, first, reader),
        "OpenAttempt" => read_act_open_attempt(alloc, first, reader),
        "MakePod" => read_act_make_pod(alloc, first, reader),
        "ClaimPod" => read_act_claim_pod(alloc, first, reader),
        "EndPod" => read_act_end_pod(alloc, first, reader),
        "Close" => read_act_close(alloc, first, reader),
        _ => Err(Refusal::Unlike),
    }
}
