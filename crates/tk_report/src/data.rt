ghost use Rattle.std.specs.Prelude.{◌≡◌, ◌≤◌, map, IfOk};
ghost use Rattle.std.specs.Option.{ForSome};
ghost use Rattle.serde_json.specs.Data.{string};
ghost use Rattle.serde_json.specs.View.{members_view, view};
ghost use Rattle.tk_time.specs.Moment.{last_moment};
ghost use Rattle.tk_results.specs.Written.{data_of as value_due, members_of as members_due};
ghost use Rattle.tk_report.specs.Json.{child_data, guard_data, moment_data as moment_due, operator_word, result_data, skipped_data, task_run_data};

use crate::lines::skip_text;
use crate::words::{outcome_of, outcome_words};
use serde_json::{Map, Value as Json, json};
use std::alloc::{AllocError, Global};
use tk_journal::TaskRunState;
use tk_time::print_moment;
use tk_types::{Pair, Param, SkipReason, Text, Value, When};

/// A moment's text, or null.
pub(crate) fn moment_data(alloc: Global, moment: Option<u64>) -> Result<Json, AllocError>
    requires { ForSome moment (λ m. m ≤ last_moment) }
    ensures { IfOk result (λ json. view json ≡ moment_due moment) }
{
    match moment {
        None => Ok(Json::Null),
        Some(moment) => Json::try_from_str(alloc, print_moment(alloc, moment)?.as_str()),
    }
}

/// A child of a task.
pub(crate) fn child_data(
    alloc: Global,
    task: &str,
    name: &str,
    index: u32,
    task_run: &TaskRunState,
) -> Result<Json, AllocError>
    ensures { IfOk result (λ json. view json ≡ child_data task.now name.now index task_run.now) }
{
    let outcome = outcome_words(alloc, outcome_of(task_run))?;
    let attempts = task_run.attempts.len();
    json!(in alloc; {"attempts": attempts, "index": index, "name": name, "outcome": outcome, "task": task})
}

/// The JSON strings of texts.
fn strings(alloc: Global, texts: &[Text]) -> Result<Vec<Json>, AllocError>
    ensures { IfOk result (λ items. map view items.items ≡ map string texts.now) }
{
    let mut items = Vec::new(alloc);
    for text in texts {
        items.push(Json::try_from_str(alloc, text.as_str())?)?;
    }
    Ok(items)
}

/// The operator of a `when` expression.
fn operator(is_member: bool) -> &'static str
    ensures { result.now ≡ operator_word is_member }
{
    if is_member { "in" } else { "notin" }
}

/// A `when` expression.
fn guard_data(alloc: Global, guard: &When) -> Result<Json, AllocError>
    ensures { IfOk result (λ json. view json ≡ guard_data guard.now) }
{
    let input = guard.input.as_str();
    let operator = operator(guard.is_member);
    let values = strings(alloc, guard.values.as_slice())?;
    json!(in alloc; {"input": input, "operator": operator, "values": values})
}

/// The `when` expressions of a task.
fn guards_data(alloc: Global, guards: &[When]) -> Result<Vec<Json>, AllocError>
    ensures { IfOk result (λ items. map view items.items ≡ map guard_data guards.now) }
{
    let mut items = Vec::new(alloc);
    for guard in guards {
        items.push(guard_data(alloc, guard)?)?;
    }
    Ok(items)
}

/// A skipped task with its `when` expressions.
pub(crate) fn skipped_data(
    alloc: Global,
    task: &str,
    reason: SkipReason,
    guards: &[When],
) -> Result<Json, AllocError>
    ensures { IfOk result (λ json. view json ≡ skipped_data task.now reason guards.now) }
{
    let guards = guards_data(alloc, guards)?;
    let reason = skip_text(reason);
    json!(in alloc; {"name": task, "reason": reason, "whenExpressions": guards})
}

/// The members of a JSON object, of pairs.
fn members_of(alloc: Global, pairs: &[Pair]) -> Result<Map<String, Json>, AllocError>
    ensures { IfOk result (λ members. members_view members.entries ≡ members_due pairs.now) }
{
    let mut members = Map::new(alloc);
    for pair in pairs {
        let value = Json::try_from_str(alloc, pair.value.as_str())?;
        serde_json::put(&mut members, alloc, pair.key.as_str(), value)?;
    }
    Ok(members)
}

/// A value.
fn value_data(alloc: Global, value: &Value) -> Result<Json, AllocError>
    ensures { IfOk result (λ json. view json ≡ value_due value.now) }
{
    match value {
        Value::Str(text) => Json::try_from_str(alloc, text.as_str()),
        Value::Arr(texts) => Ok(Json::Array(strings(alloc, texts.as_slice())?)),
        Value::Obj(pairs) => Ok(Json::Object(members_of(alloc, pairs.as_slice())?)),
    }
}

/// A result.
fn result_data(alloc: Global, param: &Param) -> Result<Json, AllocError>
    ensures { IfOk result (λ json. view json ≡ result_data param.now) }
{
    let name = param.name.as_str();
    let value = value_data(alloc, &param.value)?;
    json!(in alloc; {"name": name, "value": value})
}

/// Results.
pub(crate) fn results_data(alloc: Global, results: &[Param]) -> Result<Vec<Json>, AllocError>
    ensures { IfOk result (λ items. map view items.items ≡ map result_data results.now) }
{
    let mut items = Vec::new(alloc);
    for result in results {
        items.push(result_data(alloc, result)?)?;
    }
    Ok(items)
}
