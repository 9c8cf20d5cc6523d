ghost use Rattle.std.specs.Prelude.{◌≡◌, ◌++◌, flat_map, map, string_bytes, IfOk, OnOk};
ghost use Rattle.std.specs.List.{list_any};
ghost use Rattle.tk_cache.specs.Views.{seen};
ghost use Rattle.tk_report.specs.Admitted.{named};
ghost use Rattle.tk_report.specs.Objects.{HaveFewChildren};
ghost use Rattle.tk_report.specs.Report.{object_text, report_text, task_run_text};
ghost use Rattle.tk_report.specs.Status.{exit_of, exit_status, is_false, is_unknown, status_at};

use crate::admitted::{Named, admitted};
use crate::lines::{write_results, write_task_run_line};
use crate::run::write_run;
use crate::words::{Status, run_status, task_run_results, task_run_status};
use std::alloc::{AllocError, Global};
use tk_cache::Cache;
use tk_journal::{Journal, TaskRunState};
use tk_types::{Kind, Text};

/// Writes the lines of a standalone TaskRun behind `text`.
fn write_task_run(
    alloc: Global,
    text: &mut String,
    name: &str,
    task_run: &TaskRunState,
) -> Result<(), AllocError>
    ensures { OnOk result (string_bytes text.new ≡ string_bytes text.old ++ task_run_text name.now task_run.now) }
{
    write_task_run_line(alloc, text, name, task_run)?;
    write_results(alloc, text, task_run_results(task_run))
}

/// Writes the lines of an object behind `text`, if it is there.
fn write_object(
    alloc: Global,
    text: &mut String,
    objects: &Cache,
    kind: Kind,
    name: &str,
) -> Result<(), AllocError>
    requires { HaveFewChildren (seen objects.now).view }
    ensures { OnOk result (string_bytes text.new ≡ string_bytes text.old ++ object_text (seen objects.now).view (kind, name.now)) }
{
    match kind {
        Kind::Runs => match objects.run(name) {
            None => Ok(()),
            Some(run) => write_run(alloc, text, objects, name, run),
        },
        Kind::TaskRuns => match objects.task_run(name) {
            None => Ok(()),
            Some(task_run) => write_task_run(alloc, text, name, task_run),
        },
        Kind::Pods => Ok(()),
    }
}

/// Writes the lines of objects behind `text`.
fn write_objects(
    alloc: Global,
    text: &mut String,
    objects: &Cache,
    found: &[Named<'_>],
) -> Result<(), AllocError>
    requires { HaveFewChildren (seen objects.now).view }
    ensures { OnOk result (string_bytes text.new ≡ string_bytes text.old ++ flat_map (object_text (seen objects.now).view) (map named found.now)) }
{
    for object in found {
        write_object(alloc, text, objects, object.kind, object.name)?;
    }
    Ok(())
}

/// The report of the runs and standalone TaskRuns of a journal, in the order of their admission, as these objects have
/// them. The only error is want of memory.
pub(crate) fn report_of(
    alloc: Global,
    journal: &Journal,
    objects: &Cache,
) -> Result<Text, AllocError>
    requires { HaveFewChildren (seen objects.now).view }
    ensures { IfOk result (λ text. text ≡ report_text (seen objects.now).view journal.now.history) }
{
    let found = admitted(alloc, journal)?;
    let mut text = String::new(alloc);
    write_objects(alloc, &mut text, objects, found.as_slice())?;
    Ok(Text::from_string(text))
}

/// Adds how an object stands, if it is there.
fn push_status(
    made: &mut Vec<Status>,
    objects: &Cache,
    kind: Kind,
    name: &str,
) -> Result<(), AllocError>
    ensures { OnOk result (made.new.items ≡ made.old.items ++ status_at (seen objects.now).view (kind, name.now)) }
{
    match kind {
        Kind::Runs => {
            if let Some(run) = objects.run(name) {
                made.push(run_status(run))?;
            }
        }
        Kind::TaskRuns => {
            if let Some(task_run) = objects.task_run(name) {
                made.push(task_run_status(task_run))?;
            }
        }
        Kind::Pods => {}
    }
    Ok(())
}

/// How the objects stand that are there.
fn statuses(alloc: Global, objects: &Cache, found: &[Named<'_>]) -> Result<Vec<Status>, AllocError>
    ensures { IfOk result (λ made. made.items ≡ flat_map (status_at (seen objects.now).view) (map named found.now)) }
{
    let mut made = Vec::new(alloc);
    for object in found {
        push_status(&mut made, objects, object.kind, object.name)?;
    }
    Ok(made)
}

fn is_unknown(status: Status) -> bool
    ensures { result ≡ is_unknown status }
{
    matches!(status, Status::Unknown)
}

fn is_false(status: Status) -> bool
    ensures { result ≡ is_false status }
{
    matches!(status, Status::False)
}

fn has_unknown(statuses: &[Status]) -> bool
    ensures { result ≡ list_any is_unknown statuses.now }
{
    statuses.iter().any(|status| is_unknown(*status))
}

fn has_false(statuses: &[Status]) -> bool
    ensures { result ≡ list_any is_false statuses.now }
{
    statuses.iter().any(|status| is_false(*status))
}

/// The status of a command by those of its objects.
fn exit_of(statuses: &[Status]) -> u8
    ensures { result ≡ exit_of statuses.now }
{
    if has_unknown(statuses) {
        7
    } else if has_false(statuses) {
        1
    } else {
        0
    }
}

/// The status with which a command ends that shows the report: 7 where a run or standalone TaskRun is open, else 1 where
/// one ended False, else 0. The only error is want of memory.
pub(crate) fn status_of(alloc: Global, journal: &Journal, objects: &Cache) -> Result<u8, AllocError>
    ensures { IfOk result (λ status. status ≡ exit_status (seen objects.now).view journal.now.history) }
{
    let found = admitted(alloc, journal)?;
    let made = statuses(alloc, objects, found.as_slice())?;
    Ok(exit_of(made.as_slice()))
}
