ghost use Rattle.std.specs.Prelude.{◌≡◌, IfOk};
ghost use Rattle.tk_journal.specs.Legal.{IsLegal};
ghost use Rattle.tk_cache.specs.Fronts.{Shows};
ghost use Rattle.tk_cache.specs.Views.{seen};
ghost use Rattle.tk_report.specs.Json.{report_json_text};
ghost use Rattle.tk_report.specs.Objects.{end_view, HasMoments};
ghost use Rattle.tk_report.specs.Report.{report_text};
ghost use Rattle.tk_report.specs.Status.{exit_status};

use crate::json::report_json_of;
use crate::objects::{report_of, status_of};
use std::alloc::{AllocError, Global};
use tk_cache::Cache;
use tk_journal::Journal;
use tk_types::{Kind, Text};

/// A cache that has seen nothing of a journal yet.
fn fresh(alloc: Global, journal: &Journal) -> Cache
    ensures shows { Shows (seen result) journal.now.history }
    ensures pods { (seen result).fronts.pods ≡ 0 }
{
    Cache::empty(alloc)
}

/// The runs and TaskRuns of a journal at its end, each read once.
fn at_end(alloc: Global, journal: &Journal) -> Result<Cache, AllocError>
    requires { IsLegal journal.now.history }
    ensures { IfOk result (λ objects. (seen objects).view ≡ end_view journal.now.history) }
{
    let mut objects = fresh(alloc, journal);
    objects.relist(journal, Kind::Runs, journal.len())?;
    objects.relist(journal, Kind::TaskRuns, journal.len())?;
    Ok(objects)
}

/// The report of the runs and standalone TaskRuns of a journal at its end, in the order of their admission. The only
/// error is want of memory.
pub fn report(alloc: Global, journal: &Journal) -> Result<Text, AllocError>
    requires { IsLegal journal.now.history }
    ensures { IfOk result (λ text. text ≡ report_text (end_view journal.now.history) journal.now.history) }
{
    let objects = at_end(alloc, journal)?;
    report_of(alloc, journal, &objects)
}

/// The same as compact JSON, one array without a newline. Each moment is at most the last millisecond of the year 9999.
/// The only error is want of memory.
pub fn report_json(alloc: Global, journal: &Journal) -> Result<Text, AllocError>
    requires legal { IsLegal journal.now.history }
    requires moments { HasMoments journal.now.history }
    ensures { IfOk result (λ text. text ≡ report_json_text (end_view journal.now.history) journal.now.history) }
{
    let objects = at_end(alloc, journal)?;
    report_json_of(alloc, journal, &objects)
}

/// The status with which a command ends that shows the report of a journal: 7 where a run or standalone TaskRun is open,
/// else 1 where one ended False, else 0. The only error is want of memory.
pub fn status(alloc: Global, journal: &Journal) -> Result<u8, AllocError>
    requires { IsLegal journal.now.history }
    ensures { IfOk result (λ status. status ≡ exit_status (end_view journal.now.history) journal.now.history) }
{
    let objects = at_end(alloc, journal)?;
    status_of(alloc, journal, &objects)
}
