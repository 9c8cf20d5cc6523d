ghost use Rattle.std.specs.Prelude.{◌≡◌};
ghost use Rattle.tk_resolve.specs.Timeouts.{finally_ms, left_ms, part_ms, pipeline_ms, tasks_ms};

use tk_types::Given3;

/// One hour in milliseconds: the timeout of a run that writes none.
const ONE_HOUR: u64 = 3_600_000;

/// The timeout of a whole run.
pub(crate) fn pipeline_ms(given: Given3) -> u64
    ensures { result ≡ pipeline_ms given }
{
    given.pipeline.unwrap_or(ONE_HOUR)
}

/// What one part leaves to the other of a pipeline timeout that is written.
fn left_ms(given: Given3, part: u64) -> u64
    ensures { result ≡ left_ms given part }
{
    given.pipeline.unwrap_or(0).saturating_sub(part)
}

/// A part's timeout: what is written, or else what the other part, where it is written, leaves.
fn part_ms(given: Given3, part: Option<u64>, other: Option<u64>) -> u64
    ensures { result ≡ part_ms given part other }
{
    match (part, other) {
        (Some(part), _) => part,
        (None, Some(other)) => left_ms(given, other),
        (None, None) => 0,
    }
}

/// The timeout of `tasks`.
pub(crate) fn tasks_ms(given: Given3) -> u64
    ensures { result ≡ tasks_ms given }
{
    part_ms(given, given.tasks, given.finally)
}

/// The timeout of `finally`.
pub(crate) fn finally_ms(given: Given3) -> u64
    ensures { result ≡ finally_ms given }
{
    part_ms(given, given.finally, given.tasks)
}
