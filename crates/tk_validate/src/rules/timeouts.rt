ghost use Rattle.std.specs.Prelude.{◌≡◌};
ghost use Rattle.tk_types.specs.Rejected.{Reads};
ghost use Rattle.tk_validate.specs.Timeouts.{overruns, timeouts};

use crate::rule::Checked;
use std::alloc::Global;
use tk_types::{Fault, Given3, ItemObject, Location, refusal};

/// Whether the timeouts of a run's parts, each 0 where it isn't written, exceed that of the whole, which is an hour
/// where it isn't written, and none where it is 0.
fn overruns(given: &Given3) -> bool
    ensures { result ≡ overruns given.now }
{
    let whole = given.pipeline.unwrap_or(3_600_000);
    let parts = given.tasks.unwrap_or(0) as u128 + given.finally.unwrap_or(0) as u128;
    whole != 0 && (whole as u128) < parts
}

/// Refuses a run the timeouts of whose parts exceed that of the whole.
pub fn check_timeouts(alloc: Global, object: &ItemObject, place: &Location<'_>) -> Checked
    ensures { Reads (timeouts place.now object.now) tt result }
{
    match object {
        ItemObject::PipelineRun(run) if overruns(&run.timeouts) => {
            Err(refusal(alloc, Fault::TIMEOUTS_OVERRUN, &place.key("timeouts")))
        }
        _ => Ok(()),
    }
}
