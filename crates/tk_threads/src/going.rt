// When a member goes on.
use std::alloc::AllocError;
use tk_edge::GateTurn;

/// Whether a member that took such a turn may have more to do: it wrote an entry, its cache moved, or lacks what others wrote.
pub(crate) fn goes_on(
    given: GateTurn,
    lag: u64,
    wrote: Result<bool, AllocError>,
) -> Result<bool, AllocError> {
    let wrote = wrote?;
    match given {
        GateTurn::Deliver { .. } | GateTurn::Relist { .. } => Ok(true),
        GateTurn::Work => Ok(wrote || lag > 0),
        GateTurn::Pause => Ok(false),
    }
}
