ghost use Rattle.std.specs.Prelude.{◌≡◌, Some, OnOk};
ghost use Rattle.tk_cache.specs.Views.{seen};
ghost use Rattle.tk_pod_cache.specs.Marks.{ArePodsMarked, IsJudged, held_in, is_held as the_held, is_unclaimed as the_unclaimed, unclaimed_in};

use std::alloc::{AllocError, Global};
use tk_cache::Cache;
use tk_journal::PodState;
use tk_places::Places;

/// The places of pods, in order of creation: of those that nobody claimed, and of those that are claimed and haven't ended.
#[derive(Drop)]
pub struct PodMarks {
    pub unclaimed: Places,
    pub held: Places,
}

/// Whether nobody claimed a pod.
pub fn is_unclaimed(pod: &PodState) -> bool
    ensures { result ≡ the_unclaimed (Some pod.now) }
{
    pod.claim.is_none()
}

/// Whether a pod is claimed and hasn't ended.
fn is_held(pod: &PodState) -> bool
    ensures { result ≡ the_held (Some pod.now) }
{
    pod.claim.is_some() && pod.ended.is_none()
}

/// No marks, which take no memory.
pub(crate) fn no_marks(alloc: Global) -> PodMarks {
    PodMarks {
        unclaimed: Places::new(alloc),
        held: Places::new(alloc),
    }
}

/// Judges the pod of this name anew, where there is one.
pub(crate) fn judge(cache: &Cache, marks: &mut PodMarks, name: &str) -> Result<(), AllocError>
    ensures unclaimed { OnOk result (IsJudged (unclaimed_in (seen cache.now).view) (seen cache.now).view.pods name.now marks.old.unclaimed marks.new.unclaimed) }
    ensures held { OnOk result (IsJudged (held_in (seen cache.now).view) (seen cache.now).view.pods name.now marks.old.held marks.new.held) }
{
    let Some(place) = cache.pod_place(name) else {
        return Ok(());
    };
    let pod = cache.pod_at(place);
    marks.unclaimed.set(place, is_unclaimed(pod))?;
    marks.held.set(place, is_held(pod))?;
    Ok(())
}
