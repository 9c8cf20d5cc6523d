//! Laws of the definitions that the contracts cite.

ghost use Rattle.std.specs.Prelude.{◌≡◌, List, All, Some, None};
ghost use Rattle.tk_types.specs.declared.object.Item.{Item};
ghost use Rattle.tk_types.specs.declared.object.OutcomesSpec.{OutcomesSpec};
ghost use Rattle.tk_types.specs.declared.run.RunSpec.{RunSpec};
ghost use Rattle.tk_types.specs.Place.{Place};
ghost use Rattle.tk_journal.specs.declared.act.Admission.{Admission};
ghost use Rattle.tk_verdict.specs.WellFormed.{IsWellFormed};
ghost use Rattle.tk_admit.specs.Command.{children_finding, facts_with};
ghost use Rattle.tk_admit.specs.Sound.{IsSound, IsSoundRun, IsValid};
ghost use Rattle.tk_admit.specs.Taken.{resolved};

use tk_resolve::laws::{found_pipeline, resolved_reads, resolved_tasks};
use tk_validate::laws::{valid_pipeline, valid_reads};

/// A run is sound where each of the objects, it and those before it, is valid by itself: its tasks are few, with names
/// that differ and parents that exist, without a cycle; there is one body a task; and each text has a reading.
pub fn taken_is_sound()
    ensures { (earlier : List Item) (item : Item) (spec : Admission) → All IsValid earlier → IsValid item → resolved earlier item.object ≡ Some spec → IsSound spec }
{
    valid_reads();
    valid_pipeline();
    resolved_tasks();
    resolved_reads();
    found_pipeline();
}

/// The facts of a sound run with outcomes whose children differ, each of a task of the run, are well-formed.
pub fn facts_are_well_formed()
    ensures { (spec : RunSpec) (place : Place) (outcomes : OutcomesSpec) → IsSoundRun spec → children_finding spec (place, outcomes) ≡ None → IsWellFormed (facts_with spec (place, outcomes)) }
{}
