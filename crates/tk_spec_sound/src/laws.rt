//! Laws of what is sound.

ghost use Rattle.std.specs.Prelude.{ℕ, List, Option};
ghost use Rattle.tk_types.specs.declared.object.Asked.{Asked};
ghost use Rattle.tk_journal.specs.declared.act.Admission.{Admission};
ghost use Rattle.tk_journal.specs.Sound.{IsSound};
ghost use Rattle.tk_child_names.specs.Children.{HasFewEach, ReadsMatrices};

/// The names that the TaskRuns of a sound admission may have can be made by `tk_child_names`.
pub fn sound_can_be_named()
    ensures readable { (name : List ℕ) (asked : Option Asked) (admission : Admission) → IsSound name asked admission → ReadsMatrices admission }
    ensures few { (name : List ℕ) (asked : Option Asked) (admission : Admission) → IsSound name asked admission → HasFewEach admission }
{}
