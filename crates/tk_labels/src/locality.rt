//! What a label depends on.

ghost use Rattle.std.specs.Prelude.{◌≡◌, ◌<◌, ◌≤◌, ◌⊎◌, ℕ, Bool, true, false, List, [], Some, Contains, length, slice_get, take};
ghost use Rattle.tk_types.specs.declared.run.Facts.{Facts};
ghost use Rattle.tk_types.specs.declared.run.Stop.{Stop};
ghost use Rattle.tk_types.specs.declared.task.PipelineTask.{PipelineTask};
ghost use Rattle.tk_types.specs.declared.verdict.Verdict.{Verdict};
ghost use Rattle.tk_graph.specs.Parents.{parents};
ghost use Rattle.tk_labels.specs.Local.{ShowsSame, RunsInBoth, parents_env, with_stop};
ghost use Rattle.tk_verdict.specs.Facts.{children_of, first_late_stop, first_stop, task_total};
ghost use Rattle.tk_verdict.specs.Gives.{label_of};
ghost use Rattle.tk_verdict.specs.Labels.{verdict_line};
ghost use Rattle.tk_verdict.specs.Available.{available_of};
ghost use Rattle.tk_verdict.specs.Own.{own_in};
ghost use Rattle.tk_verdict.specs.Words.{task_env};
ghost use Rattle.tk_verdict.specs.Rows.{is_good_parent};
ghost use Rattle.tk_verdict.specs.Good.{is_good_at};
ghost use Rattle.tk_verdict.specs.Verdict.{blocks, is_skipped, is_skipped_by_when, label_at};
ghost use Rattle.tk_verdict.specs.WellFormed.{IsWellFormed};

use tk_vars::laws::one_bad_offset;

/// The line of a task of `tasks` depends on its children, on the first stop and on what its parents show.
pub fn line_is_local()
    ensures { (old new : Facts) (xs ys : List Verdict) (place : ℕ) → IsWellFormed old → new.spec ≡ old.spec → place < length old.spec.tasks
        → children_of new place ≡ children_of old place → first_stop new ≡ first_stop old
        → ((q : ℕ) → Contains (parents old.spec.tasks place) q → ShowsSame old new xs ys q) → verdict_line new ys place ≡ verdict_line old xs place }
{
    one_bad_offset();
}

/// Of places with all their parents, each of which has the same children or a child that runs in both, each keeps its label.
pub fn apart_stays()
    ensures { (old new : Facts) (among : ℕ → Bool) → IsWellFormed old → new.spec ≡ old.spec → first_stop new ≡ first_stop old
        → ((p q : ℕ) → among p ≡ true → Contains (parents old.spec.tasks p) q → among q ≡ true)
        → ((q : ℕ) → q < length old.spec.tasks → among q ≡ true → (children_of new q ≡ children_of old q) ⊎ RunsInBoth old new q)
        → (place : ℕ) → place < length old.spec.tasks → among place ≡ true → label_of new place ≡ label_of old place }
{
    one_bad_offset();
}

/// The first stop is told by the tasks of `tasks` that wait or are ready, and by no other.
pub fn first_stop_maps()
    ensures { (old new : Facts) (stop : Stop) (place : ℕ) → IsWellFormed old → new.spec ≡ old.spec → new.children ≡ old.children
        → old.stops ≡ [] → first_stop new ≡ Some stop → place < length old.spec.tasks → label_of new place ≡ with_stop stop (label_of old place) }
{
    one_bad_offset();
}

/// The line of a task of `finally` depends on its children, on the first stop that reaches it, and on the children and
/// labels of all of `tasks`.
pub fn final_is_local()
    ensures { (old new : Facts) (xs ys : List Verdict) (place : ℕ) → IsWellFormed old → new.spec ≡ old.spec → length old.spec.tasks ≤ place → place < task_total old
        → ((q : ℕ) → q < length old.spec.tasks → children_of new q ≡ children_of old q) → take (length old.spec.tasks) ys ≡ take (length old.spec.tasks) xs
        → children_of new place ≡ children_of old place → first_late_stop new ≡ first_late_stop old → verdict_line new ys place ≡ verdict_line old xs place }
{
    one_bad_offset();
}

/// A parent that wasn't good and isn't shows the same where it blocks as before.
pub fn bad_parents_show()
    ensures { (old new : Facts) (xs ys : List Verdict) (place : ℕ) → IsWellFormed old → new.spec ≡ old.spec → blocks (label_at ys place) ≡ blocks (label_at xs place)
        → is_good_parent old (place, label_at xs place) ≡ false → is_good_parent new (place, label_at ys place) ≡ false → ShowsSame old new xs ys place }
{
    one_bad_offset();
}

/// What a task's own texts give depends on the results of its parents.
pub fn own_is_local()
    ensures { (old new : Facts) (place : ℕ) (task : PipelineTask) → IsWellFormed old → new.spec ≡ old.spec → slice_get old.spec.tasks place ≡ Some task
        → ((q : ℕ) (parent : PipelineTask) → Contains (parents old.spec.tasks place) q → slice_get old.spec.tasks q ≡ Some parent → available_of new (q, parent) ≡ available_of old (q, parent))
        → own_in (task_env new task) task ≡ own_in (task_env old task) task }
{
    one_bad_offset();
}

/// What the own texts of a task of `tasks` give, they give by the results of its parents alone.
pub fn parents_suffice()
    ensures { (facts : Facts) (place : ℕ) (task : PipelineTask) → IsWellFormed facts → slice_get facts.spec.tasks place ≡ Some task
        → own_in (parents_env facts place task) task ≡ own_in (task_env facts task) task }
{
    one_bad_offset();
}

/// What a task shows is told by whether it blocks, whether it is good by its children, and whether its guard skipped it:
/// where these are the same, and a good task's children are, it shows the same.
pub fn shown_decides()
    ensures { (old new : Facts) (xs ys : List Verdict) (place : ℕ) → IsWellFormed old → new.spec ≡ old.spec
        → (is_skipped (label_at xs place) ≡ true → children_of old place ≡ []) → (is_skipped (label_at ys place) ≡ true → children_of new place ≡ [])
        → blocks (label_at ys place) ≡ blocks (label_at xs place) → is_good_at new place ≡ is_good_at old place
        → is_skipped_by_when (label_at ys place) ≡ is_skipped_by_when (label_at xs place)
        → (is_good_at old place ≡ true → children_of new place ≡ children_of old place) → ShowsSame old new xs ys place }
{
    one_bad_offset();
}
