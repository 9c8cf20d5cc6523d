//! What stays when the facts of a run move on by a step: more of its children end, a stop is recorded, or a task that
//! is Ready gets children.

ghost use Rattle.std.specs.Prelude.{◌≡◌, ◌≢◌, ◌<◌, ℕ, List, Contains, length};
ghost use Rattle.tk_types.specs.declared.run.Facts.{Facts};
ghost use Rattle.tk_types.specs.declared.task.PipelineTask.{PipelineTask};
ghost use Rattle.tk_types.specs.declared.verdict.Binding.{Binding};
ghost use Rattle.tk_types.specs.declared.verdict.Verdict.TheVariants.{Ready, Wrong};
ghost use Rattle.tk_graph.specs.Parents.{parents};
ghost use Rattle.tk_verdict.specs.Gives.{label_of, Gives, HasNoChildren};
ghost use Rattle.tk_verdict.specs.Moves.{GainsOutcomes, Moves, IsSettled};
ghost use Rattle.tk_verdict.specs.WellFormed.{IsWellFormed};

use tk_vars::laws::one_bad_offset;

/// A task that is Ready has no children, and a task without children isn't Wrong.
pub fn without_children()
    ensures ready { (facts : Facts) (place : ℕ) → label_of facts place ≡ Ready → HasNoChildren facts place }
    ensures not_wrong { (facts : Facts) (place : ℕ) → HasNoChildren facts place → label_of facts place ≢ Wrong }
{}

/// The parents of a task are tasks of `tasks`.
pub fn parents_first()
    ensures { (tasks : List PipelineTask) (place parent : ℕ) → Contains (parents tasks place) parent → parent < length tasks }
{}

/// A task that is Ready stays so while children end.
pub fn ready_stays()
    ensures { (old new : Facts) (place : ℕ) → IsWellFormed old → GainsOutcomes old new → label_of old place ≡ Ready → label_of new place ≡ Ready }
{
    one_bad_offset();
}

/// What the rules give a task stays over each step.
pub fn gives_stays()
    ensures { (old new : Facts) (place : ℕ) (bindings : List Binding) → IsWellFormed old → Moves old new → Gives old place bindings → Gives new place bindings }
{
    one_bad_offset();
}

/// The label of a settled task stays over each step.
pub fn label_stays()
    ensures { (old new : Facts) (place : ℕ) → IsWellFormed old → Moves old new → IsSettled old place → label_of new place ≡ label_of old place }
{
    one_bad_offset();
}
