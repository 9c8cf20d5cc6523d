//! Laws of the definitions that the contracts cite.

ghost use Rattle.std.specs.Prelude.{◌≡◌, ◌≢◌, ◌+◌, ◌≤◌, ◌++◌, Some, None, All, AllPairs, IsTrue, length};
ghost use Rattle.std.specs.List.{list_all};
ghost use Rattle.tk_types.specs.declared.object.Item.{Item};
ghost use Rattle.tk_types.specs.declared.object.PipelineSpec.{PipelineSpec};
ghost use Rattle.tk_types.specs.declared.task.PipelineTask.{PipelineTask};
ghost use Rattle.tk_graph.specs.Parents.{parent_names, IsAcyclic};
ghost use Rattle.tk_graph.specs.Unknown.{is_known};
ghost use Rattle.tk_bind.specs.Readings.{ReadsObject};
ghost use Rattle.tk_types.specs.Limits.{most_tasks};
ghost use Rattle.tk_validate.specs.Parts.{own_pipeline};
ghost use Rattle.tk_validate.specs.Validate.{item_fault};

use tk_graph::laws::no_cycle;
use tk_vars::laws::{one_bad_offset, reading_or_bad_offset};

/// An object with which nothing is wrong has a reading in each of its texts.
pub fn valid_reads()
    ensures { (item : Item) → item_fault item ≡ None → ReadsObject item.object }
{
    reading_or_bad_offset();
    one_bad_offset();
}

/// The own pipeline of an object with which nothing is wrong has few tasks, their names all differ, each task waits for
/// tasks of `tasks` alone, and none for itself.
pub fn valid_pipeline()
    ensures few { (item : Item) (pipeline : PipelineSpec)
        → own_pipeline item.object ≡ Some pipeline
        → item_fault item ≡ None
        → length pipeline.tasks + length pipeline.finally ≤ most_tasks }
    ensures names { (item : Item) (pipeline : PipelineSpec)
        → own_pipeline item.object ≡ Some pipeline
        → item_fault item ≡ None
        → AllPairs (λ (a b : PipelineTask). a.name ≢ b.name) (pipeline.tasks ++ pipeline.finally) }
    ensures parents { (item : Item) (pipeline : PipelineSpec)
        → own_pipeline item.object ≡ Some pipeline
        → item_fault item ≡ None
        → All (λ (task : PipelineTask). IsTrue (list_all (is_known pipeline.tasks) (parent_names task))) (pipeline.tasks ++ pipeline.finally) }
    ensures order { (item : Item) (pipeline : PipelineSpec)
        → own_pipeline item.object ≡ Some pipeline
        → item_fault item ≡ None
        → IsAcyclic pipeline.tasks }
{
    no_cycle();
}
