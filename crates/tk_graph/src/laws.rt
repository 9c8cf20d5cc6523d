//! Laws of the definitions that the contracts cite.

ghost use Rattle.std.specs.Prelude.{◌≡◌, ◌↔◌, ◌≢◌, ℕ, List, [], None, All, IsTrue};
ghost use Rattle.tk_types.specs.declared.task.PipelineTask.{PipelineTask};
ghost use Rattle.tk_graph.specs.Cycle.{left_of, cycle_of, cycle_names, IsCycle};
ghost use Rattle.tk_graph.specs.Parents.{parents, parent_names, IsAcyclic, IsAncestor};
ghost use Rattle.tk_graph.specs.Unknown.{first_unknown, is_known};

/// Ranks exist exactly where no task is left, and exactly where no task is its own ancestor.
pub fn acyclic()
    ensures none_left { (tasks : List PipelineTask) → IsAcyclic tasks ↔ (left_of tasks ≡ []) }
    ensures no_own_ancestor { (tasks : List PipelineTask) → IsAcyclic tasks ↔ ((task : ℕ) → IsAncestor tasks task task → ⊥) }
{}

/// Where tasks are left, the cycle that is told is one.
pub fn cycle()
    ensures { (tasks : List PipelineTask) → left_of tasks ≢ [] → IsCycle (parents tasks) (cycle_of tasks) }
{}

/// No cycle is told exactly where the tasks can be ranked.
pub fn no_cycle()
    ensures { (tasks : List PipelineTask) → (cycle_names tasks ≡ None) ↔ IsAcyclic tasks }
{}

/// No name is unknown exactly where each parent that a task names is a task's name.
pub fn known_parents()
    ensures { (tasks : List PipelineTask)
        → (first_unknown tasks ≡ None) ↔ All (λ task. All (λ name. IsTrue (is_known tasks name)) (parent_names task)) tasks }
{}
