//! Laws of the definitions that the contracts cite.

ghost use Rattle.std.specs.Prelude.{◌≡◌, ◌≤◌, ℕ, Option, Some};
ghost use Rattle.std.specs.Option.{ForSome};
ghost use Rattle.tk_types.specs.declared.run.RunSpec.{RunSpec};
ghost use Rattle.tk_types.specs.declared.task.Matrix.{Matrix};
ghost use Rattle.tk_types.specs.declared.task.PipelineTask.{PipelineTask};
ghost use Rattle.tk_types.specs.Limits.{most_combinations};
ghost use Rattle.tk_bind.specs.declared.env.Env.{Env};
ghost use Rattle.tk_bind.specs.Params.{matrix_in};
ghost use Rattle.tk_matrix.specs.Product.{HasLists};
ghost use Rattle.tk_early.specs.Possible.{possible_children, settled_count};

/// No task may have more than 256 children, unless its settled matrix has more combinations.
pub fn few_children()
    ensures { (spec : RunSpec) (task : PipelineTask) (children : ℕ) → ForSome (settled_count spec task) (λ count. count ≤ most_combinations) → possible_children spec task ≡ Some children → children ≤ most_combinations }
{}

/// A matrix whose references are substituted has lists alone.
pub fn made_of_lists()
    ensures { (env : Env) (matrix : Option Matrix) (made : Option Matrix) → matrix_in env matrix ≡ Some made → ForSome made HasLists }
{}
