//! Laws: shapes tell what can be taken of values, which parameters are bound, and which have values.

ghost use Rattle.std.specs.Prelude.{◌≡◌, ◌++◌, List as Items, option_map};
ghost use Rattle.std.specs.Result.{result_ok};
ghost use Rattle.tk_types.specs.Behaviour.{type_of};
ghost use Rattle.tk_types.specs.declared.value.Param.{Param as P};
ghost use Rattle.tk_types.specs.declared.value.ParamSpec.{ParamSpec as Wanted};
ghost use Rattle.tk_types.specs.declared.value.Value.{Value as V};
ghost use Rattle.tk_types.specs.declared.task.Step.{Step as S};
ghost use Rattle.tk_types.specs.declared.task.TaskBody.{TaskBody as Body};
ghost use Rattle.tk_vars.specs.declared.part.Part.{Part as Selecting};
ghost use Rattle.tk_vars.specs.declared.reference.Reference.{Reference as R};
ghost use Rattle.tk_bind.specs.declared.env.Env.{Env as E};
ghost use Rattle.tk_bind.specs.Bind.{bound_params};
ghost use Rattle.tk_bind.specs.Fits.{fits, step_env, step_has_values};
ghost use Rattle.tk_bind.specs.Params.{list_in, params_in};
ghost use Rattle.tk_bind.specs.Selector.{selected};
ghost use Rattle.tk_bind.specs.Substitute.{on_ok, reference_value, substituted_value};
ghost use Rattle.tk_shape.specs.Bound.{bound_shapes};
ghost use Rattle.tk_shape.specs.Fits.{fits as fits_shapes, step_has_values as step_has_values_by, step_shapes};
ghost use Rattle.tk_shape.specs.Shape.{kind_of, shape_of, selected_shape};
ghost use Rattle.tk_shape.specs.ShapeEnv.{param_shape, shapes_of, shape_env, reference_shape};
ghost use Rattle.tk_shape.specs.Substituted.{list_shape_in, param_shapes, substituted_shape};

/// A selector takes something of a value exactly where it takes something of its shape, and then it takes that shape.
pub fn selected_by_shape()
    ensures { (selector : Items Selecting) (value : V) → option_map shape_of (selected selector value) ≡ selected_shape selector (shape_of value) }
{}

/// A reference takes something of an environment exactly where it takes something of its shapes, and then that shape.
pub fn taken_by_shape()
    ensures { (env : E) (r : R) → option_map shape_of (reference_value env r) ≡ reference_shape (shape_env env) r }
{}

/// So the type of what it takes is that of the shape.
pub fn typed_by_shape()
    ensures { (env : E) (r : R) → option_map type_of (reference_value env r) ≡ option_map kind_of (reference_shape (shape_env env) r) }
{}

/// A value, and parameters, with their references substituted are there exactly where their shapes are, and have those.
pub fn substituted_by_shape()
    ensures value { (env : E) (value : V) → option_map shape_of (result_ok (substituted_value env value)) ≡ substituted_shape (shape_env env) value }
    ensures params { (env : E) (params : Items P) → option_map shapes_of (params_in env params) ≡ param_shapes (shape_env env) params }
    ensures list { (env : E) (p : P) → option_map param_shape (list_in env p) ≡ list_shape_in (shape_env env) p }
{}

/// Parameters are bound exactly where their shapes are, with the same refusals, and then have those shapes.
pub fn bound_by_shape()
    ensures { (wanted : Items Wanted) (given outer fallback : Items P)
        → on_ok shapes_of (bound_params wanted given outer fallback) ≡ bound_shapes wanted (shapes_of given) (shapes_of outer) (shapes_of fallback) }
{}

/// The texts of a body's steps see the shapes of what they see.
pub fn seen_by_shape()
    ensures { (body : Body) (bound given : Items P) → shape_env (step_env body (bound ++ given)) ≡ step_shapes body (shapes_of bound ++ shapes_of given) }
{}

/// The texts of a step have values, and parameters fit a body, exactly where they do by the shapes.
pub fn fits_by_shape()
    ensures step { (env : E) (step : S) → step_has_values env step ≡ step_has_values_by (shape_env env) step }
    ensures body { (body : Body) (given : Items P) → fits body given ≡ fits_shapes body (shapes_of given) }
{}
