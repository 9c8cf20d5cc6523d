//! What a text can take of a value, and whether a binding fits a body, hangs on shapes: the type of a value, the length
//! of a list, the keys of an object. So nothing is built to be asked about: the calls here answer without a copy of a
//! text, and what an answer costs doesn't hang on how long the texts of the values are.
//!
//! `shape.rt` has shapes, of which those of objects borrow and index the pairs, and `named.rt` shapes by their names;
//! no text of a value is copied. `taken.rt` says what references take (`Shapes`), of an environment of values or of
//! `env.rt`'s shapes of a task; `presence.rt` and `steps.rt` ask it whether texts and steps have values, `values.rt`
//! gives the shapes of substituted values, `wanted.rt`, `sources.rt`, `bound.rt` and `binding.rt` those of bound
//! parameters. `specs/Shape.antt`, `ShapeEnv.antt`, `Substituted.antt`, `Bound.antt` and `Fits.antt` say of shapes what
//! `tk_bind`'s say of values. `tk_resolve` judges by it.
#![tactic(auto)]

mod binding;
mod bound;
mod env;
pub mod laws;
mod named;
mod presence;
mod shape;
mod sources;
mod steps;
mod taken;
mod values;
mod wanted;

pub use binding::{bound_shape, bound_shapes};
pub use bound::BoundShape;
pub use env::TaskShapes;
pub use named::{NamedShape, shapes_of, shapes_with};
pub use presence::{has_value, have_elements, have_pairs};
pub use shape::Shape;
pub use sources::ShapeSources;
pub use steps::{step_has_values, steps_have_values};
pub use taken::Shapes;
pub use values::{param_shapes, substituted_shape};
pub use wanted::{WantedShape, wanted_shapes};
