//! Parameters and substitution: which values the wanted parameters of a Task or a Pipeline take, what the references of
//! a text may name, and which values they take. A text's value is a function of its one reading, so what is put in is
//! never read again. Each refusal tells the first thing that is wrong; want of memory is the only other one.
//!
//! `value_index.rt` is a value whose keys are found by an index, `param_index.rt` parameters with such values, and
//! `results.rt` the results of a task; every look-up stands on them. `bind.rt` goes over the wanted parameters,
//! `completing.rt` gives an object the keys that only its default has, in one walk where the default's keys ascend.
//! `names.rt` has what the texts of a scope may name, however that is found (`Names`), and `scope_names.rt` one scope
//! with its names indexed; `check.rt` goes over a text's references, first for what isn't visible, then for types.
//! `lookup.rt` has the indexes of an environment, and look-ups that share them with a few words of their own in front;
//! `target.rt` says what a reference refers to, `substitution.rt` joins and splices, `params.rt` does parameters and
//! matrices, `presence.rt`, `lacking.rt` and `fitting.rt` only ask whether there are values. `specs/Bind.antt` says
//! which value a parameter takes, `Scope.antt` what is visible and well typed, `Check.antt` what is wrong with a text,
//! `Selector.antt` what a selector fits, `Substitute.antt` and `Params.antt` the values, `Fits.antt` which bindings fit
//! a body. `proofs/TextExamples.antt`, `BindingExamples.antt`, `CheckExamples.antt` and `FittingExamples.antt` have
//! worked rows by computation; the tests show that a built call gives such answers.
//!
//! ```text
//! let env = Env { params, results, words };
//! let text = substitute(alloc, "$(params.t)-x", &env)?;            // "s-x" where the parameter t is the text s
//!
//! let index = index_of(alloc, &env)?;                              // for many texts over one environment
//! let lookup = Lookup::new(&index, words_of_the_task);
//! let text = lookup.substitute(alloc, "$(params.t)-x")?;
//! ```
//!
//! Both ask that the text has a reading, which `check_text` tells, as `scan` of `tk_vars` does. The error is the first reference
//! without a value, or want of memory.
#![tactic(auto)]

mod bind;
mod check;
mod completing;
mod env;
mod fitting;
mod found;
mod key;
mod lacking;
pub mod laws;
mod lookup;
mod names;
mod param_index;
mod params;
mod presence;
mod refusal;
mod results;
mod scope;
mod scope_names;
mod status;
mod substitution;
mod target;
mod value_index;

pub use bind::{Sources, bind_params, bound_param, first_value};
pub use check::{check_text, first_mistyped, first_unseen};
pub use completing::completed;
pub use env::{Env, Given};
pub use fitting::{fits, step_env};
pub use found::Found;
pub use key::{key_of, key_part};
pub use lookup::{EnvIndex, Lookup, index_of};
pub use names::Names;
pub use params::{list_in, matrix_in, param_in, params_in};
pub use refusal::{BindError, CheckError, SubstituteError};
pub use scope::Scope;
pub use scope_names::{ScopeNames, suits};
pub use status::{has_finally_head, is_status, status_task};
pub use substitution::{substitute, substitute_list, substitute_value};
pub use target::{Target, target_of};
