ghost use Rattle.std.specs.Prelude.{◌≡◌, ◌++◌, filter_map, option_to_list, IfOk, OnOk};
ghost use Rattle.tk_bind.specs.Params.{param_in as param_in_env};
ghost use Rattle.tk_bind.specs.Readings.{ReadsParam, ReadsParams};
ghost use Rattle.tk_verdict.specs.Available.{available_results};
ghost use Rattle.tk_verdict.specs.Condition.{results_of};
ghost use Rattle.tk_verdict.specs.WellFormed.{IsWellFormed};

use std::alloc::{AllocError, Global};
use tk_bind::{EnvIndex, Given, Lookup, param_in};
use tk_early::run_words;
use tk_types::{Facts, List, Param};

/// The parameters all of whose references have values, with these.
fn params_with_values(
    alloc: Global,
    lookup: &Lookup,
    params: &[Param],
) -> Result<List<Param>, AllocError>
    requires { ReadsParams params.now }
    ensures { IfOk result (λ made. made ≡ filter_map (param_in_env lookup.now) params.now) }
{
    let mut made = List::new(alloc);
    for param in params {
        if let Some(param) = param_in(alloc, lookup, param)? {
            made.push(param)?;
        }
    }
    Ok(made)
}

/// The results of a run's pipeline all of whose references have values, by these available results.
pub(crate) fn results_with(
    alloc: Global,
    facts: &Facts,
    results: &[Given],
) -> Result<List<Param>, AllocError>
    requires well_formed { IsWellFormed facts.now }
    requires results { results.now ≡ available_results facts.now }
    ensures { IfOk result (λ made. made ≡ results_of facts.now) }
{
    let words = run_words(alloc, &facts.spec)?;
    let index = EnvIndex::new(
        alloc,
        facts.spec.params.as_slice(),
        results,
        words.as_slice(),
    )?;
    let lookup = Lookup::new(&index, &[]);
    params_with_values(alloc, &lookup, facts.spec.results.as_slice())
}
