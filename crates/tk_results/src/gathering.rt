ghost use Rattle.std.specs.Prelude.{◌≡◌, IfErr, IfOk, Ok};
ghost use Rattle.std.specs.List.{filter_map};
ghost use Rattle.tk_types.specs.Lists.{all_ok};
ghost use Rattle.tk_results.specs.Gathered.{IsGatherRefusal, emitted, gathered, param_of};

use crate::files::{Fetched, count_bytes, file_of};
use crate::read::value_of;
use crate::refusal::GatherError;
use std::alloc::Global;
use tk_types::{List, MOST_RESULT_BYTES, Param, ResultSpec, TryCopy};

/// The result of a file's bytes.
fn param_of(alloc: Global, spec: &ResultSpec, bytes: &[u8]) -> Result<Param, GatherError>
    ensures read { IfOk result (λ param. param_of spec.now bytes.now ≡ Ok param) }
    ensures refused { IfErr result (IsGatherRefusal (param_of spec.now bytes.now)) }
{
    let name = spec.name.copy(alloc)?;
    match value_of(alloc, spec.kind, bytes)? {
        Some(value) => Ok(Param { name, value }),
        None => Err(GatherError::Bad { name }),
    }
}

/// The results that are emitted, in the order of their declarations.
fn emitted(
    alloc: Global,
    specs: &[ResultSpec],
    files: &[Fetched],
) -> Result<List<Param>, GatherError>
    ensures read { IfOk result (λ params. all_ok (filter_map (emitted files.now) specs.now) ≡ Ok params) }
    ensures refused { IfErr result (IsGatherRefusal (all_ok (filter_map (emitted files.now) specs.now))) }
{
    let mut params = List::new(alloc);
    for spec in specs {
        if let Some(bytes) = file_of(files, spec.name.as_str()) {
            params.push(param_of(alloc, spec, bytes)?)?;
        }
    }
    Ok(params)
}

/// The results that an attempt emits, in the order of their declarations, each of the first file of its name. A missing
/// file is a result that isn't emitted, and a file of an undeclared name is ignored. Refused are files of declared
/// results that hold more than 4,096 bytes together, and after that the first whose bytes are no value of its type; of
/// a name that is declared twice the file counts twice (Tekton, Tasks, Emitting Results).
pub fn gather(
    alloc: Global,
    specs: &[ResultSpec],
    files: &[Fetched],
) -> Result<List<Param>, GatherError>
    ensures gathered { IfOk result (λ params. gathered specs.now files.now ≡ Ok params) }
    ensures refused { IfErr result (IsGatherRefusal (gathered specs.now files.now)) }
{
    let bytes = count_bytes(specs, files);
    if bytes > MOST_RESULT_BYTES {
        return Err(GatherError::TooMany { bytes });
    }
    emitted(alloc, specs, files)
}
