ghost use Rattle.std.specs.Prelude.{◌≡◌, ◌++◌, filter, map, IfOk, OnOk, if◌then◌else◌, None};
ghost use Rattle.tk_validate.specs.declared.seen.Seen.{Seen as S};
ghost use Rattle.tk_validate.specs.Agreed.{agrees_with, differs};
ghost use Rattle.tk_validate.specs.Seen.{entries_seen, is_kind, matrix_seen, params_seen, seen};

use crate::seen::outside::{add_lists, add_params, each_given, seen};
use crate::seen::{Seen, kind_seen};
use std::alloc::{AllocError, Global};
use tk_types::{FirstNamed, List, Matrix, NameSet, Param, ParamType, PipelineTask};

/// Whether two types are known and the same.
fn is_kind(first: Option<ParamType>, second: Option<ParamType>) -> bool
    ensures { result ≡ is_kind first second }
{
    match (first, second) {
        (Some(ParamType::Str), Some(ParamType::Str)) => true,
        (Some(ParamType::Arr), Some(ParamType::Arr)) => true,
        (Some(ParamType::Obj), Some(ParamType::Obj)) => true,
        _ => false,
    }
}

/// Whether a parameter's type isn't that of the first of its name.
fn differs(index: &FirstNamed<'_, Seen>, seen: &Seen) -> bool
    ensures { result ≡ differs index.now seen.now }
{
    !is_kind(kind_seen(index, seen.name.as_str()), seen.kind)
}

/// The names of such parameters.
fn mixed_names<'a>(
    alloc: Global,
    index: &FirstNamed<'_, Seen>,
    all: &'a [Seen],
) -> Result<NameSet<'a>, AllocError>
    ensures { IfOk result (λ names. names ≡ map (λ (s : S). s.name) (filter (differs index.now) all.now)) }
{
    let mut names = NameSet::new(alloc);
    for seen in all {
        if differs(index, seen) {
            names.add(seen.name.as_str())?;
        }
    }
    Ok(names)
}

/// Whether all parameters of a parameter's name are of its type, which is known.
fn agrees(index: &FirstNamed<'_, Seen>, mixed: &NameSet<'_>, seen: &Seen) -> bool
    ensures { result ≡ agrees_with index.now mixed.now seen.now }
{
    match index.get(seen.name.as_str()) {
        Some(first) => is_kind(seen.kind, first.kind) && !mixed.contains(seen.name.as_str()),
        None => true,
    }
}

/// Adds parameters, each with its type where all of its name are of that.
fn add_agreed(
    alloc: Global,
    made: &mut List<Seen>,
    index: &FirstNamed<'_, Seen>,
    mixed: &NameSet<'_>,
    all: &[Seen],
) -> Result<(), AllocError>
    ensures { OnOk result (made.new ≡ made.old ++ map (λ (s : S). seen s.name (if agrees_with index.now mixed.now s then s.kind else None)) all.now) }
{
    for one in all {
        let kind = if agrees(index, mixed, one) {
            one.kind
        } else {
            None
        };
        made.push(seen(alloc, &one.name, kind)?)?;
    }
    Ok(())
}

/// Adds what the entries of a matrix give: a type is known where all entries of a name give the same. The only error
/// is want of memory.
fn add_entries(
    alloc: Global,
    made: &mut List<Seen>,
    outer: &FirstNamed<'_, Seen>,
    entries: &[List<Param>],
) -> Result<(), AllocError>
    ensures { OnOk result (made.new ≡ made.old ++ entries_seen outer.now entries.now) }
{
    let all = each_given(alloc, outer, entries)?;
    let index = FirstNamed::new(alloc, all.as_slice())?;
    let mixed = mixed_names(alloc, &index, all.as_slice())?;
    add_agreed(alloc, made, &index, &mixed, all.as_slice())
}

/// Adds what a task gives by its matrix.
fn add_matrix(
    alloc: Global,
    made: &mut List<Seen>,
    outer: &FirstNamed<'_, Seen>,
    matrix: &Option<Matrix>,
) -> Result<(), AllocError>
    ensures { OnOk result (made.new ≡ made.old ++ matrix_seen outer.now matrix.now) }
{
    match matrix {
        Some(matrix) => {
            add_lists(alloc, made, matrix.params.as_slice())?;
            add_entries(alloc, made, outer, matrix.include.as_slice())
        }
        None => Ok(()),
    }
}

/// What a task gives to a spec that is inlined in it. The only error is want of memory.
pub(crate) fn given_by_task(
    alloc: Global,
    outer: &FirstNamed<'_, Seen>,
    task: &PipelineTask,
) -> Result<List<Seen>, AllocError>
    ensures { IfOk result (λ made. made ≡ params_seen outer.now task.now.params ++ matrix_seen outer.now task.now.matrix) }
{
    let mut made = List::new(alloc);
    add_params(alloc, &mut made, outer, task.params.as_slice())?;
    add_matrix(alloc, &mut made, outer, &task.matrix)?;
    Ok(made)
}
