ghost use Rattle.std.specs.Prelude.{◌≡◌, ◌++◌, ◌||◌, OnOk, codes, bytes_eq, flat_map, option_map};
ghost use Rattle.tk_types.specs.declared.value.Pair.{Pair as PairRecord};
ghost use Rattle.tk_graph.specs.Results.{result_tasks, text_tasks};
ghost use Rattle.tk_graph.specs.Tasks.{entry_tasks, first_name, guard_tasks, matrix_tasks, param_tasks, part_task, piece_tasks, task_behind, value_tasks};

use std::alloc::{AllocError, Global};
use tk_types::{List, Matrix, Pair, Param, Text, Value, When};
use tk_vars::laws::one_bad_offset;
use tk_vars::{Part, Piece, ScanError, names_no_task, scan};

/// Whether a reference with this head may be to a task's result.
fn is_task_head(head: &str) -> bool
    ensures { result ≡ (bytes_eq head.now (codes "tasks") || bytes_eq head.now (codes "finally")) }
{
    head == "tasks" || head == "finally"
}

/// The name that parts begin with, and what follows it.
fn named<'p, 't>(parts: &'p [Part<'t>]) -> Option<(&'t str, &'p [Part<'t>])>
    ensures { option_map (λ f. (f.0.now, f.1.now)) result ≡ first_name parts.now }
{
    match parts {
        [first, rest @ ..] => match first {
            Part::Name(name) => Some((name.as_str(), rest)),
            _ => None,
        },
        [] => None,
    }
}

/// The task that stands behind the head of a reference to a task's result.
fn task_in<'t>(parts: &[Part<'t>]) -> Option<&'t str>
    ensures { option_map (λ name. name.now) result ≡ task_behind parts.now }
{
    let Some((task, behind)) = named(parts) else {
        return None;
    };
    let Some((field, rest)) = named(behind) else {
        return None;
    };
    if field == "results" && !rest.is_empty() {
        Some(task)
    } else {
        None
    }
}

/// The task of whose results a reference with these parts names one, if it does (Tekton, Pipelines, Passing one
/// Task's Results into the Parameters or when expressions of another).
#[tactic(auto, unfolding(crate::specs::Tasks::part_task))]
pub fn task_of<'t>(parts: &[Part<'t>]) -> Option<&'t str>
    ensures { option_map (λ name. name.now) result ≡ part_task parts.now }
{
    let Some((head, rest)) = named(parts) else {
        return None;
    };
    if is_task_head(head) {
        task_in(rest)
    } else {
        None
    }
}

/// Adds the task of whose results a piece names one.
fn add_of_piece(alloc: Global, piece: &Piece<'_>, names: &mut List<Text>) -> Result<(), AllocError>
    ensures { OnOk result (names.new ≡ names.old ++ piece_tasks piece.now) }
{
    let Piece::Ref(reference) = piece else {
        return Ok(());
    };
    match task_of(reference.parts.as_slice()) {
        Some(task) => names.push(Text::from_str(alloc, task)?),
        None => Ok(()),
    }
}

/// Adds the tasks of whose results some pieces name one.
fn add_of_pieces(
    alloc: Global,
    pieces: &[Piece<'_>],
    names: &mut List<Text>,
) -> Result<(), AllocError>
    ensures { OnOk result (names.new ≡ names.old ++ flat_map piece_tasks pieces.now) }
{
    for piece in pieces {
        add_of_piece(alloc, piece, names)?;
    }
    Ok(())
}

/// Adds the tasks to whose results a text refers; one without a reading refers to none.
pub(crate) fn add_of_text(
    alloc: Global,
    text: &str,
    names: &mut List<Text>,
) -> Result<(), AllocError>
    ensures { OnOk result (names.new ≡ names.old ++ text_tasks text.now) }
{
    if names_no_task(text) {
        return Ok(());
    }
    one_bad_offset();
    match scan(alloc, text) {
        Ok(pieces) => add_of_pieces(alloc, pieces.as_slice(), names),
        Err(ScanError::BadReference { .. }) => Ok(()),
        Err(ScanError::Memory) => Err(AllocError),
    }
}

/// Adds the tasks to whose results some texts refer.
fn add_of_texts(alloc: Global, texts: &[Text], names: &mut List<Text>) -> Result<(), AllocError>
    ensures { OnOk result (names.new ≡ names.old ++ result_tasks texts.now) }
{
    for text in texts {
        add_of_text(alloc, text.as_str(), names)?;
    }
    Ok(())
}

/// Adds the tasks to whose results the texts of pairs refer.
fn add_of_pairs(alloc: Global, pairs: &[Pair], names: &mut List<Text>) -> Result<(), AllocError>
    ensures { OnOk result (names.new ≡ names.old ++ flat_map (λ (p : PairRecord). text_tasks p.value) pairs.now) }
{
    for pair in pairs {
        add_of_text(alloc, pair.value.as_str(), names)?;
    }
    Ok(())
}

/// Adds the tasks to whose results a value refers.
fn add_of_value(alloc: Global, value: &Value, names: &mut List<Text>) -> Result<(), AllocError>
    ensures { OnOk result (names.new ≡ names.old ++ value_tasks value.now) }
{
    match value {
        Value::Str(text) => add_of_text(alloc, text.as_str(), names),
        Value::Arr(texts) => add_of_texts(alloc, texts.as_slice(), names),
        Value::Obj(pairs) => add_of_pairs(alloc, pairs.as_slice(), names),
    }
}

/// Adds the tasks to whose results parameters refer.
pub(crate) fn add_of_params(
    alloc: Global,
    params: &[Param],
    names: &mut List<Text>,
) -> Result<(), AllocError>
    ensures { OnOk result (names.new ≡ names.old ++ flat_map param_tasks params.now) }
{
    for param in params {
        add_of_value(alloc, &param.value, names)?;
    }
    Ok(())
}

/// Adds the tasks to whose results the include entries of a matrix refer.
fn add_of_entries(
    alloc: Global,
    entries: &[List<Param>],
    names: &mut List<Text>,
) -> Result<(), AllocError>
    ensures { OnOk result (names.new ≡ names.old ++ flat_map entry_tasks entries.now) }
{
    for entry in entries {
        add_of_params(alloc, entry.as_slice(), names)?;
    }
    Ok(())
}

/// Adds the tasks to whose results a matrix refers, where there is one.
pub(crate) fn add_of_matrix(
    alloc: Global,
    matrix: &Option<Matrix>,
    names: &mut List<Text>,
) -> Result<(), AllocError>
    ensures { OnOk result (names.new ≡ names.old ++ matrix_tasks matrix.now) }
{
    match matrix {
        None => Ok(()),
        Some(matrix) => {
            add_of_params(alloc, matrix.params.as_slice(), names)?;
            add_of_entries(alloc, matrix.include.as_slice(), names)
        }
    }
}

/// Adds the tasks to whose results `when` expressions refer.
pub(crate) fn add_of_guards(
    alloc: Global,
    guards: &[When],
    names: &mut List<Text>,
) -> Result<(), AllocError>
    ensures { OnOk result (names.new ≡ names.old ++ flat_map guard_tasks guards.now) }
{
    for guard in guards {
        add_of_text(alloc, guard.input.as_str(), names)?;
        add_of_texts(alloc, guard.values.as_slice(), names)?;
    }
    Ok(())
}
