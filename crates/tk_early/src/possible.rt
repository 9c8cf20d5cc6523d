ghost use Rattle.std.specs.Prelude.{◌≡◌, [], IfOk, option_map};
ghost use Rattle.std.specs.Option.{ForSome};
ghost use Rattle.tk_bind.specs.Readings.{ReadsPipelineTask};
ghost use Rattle.tk_matrix.specs.Combinations.{combination_count};
ghost use Rattle.tk_matrix.specs.Product.{HasLists};
ghost use Rattle.tk_matrix.specs.Task.{task_combination_count};
ghost use Rattle.tk_early.specs.Possible.{possible_children, settled_count, settled_matrix, told_count};
ghost use Rattle.tk_early.specs.Words.{task_words};

use crate::settled::is_settled;
use crate::words::task_words;
use std::alloc::{AllocError, Global};
use std::marker::Model;
use tk_bind::{EnvIndex, Lookup, matrix_in};
use tk_matrix::count;
use tk_types::{List, MOST_COMBINATIONS, Matrix, Pair, PipelineTask, RunSpec};

/// A resolved run, whose parameters are found by their names. A contract sees the run.
#[derive(Drop)]
pub struct RunValues<'a> {
    spec: &'a RunSpec,
    values: EnvIndex<'a, 'a, 'a>,
}

impl<'a> Model for RunValues<'a> {
    ghost use Rattle.std.specs.Prelude.{◌≡◌, []};
    ghost use Rattle.tk_types.specs.declared.run.RunSpec.{RunSpec};

    ghost Value = { RunSpec };

    ghost view = { λ run. run.spec.now };

    ghost invariant = { λ run. run.values ≡ record { params = run.spec.now.params; results = []; words = [] } };
}

impl<'a> RunValues<'a> {
    /// This resolved run. The only error is want of memory.
    pub fn new(alloc: Global, spec: &'a RunSpec) -> Result<Self, AllocError>
        ensures { IfOk result (λ run. run ≡ spec.now) }
    {
        Ok(RunValues {
            spec,
            values: EnvIndex::new(alloc, spec.params.as_slice(), &[], &[])?,
        })
    }

    /// The words that the texts of a task see at admission.
    fn words(&self, alloc: Global, task: &PipelineTask) -> Result<List<Pair>, AllocError>
        ensures { IfOk result (λ words. words ≡ task_words self.now task.now) }
    {
        task_words(alloc, self.spec, task)
    }

    /// The run's parameters, with these words.
    fn lookup<'s>(&'s self, words: &'s [Pair]) -> Lookup<'s, 'a, 'a, 'a, 's>
        ensures { result ≡ record { params = self.now.params; results = []; words = words.now } }
    {
        Lookup::new(&self.values, words)
    }

    /// How many combinations a task of the run has, where that is known at admission: its matrix refers to no result, and
    /// each of its references has a value. A task without a matrix has one, and a count over 2^64 - 1 is given as that
    /// number. The only error is want of memory (Tekton, Matrix, Concurrency Control).
    pub fn settled_count(
        &self,
        alloc: Global,
        task: &PipelineTask,
    ) -> Result<Option<u64>, AllocError>
        requires { ReadsPipelineTask task.now }
        ensures { IfOk result (λ count. count ≡ option_map told_count (settled_count self.now task.now)) }
    {
        if task.matrix.is_none() {
            return Ok(Some(1));
        }
        let words = self.words(alloc, task)?;
        let lookup = self.lookup(words.as_slice());
        match settled_matrix(alloc, &lookup, task)? {
            Some(matrix) => Ok(Some(task_count(&matrix))),
            None => Ok(None),
        }
    }

    /// How many children a task of the run may have, where it has a matrix: those of its combinations, and 256 where
    /// these are known only in the run. A task without a matrix has one child, whose name has no number. The only error
    /// is want of memory.
    pub fn possible_children(
        &self,
        alloc: Global,
        task: &PipelineTask,
    ) -> Result<Option<u64>, AllocError>
        requires { ReadsPipelineTask task.now }
        ensures { IfOk result (λ children. children ≡ option_map told_count (possible_children self.now task.now)) }
    {
        if task.matrix.is_none() {
            return Ok(None);
        }
        let count = self.settled_count(alloc, task)?;
        Ok(Some(count.unwrap_or(u64::from(MOST_COMBINATIONS))))
    }
}

/// The matrix of a task with its references substituted, where it is settled and each of them has a value.
fn settled_matrix(
    alloc: Global,
    lookup: &Lookup,
    task: &PipelineTask,
) -> Result<Option<Option<Matrix>>, AllocError>
    requires { ReadsPipelineTask task.now }
    ensures { IfOk result (λ made. made ≡ settled_matrix lookup.now task.now) }
{
    if !is_settled(alloc, task)? {
        return Ok(None);
    }
    matrix_in(alloc, lookup, &task.matrix)
}

/// How many combinations a matrix has.
fn matrix_count(matrix: &Matrix) -> u64
    requires { HasLists matrix.now }
    ensures { result ≡ told_count (combination_count matrix.now) }
{
    match count(matrix) {
        Ok(count) => u64::from(count),
        Err(too_large) => too_large.count,
    }
}

/// How many combinations a task has by its matrix.
fn task_count(matrix: &Option<Matrix>) -> u64
    requires { ForSome matrix.now HasLists }
    ensures { result ≡ told_count (task_combination_count matrix.now) }
{
    match matrix {
        Some(matrix) => matrix_count(matrix),
        None => 1,
    }
}
