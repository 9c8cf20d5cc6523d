ghost use Rattle.std.specs.Prelude.{◌≡◌, ◌++◌, IfOk, option_map};
ghost use Rattle.std.specs.Option.{option_and_then, option_copied};
ghost use Rattle.tk_types.specs.Value.{value_named, text_at};
ghost use Rattle.tk_bind.specs.Found.{found_value, meant};
ghost use Rattle.tk_bind.specs.Selector.{selected};
ghost use Rattle.tk_bind.specs.Substitute.{result_named, target_value, reference_value};

use crate::env::{Env, Given};
use crate::found::Found;
use crate::key::{key_of, key_part};
use crate::param_index::ParamIndex;
use crate::results::TaskResults;
use crate::target::{Target, target_of};
use crate::value_index::ValueIndex;
use std::alloc::{AllocError, Global};
use std::marker::Model;
use tk_types::{FirstNamed, Pair, Param, Text};
use tk_vars::{Part, Reference};

/// Values by name, indexed. A contract sees them as an environment.
#[derive(Drop)]
pub struct EnvIndex<'p, 'r, 'w> {
    params: ParamIndex<'p>,
    results: TaskResults<'r>,
    words: FirstNamed<'w, Pair>,
}

impl<'p, 'r, 'w> Model for EnvIndex<'p, 'r, 'w> {
    ghost use Rattle.tk_bind.specs.declared.env.Env.{Env};

    ghost Value = { Env };

    ghost view = { λ index. record { params = index.params; results = index.results; words = index.words } };
}

impl<'p, 'r, 'w> EnvIndex<'p, 'r, 'w> {
    /// An index of these parameters, results and words. The only error is want of memory.
    pub fn new(
        alloc: Global,
        params: &'p [Param],
        results: &'r [Given],
        words: &'w [Pair],
    ) -> Result<Self, AllocError>
        ensures { IfOk result (λ index. index ≡ record { params = params.now; results = results.now; words = words.now }) }
    {
        Ok(EnvIndex {
            params: ParamIndex::new(alloc, params)?,
            results: TaskResults::new(alloc, results)?,
            words: FirstNamed::new(alloc, words)?,
        })
    }

    /// What a selector takes of a parameter's value.
    fn param_part(
        &self,
        alloc: Global,
        name: &str,
        selector: &[Part<'_>],
    ) -> Result<Option<Found<'p>>, AllocError>
        ensures { IfOk result (λ found. option_map found_value found ≡ option_and_then (selected selector.now) (value_named name.now self.now.params)) }
    {
        self.params.selected(alloc, name, selector)
    }

    /// The value of a result of a task.
    fn task_result(&self, task: &str, name: &str) -> Option<&ValueIndex<'r>>
        ensures { option_copied result ≡ result_named task.now name.now self.now.results }
    {
        self.results.get(task, name)
    }

    /// The text of a word.
    fn word(&self, key: &str) -> Option<&Text>
        ensures { option_copied result ≡ text_at key.now self.now.words }
    {
        match self.words.get(key) {
            Some(pair) => Some(&pair.value),
            None => None,
        }
    }
}

/// An index of an environment. The only error is want of memory.
pub fn index_of<'e>(alloc: Global, env: &'e Env) -> Result<EnvIndex<'e, 'e, 'e>, AllocError>
    ensures { IfOk result (λ index. index ≡ env.now) }
{
    let params = env.params.as_slice();
    let results = env.results.as_slice();
    EnvIndex::new(alloc, params, results, env.words.as_slice())
}

/// An indexed environment with a few words in front, which aren't indexed. A contract sees the environment.
#[derive(Drop)]
pub struct Lookup<'i, 'p, 'r, 'w, 'o> {
    index: &'i EnvIndex<'p, 'r, 'w>,
    own: &'o [Pair],
}

impl<'i, 'p, 'r, 'w, 'o> Model for Lookup<'i, 'p, 'r, 'w, 'o> {
    ghost use Rattle.std.specs.Prelude.{◌++◌};
    ghost use Rattle.tk_bind.specs.declared.env.Env.{Env};

    ghost Value = { Env };

    ghost view = { λ lookup. record { params = lookup.index.now.params; results = lookup.index.now.results; words = lookup.own.now ++ lookup.index.now.words } };
}

/// The text of a word among a few.
fn word_in<'o>(words: &'o [Pair], key: &str) -> Option<&'o Text>
    ensures { option_copied result ≡ text_at key.now words.now }
{
    words
        .iter()
        .find(|word| word.key.as_str() == key)
        .map(|word| &word.value)
}

impl<'i, 'p, 'r, 'w, 'o> Lookup<'i, 'p, 'r, 'w, 'o> {
    /// The environment with these words in front.
    pub fn new(index: &'i EnvIndex<'p, 'r, 'w>, own: &'o [Pair]) -> Self
        ensures { result ≡ record { params = index.now.params; results = index.now.results; words = own.now ++ index.now.words } }
    {
        Lookup { index, own }
    }

    /// The value of a result of a task.
    pub(crate) fn task_result(&self, task: &str, name: &str) -> Option<&ValueIndex<'r>>
        ensures { option_copied result ≡ result_named task.now name.now self.now.results }
    {
        self.index.task_result(task, name)
    }

    /// The text of a word.
    fn word(&self, key: &str) -> Option<&Text>
        ensures { option_copied result ≡ text_at key.now self.now.words }
    {
        if let Some(text) = word_in(self.own, key) {
            return Some(text);
        }
        self.index.word(key)
    }

    fn target_value<'s>(
        &'s self,
        alloc: Global,
        target: Target,
    ) -> Result<Option<Found<'s>>, AllocError>
        ensures { IfOk result (λ found. option_map found_value found ≡ target_value self.now (meant target.entry)) }
    {
        match target {
            Target::Param { name, selector } => {
                let name = key_part(alloc, name)?;
                self.index.param_part(alloc, name.as_str(), selector)
            }
            Target::Result {
                task,
                name,
                selector,
            } => {
                let name = key_part(alloc, name)?;
                match self.task_result(task.as_str(), name.as_str()) {
                    Some(value) => Ok(value.selected(selector)),
                    None => Ok(None),
                }
            }
            Target::Word { parts } => {
                let key = key_of(alloc, parts)?;
                Ok(self.word(key.as_str()).map(Found::Text))
            }
        }
    }

    /// The value that a reference takes, where it has one. The only error is want of memory.
    pub fn reference_value<'s>(
        &'s self,
        alloc: Global,
        reference: &Reference<'_>,
    ) -> Result<Option<Found<'s>>, AllocError>
        ensures { IfOk result (λ found. option_map found_value found ≡ reference_value self.now reference.now) }
    {
        self.target_value(alloc, target_of(reference.parts.as_slice()))
    }
}
