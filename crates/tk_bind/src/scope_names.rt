ghost use Rattle.std.specs.Prelude.{◌≡◌, IfOk};
ghost use Rattle.tk_bind.specs.Scope.{suits};

use crate::names::Names;
use crate::scope::Scope;
use std::alloc::{AllocError, Global};
use std::marker::Model;
use tk_types::{FirstNamed, ParamSpec, ParamType, Text};
use tk_vars::Part;

/// A scope whose names are found by an index. A contract sees the scope.
#[derive(Drop)]
pub struct ScopeNames<'a> {
    scope: &'a Scope,
    params: FirstNamed<'a, ParamSpec>,
    untyped: FirstNamed<'a, Text>,
    words: FirstNamed<'a, Text>,
    paths: FirstNamed<'a, Text>,
}

impl<'a> Model for ScopeNames<'a> {
    ghost use Rattle.std.specs.Prelude.{◌≡◌};
    ghost use Rattle.tk_bind.specs.declared.scope.Scope.{Scope};

    ghost Value = { Scope };

    ghost view = { λ names. names.scope.now };

    ghost invariant = { λ names. (names.params ≡ names.scope.now.params)
        × (names.untyped ≡ names.scope.now.untyped)
        × (names.words ≡ names.scope.now.words)
        × (names.paths ≡ names.scope.now.paths) };
}

impl<'a> ScopeNames<'a> {
    /// The names of this scope.
    pub fn new(alloc: Global, scope: &'a Scope) -> Result<Self, AllocError>
        ensures { IfOk result (λ names. names ≡ scope.now) }
    {
        Ok(ScopeNames {
            scope,
            params: FirstNamed::new(alloc, scope.params.as_slice())?,
            untyped: FirstNamed::new(alloc, scope.untyped.as_slice())?,
            words: FirstNamed::new(alloc, scope.words.as_slice())?,
            paths: FirstNamed::new(alloc, scope.paths.as_slice())?,
        })
    }
}

impl<'a> Names for ScopeNames<'a> {
    ghost scope = { λ names. names };

    fn has_param(&self, name: &str) -> bool {
        self.params.get(name).is_some() || self.untyped.contains(name)
    }

    fn has_word(&self, key: &str) -> bool {
        self.words.contains(key) || self.paths.contains(key)
    }

    fn has_results(&self) -> bool {
        self.scope.results
    }

    fn has_finally_results(&self) -> bool {
        self.scope.finally_results
    }

    fn allows(&self, name: &str, selector: &[Part<'_>]) -> bool {
        if self.untyped.contains(name) {
            return true;
        }
        match self.params.get(name) {
            Some(spec) => suits(spec.kind, selector),
            None => true,
        }
    }
}

/// Whether a value of the type may have such a selector.
pub fn suits(kind: ParamType, selector: &[Part<'_>]) -> bool
    ensures { result ≡ suits kind selector.now }
{
    match selector {
        [] => matches!(kind, ParamType::Str),
        [Part::Index(_)] => matches!(kind, ParamType::Arr),
        [Part::Star] => !matches!(kind, ParamType::Str),
        [Part::Name(_)] => matches!(kind, ParamType::Obj),
        _ => false,
    }
}
