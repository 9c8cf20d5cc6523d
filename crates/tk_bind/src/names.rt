ghost use Rattle.std.specs.Prelude.{◌≡◌, IfOk};
ghost use Rattle.tk_bind.specs.Found.{meant};
ghost use Rattle.tk_bind.specs.Scope.{is_target_visible, is_typed_target, is_visible, is_well_typed};

use crate::key::{key_of, key_part};
use crate::status::{has_finally_head, is_status};
use crate::target::{Target, target_of};
use std::alloc::{AllocError, Global};
use tk_vars::{Part, Reference};

/// What the texts of a scope may name, however it is found.
pub trait Names {
    ghost use Rattle.std.specs.Prelude.{◌≡◌};
    ghost use Rattle.tk_vars.specs.Target.{param, word};
    ghost use Rattle.tk_bind.specs.declared.scope.Scope.{Scope};
    ghost use Rattle.tk_bind.specs.Scope.{is_param_visible, is_target_visible, is_typed_target};

    /// The scope.
    ghost scope: { Self → Scope };

    /// Whether a parameter of this name stands in the scope.
    fn has_param(&self, name: &str) -> bool
        ensures { result ≡ is_param_visible (scope self.now) name.now };

    /// Whether a word of this key does.
    fn has_word(&self, key: &str) -> bool
        ensures { result ≡ is_target_visible (scope self.now) (word key.now) };

    /// Whether results of tasks do.
    fn has_results(&self) -> bool
        ensures { result ≡ (scope self.now).results };

    /// Whether results of tasks of `finally` do, where results do.
    fn has_finally_results(&self) -> bool
        ensures { result ≡ (scope self.now).finally_results };

    /// Whether the parameter of this name may have such a selector.
    fn allows(&self, name: &str, selector: &[Part<'_>]) -> bool
        ensures { result ≡ is_typed_target (scope self.now) (param name.now selector.now) };
}

/// Whether what a reference refers to stands in the scope.
fn has_target<N: Names>(alloc: Global, names: &N, target: Target<'_>) -> Result<bool, AllocError>
    ensures { IfOk result (λ has. has ≡ is_target_visible (N.scope names.now) (meant target.entry)) }
{
    match target {
        Target::Param { name, .. } => {
            let name = key_part(alloc, name)?;
            Ok(names.has_param(name.as_str()))
        }
        Target::Result { .. } => Ok(names.has_results()),
        Target::Word { parts } => {
            let key = key_of(alloc, parts)?;
            Ok(names.has_word(key.as_str()))
        }
    }
}

/// Whether the reference is to something that stands in the scope.
pub(crate) fn is_visible<N: Names>(
    alloc: Global,
    names: &N,
    reference: &Reference<'_>,
) -> Result<bool, AllocError>
    ensures { IfOk result (λ seen. seen ≡ is_visible (N.scope names.now) reference.now) }
{
    let parts = reference.parts.as_slice();
    if is_status(parts) {
        return Ok(names.has_results());
    }
    if has_finally_head(parts) {
        return Ok(names.has_results() && names.has_finally_results());
    }
    has_target(alloc, names, target_of(parts))
}

/// Whether a parameter is used by its type.
fn is_typed<N: Names>(alloc: Global, names: &N, target: Target<'_>) -> Result<bool, AllocError>
    ensures { IfOk result (λ typed. typed ≡ is_typed_target (N.scope names.now) (meant target.entry)) }
{
    match target {
        Target::Param { name, selector } => {
            let name = key_part(alloc, name)?;
            Ok(names.allows(name.as_str(), selector))
        }
        _ => Ok(true),
    }
}

/// Whether it is, and a `[*]` stands where it may.
pub(crate) fn is_well_typed<N: Names>(
    alloc: Global,
    names: &N,
    whole: bool,
    reference: &Reference<'_>,
) -> Result<bool, AllocError>
    ensures { IfOk result (λ typed. typed ≡ is_well_typed (N.scope names.now) whole reference.now) }
{
    let typed = is_typed(alloc, names, target_of(reference.parts.as_slice()))?;
    Ok(typed && (whole || !reference.parts.ends_with_star()))
}
