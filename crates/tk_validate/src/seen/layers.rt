ghost use Rattle.std.specs.Prelude.{◌≡◌, ◌++◌, ◌||◌, true, filter_map, find, is_some, option_map};
ghost use Rattle.std.specs.Option.{option_map_or};
ghost use Rattle.tk_types.specs.Names.{is_in};
ghost use Rattle.tk_bind.specs.Scope.{declared, suits};
ghost use Rattle.tk_validate.specs.declared.seen.Seen.{Seen as S};
ghost use Rattle.tk_validate.specs.Seen.{is_of_name, kind_seen, typed_of, untyped_of};

use crate::seen::Seen;
use std::marker::Model;
use tk_bind::suits;
use tk_types::{FirstNamed, ParamType};
use tk_vars::Part;

/// The parameters that texts see, in three layers: of equal names the first counts. A contract sees all of them.
#[derive(Drop)]
pub(crate) struct Layers<'l> {
    inner: &'l FirstNamed<'l, Seen>,
    middle: &'l FirstNamed<'l, Seen>,
    outer: &'l FirstNamed<'l, Seen>,
}

impl<'l> Model for Layers<'l> {
    ghost use Rattle.std.specs.Prelude.{List, ◌++◌};
    ghost use Rattle.tk_validate.specs.declared.seen.Seen.{Seen};

    ghost Value = { List Seen };

    ghost view = { λ layers. layers.inner.now ++ (layers.middle.now ++ layers.outer.now) };
}

/// The type of the first parameter of a name, if it is there, where it is known.
fn found(seen: &FirstNamed<'_, Seen>, name: &str) -> Option<Option<ParamType>>
    ensures { result ≡ option_map (λ (s : S). s.kind) (find (is_of_name name.now) seen.now) }
{
    match seen.get(name) {
        Some(seen) => Some(seen.kind),
        None => None,
    }
}

impl<'l> Layers<'l> {
    /// One layer behind the other.
    pub(crate) fn new(
        inner: &'l FirstNamed<'l, Seen>,
        middle: &'l FirstNamed<'l, Seen>,
        outer: &'l FirstNamed<'l, Seen>,
    ) -> Self
        ensures { result ≡ inner.now ++ (middle.now ++ outer.now) }
    {
        Layers {
            inner,
            middle,
            outer,
        }
    }

    /// The type of the first parameter of a name, if it is there, where it is known.
    fn get(&self, name: &str) -> Option<Option<ParamType>>
        ensures { result ≡ option_map (λ (s : S). s.kind) (find (is_of_name name.now) self.now) }
    {
        let behind = found(self.middle, name).or(found(self.outer, name));
        found(self.inner, name).or(behind)
    }

    /// Whether a parameter of the name stands in a scope of these.
    pub(crate) fn contains(&self, name: &str) -> bool
        ensures { result ≡ (is_some (declared (filter_map typed_of self.now) name.now) || is_in (untyped_of self.now) name.now) }
    {
        self.get(name).is_some()
    }

    /// The type of the first of a name, where one is there and its type is known.
    fn kind(&self, name: &str) -> Option<ParamType>
        ensures { result ≡ kind_seen self.now name.now }
    {
        self.get(name).unwrap_or(None)
    }

    /// Whether the parameter of a name may have such a selector in a scope of these.
    pub(crate) fn allows(&self, name: &str, selector: &[Part<'_>]) -> bool
        ensures { result ≡ (is_in (untyped_of self.now) name.now || option_map_or (λ p. suits p.kind selector.now) (declared (filter_map typed_of self.now) name.now) true) }
    {
        match self.kind(name) {
            Some(kind) => suits(kind, selector),
            None => true,
        }
    }
}
