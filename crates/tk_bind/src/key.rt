ghost use Rattle.std.specs.Prelude.{◌≡◌, ◌∷◌, ◌++◌, IfOk, OnOk, string_bytes};
ghost use Rattle.tk_vars.specs.Target.{key_part, key_of};

use std::alloc::{AllocError, Global};
use std::marker::Model;
use tk_vars::Part;

/// Adds a part as it stands in a key: its name, or an index or `[*]` as it is written.
fn push_part(key: &mut String, part: &Part<'_>) -> Result<(), AllocError>
    ensures { OnOk result (string_bytes key.new ≡ string_bytes key.old ++ key_part part.now) }
{
    match part {
        Part::Name(name) => key.push_str(name.as_str()),
        Part::Index(index) => write!(key, "[{index}]"),
        Part::Star => key.push_str("[*]"),
    }
}

/// A name as it stands in a text, or one that is made.
#[derive(Drop)]
enum Spelling<'t> {
    Named(&'t str),
    Made(String),
}

/// A part as a name, which contracts see as its bytes.
#[derive(Drop)]
pub struct Key<'t> {
    spelling: Spelling<'t>,
}

impl<'t> Model for Key<'t> {
    ghost use Rattle.std.specs.Prelude.{List, ℕ, string_bytes};
    ghost use Rattle.tk_bind.specs.declared.key.Spelling.TheVariants.{Named, Made};

    ghost Value = { List ℕ };

    ghost view = { λ k. elim k.spelling [ Named name ↦ name.now | Made name ↦ string_bytes name ] };
}

impl<'t> Key<'t> {
    /// The name.
    pub fn as_str(&self) -> &str
        ensures { result.now ≡ self.now }
    {
        match &self.spelling {
            Spelling::Named(name) => name,
            Spelling::Made(name) => name.as_str(),
        }
    }
}

/// A part as it is written: an index or `[*]`, which names nothing.
fn written(alloc: Global, part: &Part<'_>) -> Result<String, AllocError>
    ensures { IfOk result (λ key. string_bytes key ≡ key_part part.now) }
{
    let mut key = String::new(alloc);
    push_part(&mut key, part)?;
    Ok(key)
}

/// A part as a name, which refers to the text where it is one: an index or `[*]` is as it is written, and names nothing. The
/// only error is want of memory.
pub fn key_part<'t>(alloc: Global, part: &Part<'t>) -> Result<Key<'t>, AllocError>
    ensures { IfOk result (λ key. key ≡ key_part part.now) }
{
    let spelling = match part {
        Part::Name(name) => Spelling::Named(name.as_str()),
        _ => Spelling::Made(written(alloc, part)?),
    };
    Ok(Key { spelling })
}

/// The key of a word with this first part.
fn key_from(alloc: Global, first: &Part<'_>, rest: &[Part<'_>]) -> Result<String, AllocError>
    ensures { IfOk result (λ key. string_bytes key ≡ key_of (first.now ∷ rest.now)) }
{
    let mut key = written(alloc, first)?;
    for part in rest {
        key.push('.')?;
        push_part(&mut key, part)?;
    }
    Ok(key)
}

/// The key of a word: its parts with a dot between each two. The only error is want of memory.
pub fn key_of(alloc: Global, parts: &[Part<'_>]) -> Result<String, AllocError>
    ensures { IfOk result (λ key. string_bytes key ≡ key_of parts.now) }
{
    match parts {
        [first, rest @ ..] => key_from(alloc, first, rest),
        [] => Ok(String::new(alloc)),
    }
}
