ghost use Rattle.std.specs.Prelude.{◌≡◌, true, ◌≤◌, [], ◌∷◌, ◌++◌, codes, length, IfOk, MatchOption};
ghost use Rattle.std.specs.Str.{IsUtf8, all_ascii_digits};
ghost use Rattle.tk_vars.specs.Grammar.{parts, is_reference};
ghost use Rattle.tk_vars.specs.Reading.{number_of, bracketed, parts_from, reference_of};
ghost use Rattle.tk_vars.specs.Steps.{is_inside, is_tail, IsFirstPart};

use crate::grammar::is_index;
use crate::part::Part;
use crate::parts::Parts;
use crate::reference::Reference;
use crate::splitting::{split_bracketed, split_dotted, split_head};
use crate::word::Word;
use std::alloc::{AllocError, Global};

/// A word of these bytes, which are a text.
fn word_of(bytes: &[u8]) -> Word<'_>
    requires { IsUtf8 bytes.now }
    ensures { result ≡ bytes.now }
{
    match str::from_utf8(bytes) {
        Ok(text) => Word::new(text),
        Err(_) => unreachable!(),
    }
}

/// The number that the digits write.
fn number_of(digits: &[u8]) -> u32
    requires digits { all_ascii_digits digits.now ≡ true }
    requires short { length digits.now ≤ 9 }
    ensures { result ≡ number_of digits.now }
{
    let mut number = 0u32;
    for digit in digits {
        number = number * 10 + u32::from(*digit - b'0');
    }
    number
}

/// The part that stands in brackets.
fn bracketed(inner: &[u8]) -> Part<'_>
    requires { is_inside inner.now ≡ true }
    ensures { result ≡ bracketed inner.now }
{
    if inner == b"*".as_slice() {
        return Part::Star;
    }
    if is_index(inner) {
        return Part::Index(number_of(inner));
    }
    Part::Name(word_of(&inner[1..inner.len() - 1]))
}

/// The first part and what follows it, or nothing where no part is left.
fn first_part(tail: &[u8]) -> Option<(Part<'_>, &[u8])>
    requires { is_tail (parts ∷ []) tail.now ≡ true }
    ensures { MatchOption result (tail.now ≡ []) (λ f. IsFirstPart tail.now f.0 f.1.now) }
{
    if let Some((name, rest)) = split_dotted(tail) {
        return Some((Part::Name(word_of(name)), rest));
    }
    match split_bracketed(tail) {
        Some((inner, rest)) => Some((bracketed(inner), rest)),
        None => None,
    }
}

/// The head and the parts behind it.
fn parts_of<'t>(alloc: Global, head: &'t [u8], tail: &'t [u8]) -> Result<Parts<'t>, AllocError>
    requires head { IsUtf8 head.now }
    requires tail { is_tail (parts ∷ []) tail.now ≡ true }
    ensures { IfOk result (λ list. list ≡ Part.Name head.now ∷ parts_from 0 tail.now) }
{
    let mut list = Vec::new(alloc);
    list.push(Part::Name(word_of(head)))?;
    let mut rest = tail;
    while let Some((part, others)) = first_part(rest) {
        list.push(part)?;
        rest = others;
    }
    Ok(Parts::from_vec(list))
}

/// The reference with this spelling, which has this text between `$(` and `)`.
pub(crate) fn reference_of<'t>(
    alloc: Global,
    spelling: &'t str,
    inner: &'t str,
) -> Result<Reference<'t>, AllocError>
    requires reference { is_reference (reference_of inner.now) ≡ true }
    requires spelling { spelling.now ≡ codes "$(" ++ inner.now ++ codes ")" }
    ensures { IfOk result (λ reference. reference ≡ reference_of inner.now) }
{
    let (head, tail) = split_head(inner.as_bytes());
    let parts = parts_of(alloc, head, tail)?;
    Ok(Reference {
        spelling: Word::new(spelling),
        parts,
    })
}
