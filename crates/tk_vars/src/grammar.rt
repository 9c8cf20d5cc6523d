ghost use Rattle.std.specs.Prelude.{◌≡◌, true, List, [], ◌∷◌, ◌&&◌, not, ◌==◌, ◌<◌, length, codes, IfSome};
ghost use Rattle.std.specs.Char.{is_ascii_digit};
ghost use Rattle.std.specs.List.{list_all};
ghost use Rattle.tk_vars.specs.Grammar.{Slot, word, name, part, parts, selector, is_name_byte, is_quoted_byte, is_reference, is_headed, must_stand};
ghost use Rattle.tk_vars.specs.Reading.{reference_of};
ghost use Rattle.tk_vars.specs.Steps.{opens, is_name, is_index, is_between, is_choice, is_inside, is_tail, is_rest_of, is_allowed};

use crate::splitting::{behind_parenthesis, split_bracketed, split_dotted, split_head};

fn is_name_byte(byte: u8) -> bool
    ensures { result ≡ is_name_byte byte }
{
    byte.is_ascii_alphanumeric() || byte == b'-' || byte == b'_'
}

fn are_name_bytes(text: &[u8]) -> bool
    ensures { result ≡ list_all is_name_byte text.now }
{
    text.iter().all(|b| is_name_byte(*b))
}

fn is_quoted_byte(byte: u8) -> bool
    ensures { result ≡ is_quoted_byte byte }
{
    is_name_byte(byte) || byte == b'.'
}

fn are_quoted_bytes(text: &[u8]) -> bool
    ensures { result ≡ list_all is_quoted_byte text.now }
{
    text.iter().all(|b| is_quoted_byte(*b))
}

fn are_digits(text: &[u8]) -> bool
    ensures { result ≡ list_all is_ascii_digit text.now }
{
    text.iter().all(|b| b.is_ascii_digit())
}

/// Whether the bytes are a name behind a dot.
fn is_name(text: &[u8]) -> bool
    ensures { result ≡ is_name text.now }
{
    !text.is_empty() && are_name_bytes(text)
}

/// Whether the bytes are `0`, or one to nine digits without a leading zero.
pub(crate) fn is_index(inner: &[u8]) -> bool
    ensures { result ≡ is_index inner.now }
{
    match inner {
        [] => false,
        [b'0'] => true,
        [first, ..] => *first != b'0' && inner.len() <= 9 && are_digits(inner),
    }
}

fn is_quoted_name(text: &[u8]) -> bool
    ensures { result ≡ (not (length text.now == 0) && list_all is_quoted_byte text.now) }
{
    !text.is_empty() && are_quoted_bytes(text)
}

/// Whether the bytes are a name between two of these quotes.
fn is_between(quote: u8, inner: &[u8]) -> bool
    ensures { result ≡ is_between quote inner.now }
{
    match inner {
        [first, name @ .., last] => *first == quote && *last == quote && is_quoted_name(name),
        _ => false,
    }
}

/// Whether the bytes stand in brackets as a selector: `*` or digits.
fn is_choice(inner: &[u8]) -> bool
    ensures { result ≡ is_choice inner.now }
{
    inner == b"*".as_slice() || is_index(inner)
}

/// Whether the bytes stand in brackets as a part.
fn is_inside(inner: &[u8]) -> bool
    ensures { result ≡ is_inside inner.now }
{
    is_choice(inner) || is_between(b'\'', inner) || is_between(b'"', inner)
}

/// What follows a first part.
fn after_part(tail: &[u8]) -> Option<&[u8]>
    ensures allowed { (slots : List Slot) → is_tail (part ∷ slots) tail.now ≡ is_rest_of slots result }
    ensures shorter { IfSome result (λ rest. length rest.now < length tail.now) }
{
    if let Some((name, rest)) = split_dotted(tail) {
        return if is_name(name) { Some(rest) } else { None };
    }
    match split_bracketed(tail) {
        Some((inner, rest)) => if is_inside(inner) { Some(rest) } else { None },
        None => None,
    }
}

/// What follows a first `.NAME`.
fn after_name(tail: &[u8]) -> Option<&[u8]>
    ensures { (slots : List Slot) → is_tail (name ∷ slots) tail.now ≡ is_rest_of slots result }
{
    match split_dotted(tail) {
        Some((name, rest)) => if is_name(name) { Some(rest) } else { None },
        None => None,
    }
}

/// What follows a dot and this word.
fn after_word<'a>(tail: &'a [u8], wanted: &[u8]) -> Option<&'a [u8]>
    requires { is_name wanted.now ≡ true }
    ensures { (slots : List Slot) → is_tail (word wanted.now ∷ slots) tail.now ≡ is_rest_of slots result }
{
    match split_dotted(tail) {
        Some((name, rest)) => if name == wanted { Some(rest) } else { None },
        None => None,
    }
}

/// Whether the bytes are a selector, or nothing.
fn is_selector(tail: &[u8]) -> bool
    ensures { result ≡ is_tail (selector ∷ []) tail.now }
{
    if tail.is_empty() {
        return true;
    }
    if let Some((name, rest)) = split_dotted(tail) {
        return is_name(name) && rest.is_empty();
    }
    match split_bracketed(tail) {
        Some((inner, rest)) => is_choice(inner) && rest.is_empty(),
        None => false,
    }
}

/// Whether the bytes are parts in a row, or nothing.
fn are_parts(tail: &[u8]) -> bool
    ensures { result ≡ is_tail (parts ∷ []) tail.now }
{
    let mut rest = tail;
    while !rest.is_empty() {
        match after_part(rest) {
            Some(others) => rest = others,
            None => return false,
        }
    }
    true
}

/// Whether the bytes are the word behind a dot, and nothing else.
fn is_word(tail: &[u8], wanted: &[u8]) -> bool
    requires { is_name wanted.now ≡ true }
    ensures { result ≡ is_tail (word wanted.now ∷ []) tail.now }
{
    match after_word(tail, wanted) {
        Some(rest) => rest.is_empty(),
        None => false,
    }
}

/// PART SELECTOR.
fn is_selected(tail: &[u8]) -> bool
    ensures { result ≡ is_tail (part ∷ selector ∷ []) tail.now }
{
    match after_part(tail) {
        Some(rest) => is_selector(rest),
        None => false,
    }
}

/// `.TASK.results` PART SELECTOR.
fn is_task_result(tail: &[u8]) -> bool
    ensures { result ≡ is_tail (name ∷ word (codes "results") ∷ part ∷ selector ∷ []) tail.now }
{
    let Some(rest) = after_name(tail) else {
        return false;
    };
    match after_word(rest, b"results") {
        Some(rest) => is_selected(rest),
        None => false,
    }
}

/// `.TASK.status`.
fn is_task_status(tail: &[u8]) -> bool
    ensures { result ≡ is_tail (name ∷ word (codes "status") ∷ []) tail.now }
{
    match after_name(tail) {
        Some(rest) => is_word(rest, b"status"),
        None => false,
    }
}

/// A word and a word behind it.
fn are_words(tail: &[u8], first: &[u8], second: &[u8]) -> bool
    requires first { is_name first.now ≡ true }
    requires second { is_name second.now ≡ true }
    ensures { result ≡ is_tail (word first.now ∷ word second.now ∷ []) tail.now }
{
    match after_word(tail, first) {
        Some(rest) => is_word(rest, second),
        None => false,
    }
}

/// A context variable.
fn is_context(tail: &[u8]) -> bool
    ensures { result ≡ is_allowed (codes "context") tail.now }
{
    are_words(tail, b"pipelineRun", b"name")
        || are_words(tail, b"pipeline", b"name")
        || are_words(tail, b"pipelineTask", b"retries")
        || are_words(tail, b"taskRun", b"name")
        || are_words(tail, b"task", b"name")
        || are_words(tail, b"task", b"retry-count")
}

/// PART `.path`.
fn is_result_path(tail: &[u8]) -> bool
    ensures { result ≡ is_tail (part ∷ word (codes "path") ∷ []) tail.now }
{
    match after_part(tail) {
        Some(rest) => is_word(rest, b"path"),
        None => false,
    }
}

/// One part or more.
fn is_some_parts(tail: &[u8]) -> bool
    ensures { result ≡ is_tail (part ∷ parts ∷ []) tail.now }
{
    match after_part(tail) {
        Some(rest) => are_parts(rest),
        None => false,
    }
}

/// Whether the table of references allows the head with these bytes behind it.
fn is_allowed(head: &[u8], tail: &[u8]) -> bool
    ensures { result ≡ is_allowed head.now tail.now }
{
    if head == b"params".as_slice() {
        is_selected(tail)
    } else if head == b"tasks".as_slice() {
        is_task_result(tail) || is_task_status(tail) || is_word(tail, b"status")
    } else if head == b"finally".as_slice() {
        is_task_result(tail)
    } else if head == b"context".as_slice() {
        is_context(tail)
    } else if head == b"results".as_slice() {
        is_result_path(tail)
    } else if head == b"steps".as_slice() || head == b"workspaces".as_slice() {
        is_some_parts(tail)
    } else {
        false
    }
}

/// Whether the bytes between `$(` and `)` are those of a reference.
pub(crate) fn is_reference(inner: &[u8]) -> bool
    ensures { result ≡ is_reference (reference_of inner.now) }
{
    let (head, tail) = split_head(inner);
    is_allowed(head, tail)
}

/// Whether the bytes begin as a part does.
fn opens(text: &[u8]) -> bool
    ensures { result ≡ opens text.now }
{
    match text {
        [first, ..] => *first == b'.' || *first == b'[',
        [] => false,
    }
}

/// Whether the bytes behind `$(` are the head, and what begins as a part does.
fn is_headed(text: &[u8], head: &[u8]) -> bool
    ensures { result ≡ is_headed (36 ∷ 40 ∷ text.now) head.now }
{
    match text.strip_prefix(head) {
        Some(rest) => opens(rest),
        None => false,
    }
}

/// Whether one of the heads stands behind `$(`, and what begins as a part does.
fn has_head(text: &[u8]) -> bool
    ensures { result ≡ must_stand (36 ∷ 40 ∷ text.now) }
{
    is_headed(text, b"params")
        || is_headed(text, b"tasks")
        || is_headed(text, b"finally")
        || is_headed(text, b"context")
        || is_headed(text, b"results")
        || is_headed(text, b"steps")
        || is_headed(text, b"workspaces")
}

/// Whether a reference must stand at a `$` with this behind it.
pub(crate) fn must_stand(after: &str) -> bool
    ensures { result ≡ must_stand (36 ∷ after.now) }
{
    match behind_parenthesis(after) {
        Some(text) => has_head(text.as_bytes()),
        None => false,
    }
}
