ghost use Rattle.std.specs.Prelude.{◌≡◌, ◌==◌, ◌||◌, true, false, not, IfSome, IfNone, MatchOption, position, ◌∷◌};
ghost use Rattle.std.specs.List.{list_all};
ghost use Rattle.std.specs.Char.{is_ascii_alphabetic};
ghost use Rattle.tk_vars.specs.Steps.{SplitsAt, IsDotted, IsBracketed, begins_with, begins_dotted, begins_bracketed, in_name, in_bracket, IsSplitAt};

fn head_end(inner: &[u8]) -> Option<usize>
    ensures { result ≡ position (λ b. not (is_ascii_alphabetic b)) inner.now }
{
    inner.iter().position(|b| !b.is_ascii_alphabetic())
}

fn name_end(text: &[u8]) -> Option<usize>
    ensures { result ≡ position (λ b. b == 46 || b == 91) text.now }
{
    text.iter().position(|b| *b == b'.' || *b == b'[')
}

fn bracket_end(text: &[u8]) -> Option<usize>
    ensures { result ≡ position (λ b. b == 93) text.now }
{
    text.iter().position(|b| *b == b']')
}

/// The head in front of the first byte that is no letter, and what follows it.
pub(crate) fn split_head(inner: &[u8]) -> (&[u8], &[u8])
    ensures { SplitsAt is_ascii_alphabetic inner.now result.0.now result.1.now }
{
    inner.split_at(head_end(inner).unwrap_or(inner.len()))
}

/// The name in front of the next part, and what follows it.
fn split_name(text: &[u8]) -> (&[u8], &[u8])
    ensures { SplitsAt in_name text.now result.0.now result.1.now }
{
    text.split_at(name_end(text).unwrap_or(text.len()))
}

/// The name behind a leading dot, and what follows it.
pub(crate) fn split_dotted(tail: &[u8]) -> Option<(&[u8], &[u8])>
    ensures found { IfSome result (λ split. IsDotted tail.now split.0.now split.1.now) }
    ensures none { IfNone result (begins_dotted tail.now ≡ false) }
{
    match tail.split_first() {
        Some((b'.', text)) => Some(split_name(text)),
        _ => None,
    }
}

/// The text in front of the first `]`, and what follows that.
fn split_inside(text: &[u8]) -> Option<(&[u8], &[u8])>
    ensures found { IfSome result (λ split. IsBracketed (91 ∷ text.now) split.0.now split.1.now) }
    ensures none { IfNone result (not (list_all in_bracket text.now) ≡ false) }
{
    match bracket_end(text) {
        Some(end) => Some((&text[..end], &text[end + 1..])),
        None => None,
    }
}

/// The text inside a leading bracket, and what follows it.
pub(crate) fn split_bracketed(tail: &[u8]) -> Option<(&[u8], &[u8])>
    ensures found { IfSome result (λ split. IsBracketed tail.now split.0.now split.1.now) }
    ensures none { IfNone result (begins_bracketed tail.now ≡ false) }
{
    match tail.split_first() {
        Some((b'[', text)) => split_inside(text),
        _ => None,
    }
}

/// What stands in front of the first `$`, and what follows that.
pub(crate) fn split_dollar(text: &str) -> Option<(&str, &str)>
    ensures found { IfSome result (λ split. IsSplitAt 36 text.now split.0.now split.1.now) }
    ensures none { IfNone result (list_all (λ b. not (b == 36)) text.now ≡ true) }
{
    text.split_once('$')
}

/// What stands in front of the first `)`, and what follows that.
pub(crate) fn split_end(text: &str) -> Option<(&str, &str)>
    ensures found { IfSome result (λ split. IsSplitAt 41 text.now split.0.now split.1.now) }
    ensures none { IfNone result (list_all (λ b. not (b == 41)) text.now ≡ true) }
{
    text.split_once(')')
}

/// What follows a leading `(`.
pub(crate) fn behind_parenthesis(text: &str) -> Option<&str>
    ensures { MatchOption result (begins_with 40 text.now ≡ false) (λ rest. text.now ≡ 40 ∷ rest.now) }
{
    text.strip_prefix('(')
}
