ghost use Rattle.std.specs.Prelude.{◌≡◌};
ghost use Rattle.std.specs.List.{list_any, list_all, slice_split};
ghost use Rattle.std.specs.Char.{is_ascii_alphanumeric};
ghost use Rattle.tk_names.specs.Rules.{first_is, last_is, is_lower_or_digit as lower_or_digit, is_label_byte as label_byte, is_object_name_byte as object_name_byte, is_word_byte as word_byte, is_letter_or_underscore as letter_or_underscore, is_alphanumeric_or_underscore as alphanumeric_or_underscore, is_env_byte as env_byte, is_dot, is_segment as segment_rule, is_slash};
ghost use Rattle.tk_names.specs.Rules.{is_dns_label as dns_label, is_object_name as object_name, is_name_prefix as name_prefix, is_param_name as param_name, is_object_param_name as object_param_name, is_task_result_name as task_result_name, is_pipeline_result_name as pipeline_result_name, is_env_name as env_name, is_sub_path as sub_path};

/// Whether the text is a DNS label: 1 to 63 bytes of `a` to `z`, digits and `-`, with a letter or digit at both
/// ends. Pipeline tasks, steps and workspaces have such names (Kubernetes, Object Names and IDs).
pub fn is_dns_label(text: &str) -> bool
    ensures { result ≡ dns_label text.now }
{
    let name = text.as_bytes();
    name.len() <= 63 && all_label(name) && starts_lower(name) && ends_lower(name)
}

/// Whether the text may name an object or a claim: 1 to 253 bytes of `a` to `z`, digits, `-` and `.`, with a letter
/// or digit at both ends (Kubernetes, Object Names and IDs).
pub fn is_object_name(text: &str) -> bool
    ensures { result ≡ object_name text.now }
{
    let name = text.as_bytes();
    name.len() <= 253 && all_object_name(name) && starts_lower(name) && ends_lower(name)
}

/// Whether the text may be a `generateName`: 1 to 248 bytes of an object name's, with a letter or digit first. Five
/// digits come behind it, so it may end in `-` or `.`.
pub fn is_name_prefix(text: &str) -> bool
    ensures { result ≡ name_prefix text.now }
{
    let name = text.as_bytes();
    name.len() <= 248 && all_object_name(name) && starts_lower(name)
}

/// Whether the text may name a parameter: ASCII letters, digits, `-`, `_` and `.`, with a letter or `_` first
/// (Tekton, Tasks, Specifying Parameters).
pub fn is_param_name(text: &str) -> bool
    ensures { result ≡ param_name text.now }
{
    let name = text.as_bytes();
    all_word(name) && starts_as_param(name)
}

/// Whether the text may name an object parameter: a parameter's name without a dot (Tekton, Tasks,
/// Specifying Parameters).
pub fn is_object_param_name(text: &str) -> bool
    ensures { result ≡ object_param_name text.now }
{
    is_param_name(text) && !has_dot(text.as_bytes())
}

/// Whether the text may name a result of a Task: ASCII letters, digits, `-`, `_` and `.`, with a letter or digit at
/// both ends (Tekton, Tasks, Emitting Results).
pub fn is_task_result_name(text: &str) -> bool
    ensures { result ≡ task_result_name text.now }
{
    let name = text.as_bytes();
    all_word(name) && starts_alphanumeric(name) && ends_alphanumeric(name)
}

/// Whether the text may name a result of a Pipeline: ASCII letters, digits, `-`, `_` and `.`, with a letter, a digit
/// or `_` first (Tekton, Pipelines, Emitting Results from a Pipeline).
pub fn is_pipeline_result_name(text: &str) -> bool
    ensures { result ≡ pipeline_result_name text.now }
{
    let name = text.as_bytes();
    all_word(name) && starts_as_pipeline_result(name)
}

/// Whether the text may name an environment variable of a step: not empty, no `=` and no zero byte.
pub fn is_env_name(text: &str) -> bool
    ensures { result ≡ env_name text.now }
{
    !text.is_empty() && all_env(text.as_bytes())
}

/// Whether the text may be a `subPath` of a workspace: 1 to 253 bytes in segments joined by `/`, each of ASCII
/// letters, digits, `-`, `_` and `.`, none of them empty, `.` or `..` (Tekton, Workspaces, Using Workspaces in
/// Pipelines).
pub fn is_sub_path(text: &str) -> bool
    ensures { result ≡ sub_path text.now }
{
    let path = text.as_bytes();
    path.len() <= 253 && all_segments(path)
}

/// Whether there is a first byte, and it is `a` to `z` or a digit.
fn starts_lower(name: &[u8]) -> bool
    ensures { result ≡ first_is lower_or_digit name.now }
{
    match name {
        [] => false,
        [first, ..] => is_lower_or_digit(*first),
    }
}

/// Whether there is a last byte, and it is `a` to `z` or a digit.
fn ends_lower(name: &[u8]) -> bool
    ensures { result ≡ last_is lower_or_digit name.now }
{
    match name {
        [] => false,
        [.., last] => is_lower_or_digit(*last),
    }
}

fn starts_as_param(name: &[u8]) -> bool
    ensures { result ≡ first_is letter_or_underscore name.now }
{
    match name {
        [] => false,
        [first, ..] => first.is_ascii_alphabetic() || *first == b'_',
    }
}

fn starts_as_pipeline_result(name: &[u8]) -> bool
    ensures { result ≡ first_is alphanumeric_or_underscore name.now }
{
    match name {
        [] => false,
        [first, ..] => first.is_ascii_alphanumeric() || *first == b'_',
    }
}

fn starts_alphanumeric(name: &[u8]) -> bool
    ensures { result ≡ first_is is_ascii_alphanumeric name.now }
{
    match name {
        [] => false,
        [first, ..] => first.is_ascii_alphanumeric(),
    }
}

fn ends_alphanumeric(name: &[u8]) -> bool
    ensures { result ≡ last_is is_ascii_alphanumeric name.now }
{
    match name {
        [] => false,
        [.., last] => last.is_ascii_alphanumeric(),
    }
}

fn all_label(name: &[u8]) -> bool
    ensures { result ≡ list_all label_byte name.now }
{
    name.iter().all(|b| is_lower_or_digit(*b) || *b == b'-')
}

fn all_object_name(name: &[u8]) -> bool
    ensures { result ≡ list_all object_name_byte name.now }
{
    name.iter()
        .all(|b| is_lower_or_digit(*b) || *b == b'-' || *b == b'.')
}

fn all_word(name: &[u8]) -> bool
    ensures { result ≡ list_all word_byte name.now }
{
    name.iter().all(|b| b.is_ascii_alphanumeric() || *b == b'-' || *b == b'_' || *b == b'.')
}

fn all_env(name: &[u8]) -> bool
    ensures { result ≡ list_all env_byte name.now }
{
    name.iter().all(|b| *b != b'=' && *b != 0)
}

fn has_dot(name: &[u8]) -> bool
    ensures { result ≡ list_any is_dot name.now }
{
    name.iter().any(|b| *b == b'.')
}

fn is_lower_or_digit(b: u8) -> bool
    ensures { result ≡ lower_or_digit b }
{
    b.is_ascii_lowercase() || b.is_ascii_digit()
}

/// Whether each segment between the slashes is one.
fn all_segments(path: &[u8]) -> bool
    ensures { result ≡ list_all segment_rule (slice_split is_slash path.now) }
{
    path.split(|b| *b == b'/')
        .all(|segment| is_segment(segment))
}

/// Whether it is a word, but neither empty, `.` nor `..`.
fn is_segment(segment: &[u8]) -> bool
    ensures { result ≡ segment_rule segment.now }
{
    !segment.is_empty()
        && all_word(segment)
        && segment != b".".as_slice()
        && segment != b"..".as_slice()
}
