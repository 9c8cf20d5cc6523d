ghost use Rattle.std.specs.Prelude.{◌≡◌, ◌<◌, length, ◌++◌, ◌∷◌, [], IfOk, OnOk, string_bytes};
ghost use Rattle.std.specs.Char.{digit_char};
ghost use Rattle.std.specs.Str.{IsCharBoundary};
ghost use Rattle.tk_names.specs.Children.{cut_place, shortened, whole_child_name, child_name as child_name_of, pod_name as pod_name_of, base_36, generated as generated_name};

use md5::{Digest, Md5};
use std::alloc::{AllocError, Global};
use tk_types::Text;

/// The text itself where it has at most 63 bytes, else its first 30 bytes, `-`, and the 32 lower-case hexadecimal
/// digits of the MD5 of the whole. Where the 30th byte would cut a character, the cut is before that character.
/// The only error is want of memory.
pub fn shorten(alloc: Global, text: &str) -> Result<Text, AllocError>
    ensures { IfOk result (λ short. short ≡ shortened text.now) }
{
    if text.len() <= 63 {
        return Text::from_str(alloc, text);
    }
    let (front, _) = text.split_at(cut(text));
    let mut short = String::from_str(alloc, front)?;
    short.push_str("-")?;
    short.push_str(hex::encode(alloc, Md5::digest(text.as_bytes()))?.as_str())?;
    Ok(Text::from_string(short))
}

/// Where a long text is cut.
fn cut(text: &str) -> usize
    requires { 63 < length text.now }
    ensures place { result ≡ cut_place text.now 30 }
    ensures boundary { IsCharBoundary text.now result }
{
    text.floor_char_boundary(30)
}

/// The name of a run's child: `run-task`, or `run-task-i` for combination `i` of a task with a matrix, shortened.
/// The only error is want of memory.
pub fn child_name(
    alloc: Global,
    run: &str,
    task: &str,
    index: Option<u32>,
) -> Result<Text, AllocError>
    ensures { IfOk result (λ name. name ≡ child_name_of run.now task.now index) }
{
    let whole = match index {
        None => whole_name(alloc, run, task)?,
        Some(index) => {
            let mut whole = whole_name(alloc, run, task)?;
            whole.push_str("-")?;
            whole.push_str(index.to_string(alloc)?.as_str())?;
            whole
        }
    };
    shorten(alloc, whole.as_str())
}

fn whole_name(alloc: Global, run: &str, task: &str) -> Result<String, AllocError>
    ensures { IfOk result (λ name. string_bytes name ≡ whole_child_name run.now task.now None) }
{
    let length = run.len().saturating_add(task.len()).saturating_add(1);
    let mut whole = String::with_capacity(alloc, length)?;
    whole.push_str(run)?;
    whole.push_str("-")?;
    whole.push_str(task)?;
    Ok(whole)
}

/// The name of the pod of a TaskRun's attempt, `taskrun-pod-n`, which is never shortened. The only error is want of
/// memory.
pub fn pod_name(alloc: Global, task_run: &str, attempt: u32) -> Result<Text, AllocError>
    ensures { IfOk result (λ name. name ≡ pod_name_of task_run.now attempt) }
{
    let mut name = String::from_str(alloc, task_run)?;
    name.push_str("-pod-")?;
    name.push_str(attempt.to_string(alloc)?.as_str())?;
    Ok(Text::from_string(name))
}

/// The name that `generateName` gives: the prefix and five base 36 digits of the counter, `0` to `9` and `a` to `z`.
/// The only error is want of memory.
pub fn generated(alloc: Global, prefix: &str, counter: u32) -> Result<Text, AllocError>
    requires { counter < 60466176 }
    ensures { IfOk result (λ name. name ≡ generated_name prefix.now counter) }
{
    let mut name = String::from_str(alloc, prefix)?;
    push_digit(&mut name, counter / 1679616)?;
    push_digit(&mut name, counter / 46656 % 36)?;
    push_digit(&mut name, counter / 1296 % 36)?;
    push_digit(&mut name, counter / 36 % 36)?;
    push_digit(&mut name, counter % 36)?;
    Ok(Text::from_string(name))
}

/// Writes a base 36 digit behind the name.
fn push_digit(name: &mut String, digit: u32) -> Result<(), AllocError>
    requires { digit < 36 }
    ensures { OnOk result (string_bytes name.new ≡ string_bytes name.old ++ digit_char digit ∷ []) }
{
    name.push(std::char::from_digit(digit, 36).unwrap_or('0'))
}
