ghost use Rattle.std.specs.Prelude.{◌≡◌, IfOk};
ghost use Rattle.std.specs.List.{list_all};
ghost use Rattle.std.specs.Char.{is_ascii_digit};
ghost use Rattle.tk_commands.specs.GenerateWords.{generation_in as generation_in_line, generation_of as generation_of_words, has_leading_zero as leading_zero, is_numeral as is_numeral_word, number_told, numeral_told, size_told, told_between};

use std::alloc::{AllocError, Global};
use tk_types::Text;
use tk_words::{Line, read};

/// What `generate` is asked for: the manifest of a number and a size, which is simulated or else printed.
#[derive(Clone, Copy, Debug, PartialEq, Eq)]
pub struct Generation {
    pub number: u32,
    pub size: u32,
    pub run: bool,
}

/// Whether a second byte follows a `0`.
fn has_leading_zero(word: &[u8]) -> bool
    ensures { result ≡ leading_zero word.now }
{
    match word {
        [first, _, ..] => *first == b'0',
        _ => false,
    }
}

fn all_digits(word: &[u8]) -> bool
    ensures { result ≡ list_all is_ascii_digit word.now }
{
    word.iter().all(|b| b.is_ascii_digit())
}

/// Whether the word is digits, the first of several not 0.
fn is_numeral(word: &[u8]) -> bool
    ensures { result ≡ is_numeral_word word.now }
{
    !word.is_empty() && all_digits(word) && !has_leading_zero(word)
}

/// The number that a word tells.
fn numeral(word: &str) -> Option<u64>
    ensures { result ≡ numeral_told word.now }
{
    if !is_numeral(word.as_bytes()) {
        return None;
    }
    word.parse::<u64>().ok()
}

/// The number that a word tells, from the least to the greatest.
fn told(word: &str, least: u32, greatest: u32) -> Option<u32>
    ensures { result ≡ told_between least greatest word.now }
{
    match numeral(word) {
        Some(number) if u64::from(least) <= number && number <= u64::from(greatest) => {
            Some(number as u32)
        }
        _ => None,
    }
}

/// The first number, which is below 2^31.
fn number_of(word: &str) -> Option<u32>
    ensures { result ≡ number_told word.now }
{
    told(word, 0, 2_147_483_647)
}

/// The number of tasks, 1 to 4,000.
fn size_of(word: &str) -> Option<u32>
    ensures { result ≡ size_told word.now }
{
    told(word, 1, 4_000)
}

/// What a line of `generate` asks for.
fn generation_in(line: &Line) -> Option<Generation>
    ensures { result ≡ generation_in_line line.now }
{
    match line.others.as_slice() {
        [number, size] => match (number_of(number.as_str()), size_of(size.as_str())) {
            (Some(number), Some(size)) => Some(Generation {
                number,
                size,
                run: line.run,
            }),
            _ => None,
        },
        _ => None,
    }
}

/// What the words ask for, where they are `generate` with its words: a number below 2^31 and a size of 1 to 4,000, each of decimal
/// digits without sign, the first of several not 0, and `--run` anywhere in front of a `--` and at most once. The only error is
/// want of memory.
pub fn generation_of(alloc: Global, words: &[Text]) -> Result<Option<Generation>, AllocError>
    ensures { IfOk result (λ found. found ≡ generation_of_words words.now) }
{
    match read(alloc, words)? {
        Some(line) => Ok(generation_in(&line)),
        None => Ok(None),
    }
}
