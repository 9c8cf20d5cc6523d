ghost use Rattle.std.specs.Prelude.{◌≡◌, IfOk, None, Some};
ghost use Rattle.tk_words.specs.Line.{finished, line_of, scanned, start};

use crate::by_clap::by_clap;
use crate::line::{Line, Name};
use crate::scan::Scan;
use std::alloc::{AllocError, Global};
use tk_types::Text;

/// What the words behind a command say. The only error is want of memory.
fn scan(alloc: Global, name: Name, words: &[Text]) -> Result<Option<Line>, AllocError>
    ensures { IfOk result (λ line. line ≡ finished name (scanned name (Some start) words.now)) }
{
    let mut scan = Scan::new(alloc);
    for place in 0..words.len() {
        if !scan.take(alloc, name, words[place].as_str())? {
            return Ok(None);
        }
    }
    Ok(scan.finish(name))
}

/// The line that the words are by the grammar, if they are one. The only error is want of memory.
fn scanned_line(alloc: Global, words: &[Text]) -> Result<Option<Line>, AllocError>
    ensures { IfOk result (λ line. line ≡ line_of words.now) }
{
    let [word, rest @ ..] = words else {
        return Ok(None);
    };
    match Name::of(word.as_str()) {
        None => Ok(None),
        Some(name) if name.stands_alone() => {
            if rest.is_empty() {
                Ok(Some(Scan::new(alloc).line(name)))
            } else {
                Ok(None)
            }
        }
        Some(name) => scan(alloc, name, rest),
    }
}

/// The line that the words behind the program's name are, if they are one. The only error is want of memory.
pub fn read(alloc: Global, words: &[Text]) -> Result<Option<Line>, AllocError>
    ensures { IfOk result (λ line. line ≡ line_of words.now) }
{
    match scanned_line(alloc, words)? {
        Some(line) => Ok(Some(by_clap(alloc, &line)?)),
        None => Ok(None),
    }
}
