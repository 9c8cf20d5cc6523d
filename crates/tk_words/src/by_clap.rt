ghost use Rattle.std.specs.Prelude.{◌≡◌, IfOk, map, true};
ghost use Rattle.clap.specs.Words.{subcommand_of, subcommand_rows_of, takes};
ghost use Rattle.tk_words.specs.Command.{tkn as tkn_app};
ghost use Rattle.tk_words.specs.Ordered.{fits_line};

use crate::command::tkn;
use crate::line::Line;
use crate::matched::line_met_in;
use crate::ordered::ordered;
use clap::ArgMatches;
use clap::error::ErrorKind;
use std::alloc::{AllocError, Global};

/// What `clap` finds in words that its command takes. The only error is want of memory.
fn matches_in<'a>(alloc: Global, words: &'a [&'a str]) -> Result<ArgMatches<'a>, AllocError>
    requires taken { takes tkn_app (map (λ w. w.now) words.now) ≡ true }
    ensures { IfOk result (λ m. subcommand_rows_of m ≡ subcommand_of tkn_app (map (λ w. w.now) words.entry.now)) }
{
    match tkn(alloc)?.try_get_matches_from(words) {
        Ok(matches) => Ok(matches),
        Err(error) => match error.kind() {
            ErrorKind::OutOfMemory => Err(AllocError),
            _ => unreachable!(),
        },
    }
}

/// The line as `clap` reads it in the line's words. The only error is want of memory.
pub(crate) fn by_clap(alloc: Global, line: &Line) -> Result<Line, AllocError>
    requires fits { fits_line line.now ≡ true }
    ensures { IfOk result (λ read. read ≡ line.now) }
{
    let words = ordered(alloc, line)?;
    let matches = matches_in(alloc, words.as_slice())?;
    match line_met_in(alloc, &matches)? {
        Some(read) => Ok(read),
        None => unreachable!(),
    }
}
