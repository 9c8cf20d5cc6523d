//! What the matches of `clap` say.
ghost use Rattle.std.specs.Prelude.{◌≡◌, [], IfOk, codes, map, unwrap_or};
ghost use Rattle.clap.specs.Words.{all_of, first_of, found_of, rows_of, subcommand_rows_of};
ghost use Rattle.tk_words.specs.Ordered.{is_true, line_from, line_met};

use crate::line::{Line, Name};
use clap::ArgMatches;
use std::alloc::{AllocError, Global};
use tk_types::{List, Text};

/// Whether an option without a value was given.
fn is_set(matches: &ArgMatches<'_>, id: &str) -> bool
    ensures { result ≡ is_true (first_of id.now (rows_of (found_of matches.now))) }
{
    match matches.get_str(id) {
        Some(text) => text == "true",
        None => false,
    }
}

/// Copies of texts. The only error is want of memory.
fn copied(alloc: Global, texts: &[&str]) -> Result<List<Text>, AllocError>
    ensures { IfOk result (λ list. list ≡ map (λ t. t.now) texts.now) }
{
    let mut list = List::new(alloc);
    for text in texts {
        list.push(Text::from_str(alloc, text)?)?;
    }
    Ok(list)
}

/// The root that was given. The only error is want of memory.
fn root_in(alloc: Global, matches: &ArgMatches<'_>) -> Result<Option<Text>, AllocError>
    ensures { IfOk result (λ root. root ≡ first_of (codes "root") (rows_of (found_of matches.now))) }
{
    match matches.get_str("root") {
        Some(folder) => Ok(Some(Text::from_str(alloc, folder)?)),
        None => Ok(None),
    }
}

/// The others that were given. The only error is want of memory.
fn others_in(alloc: Global, matches: &ArgMatches<'_>) -> Result<List<Text>, AllocError>
    ensures { IfOk result (λ others. others ≡ unwrap_or (all_of (codes "others") (rows_of (found_of matches.now))) []) }
{
    match matches.get_raw("others") {
        Some(texts) => copied(alloc, texts),
        None => Ok(List::new(alloc)),
    }
}

/// What the matches of a command say. The only error is want of memory.
fn line_in(alloc: Global, name: Name, matches: &ArgMatches<'_>) -> Result<Line, AllocError>
    ensures { IfOk result (λ line. line ≡ line_from name (rows_of (found_of matches.now))) }
{
    Ok(Line {
        name,
        json: is_set(matches, "json"),
        run: is_set(matches, "run"),
        root: root_in(alloc, matches)?,
        others: others_in(alloc, matches)?,
    })
}

/// The line of the subcommand that was met. The only error is want of memory.
pub(crate) fn line_met_in(
    alloc: Global,
    matches: &ArgMatches<'_>,
) -> Result<Option<Line>, AllocError>
    ensures { IfOk result (λ line. line ≡ line_met (subcommand_rows_of matches.now)) }
{
    let Some((word, found)) = matches.subcommand() else {
        return Ok(None);
    };
    match Name::of(word) {
        Some(name) => Ok(Some(line_in(alloc, name, found)?)),
        None => Ok(None),
    }
}
