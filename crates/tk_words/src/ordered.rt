//! A line's words in order: the program, the command, its options, each option's value as a word of its own, and behind `--` the
//! others.
ghost use Rattle.std.specs.Prelude.{◌≡◌, ◌++◌, IfOk, OnOk, map};
ghost use Rattle.tk_words.specs.Ordered.{flag_words, ordered as ordered_words, root_words};

use crate::line::Line;
use std::alloc::{AllocError, Global};
use tk_types::Text;

/// Adds a word where it is given.
fn add_flag<'a>(words: &mut Vec<&'a str>, is_given: bool, word: &'a str) -> Result<(), AllocError>
    ensures { OnOk result (map (λ w. w.now) words.new.items ≡ map (λ w. w.now) words.old.items ++ flag_words is_given word.now) }
{
    if is_given {
        words.push(word)?;
    }
    Ok(())
}

/// Adds the root's option and its folder, where it is given.
fn add_root<'a>(words: &mut Vec<&'a str>, root: &'a Option<Text>) -> Result<(), AllocError>
    ensures { OnOk result (map (λ w. w.now) words.new.items ≡ map (λ w. w.now) words.old.items ++ root_words root.now) }
{
    if let Some(folder) = root {
        words.push("--root")?;
        words.push(folder.as_str())?;
    }
    Ok(())
}

/// Adds words.
fn add_others<'a>(words: &mut Vec<&'a str>, others: &'a [Text]) -> Result<(), AllocError>
    ensures { OnOk result (map (λ w. w.now) words.new.items ≡ map (λ w. w.now) words.old.items ++ others.now) }
{
    for word in others {
        words.push(word.as_str())?;
    }
    Ok(())
}

/// A line's words in order. The only error is want of memory.
pub(crate) fn ordered<'a>(alloc: Global, line: &'a Line) -> Result<Vec<&'a str>, AllocError>
    ensures { IfOk result (λ words. map (λ w. w.now) words.items ≡ ordered_words line.now) }
{
    let mut words = Vec::new(alloc);
    words.push("tkn")?;
    words.push(line.name.text())?;
    add_flag(&mut words, line.json, "--json")?;
    add_flag(&mut words, line.run, "--run")?;
    add_root(&mut words, &line.root)?;
    words.push("--")?;
    add_others(&mut words, line.others.as_slice())?;
    Ok(words)
}
