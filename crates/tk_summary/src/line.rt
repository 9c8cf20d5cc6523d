ghost use Rattle.std.specs.Prelude.{◌≡◌, ◌++◌, IfOk, OnOk, decimal, string_bytes};
ghost use Rattle.tk_summary.specs.Summary.{summary_text};

use crate::counting::{Counted, count};
use std::alloc::{AllocError, Global};
use tk_journal::Journal;
use tk_types::Text;

/// Writes a word and a number behind it.
fn write(alloc: Global, text: &mut String, word: &str, number: u64) -> Result<(), AllocError>
    ensures { OnOk result (string_bytes text.new ≡ string_bytes text.old ++ (word.now ++ decimal number)) }
{
    text.push_str(word)?;
    text.push_str(number.to_string(alloc)?.as_str())
}

/// One line that tells what a journal comes to, as `runs 1 true 1 false 0 taskruns 2 attempts 2 entries 17`, with a newline at
/// its end: the runs that it admits, and those of them that closed with their condition True and False; the TaskRuns that it
/// admits or makes; their attempts; its entries. The only error is want of memory.
pub fn summary(alloc: Global, journal: &Journal) -> Result<Text, AllocError>
    ensures { IfOk result (λ text. text ≡ summary_text journal.now.history) }
{
    let mut text = String::new(alloc);
    write(alloc, &mut text, "runs ", count(journal, Counted::Runs))?;
    write(alloc, &mut text, " true ", count(journal, Counted::True))?;
    write(alloc, &mut text, " false ", count(journal, Counted::False))?;
    write(
        alloc,
        &mut text,
        " taskruns ",
        count(journal, Counted::TaskRuns),
    )?;
    write(
        alloc,
        &mut text,
        " attempts ",
        count(journal, Counted::Attempts),
    )?;
    write(alloc, &mut text, " entries ", journal.len())?;
    text.push_str("\n")?;
    Ok(Text::from_string(text))
}
