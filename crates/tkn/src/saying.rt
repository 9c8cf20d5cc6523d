//! What standard error says beside a status.
use std::alloc::Global;
use tk_advice::{BadWords, USAGE, advice, remarks};
use tk_system::RootError;
use tk_types::Text;

/// What standard error says beside a status.
#[derive(Drop)]
pub(crate) enum Said {
    Nothing,
    /// What is wrong with the words.
    Usage(String),
    /// What is wrong with the input, and what to do.
    Advice(String),
    /// What is admitted and can't start, and what else stands beside a report.
    Warnings(String),
    /// Why the folder below which the files stand can't be had.
    Root(Text, RootError),
}

/// What to say of an input at fault, by the line that was printed and by what was read.
pub(crate) fn advice_of(alloc: Global, printed: &[u8], read: Option<&[u8]>) -> Said {
    let (Ok(line), Some(read)) = (std::str::from_utf8(printed), read) else {
        return Said::Nothing;
    };
    match advice(alloc, line, read) {
        Ok(Some(advice)) => Said::Advice(advice),
        _ => Said::Nothing,
    }
}

/// What to say beside what these words printed, by that and by what was read.
pub(crate) fn remarks_of(
    alloc: Global,
    words: &[Text],
    printed: &[u8],
    read: Option<&[u8]>,
) -> Said {
    let Some(read) = read else {
        return Said::Nothing;
    };
    match remarks(alloc, words, printed, read) {
        Ok(Some(remarks)) => Said::Warnings(remarks),
        _ => Said::Nothing,
    }
}

/// What to say of words at fault.
pub(crate) fn complaint_of(alloc: Global, complaint: BadWords<'_>) -> Said {
    match format!(in alloc; "{complaint}") {
        Ok(complaint) => Said::Usage(complaint),
        Err(_) => Said::Nothing,
    }
}

/// Writes what is said to standard error, as far as that takes it.
pub(crate) fn say(rt: &HostRuntime, said: &Said) {
    match said {
        Said::Nothing => {}
        Said::Usage(complaint) => {
            let _ = eprintln!(rt; "tkn: {complaint}; {USAGE}");
        }
        Said::Advice(advice) => {
            let _ = eprintln!(rt; "tkn: {advice}");
        }
        Said::Warnings(warnings) => {
            let _ = eprintln!(rt; "{warnings}");
        }
        Said::Root(folder, error) => {
            let folder = folder.as_str();
            let _ = eprintln!(rt; "tkn: {folder:?} can't be the root: {error}");
        }
    }
}
