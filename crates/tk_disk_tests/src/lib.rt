//! Tests of the text of entries and of journals on a disk. They stand above what they run, so that it is proved once.
//!
//! `rows.rt` has the worked files, `stops.rt` stops at each call of the disk in three appends and opens what a crash may
//! leave, `damaged.rt` compares what is read of damaged files with the definition's own plain reader, `texts.rt` writes an
//! entry and refuses other texts, `machine.rt` keeps a journal in a file. `making.rt` has the entries and files that they
//! share. Texts of all kinds of entries are read and written by `tk_journal_files`.
#![tactic(auto)]

#[cfg(test)]
mod damaged;
#[cfg(test)]
mod machine;
#[cfg(test)]
mod making;
#[cfg(test)]
mod rows;
#[cfg(test)]
mod stops;
#[cfg(test)]
mod texts;
