//! The references in a text: `$(params.x)`, `$(tasks.a.results.r[*])` and their kin.
//!
//! `scan` splits a text into plain pieces and references. The pieces are the one reading that the text has, and
//! joined they are the text. A text without a reading is refused with the first byte at which a reference must stand
//! and none does; want of memory is the only other refusal. What a reference is stands in `specs/Grammar.antt`, what
//! a reading is in `specs/Reading.antt`, and what a reference refers to in `specs/Target.antt`.
//!
//! `scanner.rt` goes from `$` to `$`. `grammar.rt` judges, without memory, whether a reference must stand and whether
//! the bytes between `$(` and `)` are one; `splitting.rt` cuts, `building.rt` makes the parts. `is_plain` tells a text
//! without `$` apart by `memchr`, and `tasks.rt` one that names no task, so that most texts aren't scanned. Pieces and
//! parts refer to the text, of which nothing is copied. `specs/Grammar.antt` is the table of references, `Reading.antt`
//! what a reading and a bad offset are, `Offset.antt` the offset computed, `Target.antt` what a reference refers to,
//! `Task.antt` which references are to a task. `walk.rt` has the one walk over the references of a text, for any test
//! of them (`ReferenceTest`).
#![tactic(auto)]

mod building;
mod error;
mod grammar;
pub mod laws;
mod part;
mod parts;
mod piece;
mod pieces;
mod reference;
mod scanner;
mod splitting;
mod tasks;
mod walk;
mod word;

pub use error::ScanError;
pub use part::Part;
pub use parts::Parts;
pub use piece::{Piece, whole_of};
pub use pieces::Pieces;
pub use reference::Reference;
pub use scanner::{is_plain, scan};
pub use tasks::names_no_task;
pub use walk::{ReferenceTest, any_in_pieces, any_reference, first_reference, known_pieces};
pub use word::Word;
