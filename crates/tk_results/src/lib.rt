//! Result files of an attempt become result values. A file is exactly the value that its definition gives by the
//! result's type, and is refused exactly where it is none. The files of an attempt are gathered in the order of the
//! declared results, and refused where they hold too many bytes together, or else at the first that is refused. A
//! value is printed as exactly its compact JSON text, which reads back as the value where the keys of an object ascend.
//!
//! `strings.rt` goes from JSON to a list or pairs, `read.rt` gives a value by its type, `files.rt` finds a result's
//! file and counts bytes, `gathering.rt` gives an attempt's results, `written.rt` prints a value. `specs/Read.antt` and
//! `Gathered.antt` are the definitions, `Told.antt` what the laws say; `proofs/KeyOrder.antt` shows that `serde_json`'s
//! objects stand in the order of their keys.
#![tactic(auto)]

mod files;
mod gathering;
pub mod laws;
mod read;
mod refusal;
mod strings;
mod written;

pub use files::Fetched;
pub use gathering::gather;
pub use read::read_result;
pub use refusal::{GatherError, ReadError};
pub use written::json_text;
