//! Whether the `when` expressions of a pipeline task let it run: `holds` answers true exactly where each of them is
//! met, and takes no memory.
#![tactic(auto)]

mod guard;
pub mod laws;

pub use guard::holds;
