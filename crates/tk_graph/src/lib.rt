//! The order of a pipeline's tasks. A task's parents are the tasks to whose results it
//! refers and those after which it runs. `order` gives ranks that rise
//! from each parent to its child, or tells the first name that no task has, or the names of a cycle. Ranks exist
//! exactly where no task is its own ancestor. `cycle` tells the names of a cycle also where a name is of no task.
//!
//! From tasks to `names` (an index), `texts` (a task's texts), `references` (the tasks to whose results they refer),
//! `above` (parents), `unknown`, `below` (children), `removal` (ranks), `walk` (the cycle), `ordering`. A task is
//! removed when its cursor has passed all its parents, so no recursion is as deep as a chain. `specs/Results.antt` has
//! the results that texts refer to, `Parents.antt` parents, ancestors and ranks, `Unknown.antt` names of no task,
//! `Cycle.antt` what is left and the cycle there, `Order.antt` what a refusal means.
#![tactic(auto)]

mod above;
mod below;
pub mod laws;
mod names;
mod ordering;
mod references;
mod refusal;
mod removal;
mod texts;
mod unknown;
mod walk;

pub use above::{all_parents, parents};
pub use names::Names;
pub use ordering::{Ranks, cycle, order};
pub use references::task_of;
pub use refusal::OrderError;
pub use texts::{result_tasks, task_texts};
pub use unknown::unknown_name;
