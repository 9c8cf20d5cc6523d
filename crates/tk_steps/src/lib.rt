//! What a kubelet does on its host for one pod. Its folder is made anew, with the folders of its workspaces, its start file
//! and its scripts; its steps are armed, each once, and watched, and what runs of them is killed. Each call says what it
//! may add to the host's history, event by event (`specs/May.antt`), and that what is held of the pod is still what the
//! host tells (`specs/Held.antt`). A call on the host that fails is kept with the pod.
//!
//! `arming.rt` makes the folder (`spaces.rt`, `scripts.rt`, over `files.rt`) and arms the steps, `watching.rt` and
//! `killing.rt` follow; `paths.rt` has the files' paths. `specs/May.antt` says which events may be added for a pod,
//! `Held.antt` and `Ready.antt` what is held of it, `Moves.antt`, `Watched.antt` and `Kills.antt` what calls come to.
#![tactic(auto)]

mod arming;
mod files;
mod held;
mod killing;
mod paths;
mod scripts;
mod spaces;
mod watching;

pub use arming::arm;
pub use held::{HeldPod, HeldStep};
pub use killing::kill;
pub use paths::result_path;
pub use watching::watch;
