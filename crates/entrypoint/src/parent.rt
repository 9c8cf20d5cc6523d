ghost use Rattle.std.specs.Prelude.{◌≡◌};

use std::os::unix::process::parent_id;
use std::process::Process;
use tk_enter::Parent;

/// The process that started this one, as the system tells it. It is gone once another one is the parent.
#[derive(Drop)]
pub(crate) struct SystemParent {
    process: Process,
    first: u32,
    gone: bool,
}

impl SystemParent {
    /// The parent of this number, or the one that there is now.
    pub(crate) fn new(process: Process, told: Option<u32>) -> Self {
        SystemParent {
            process,
            first: told.unwrap_or(parent_id(process)),
            gone: false,
        }
    }
}

impl Parent for SystemParent {
    ghost gone = { λ parent. parent.gone };

    fn is_gone(&mut self) -> bool {
        self.gone = parent_id(self.process) != self.first;
        self.gone
    }
}

/// The number that a text tells.
pub(crate) fn number(text: &str) -> Option<u32> {
    text.parse::<u32>().ok()
}
