ghost use Rattle.std.specs.Prelude.{◌≡◌, ◌↔◌, IfOk, IsTrue};
ghost use Rattle.tk_edge.specs.Causes.{Counts};
ghost use Rattle.tk_edge.specs.Files.{WhereTold, broken as broken_of};
ghost use Rattle.tk_edge.specs.Markers.{Stands};

use crate::host::Host;
use crate::miss::Miss;
use crate::texts::broken;
use std::alloc::{AllocError, Global};
use std::marker::Model;
use tk_types::Text;

/// The file that an entrypoint waits for, with its path and that with `.err`.
#[derive(Drop)]
pub struct WaitFile {
    path: Text,
    failed: Text,
}

impl Model for WaitFile {
    ghost use Rattle.std.specs.Prelude.{◌≡◌, List, ℕ};
    ghost use Rattle.tk_edge.specs.Files.{broken};

    ghost Value = { List ℕ };

    ghost view = { λ w. w.path };

    ghost invariant = { λ w. w.failed ≡ broken w.path };
}

impl WaitFile {
    /// The file at this path. The only error is want of memory.
    pub fn new(alloc: Global, path: Text) -> Result<Self, AllocError>
        ensures { IfOk result (λ file. file ≡ path) }
    {
        let failed = broken(alloc, path.as_str())?;
        Ok(WaitFile { path, failed })
    }

    /// Its path.
    pub fn as_str(&self) -> &str
        ensures { result.now ≡ self.now }
    {
        self.path.as_str()
    }

    /// Looks for it with `.err`. It takes no memory but what the host takes.
    pub(crate) fn look_failed<H: Host>(&self, host: &mut H) -> Result<bool, Miss>
        ensures stands { IfOk result (λ stands. WhereTold (H.files host.old) (λ f. IsTrue stands ↔ Stands (broken_of self.now) f)) }
        ensures told { H.told host.new ≡ H.told host.old }
        ensures files { H.files host.new ≡ H.files host.old }
        ensures killed { H.killed host.new ≡ H.killed host.old }
        ensures watches { H.watches host.new ≡ H.watches host.old }
        ensures count { Counts (H.faults host.old) (H.faults host.new) result }
    {
        host.look(self.failed.as_str())
    }
}
