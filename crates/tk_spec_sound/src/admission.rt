ghost use Rattle.std.specs.Prelude.{◌↔◌, IfOk, IsTrue};
ghost use Rattle.tk_journal.specs.Sound.{IsSound};

use crate::run::is_sound_run;
use crate::task_run::is_sound_task_run;
use std::alloc::{AllocError, Global};
use tk_journal::Admission;
use tk_types::Asked;

/// Whether an admission under this name, asked for this, is sound: it keeps the rules that admission sees to, whoever
/// wrote it. Nothing is required of it. The only error is want of memory.
pub fn is_sound(
    alloc: Global,
    name: &str,
    asked: &Option<Asked>,
    admission: &Admission,
) -> Result<bool, AllocError>
    ensures { IfOk result (λ yes. IsTrue yes ↔ IsSound name.now asked.now admission.now) }
{
    match admission {
        Admission::Run(spec) => is_sound_run(alloc, name, asked, spec),
        Admission::Task(spec) => is_sound_task_run(alloc, name, asked, spec),
    }
}
