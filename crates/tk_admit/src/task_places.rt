ghost use Rattle.std.specs.Prelude.{◌≡◌, ◌+◌, ◌<◌, ◌^◌, IfOk, length};
ghost use Rattle.std.specs.Option.{ForSome};
ghost use Rattle.tk_admit.specs.Command.{place_in, task_place};

use std::alloc::{AllocError, Global};
use std::marker::Model;
use tk_graph::Names;
use tk_types::RunSpec;

/// The tasks of a run, found by their names. A contract sees the run.
#[derive(Drop)]
pub(crate) struct TaskPlaces<'a> {
    spec: &'a RunSpec,
    tasks: Names<'a>,
    finally: Names<'a>,
}

impl<'a> Model for TaskPlaces<'a> {
    ghost use Rattle.std.specs.Prelude.{◌≡◌, ◌+◌, ◌<◌, ◌^◌, length};
    ghost use Rattle.tk_types.specs.declared.run.RunSpec.{RunSpec};

    ghost Value = { RunSpec };

    ghost view = { λ places. places.spec.now };

    ghost invariant = { λ places. (places.tasks ≡ places.spec.now.tasks) × (places.finally ≡ places.spec.now.finally) × (length places.spec.now.tasks + length places.spec.now.finally < 2 ^ 32) };
}

impl<'a> TaskPlaces<'a> {
    /// The tasks of this run.
    pub(crate) fn new(alloc: Global, spec: &'a RunSpec) -> Result<Self, AllocError>
        requires { length spec.now.tasks + length spec.now.finally < 2 ^ 32 }
        ensures { IfOk result (λ places. places ≡ spec.now) }
    {
        Ok(TaskPlaces {
            spec,
            tasks: Names::new(alloc, spec.tasks.as_slice())?,
            finally: Names::new(alloc, spec.finally.as_slice())?,
        })
    }

    /// The place of the task of a name: those of `tasks` first, then those of `finally`.
    pub(crate) fn place(&self, name: &str) -> Option<u32>
        ensures { result ≡ task_place self.now name.now }
    {
        if let Some(place) = place_in_list(&self.tasks, name) {
            return Some(place);
        }
        match place_in_list(&self.finally, name) {
            Some(place) => Some(self.spec.tasks.len() as u32 + place),
            None => None,
        }
    }
}

/// The place of the task of a name in a list of tasks.
fn first_place(tasks: &Names<'_>, name: &str) -> Option<u32>
    ensures { result ≡ place_in tasks.now name.now }
{
    tasks.places(name).first().copied()
}

/// The same, which is one of the list.
fn place_in_list(tasks: &Names<'_>, name: &str) -> Option<u32>
    ensures place { result ≡ place_in tasks.now name.now }
    ensures within { ForSome result (λ place. place < length tasks.now) }
{
    first_place(tasks, name)
}
