ghost use Rattle.std.specs.Prelude.{◌≡◌, ◌<◌, ◌^◌, List, [], ℕ, length, bytes_eq, IfOk};
ghost use Rattle.std.specs.Option.{option_map_or};
ghost use Rattle.std.specs.HashMap.{get_by};
ghost use Rattle.tk_graph.specs.Index.{places_of_name};
ghost use Rattle.tk_graph.specs.Unknown.{is_known};

use std::alloc::{AllocError, Global};
use std::collections::HashMap;
use std::marker::Model;
use tk_types::PipelineTask;

/// The tasks of a pipeline, found by their names. A contract sees the tasks.
#[derive(Drop)]
pub struct Names<'a> {
    tasks: &'a [PipelineTask],
    places: HashMap<&'a str, Vec<u32>>,
}

impl<'a> Model for Names<'a> {
    ghost use Rattle.std.specs.Prelude.{◌≡◌, List, [], ℕ, bytes_eq};
    ghost use Rattle.std.specs.Option.{option_map_or};
    ghost use Rattle.std.specs.HashMap.{get_by};
    ghost use Rattle.tk_types.specs.declared.task.PipelineTask.{PipelineTask};
    ghost use Rattle.tk_graph.specs.Index.{places_of_name};

    ghost Value = { List PipelineTask };

    ghost view = { λ names. names.tasks.now };

    ghost invariant = { λ names. (name : List ℕ)
        → option_map_or (λ group. group.items) (get_by (λ k. bytes_eq name k.now) names.places) [] ≡ places_of_name names.tasks.now name };
}

impl<'a> Names<'a> {
    /// The names of these tasks.
    pub fn new(alloc: Global, tasks: &'a [PipelineTask]) -> Result<Self, AllocError>
        requires { length tasks.now < 2 ^ 32 }
        ensures { IfOk result (λ names. names ≡ tasks.now) }
    {
        Ok(Names {
            tasks,
            places: grouped(alloc, tasks)?,
        })
    }

    /// The tasks.
    pub fn tasks(&self) -> &'a [PipelineTask]
        ensures { result.now ≡ self.now }
    {
        self.tasks
    }

    /// The places of the tasks of a name, ascending.
    pub fn places(&self, name: &str) -> &[u32]
        ensures { result.now ≡ places_of_name self.now name.now }
    {
        match self.places.get(name) {
            Some(group) => group.as_slice(),
            None => &[],
        }
    }

    /// Whether some task has the name.
    pub fn contains(&self, name: &str) -> bool
        ensures { result ≡ is_known self.now name.now }
    {
        !self.places(name).is_empty()
    }
}

/// The places of each name.
fn grouped<'a>(
    alloc: Global,
    tasks: &'a [PipelineTask],
) -> Result<HashMap<&'a str, Vec<u32>>, AllocError>
    requires { length tasks.now < 2 ^ 32 }
    ensures { IfOk result (λ places. (name : List ℕ)
        → option_map_or (λ group. group.items) (get_by (λ k. bytes_eq name k.now) places) [] ≡ places_of_name tasks.now name) }
{
    let mut places: HashMap<&'a str, Vec<u32>> = HashMap::new(alloc);
    for (place, task) in tasks.iter().enumerate() {
        places
            .entry(task.name.as_str())?
            .or_default()
            .push(place as u32)?;
    }
    Ok(places)
}
