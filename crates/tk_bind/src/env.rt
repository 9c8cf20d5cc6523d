use std::alloc::{AllocError, Global};
use tk_types::{List, Pair, Param, Text, TryCopy, Value};

/// An available result of a task.
#[derive(Drop)]
pub struct Given {
    pub task: Text,
    pub name: Text,
    pub value: Value,
}

impl TryCopy for Given {
    fn copy(&self, alloc: Global) -> Result<Given, AllocError> {
        Ok(Given {
            task: self.task.copy(alloc)?,
            name: self.name.copy(alloc)?,
            value: self.value.copy(alloc)?,
        })
    }
}

/// The values that references take. Of parameters and results of one name the first counts. A word is a context, status,
/// path or workspace variable, under its parts joined with `.`, the head in front, as `context.pipelineRun.name`.
#[derive(Drop)]
pub struct Env {
    pub params: List<Param>,
    pub results: List<Given>,
    pub words: List<Pair>,
}
