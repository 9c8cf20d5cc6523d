use tk_types::{List, ParamSpec, Text};

/// What references may name: declared parameters, parameters whose type isn't known (such a name in `params` too counts
/// as one of these), the tasks of the pipeline, words by their keys, whether results and status of tasks may be named,
/// whether results may be named with the head `finally`, and the keys of result paths.
#[derive(Drop)]
pub struct Scope {
    pub params: List<ParamSpec>,
    pub untyped: List<Text>,
    pub tasks: List<Text>,
    pub words: List<Text>,
    pub results: bool,
    pub finally_results: bool,
    pub paths: List<Text>,
}
