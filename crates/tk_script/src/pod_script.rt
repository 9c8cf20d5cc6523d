use tk_types::{List, Pair, Text};

/// What the steps of a pod do: the exit of each step, 0 where it has none, and the files among its results by their
/// names. Those with a slash in their names stand nowhere; of equal names the first counts.
#[derive(Drop)]
pub struct PodScript {
    pub pod: Text,
    pub exits: List<u8>,
    pub files: List<Pair>,
}
