/// The most bytes of an input.
pub const LONGEST_INPUT: usize = 8_388_608;

/// The most objects of an input.
pub const MOST_OBJECTS: usize = 1_000;

/// The most tasks of a pipeline.
pub const MOST_TASKS: usize = 5_000;

/// The most steps of a Task.
pub const MOST_STEPS: usize = 32;

/// The most retries of a task.
pub const MOST_RETRIES: u32 = 100;

/// The most combinations of a matrix (Tekton, Matrix, Concurrency Control).
pub const MOST_COMBINATIONS: u32 = 256;

/// The greatest weight of an input, which bounds the entries that its runs may get.
pub const MOST_WEIGHT: u64 = 200_000;

/// The most bytes of an attempt's results together (Tekton, Tasks, Larger Results).
pub const MOST_RESULT_BYTES: u64 = 4_096;
