//! Who is told what the history of a host doesn't explain.

/// What the files of a step say that its host's history doesn't explain.
#[derive(Drop)]
pub enum Unexplained {
    /// The step's wait file stands, or that with `.err`, though the step before it left none such.
    Marker,
    /// Its entrypoint is no more and left no exit.
    Gone,
    /// Its entrypoint left no exit that can be read, or another one than its post file says.
    Exit,
}

/// Who is told of a pod's step, by its place from 0, whose files nothing explains.
pub trait Teller {
    fn tell(&self, pod: &str, step: u32, what: Unexplained);
}
