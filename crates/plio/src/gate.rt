// A place where a worker can be held.

/// Where workers stop for a moment: a worker calls it before each request and before each slice of its threads,
/// with its number and the length of the journal that it has seen. So a test can hold a worker there.
///
/// A gate means nothing to the run: no answer and no byte depends on it.
pub trait Gate {
    /// Comes back when the worker may go on.
    fn pause(&self, worker: u32, front: u64);
}

/// A gate that holds nobody.
#[derive(Clone, Copy, Debug, Default, PartialEq, Eq)]
pub struct NoGate;

impl Gate for NoGate {
    fn pause(&self, _worker: u32, _front: u64) {}
}
