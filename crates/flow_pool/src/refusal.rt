//! That the system refused to start a thread.

ghost use Rattle.std.specs.Prelude.{◌≡◌};

use std::thread::SpawnError;

/// The system refused to start the thread of a worker. Only the error of a start makes one; whoever makes it says of
/// which worker. No code reads the number: contracts say by it how many workers were started.
#[derive(Drop)]
pub(crate) struct Refusal {
    worker: u32,
}

impl Refusal {
    /// That of the worker, counted from 0, whose start gave this error.
    pub(crate) fn new<F: Drop>(worker: u32, _error: SpawnError<F>) -> Refusal
        ensures { result.worker ≡ worker }
    {
        Refusal { worker }
    }
}
