//! Gates. A gate is a hook around the processor calls of a worker that runs on a thread.
use kcl_defs::Due;
use kds_base::WorkerNo;

/// A hook that is called before and after each processor call of a worker. The hook may wait, since the worker's thread
/// doesn't hold the machine's lock at these times.
pub trait Gate {
    /// Called right before the worker makes the processor call `due`.
    fn before(&mut self, worker: WorkerNo, due: Due);

    /// Called right after the processor call `due` has returned.
    fn after(&mut self, worker: WorkerNo, due: Due);
}

/// A gate that does nothing.
#[derive(Clone, Copy, Debug, PartialEq, Eq, Drop)]
pub struct OpenGate;

impl Gate for OpenGate {
    fn before(&mut self, _worker: WorkerNo, _due: Due) {}

    fn after(&mut self, _worker: WorkerNo, _due: Due) {}
}
