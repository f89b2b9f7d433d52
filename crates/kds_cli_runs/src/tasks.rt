//! Performs the tasks of the program.
ghost use Rattle.std.specs.Prelude.{◌≡◌, false};
ghost use Rattle.kds_ends.specs.Causes.{Rose};
ghost use Rattle.kds_cli_words.specs.Words.{IsWithin};
ghost use Rattle.kds_server.specs.Around.{around};
ghost use Rattle.kds_cli_runs.specs.Completed.{Completed};
ghost use Rattle.kds_cli_runs.specs.Ends.{Performed, reads_input, serves_door, task_ends};

use crate::runs::{run_answer, run_replay, run_serve};
use kcl_audit::run_audit;
use kcl_drill_run::run_drill;
use kds_cli_words::Task;
use kds_ends::{Clock, Door, Sink, Source, Status};
use std::alloc::Global;
use std::sync::Wait;
use std::thread::Threads;

/// Performs `task`, and returns the status. Precondition: the numbers of the task are within their ranges. The status
/// is Read if the source failed, Write if the sink failed, and Door if the door (a listening socket) failed. A task
/// that doesn't use the door leaves the door untouched (`door_left`). A task that doesn't use the input leaves the
/// input untouched (`input_left`).
pub fn perform<R, S, K, C, D>(
    rt: &R,
    alloc: Global,
    task: Task,
    input: &mut S,
    out: &mut K,
    mut clock: C,
    door: &mut D,
) -> Status
where
    R: Threads + Wait + Sync,
    S: Source,
    K: Sink,
    C: Clock + Send + Drop,
    D: Door,
    D::Input: Send,
    D::Output: Send,
    requires { IsWithin task }
    ensures performed { Performed task result (task_ends
        (around (S.left input.old) (S.left input.new)) (around (K.held out.old) (K.held out.new)) (C.moments clock)
        (D.listens door.new)) }
    ensures door_left { serves_door task ≡ false → door.new ≡ door.old }
    ensures input_left { reads_input task ≡ false → input.new ≡ input.old }
    ensures complete { (Rose (S.faults input.old) (S.faults input.new) → ⊥)
        → (Rose (K.faults out.old) (K.faults out.new) → ⊥)
        → (Rose (D.faults door.old) (D.faults door.new) → ⊥) → Completed task result (S.left input.old) }
    ensures usage { result ≡ Status.Usage → ⊥ }
    ensures read { result ≡ Status.Read → Rose (S.faults input.old) (S.faults input.new) }
    ensures write { result ≡ Status.Write → Rose (K.faults out.old) (K.faults out.new) }
    ensures door { result ≡ Status.Door → Rose (D.faults door.old) (D.faults door.new) }
{
    kds_cli_words::limits();
    match task {
        Task::Replay { journal } => run_replay(alloc, input, out, journal),
        Task::Answer => run_answer(alloc, input, out, &mut clock),
        Task::Audit => run_audit(alloc, input, out),
        Task::Serve { port, passes } => run_serve(rt, alloc, port, passes, out, clock, door),
        Task::Drill {
            number,
            workers,
            records,
        } => run_drill(rt, alloc, number, workers, records, out),
    }
}
