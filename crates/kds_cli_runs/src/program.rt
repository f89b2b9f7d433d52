//! The program as a whole, from the command-line arguments to the exit status. A schedule is a recorded workload, a
//! journal is the event log of a schedule's run, and an audit checks whether a journal is valid. A turn is a command
//! with its sender and its time. A tenure is one worker's hold on a lease. A read is delivered once its batch counts as
//! processed.
ghost use Rattle.std.specs.Prelude.{◌≡◌, ◌⊎◌, Bool, true, false, None, Some, IfSome};
ghost use Rattle.kds_defs.specs.Histories.{clock as clock_of, journal as journal_of};
ghost use Rattle.kds_defs.specs.Safe.{IsSafe};
ghost use Rattle.kds_ends.specs.Causes.{Rose};
ghost use Rattle.kds_cli_words.specs.Words.{task_of, texts_of};
ghost use Rattle.kds_cli_words.specs.declared.task.Task.TheVariants.{Replay};
ghost use Rattle.kcl_sim.specs.Schedule.{history, ran};
ghost use Rattle.kcl_sim.specs.Serving.{AreAllServed};
ghost use Rattle.kds_cli_runs.specs.Answered.{AreHandedOn};
ghost use Rattle.kds_server.specs.Around.{around};
ghost use Rattle.kds_cli_runs.specs.Completed.{Completed};
ghost use Rattle.kds_cli_runs.specs.Ends.{Performed, task_ends};
ghost use Rattle.kds_cli_runs.specs.Journal.{IsAuditedSound};
ghost use Rattle.kds_cli_runs.specs.Program.{CompletesSo, EndsSo, asks_for_door, asks_for_input};

use crate::errors::tell;
use crate::laws;
use crate::tasks::perform;
use kds_cli_words::find_task;
use kds_ends::{Clock, Door, Sink, Source, Status};
use std::alloc::Global;
use std::sync::Wait;
use std::thread::Threads;

/// Performs the task that the command-line arguments `words` ask for, and returns the task's status. If they ask for no
/// task, the input and the output are untouched, and the status is Usage (or Memory, if memory ran out).
fn perform_words<R, S, K, C, D>(
    rt: &R,
    alloc: Global,
    words: &Vec<String>,
    input: &mut S,
    out: &mut K,
    clock: C,
    door: &mut D,
) -> Status
where
    R: Threads + Wait + Sync,
    S: Source,
    K: Sink,
    C: Clock + Send + Drop,
    D: Door,
    D::Input: Send,
    D::Output: Send,
    ensures usage { result ≡ Status.Usage → task_of (texts_of words.now.items) ≡ None }
    ensures refused { task_of (texts_of words.now.items) ≡ None → (result ≡ Status.Usage) ⊎ (result ≡ Status.Memory) }
    ensures untouched { task_of (texts_of words.now.items) ≡ None → (input.new ≡ input.old) × (out.new ≡ out.old) }
    ensures performed { IfSome (task_of (texts_of words.now.items)) (λ task. Performed task result (task_ends
        (around (S.left input.old) (S.left input.new)) (around (K.held out.old) (K.held out.new)) (C.moments clock)
        (D.listens door.new))) }
    ensures door_left { asks_for_door (task_of (texts_of words.now.items)) ≡ false → door.new ≡ door.old }
    ensures input_left { asks_for_input (task_of (texts_of words.now.items)) ≡ false → input.new ≡ input.old }
    ensures complete { (Rose (S.faults input.old) (S.faults input.new) → ⊥)
        → (Rose (K.faults out.old) (K.faults out.new) → ⊥)
        → (Rose (D.faults door.old) (D.faults door.new) → ⊥)
        → IfSome (task_of (texts_of words.now.items)) (λ task. Completed task result (S.left input.old)) }
    ensures read { result ≡ Status.Read → Rose (S.faults input.old) (S.faults input.new) }
    ensures write { result ≡ Status.Write → Rose (K.faults out.old) (K.faults out.new) }
    ensures door { result ≡ Status.Door → Rose (D.faults door.old) (D.faults door.new) }
{
    laws::memory_may_run_out();
    match find_task(alloc, words) {
        Ok(Some(task)) => perform(rt, alloc, task, input, out, clock, door),
        Ok(None) => Status::Usage,
        Err(_) => Status::Memory,
    }
}

/// Runs the program, and returns its exit status. `words` are the command-line arguments after the program's name,
/// `err` is the error output, and `door` is a listening socket.
///
/// - `usage`, `refused`, `untouched`: the exit status is 2 only if `words` ask for no task. If they ask for no task,
///   the exit status is 2 (or 6, if memory ran out), and the input and the output are untouched.
/// - `door_left`, `input_left`: if there is no task, or if the task doesn't use the door, the door is untouched. If
///   there is no task, or if the task doesn't read the input, the input is untouched.
/// - `ended`: if `words` ask for a task, the task ended as its contract states. The message for the status was written
///   to the error output, unless the error output failed.
/// - `complete`: if the input, the output and the door don't fail and memory doesn't run out, the bytes of the input
///   determine how the task ends.
/// - `safe`, `served`: suppose that the task is to replay a schedule, with answers or with a journal. After the turns
///   that the schedule's lines make, the state is safe at the greatest time of these turns (`laws::safety` says what
///   safe means). The processors of the schedule's workers are called for the delivered reads of the workers' tenures.
/// - `handed`: a hand-off passes a lease on to another worker. If a hand-off ended a tenure by freeing the lease, no
///   later tenure of that lease reads records that were delivered in the ended tenure.
/// - `sound`: if the journal was written to its end, and both its lines and the whole journal are within an audit's
///   limits on length, an audit finds the journal sound (valid).
/// - `read`, `write`, `door`: the exit status is 4 only if the input failed, 5 only if the output failed, and 8 only if
///   the door failed.
pub fn run<R, S, K, E, C, D>(
    rt: &R,
    alloc: Global,
    words: &Vec<String>,
    input: &mut S,
    out: &mut K,
    err: &mut E,
    clock: C,
    door: &mut D,
) -> u8
where
    R: Threads + Wait + Sync,
    S: Source,
    K: Sink,
    E: Sink,
    C: Clock + Send + Drop,
    D: Door,
    D::Input: Send,
    D::Output: Send,
    ensures usage { result ≡ 2 → task_of (texts_of words.now.items) ≡ None }
    ensures refused { task_of (texts_of words.now.items) ≡ None → (result ≡ 2) ⊎ (result ≡ 6) }
    ensures untouched { task_of (texts_of words.now.items) ≡ None → (input.new ≡ input.old) × (out.new ≡ out.old) }
    ensures door_left { asks_for_door (task_of (texts_of words.now.items)) ≡ false → door.new ≡ door.old }
    ensures input_left { asks_for_input (task_of (texts_of words.now.items)) ≡ false → input.new ≡ input.old }
    ensures ended { EndsSo result words.now.items (task_ends
        (around (S.left input.old) (S.left input.new)) (around (K.held out.old) (K.held out.new)) (C.moments clock)
        (D.listens door.new))
        (around (E.held err.old) (E.held err.new)) (around (E.faults err.old) (E.faults err.new)) }
    ensures complete { (Rose (S.faults input.old) (S.faults input.new) → ⊥)
        → (Rose (K.faults out.old) (K.faults out.new) → ⊥)
        → (Rose (D.faults door.old) (D.faults door.new) → ⊥) → CompletesSo result words.now.items (S.left input.old) }
    ensures safe { (journal : Bool) → task_of (texts_of words.now.items) ≡ Some (Replay journal)
        → IfSome (S.left input.old) (λ bytes. IsSafe (journal_of (history bytes)) (clock_of (history bytes))) }
    ensures served { (journal : Bool) → task_of (texts_of words.now.items) ≡ Some (Replay journal)
        → IfSome (S.left input.old) (λ bytes. AreAllServed (ran bytes)) }
    ensures handed { (journal : Bool) → task_of (texts_of words.now.items) ≡ Some (Replay journal)
        → IfSome (S.left input.old) AreHandedOn }
    ensures sound { result ≡ 0 → task_of (texts_of words.now.items) ≡ Some (Replay true)
        → IfSome (S.left input.old) IsAuditedSound }
    ensures read { result ≡ 4 → Rose (S.faults input.old) (S.faults input.new) }
    ensures write { result ≡ 5 → Rose (K.faults out.old) (K.faults out.new) }
    ensures door { result ≡ 8 → Rose (D.faults door.old) (D.faults door.new) }
{
    laws::schedules();
    let status = perform_words(rt, alloc, words, input, out, clock, door);
    tell(err, status);
    status.code()
}
