//! Runs a schedule, answers the requests of one connection, or serves a door. A schedule is a recorded workload, and
//! its journal is the event log of its run. An audit checks whether a journal is valid. A door is a listening socket.
//! Commands become turns of a machine: a turn is one command with its sender and its time. A read is delivered once its
//! batch counts as processed.
ghost use Rattle.std.specs.Prelude.{◌≡◌, ◌≤◌, [], ℕ, true, IfSome};
ghost use Rattle.kds_defs.specs.Histories.{clock as clock_of, journal as journal_of};
ghost use Rattle.kds_defs.specs.Safe.{IsSafe};
ghost use Rattle.kds_ends.specs.Causes.{Rose};
ghost use Rattle.kcl_sim.specs.Schedule.{history, ran};
ghost use Rattle.kcl_sim.specs.Serving.{AreAllServed};
ghost use Rattle.kds_server.specs.Around.{around};
ghost use Rattle.kds_server.specs.Texts.{EndsAs, IsAnswerStatus, IsCrewStatus};
ghost use Rattle.kds_server.specs.Serving.{Served};
ghost use Rattle.kds_cli_runs.specs.Answered.{AreHandedOn, RanSafely};
ghost use Rattle.kds_cli_runs.specs.Completed.{ReplaysAs};
ghost use Rattle.kds_cli_runs.specs.Ends.{ReplayTells, ServeTells, shown};
ghost use Rattle.kds_cli_runs.specs.Journal.{IsAuditedSound};
ghost use Rattle.kds_cli_runs.specs.Told.{IsReplayStatus};

use crate::journal::record_schedule;
use crate::laws;
use crate::schedule::run_schedule;
use kcl_sim::served;
use kcl_world::World;
use kds_ends::{Clock, Door, Sink, Source, Status, write_all};
use kds_server::{crew, serve_lone};
use kds_turn::Hall;
use std::alloc::Global;
use std::sync::{Mutex, Wait};
use std::thread::Threads;

/// Runs the schedule in `input`, and writes the answer to each line. If `journal` is true, the schedule's journal is
/// written instead: the first line, an entry for each change that a turn makes, and the last line. The last line is
/// written to its end if and only if the status is Done. The statuses are as follows. Done: the schedule was read to
/// its end. BadLine: the line with this number is the first that isn't a schedule line. TooLong: a line or the input is
/// longer than the limits. Read: the source failed before one of these three ends was reached. Write: the sink failed
/// before that. Memory: memory ran out before that.
pub fn run_replay<S: Source, K: Sink>(
    alloc: Global,
    input: &mut S,
    out: &mut K,
    journal: bool,
) -> Status
    // If the source's contract exposes its bytes, the output and the status are as `ReplayTells` states for the bytes.
    ensures told { IfSome (S.left input.old) (λ bytes.
        ReplayTells journal result bytes (S.left input.new) (K.held out.old) (K.held out.new)) }

    // The turns that were made are those of the lines that were run. If the status is Memory, the first turns of the
    // next line may have been made too. At the greatest time of all these turns, the state is safe (`laws::safety`).
    // After the lines that were run, the processors have been called for the delivered reads, and `handed` holds.
    ensures ran { IfSome (S.left input.old) (λ bytes.
        RanSafely (shown journal result) result bytes (K.held out.old) (K.held out.new)) }

    // The state after the whole schedule is safe too, and the processors have then been called for the delivered reads.
    ensures safe { IfSome (S.left input.old) (λ bytes. IsSafe (journal_of (history bytes)) (clock_of (history bytes))) }
    ensures served { IfSome (S.left input.old) (λ bytes. AreAllServed (ran bytes)) }

    // A tenure is one worker's hold on a lease. A hand-off passes a lease on to another worker. If a hand-off ended a
    // tenure by freeing the lease, no later tenure of that lease reads records that were delivered in the ended tenure.
    ensures handed { IfSome (S.left input.old) AreHandedOn }

    // If the journal was written to its end, within the length limits of an audit, an audit finds it sound (valid).
    ensures sound { journal ≡ true → result ≡ Status.Done → IfSome (S.left input.old) IsAuditedSound }

    // If the source and the sink don't fail and memory doesn't run out, the bytes of the input determine the status. If
    // all lines of the schedule are valid and within the limits, the status is Done, so the whole output is written.
    ensures complete { (Rose (S.faults input.old) (S.faults input.new) → ⊥)
        → (Rose (K.faults out.old) (K.faults out.new) → ⊥)
        → IfSome (S.left input.old) (λ bytes. ReplaysAs bytes result) }
    ensures read { result ≡ Status.Read → Rose (S.faults input.old) (S.faults input.new) }
    ensures write { result ≡ Status.Write → Rose (K.faults out.old) (K.faults out.new) }
    ensures kinds { IsReplayStatus result }
{
    kcl_sim::lawful();
    laws::safety();
    served();
    laws::schedules();
    if journal {
        return record_schedule(alloc, World::new(alloc), input, out).status;
    }
    run_schedule(alloc, World::new(alloc), input, out).status
}

/// Reads the requests of one connection from `input`, answers them with a new machine, and writes the responses to
/// `out`. The status is Done if the bytes ended between two requests or a request closed the connection, Cut if the
/// bytes ended inside a request, and Refused if the head of a request was refused. It is Read if the source failed,
/// Write if the sink failed, and Memory if memory ran out.
pub fn run_answer<S: Source, K: Sink, C: Clock>(
    alloc: Global,
    input: &mut S,
    out: &mut K,
    clock: &mut C,
) -> Status
    // Each command becomes a turn, at the time that the clock returns for the command. If the source's contract exposes
    // the bytes of the input, the commands, the responses and the status are as `Served` states for these bytes.
    ensures served { Served [] (around (S.left input.old) (S.left input.new))
        (around (C.moments clock.old) (C.moments clock.new))
        (around (K.held out.old) (K.held out.new)) result }

    // If the source and the sink don't fail and memory doesn't run out, the bytes of the input determine the status.
    ensures complete { (Rose (S.faults input.old) (S.faults input.new) → ⊥)
        → (Rose (K.faults out.old) (K.faults out.new) → ⊥)
        → IfSome (S.left input.old) (λ bytes. EndsAs bytes result) }
    ensures read { result ≡ Status.Read → Rose (S.faults input.old) (S.faults input.new) }
    ensures write { result ≡ Status.Write → Rose (K.faults out.old) (K.faults out.new) }
    ensures kinds { IsAnswerStatus result }
{
    let mut machine = World::new(alloc);
    serve_lone(alloc, &mut machine, input, out, clock)
}

/// Serves the connections that `door` accepts, on a new machine with `passes` passes. A pass is the right of one
/// connection to make turns, so at most `passes` connections are served at the same time. Each connection is served in
/// a thread of its own, if a thread can be started.
fn serve_door<R, C, D>(rt: &R, alloc: Global, passes: u32, clock: C, door: &mut D) -> Status
where
    R: Threads + Wait + Sync,
    C: Clock + Send + Drop,
    D: Door,
    D::Input: Send,
    D::Output: Send,
    requires { 1 ≤ passes }
    ensures listens { (port : ℕ) → D.listens door.old port → D.listens door.new port }
    ensures door { result ≡ Status.Door → Rose (D.faults door.old) (D.faults door.new) }
    ensures kinds { IsCrewStatus result }
{
    let clock = Mutex::new(clock);
    match Hall::new(alloc, World::new(alloc), passes) {
        Ok((hall, passes)) => crew(rt, alloc, &hall, passes, door, &clock),
        Err(_) => Status::Memory,
    }
}

/// Makes the door, which is a listening socket, listen at `port`. Then writes the line `listening`, and serves the
/// connections that arrive. The status is Door if the door failed, Write if the sink failed, and Memory if memory ran
/// out.
pub fn run_serve<R, K, C, D>(
    rt: &R,
    alloc: Global,
    port: u16,
    passes: u32,
    out: &mut K,
    clock: C,
    door: &mut D,
) -> Status
where
    R: Threads + Wait + Sync,
    K: Sink,
    C: Clock + Send + Drop,
    D: Door,
    D::Input: Send,
    D::Output: Send,
    requires { 1 ≤ passes }
    // The line `listening` is written only after the door has begun to listen at this port.
    ensures told { ServeTells result (K.held out.old) (K.held out.new) (D.listens door.new port) }
    ensures write { result ≡ Status.Write → Rose (K.faults out.old) (K.faults out.new) }
    ensures door { result ≡ Status.Door → Rose (D.faults door.old) (D.faults door.new) }
{
    if door.listen(port).is_err() {
        return Status::Door;
    }
    match write_all(out, b"listening\n".as_slice()) {
        Ok(()) => serve_door(rt, alloc, passes, clock, door),
        Err(_) => Status::Write,
    }
}
