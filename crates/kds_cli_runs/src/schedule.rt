//! Runs a schedule, which is a recorded workload, on any machine, and writes the answers to the schedule's lines. A
//! turn is one command of a schedule, with its sender and its time.
ghost use Rattle.std.specs.Prelude.{◌≡◌, [], IfSome};
ghost use Rattle.kds_ends.specs.Causes.{Rose};
ghost use Rattle.kds_cli_runs.specs.Answered.{status_of as status_at, RanSo};
ghost use Rattle.kds_cli_runs.specs.Told.{Tells, IsReplayStatus};

use kcl_sim::{NoTurns, Sim};
use kds_defs::Machine;
use kds_ends::{Sink, Source, Status};
use kds_lines::{Outcome, read_lines};
use std::alloc::Global;

/// The result of `run_schedule`: the status, and the machine and the workers as the run left them. No list of the run's
/// turns is kept.
#[derive(Drop)]
pub struct Replay<M: Machine> {
    pub status: Status,
    pub sim: Sim<M, NoTurns>,
}

/// Returns the status of a run whose input was read with the outcome `outcome`. A last line without a line feed counts
/// as a bad line.
pub fn status_of(outcome: Outcome) -> Status
    ensures { result ≡ status_at outcome }
{
    match outcome {
        Outcome::Whole => Status::Done,
        Outcome::Unfinished(number) | Outcome::Stopped(number) => Status::BadLine(number),
        Outcome::TooLong => Status::TooLong,
        Outcome::Read => Status::Read,
        Outcome::Write => Status::Write,
        Outcome::Memory => Status::Memory,
    }
}

/// Runs the schedule in `input` on `machine`, and writes the answers to `out`. Precondition: `machine` has made no turn
/// yet.
pub fn run_schedule<M: Machine + Drop, S: Source, K: Sink>(
    alloc: Global,
    machine: M,
    input: &mut S,
    out: &mut K,
) -> Replay<M>
    requires { M.stands_for machine [] }
    ensures told { IfSome (S.left input.old) (λ bytes.
        Tells result.status bytes (S.left input.new) (K.held out.old) (K.held out.new)) }

    // The turns that were made are those of the lines that were run. If the input and the output didn't fail and memory
    // didn't run out, the lines that were run are those before the first line that is invalid or too long. If there is
    // no such line, all lines were run. If the status is Memory, the first turns of the next line may have been made
    // too. The machine represents (`stands_for`) the history of all turns that were made.
    ensures ran { IfSome (S.left input.old)
        (λ bytes. RanSo result.status bytes (K.held out.old) (K.held out.new) result.sim) }
    ensures read { result.status ≡ Status.Read → Rose (S.faults input.old) (S.faults input.new) }
    ensures write { result.status ≡ Status.Write → Rose (K.faults out.old) (K.faults out.new) }
    ensures kinds { IsReplayStatus result.status }
{
    kcl_sim::one_after_another();
    let mut sim = Sim::keeping(alloc, machine, NoTurns);
    let outcome = read_lines(alloc, &mut sim, input, out);
    let status = status_of(outcome);
    Replay { status, sim }
}
