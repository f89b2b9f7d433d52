//! Runs a worker. A hall is a machine with a lock around it, and a turn is one command, applied atomically to the
//! machine. A pass is the right of one thread to make turns of a hall. Each command of the worker becomes a turn, which
//! the worker makes with its pass. A worker that was stopped is idle when it has nothing left to do.
ghost use Rattle.std.specs.Prelude.{◌≡◌, ℕ, ◌*◌, ◌+◌, ◌<◌, ◌≤◌, ◌^◌, [], length, None, IfErr, OnErr, OnOk, true};
ghost use Rattle.std.specs.Prelude.{false};
ghost use Rattle.kcl_worker_lists.specs.Lists.{due_in};
ghost use Rattle.kcl_worker.specs.Standing.{StandsFor, is_idle_in};
ghost use Rattle.kds_turn.specs.Known.{Continues};
ghost use Rattle.kcl_live.specs.Records.{AreOnLeasesAt, AreServedLater};
ghost use Rattle.kcl_live.specs.Runs.{AreServedSoFar, HasRun, RunsToIdle, WasCut};
ghost use Rattle.kcl_live.specs.Steps.{IsFinishing, IsGoing, IsSameRun, MakesTurn};
ghost use Rattle.kds_turn.specs.Passes.{IsSamePass};

use crate::gate::Gate;
use crate::steps::{call_all, make_turn};
use kcl_consumer::{Maker, Processor};
use kcl_worker::{Worker, served};
use kds_base::Moment;
use kds_defs::Machine;
use kds_turn::{Hall, Pass, TurnErr};
use std::sync::Wait;

/// Returns the moment at `ms` milliseconds.
fn moment(ms: u64) -> Moment
    requires { ms < 2 ^ 62 }
    ensures { result ≡ ms }
{
    Moment::new(ms).unwrap()
}

/// Makes one round of a worker that wasn't stopped: the processor calls that are due, and then a turn at the moment
/// `now`.
fn round<M: Machine, P: Processor + Drop, F: Maker<P>, G: Gate, R: Wait>(
    rt: &R,
    hall: &Hall<M>,
    pass: &mut Pass<M>,
    worker: &mut Worker<P, F>,
    gate: &mut G,
    now: Moment,
) -> Result<(), TurnErr>
    requires hall { pass.old.hall ≡ hall.now.id }
    requires unasked { worker.old.waiting ≡ None }
    requires going { IsGoing P.stands_for worker.old pass.old }
    ensures run { IsSameRun worker.old worker.new pass.old pass.new }
    ensures turn { MakesTurn now worker.new pass.old pass.new result }
    ensures going { OnOk result (IsGoing P.stands_for worker.new pass.new) }
    ensures err { IfErr result (λ e. WasCut P.stands_for worker.new pass.new e) }
{
    match call_all(worker, gate) {
        Ok(()) => make_turn(rt, hall, pass, worker, now),
        Err(error) => Err(error),
    }
}

/// Makes one round of a worker that was stopped: a turn at the moment `now`, and then the processor calls that become
/// due. Preconditions: the worker isn't idle, and no processor call is due.
fn last_round<M: Machine, P: Processor + Drop, F: Maker<P>, G: Gate, R: Wait>(
    rt: &R,
    hall: &Hall<M>,
    pass: &mut Pass<M>,
    worker: &mut Worker<P, F>,
    gate: &mut G,
    now: Moment,
) -> Result<(), TurnErr>
    requires hall { pass.old.hall ≡ hall.now.id }
    requires unasked { worker.old.waiting ≡ None }
    requires none_due { due_in worker.old.consumers ≡ None }
    requires busy { is_idle_in worker.old ≡ false }
    requires finishing { (most : ℕ) × IsFinishing P.stands_for worker.old pass.old most }
    ensures run { IsSameRun worker.old worker.new pass.old pass.new }
    ensures turn { MakesTurn now worker.new pass.old pass.new result }
    ensures none_due { OnOk result (due_in worker.new.consumers ≡ None) }
    ensures finishing { OnOk result ((most : ℕ) → IsFinishing P.stands_for worker.old pass.old most
        → IsFinishing P.stands_for worker.new pass.new most) }
    ensures err { IfErr result (λ e. WasCut P.stands_for worker.new pass.new e) }
{
    match make_turn(rt, hall, pass, worker, now) {
        Ok(()) => call_all(worker, gate),
        Err(error) => Err(error),
    }
}

/// Makes rounds of a worker that was stopped, until the worker is idle. `turns` is the number of turns that the worker
/// has made so far. The worker makes at most twice this number of additional turns. For each batch that a processor
/// already got, one of these turns reports the batch as processed. For each lease, one of these turns frees the lease.
fn finish<M: Machine, P: Processor + Drop, F: Maker<P>, G: Gate, R: Wait>(
    rt: &R,
    hall: &Hall<M>,
    pass: &mut Pass<M>,
    worker: &mut Worker<P, F>,
    gate: &mut G,
    turns: u64,
    tick: u64,
) -> Result<(), TurnErr>
    requires hall { pass.old.hall ≡ hall.now.id }
    requires moments { 3 * turns * tick < 2 ^ 62 }
    requires unasked { worker.old.waiting ≡ None }
    requires finishing { IsFinishing P.stands_for worker.old pass.old (3 * turns) }
    requires so_far { AreOnLeasesAt tick pass.old.own × (length pass.old.own ≡ turns) }
    ensures run { IsSameRun worker.old worker.new pass.old pass.new }
    ensures ran { RunsToIdle P.stands_for worker.new pass.new tick turns result }
    ensures least { turns ≤ length pass.new.own }
{
    let mut at = turns * tick;
    match call_all(worker, gate) {
        Ok(()) => {}
        Err(error) => return Err(error),
    }
    while !worker.idle() {
        at += tick;
        last_round(rt, hall, pass, worker, gate, moment(at))?;
    }
    Ok(())
}

/// Runs a worker until it is idle. First makes `turns` rounds of the worker, each with the processor calls that are due
/// and then one turn. Then stops the worker, and makes rounds until the worker is idle.
fn drive<M: Machine, P: Processor + Drop, F: Maker<P>, G: Gate, R: Wait>(
    rt: &R,
    hall: &Hall<M>,
    pass: &mut Pass<M>,
    worker: &mut Worker<P, F>,
    gate: &mut G,
    turns: u64,
    tick: u64,
) -> Result<(), TurnErr>
    requires hall { pass.old.hall ≡ hall.now.id }
    requires new { StandsFor P.stands_for worker.old [] × (pass.old.own ≡ []) }
    requires moments { 3 * turns * tick < 2 ^ 62 }
    ensures run { IsSameRun worker.old worker.new pass.old pass.new }
    ensures ran { RunsToIdle P.stands_for worker.new pass.new tick turns result }
    ensures least { OnOk result (turns ≤ length pass.new.own) }
{
    for k in 0..turns {
        let at = (k + 1) * tick;
        round(rt, hall, pass, worker, gate, moment(at))?;
    }
    worker.stop();
    finish(rt, hall, pass, worker, gate, turns, tick)
}

/// Runs a new worker, whose commands are applied to the hall's machine as turns of `pass` (see Kinesis Client Library,
/// Scheduler). The worker makes the processor calls that are due, then one turn, and so on. The turns are counted from
/// 1, and turn k is at k times `tick` milliseconds. After `turns` turns, the worker is stopped. It then continues until
/// it is idle. In all, it makes at most 3 * `turns` turns. The error `Memory` means that memory ran out in a processor
/// call, for a turn, or for the answer to a turn. The error `Spent` means that the hall has already made the maximum
/// number of turns. Precondition: `pass` has made no turn yet.
pub fn run_worker<M: Machine, P: Processor + Drop, F: Maker<P>, G: Gate, R: Wait>(
    rt: &R,
    hall: &Hall<M>,
    pass: &mut Pass<M>,
    worker: &mut Worker<P, F>,
    gate: &mut G,
    turns: u64,
    tick: u64,
) -> Result<(), TurnErr>
    requires hall { pass.old.hall ≡ hall.now.id }
    requires new { StandsFor P.stands_for worker.old [] × (pass.old.own ≡ []) }
    requires moments { 3 * turns * tick < 2 ^ 62 }
    // The pass keeps its hall and its number, and no other pass is joined into it. The worker keeps its name and
    // settings.
    ensures kept { IsSamePass pass.new pass.old }
    ensures made { worker.new.made ≡ worker.old.made }
    ensures seen { Continues pass.new.seen pass.old.seen }

    // The pass's own turns are the answered commands in the worker's list of events. The k-th turn is at k times `tick`
    // milliseconds.
    ensures moments { AreOnLeasesAt tick pass.new.own }
    ensures ok { OnOk result (HasRun P.stands_for worker.new pass.new) }
    ensures least { OnOk result (turns ≤ length pass.new.own) }
    ensures most { length pass.new.own ≤ 3 * turns }
    ensures idle { OnOk result (is_idle_in worker.new ≡ true) }

    // An error has one of three causes: a processor call failed, a turn failed, or the worker had no memory for an
    // answer.
    ensures err { IfErr result (λ e. WasCut P.stands_for worker.new pass.new e) }

    // A tenure is one worker's hold on a lease. The processor of each tenure was called for the reads of the tenure
    // that count as processed. This stays true in each later history of the hall (the list of all its turns), as long
    // as the pass makes no more turns.
    ensures served { OnOk result (AreServedLater P.stands_for pass.new.by pass.new.seen pass.new.own worker.new) }
    ensures served_so_far { OnErr result (AreServedSoFar P.stands_for worker.new pass.new) }
{
    let result = drive(rt, hall, pass, worker, gate, turns, tick);
    served(worker);
    result
}
