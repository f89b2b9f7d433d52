//! A hall is a machine with a lock around it, and a turn is one command, applied atomically to the machine. A pass is
//! the right of one thread to make turns of a hall. This file makes one step of a worker: the processor calls that are
//! due, and then one turn.
ghost use Rattle.std.specs.Prelude.{◌≡◌, ℕ, ◌∷◌, List, None, IfErr, IsSome, OnErr, OnOk, false};
ghost use Rattle.kcl_defs.specs.declared.consumer.Ask.{Ask};
ghost use Rattle.kcl_defs.specs.Workers.{WorkerPast};
ghost use Rattle.kcl_worker_lists.specs.Lists.{due_in};
ghost use Rattle.kcl_worker.specs.Standing.{StandsFor, is_idle_in};
ghost use Rattle.kcl_live.specs.Records.{IsDriven, with_calls};
ghost use Rattle.kcl_live.specs.Runs.{WasCut};
ghost use Rattle.kcl_live.specs.Steps.{HasTurned, IsSameRun, MakesTurn};

use crate::gate::Gate;
use kcl_consumer::{Maker, Processor};
use kcl_worker::{NoRoom, Worker};
use kds_base::{Memory, Moment};
use kds_defs::{Machine, let_go};
use kds_turn::{Hall, Pass, TurnErr};
use std::sync::Wait;

/// Makes all processor calls that are due. The gate is a hook: `before` is called before each processor call, and
/// `after` after the call. The error `Memory` means that a processor ran out of memory. The failed call is then still
/// due.
pub(crate) fn call_all<P: Processor, F: Maker<P>, G: Gate>(
    worker: &mut Worker<P, F>,
    gate: &mut G,
) -> Result<(), TurnErr>
    requires { worker.old.waiting ≡ None }
    ensures made { worker.new.made ≡ worker.old.made }
    ensures unasked { worker.new.waiting ≡ None }
    ensures called { (past : WorkerPast) → StandsFor P.stands_for worker.old past
        → (asked : List Ask) × StandsFor P.stands_for worker.new (with_calls asked past) }
    ensures none_due { OnOk result (due_in worker.new.consumers ≡ None) }
    ensures error { IfErr result (λ e. e ≡ TurnErr.Memory) }
    ensures left { OnErr result ((past : WorkerPast) → StandsFor P.stands_for worker.old past
        → IsSome (due_in worker.new.consumers)) }
{
    while let Some((_, due)) = worker.due() {
        let name = worker.name();
        gate.before(name, due);
        let called = worker.call();
        gate.after(name, due);
        match called {
            Ok(()) => {}
            Err(Memory) => return Err(TurnErr::Memory),
        }
    }
    Ok(())
}

/// Drops the answer that the worker had no memory for, and returns the error `Memory`.
fn drop_answer(left: NoRoom) -> TurnErr
    ensures { result ≡ TurnErr.Memory }
{
    let_go(left.answer);
    TurnErr::Memory
}

/// Applies the worker's next command to the hall's machine, as a turn of the pass at the moment `now`. The worker then
/// updates its state with the answer. The error `Memory` means that memory ran out for the turn or for its answer. The
/// error `Spent` means that the hall has already made the maximum number of turns.
pub(crate) fn make_turn<M: Machine, P: Processor + Drop, F: Maker<P>, R: Wait>(
    rt: &R,
    hall: &Hall<M>,
    pass: &mut Pass<M>,
    worker: &mut Worker<P, F>,
    now: Moment,
) -> Result<(), TurnErr>
    requires hall { pass.old.hall ≡ hall.now.id }
    requires unasked { worker.old.waiting ≡ None }
    requires none_due { due_in worker.old.consumers ≡ None }
    requires busy { is_idle_in worker.old ≡ false }
    ensures run { IsSameRun worker.old worker.new pass.old pass.new }
    ensures turn { MakesTurn now worker.new pass.old pass.new result }
    ensures ok { OnOk result ((past : WorkerPast)
        → IsDriven P.stands_for pass.old.by pass.old.seen pass.old.own worker.old past
        → HasTurned P.stands_for pass.new worker.new now past) }
    ensures err { IfErr result (λ e. (past : WorkerPast)
        → IsDriven P.stands_for pass.old.by pass.old.seen pass.old.own worker.old past
        → WasCut P.stands_for worker.new pass.new e) }
{
    let what = worker.next(now);
    match hall.turn(rt, pass, now, what) {
        Ok(answer) => match worker.absorb(now, answer) {
            Ok(()) => Ok(()),
            Err(left) => Err(drop_answer(left)),
        },
        Err(error) => Err(error),
    }
}
