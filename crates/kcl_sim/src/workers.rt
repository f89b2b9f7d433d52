//! The parts of a worker's step: the processor calls, the next command, and the answer to this command. If memory runs
//! out in one of these functions, the function may have done a part of its work.
ghost use Rattle.std.specs.Prelude.{◌≡◌, ◌<◌, ◌^◌, false, None, Result, IfSome, OnOk, IsSome, MatchOption};
ghost use Rattle.kcl_worker_lists.specs.Lists.{due_in};
ghost use Rattle.kcl_sim.specs.Standing.{Employs, HasAsked};
ghost use Rattle.kcl_sim.specs.Workers.{Employed, all_called, answered, command_at};
ghost use Rattle.kds_defs.specs.Kinds.{is_service};
ghost use Rattle.kds_defs.specs.Lawful.{IsLawfulCommand};

use kcl_proc::{Kind, Stock};
use kcl_worker::{NoRoom, Worker};
use kds_base::{Memory, Moment};
use kds_defs::{Answer, Command, let_go};

/// Makes all processor calls of the worker that are due, one after another.
pub fn call_all(worker: &mut Worker<Stock, Kind>) -> Result<(), Memory>
    requires { worker.old.waiting ≡ None }
    ensures unasked { worker.new.waiting ≡ None }
    ensures none_due { OnOk result (due_in worker.new.consumers ≡ None) }
    ensures called { OnOk result ((e : Employed) → Employs worker.old e → Employs worker.new (all_called e)) }
{
    while worker.due().is_some() {
        worker.call()?;
    }
    Ok(())
}

/// Returns the worker's next command at the time `now`. If the worker was stopped and has nothing left to do, it is
/// idle, and the result is `None`. Preconditions: no processor call is due, and the worker waits for no answer.
pub fn next_command(worker: &mut Worker<Stock, Kind>, now: Moment) -> Option<Command>
    requires unasked { worker.old.waiting ≡ None }
    requires none_due { due_in worker.old.consumers ≡ None }
    ensures lawful { IfSome result IsLawfulCommand }
    ensures own { IfSome result (λ command. is_service command ≡ false) }
    ensures unasked { MatchOption result (worker.new.waiting ≡ None) (λ command. IsSome worker.new.waiting) }
    ensures is { (e : Employed) → Employs worker.old e → result ≡ command_at now e }
    ensures stands { (e : Employed) → Employs worker.old e
        → MatchOption result (Employs worker.new e) (λ command. HasAsked now worker.new e) }
{
    if worker.idle() {
        None
    } else {
        Some(worker.next(now))
    }
}

/// Drops the answer that the worker couldn't process because memory ran out, and returns the error.
fn drop_answer(left: NoRoom) -> Memory {
    let_go(left.answer);
    Memory
}

/// Hands the worker the answer to its command. If memory runs out, the answer is dropped.
pub fn absorb(worker: &mut Worker<Stock, Kind>, now: Moment, answer: Answer) -> Result<(), Memory>
    requires { IsSome worker.old.waiting }
    ensures unasked { OnOk result (worker.new.waiting ≡ None) }
    ensures stands { OnOk result ((e : Employed) → HasAsked now worker.old e
        → Employs worker.new (answered now answer e)) }
{
    match worker.absorb(now, answer) {
        Ok(()) => Ok(()),
        Err(left) => Err(drop_answer(left)),
    }
}
