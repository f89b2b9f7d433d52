//! Hands off a lease of a worker: the worker releases the lease gracefully. A hall is a machine with a lock around it,
//! and a turn is one command, applied atomically to the machine. A pass is the right of one thread to make turns of a
//! hall. Each command of the hand-off becomes a turn, which is made with the worker's pass. All turns of a hand-off are
//! at the same moment. Processor calls are made between the turns.
ghost use Rattle.std.specs.Prelude.{◌≡◌, ◌<◌, ◌≤◌, ℕ, None, Some, IfErr, IfNone, IfOk, IfSome, IsSome, OnErr, OnOk};
ghost use Rattle.std.specs.Option.{MatchOption};
ghost use Rattle.kcl_defs.specs.Consumers.{due_call};
ghost use Rattle.kcl_defs.specs.Workers.{WorkerPast};
ghost use Rattle.kcl_hand.specs.Handing.{left_at};
ghost use Rattle.kcl_hand.specs.Standing.{turns_left_in};
ghost use Rattle.kcl_worker.specs.Standing.{StandsFor};
ghost use Rattle.kds_turn.specs.Known.{Continues};
ghost use Rattle.kds_turn.specs.Passes.{IsSamePass, PassValue};
ghost use Rattle.kcl_live.specs.Hands.{Goes, HandSteps, HandWasCut, HasHandedOff, HasNothing};

use kcl_consumer::{Maker, Processor};
use kcl_hand::{Handover, Left};
use kcl_worker::Worker;
use kds_base::{Memory, Moment, ShardRef};
use kds_defs::Machine;
use kds_turn::{Hall, Pass, TurnErr};
use std::sync::Wait;

/// Makes the processor call that is due, if a call is due. The error `Memory` means that the processor ran out of
/// memory. The same call is then still due.
fn call_one<P: Processor>(hand: &mut Handover<P>) -> Result<(), TurnErr>
    ensures held { hand.new.held ≡ hand.old.held }
    ensures made { hand.new.consumer.made ≡ hand.old.consumer.made }
    ensures none_due { OnOk result (due_call hand.new.consumer.stage ≡ None) }
    ensures few { OnOk result (turns_left_in hand.new ≤ turns_left_in hand.old) }
    ensures goes { (moment : ℕ) (q : PassValue) → Goes P.stands_for moment hand.old hand.new q q }
    ensures error { IfErr result (λ e. e ≡ TurnErr.Memory) }
    ensures left { OnErr result (IsSome (due_call hand.new.consumer.stage)) }
{
    match hand.due() {
        Some(_) => match hand.call() {
            Ok(()) => Ok(()),
            Err(Memory) => Err(TurnErr::Memory),
        },
        None => Ok(()),
    }
}

/// Applies the hand-off's next command to the hall's machine, as a turn of the pass at the moment `at`. The hand-off
/// then updates its state with the answer.
fn answer_one<M: Machine, P: Processor, R: Wait>(
    rt: &R,
    hall: &Hall<M>,
    pass: &mut Pass<M>,
    hand: &mut Handover<P>,
    at: Moment,
) -> Result<(), TurnErr>
    requires hall { pass.old.hall ≡ hall.now.id }
    requires none_due { due_call hand.old.consumer.stage ≡ None }
    requires going { left_at hand.old.stand ≡ None }
    ensures steps { HandSteps P.stands_for at hand.old hand.new pass.old pass.new result }
    ensures few { OnOk result (turns_left_in hand.new < turns_left_in hand.old) }
{
    let what = hand.next();
    match hall.turn(rt, pass, at, what) {
        Ok(answer) => {
            hand.absorb(answer);
            Ok(())
        }
        Err(error) => Err(error),
    }
}

/// Makes the processor call that is due, if a call is due. If the hand-off has then ended, returns how it ended.
/// Otherwise applies the hand-off's next command, as a turn of the pass at the moment `at`, and returns `None`.
fn advance<M: Machine, P: Processor, R: Wait>(
    rt: &R,
    hall: &Hall<M>,
    pass: &mut Pass<M>,
    hand: &mut Handover<P>,
    at: Moment,
) -> Result<Option<Left>, TurnErr>
    requires hall { pass.old.hall ≡ hall.now.id }
    ensures steps { HandSteps P.stands_for at hand.old hand.new pass.old pass.new result }
    ensures few { IfOk result (λ o. IfNone o (turns_left_in hand.new < turns_left_in hand.old)) }
    ensures ended { IfOk result (λ o. IfSome o (λ left. left_at hand.new.stand ≡ Some left)) }
{
    match call_one(hand) {
        Ok(()) => {}
        Err(error) => return Err(error),
    }
    if let Some(left) = hand.over() {
        return Ok(Some(left));
    }
    match answer_one(rt, hall, pass, hand, at) {
        Ok(()) => Ok(None),
        Err(error) => Err(error),
    }
}

/// Runs a hand-off to its end, and returns how it ended.
fn carry<M: Machine, P: Processor, R: Wait>(
    rt: &R,
    hall: &Hall<M>,
    pass: &mut Pass<M>,
    hand: &mut Handover<P>,
    at: Moment,
) -> Result<Left, TurnErr>
    requires hall { pass.old.hall ≡ hall.now.id }
    ensures steps { HandSteps P.stands_for at hand.old hand.new pass.old pass.new result }
    ensures ended { IfOk result (λ left. left_at hand.new.stand ≡ Some left) }
{
    loop {
        match advance(rt, hall, pass, hand, at) {
            Ok(Some(left)) => return Ok(left),
            Ok(None) => {}
            Err(error) => return Err(error),
        }
    }
}

/// Hands off the worker's lease of the shard `key`. If the lease's processor already got a batch, this batch is
/// completed first. If any record counts as processed, the checkpoint is then set to the sequence number of the last
/// such record. Finally, the lease is freed. Each command is a turn of the pass at the moment `at`. Returns how the
/// hand-off ended, and the processor. Returns `None` if the worker has no such lease. The hall's lock isn't held while
/// the processor is called. The error `Memory` means that the processor ran out of memory. The error `Spent` means that
/// the hall has already made the maximum number of turns. After an error, the lease stays in the state that it has
/// after the turns made so far.
pub fn hand_over<M: Machine, P: Processor + Drop, F: Maker<P>, R: Wait>(
    rt: &R,
    hall: &Hall<M>,
    pass: &mut Pass<M>,
    worker: &mut Worker<P, F>,
    key: ShardRef,
    at: Moment,
) -> Result<Option<(Left, P)>, TurnErr>
    requires hall { pass.old.hall ≡ hall.now.id }
    requires unasked { worker.old.waiting ≡ None }
    ensures kept { IsSamePass pass.new pass.old }
    ensures made { worker.new.made ≡ worker.old.made }
    ensures maker { worker.new.maker ≡ worker.old.maker }
    ensures unasked { worker.new.waiting ≡ None }
    ensures seen { Continues pass.new.seen pass.old.seen }
    ensures ok { IfOk result (λ o. (past : WorkerPast) → StandsFor P.stands_for worker.old past
        → MatchOption o (HasNothing P.stands_for at key worker.old worker.new pass.old pass.new past)
        (λ out. HasHandedOff P.stands_for at key worker.old worker.new pass.old pass.new out.0 out.1 past)) }
    ensures err { IfErr result (λ e. (past : WorkerPast) → StandsFor P.stands_for worker.old past
        → HandWasCut P.stands_for at key worker.old worker.new pass.old pass.new e past) }
{
    match worker.release(key) {
        None => Ok(None),
        Some((held, consumer)) => {
            let mut hand = Handover::new(held, consumer);
            kcl_hand::service();
            kcl_hand::handed();
            match carry(rt, hall, pass, &mut hand, at) {
                Ok(left) => Ok(Some((left, hand.into_processor()))),
                Err(error) => Err(error),
            }
        }
    }
}
