//! A test of the graceful hand-off of a lease. The worker sends its commands to a machine through a hall, the lock
//! around the machine. A pass is the right to send commands through the hall. Each such command is a turn.
ghost use Rattle.std.specs.Prelude.{◌≡◌, [], None, true};
ghost use Rattle.kds_turn.specs.Passes.{IsSamePass};

use crate::crews::request;
use kcl_defs::Settings;
use kcl_hand::Left;
use kcl_live::hand_over;
use kcl_proc::{Kind, Stock};
use kcl_worker::Worker;
use kcl_world::World;
use kds_base::{Moment, ShardNo, ShardRef, StreamNo, WorkerNo};
use kds_defs::Machine;
use kds_turn::{Hall, Pass, TurnErr};
use std::sync::Wait;
use std::test::Fail;

/// Makes the processor call that is due, if a call is due. A worker with one shard has at most one call due. Returns
/// `false` if the call failed, and otherwise `true`.
fn call_due(worker: &mut Worker<Stock, Kind>) -> bool
    requires unasked { worker.old.waiting ≡ None }
    ensures unasked { worker.new.waiting ≡ None }
{
    match worker.due() {
        Some(_) => worker.call().is_ok(),
        None => true,
    }
}

/// Makes one step of a worker: makes the processor call that is due, if a call is due, and sends the worker's next
/// command with the pass. The worker then updates its state with the answer. Returns whether all of this succeeded.
fn worker_step<M: Machine, R: Wait>(
    rt: &R,
    hall: &Hall<M>,
    pass: &mut Pass<M>,
    worker: &mut Worker<Stock, Kind>,
    at: Moment,
) -> bool
    requires hall { pass.old.hall ≡ hall.now.id }
    requires unasked { worker.old.waiting ≡ None }
    ensures kept { IsSamePass pass.new pass.old }
    ensures unasked { result ≡ true → worker.new.waiting ≡ None }
{
    if !call_due(worker) || worker.due().is_some() || worker.idle() {
        return false;
    }
    let what = worker.next(at);
    match hall.turn(rt, pass, at, what) {
        Ok(answer) => worker.absorb(at, answer).is_ok(),
        Err(_) => false,
    }
}

/// Returns the number of records that the processor has received. The processor must be a `Tally`, which counts them.
fn records(processor: &Stock) -> u64 {
    match processor {
        Stock::Tally(tally) => tally.records(),
        _ => 0,
    }
}

/// Hands off the worker's lease of the shard `key`. Returns how the hand-off ended, and the number of records that the
/// lease's processor has received. Returns `None` if the worker has no such lease.
fn hand_off<M: Machine, R: Wait>(
    rt: &R,
    hall: &Hall<M>,
    pass: &mut Pass<M>,
    worker: &mut Worker<Stock, Kind>,
    key: ShardRef,
    at: Moment,
) -> Result<Option<(Left, u64)>, TurnErr>
    requires hall { pass.old.hall ≡ hall.now.id }
    requires unasked { worker.old.waiting ≡ None }
    ensures kept { IsSamePass pass.new pass.old }
    ensures unasked { worker.new.waiting ≡ None }
{
    match hand_over(rt, hall, pass, worker, key, at) {
        Ok(Some((left, processor))) => Ok(Some((left, records(&processor)))),
        Ok(None) => Ok(None),
        Err(error) => Err(error),
    }
}

/// Closes the hall. Returns the number of turns, which are the commands that its two passes have sent.
fn turns_of<M: Machine + Drop>(hall: Hall<M>, first: Pass<M>, second: Pass<M>) -> u64
    requires hall { (first.hall ≡ hall.id) × (second.hall ≡ hall.id) × (hall.passes ≡ 2) }
    requires passes { (first.by ≡ 1) × (first.joined ≡ []) × (second.by ≡ 2) }
{
    let mut first = first;
    hall.join(&mut first, second);
    let (_, past) = hall.close(first);
    past.turns()
}

#[test]
fn a_lease_is_handed_off(rt: HostRuntime) -> Result<(), Fail> {
    let alloc = rt.alloc();
    let Ok((hall, mut passes)) = Hall::new(alloc, World::new(alloc), 2) else {
        return Err("hall".into());
    };
    let (mut second, mut first) = (passes.pop().unwrap(), passes.pop().unwrap());
    let stream = "{\"StreamName\":\"s\",\"ShardCount\":1}";
    let record = "{\"StreamName\":\"s\",\"Data\":\"aGk=\",\"PartitionKey\":\"a\"}";
    assert!(rt; request(&rt, alloc, &hall, &mut second, "CreateStream", stream)?);
    assert!(rt; request(&rt, alloc, &hall, &mut second, "PutRecord", record)?);
    assert!(rt; request(&rt, alloc, &hall, &mut second, "PutRecord", record)?);
    let Some(at) = Moment::new(3000) else {
        return Err("moment".into());
    };
    let mut worker = Worker::new(alloc, WorkerNo(1), Settings::usual(), Kind::Tally);
    for _ in 0..10 {
        assert!(rt; worker_step(&rt, &hall, &mut first, &mut worker, at));
    }
    let key = ShardRef {
        stream: StreamNo(1),
        shard: ShardNo(0),
    };
    assert_eq!(rt;
        hand_off(&rt, &hall, &mut first, &mut worker, key, at),
        Ok(Some((Left::Handed(3), 2)))
    );
    assert_eq!(rt;
        hand_off(&rt, &hall, &mut first, &mut worker, key, at),
        Ok(None)
    );
    // three requests, ten steps of the worker, and the two commands of the hand-off: Mark and Free
    assert_eq!(rt; turns_of(hall, first, second), 3 + 10 + 2);
    Ok(())
}
