//! A test of a worker that runs out of memory while it updates its state with an answer. The worker then hands the
//! answer back to its caller. Later the worker gets the same answer again, and updates its state. At last, the worker
//! is stopped, and runs until it is idle.
ghost use Rattle.std.specs.Prelude.{◌≡◌, None, IsSome};

use kcl_consumer::{Maker, Processor};
use kcl_defs::{Ask, Due, Settings, Why};
use kcl_worker::{NoRoom, Worker};
use kds_base::{
    Checkpoint, Items, Memory, Moment, Seq, ShardNo, ShardRef, StreamNo, TenureNo, WorkerNo,
};
use kds_defs::{Answer, Command, Reply, Row, Stored};
use std::alloc::Global;
use std::cell::Cell;
use std::process::Abort;
use std::rc::Rc;
use std::test::Fail;

/// A processor whose calls all succeed, and that never asks for a checkpoint.
#[derive(Drop)]
struct Silent;

impl Processor for Silent {
    ghost stands_for = { λ p calls. Unit {0} };

    ghost asks = { λ p batch a. Unit {0} };

    fn initialize(&mut self, _key: ShardRef, _start: Checkpoint) -> Result<(), Memory> {
        Ok(())
    }

    fn process_records(&mut self, _batch: &[Stored]) -> Result<Ask, Memory> {
        Ok(Ask::None)
    }

    fn lease_lost(&mut self) -> Result<(), Memory> {
        Ok(())
    }

    fn shard_ended(&mut self) -> Result<(), Memory> {
        Ok(())
    }
}

/// A maker of processors. It runs out of memory as long as `has_memory` is false.
#[derive(Drop)]
struct Poor {
    has_memory: Rc<Cell<bool>>,
}

impl Maker<Silent> for Poor {
    ghost asks = { λ m batch a. Unit {0} };

    fn make(&mut self, _alloc: Global, _key: ShardRef) -> Result<Silent, Memory> {
        if self.has_memory.get() {
            Ok(Silent)
        } else {
            Err(Memory)
        }
    }
}

/// Returns the worker's next command. First checks that no processor call is due and that the worker isn't idle.
fn asked(rt: &impl Abort, worker: &mut Worker<Silent, Poor>) -> Command
    requires { worker.old.waiting ≡ None }
    ensures { IsSome worker.new.waiting }
{
    assert!(rt; worker.due().is_none());
    assert!(rt; !worker.idle());
    worker.next(Moment::start())
}

/// Gives the worker `answer` as the answer to its next command, and returns this command. The worker updates its state
/// with the answer.
fn answered(rt: &impl Abort, worker: &mut Worker<Silent, Poor>, answer: Answer) -> Command
    requires { worker.old.waiting ≡ None }
    ensures { worker.new.waiting ≡ None }
{
    let what = asked(rt, worker);
    let absorbed = worker.absorb(Moment::start(), answer);
    assert!(rt; absorbed.is_ok());
    what
}

/// Checks that the processor call `wanted` is due, and makes this call. `wanted` has the shard and the kind of the
/// call.
fn called(rt: &impl Abort, worker: &mut Worker<Silent, Poor>, wanted: (ShardRef, Due))
    requires { worker.old.waiting ≡ None }
    ensures { worker.new.waiting ≡ None }
{
    let due = worker.due();
    assert_eq!(rt; due, Some(wanted));
    assert!(rt; worker.due().is_some());
    assert!(rt; worker.call().is_ok());
}

fn key() -> ShardRef {
    ShardRef {
        stream: StreamNo(1),
        shard: ShardNo(0),
    }
}

fn row() -> Row {
    Row {
        key: key(),
        owner: None,
        counter: 0,
        checkpoint: Checkpoint::TrimHorizon,
        switches: 0,
        tenure: TenureNo(0),
        floor: Seq(1),
        parent: None,
        adjacent: None,
    }
}

/// Returns the machine's reply to a survey of the shards and of the lease table: there is one shard, and one row for
/// this shard.
fn surveyed(rt: &HostRuntime) -> Result<Reply, Fail> {
    let mut shards = Items::new(rt.alloc());
    shards.push(key())?;
    let mut rows = Items::new(rt.alloc());
    rows.push(row())?;
    Ok(Reply::Survey { shards, rows })
}

fn taken() -> Answer {
    Ok(Reply::Taken {
        tenure: TenureNo(1),
        counter: 1,
        start: Checkpoint::TrimHorizon,
    })
}

/// Gives the worker the same answer to a Take command twice. The first time, memory runs out, so the worker hands the
/// answer back and holds no lease. The second time, there is memory, so the worker accepts the answer and holds the
/// lease.
fn taken_again(rt: &impl Abort, worker: &mut Worker<Silent, Poor>, memory: &Cell<bool>)
    requires { worker.old.waiting ≡ None }
    ensures { worker.new.waiting ≡ None }
{
    let what = asked(rt, worker);
    assert!(rt; matches!(what, Command::Take { counter: 0, .. }));
    let refused = worker.absorb(Moment::start(), taken());
    assert!(rt; refused.is_err());
    assert!(rt; worker.held().is_empty());
    memory.set(true);
    if let Err(NoRoom { answer }) = refused {
        let absorbed = worker.absorb(Moment::start(), answer);
        assert!(rt; absorbed.is_ok());
    }
    assert_eq!(rt; worker.held().len(), 1);
}

#[test]
fn the_same_answer_again(rt: HostRuntime) -> Result<(), Fail> {
    let memory = Rc::new(rt.alloc(), Cell::new(false))?;
    let maker = Poor {
        has_memory: memory.clone()?,
    };
    let mut worker = Worker::new(rt.alloc(), WorkerNo(1), Settings::usual(), maker);
    assert_eq!(rt; worker.name(), WorkerNo(1));
    answered(&rt, &mut worker, Ok(surveyed(&rt)?));
    taken_again(&rt, &mut worker, &memory);
    let what = answered(&rt, &mut worker, Ok(Reply::Done));
    assert!(rt; matches!(what, Command::OpenShard { .. }));
    called(&rt, &mut worker, (key(), Due::Initialize));
    worker.stop();
    called(&rt, &mut worker, (key(), Due::LeaseLost));
    assert!(rt; !worker.idle());
    let what = answered(&rt, &mut worker, Ok(Reply::Counter(2)));
    assert!(rt; matches!(what, Command::Free { counter: 1, .. }));
    assert!(rt; worker.idle());
    let why = worker.retired().iter().map(|r| r.why).next();
    assert_eq!(rt; why, Some(Why::Lost));
    Ok(())
}
