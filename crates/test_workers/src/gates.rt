//! A test of a gate, which is a hook that is called right before and right after each processor call of a worker. Each
//! time, the arguments of the gate must be the right worker and the right processor call.
ghost use Rattle.std.specs.Prelude.{◌≡◌};

use crate::crews::prepare;
use kcl_consumer::{Maker, Processor};
use kcl_defs::{Ask, Due, Settings};
use kcl_live::{Gate, run_worker};
use kcl_worker::Worker;
use kcl_world::World;
use kds_base::{Checkpoint, Memory, ShardRef, WorkerNo};
use kds_defs::Stored;
use kds_turn::Hall;
use std::alloc::Global;
use std::sync::atomic::{AtomicU64, Ordering};
use std::test::Fail;

/// The processor calls that were made so far: their number, and the code of the last call (see `code`).
#[derive(Drop)]
struct Calls {
    count: AtomicU64,
    last: AtomicU64,
}

/// Returns the code by which `Calls` stores the kind of a processor call.
fn code(call: Due) -> u64 {
    match call {
        Due::Initialize => 1,
        Due::Process => 2,
        Due::LeaseLost => 3,
        Due::ShardEnded => 4,
    }
}

/// A processor that records each of its calls in `calls`.
#[derive(Drop)]
struct Counting<'a> {
    calls: &'a Calls,
}

impl<'a> Counting<'a> {
    fn note(&self, call: Due) {
        self.calls.last.store(code(call), Ordering::SeqCst);
        self.calls.count.fetch_add(1, Ordering::SeqCst);
    }
}

impl<'a> Processor for Counting<'a> {
    ghost stands_for = { λ _ _. Unit {0} };

    ghost asks = { λ _ _ _. Unit {0} };

    fn initialize(&mut self, _key: ShardRef, _start: Checkpoint) -> Result<(), Memory> {
        self.note(Due::Initialize);
        Ok(())
    }

    fn process_records(&mut self, _batch: &[Stored]) -> Result<Ask, Memory> {
        self.note(Due::Process);
        Ok(Ask::None)
    }

    fn lease_lost(&mut self) -> Result<(), Memory> {
        self.note(Due::LeaseLost);
        Ok(())
    }

    fn shard_ended(&mut self) -> Result<(), Memory> {
        self.note(Due::ShardEnded);
        Ok(())
    }
}

/// A maker of processors. All processors that it makes record their calls in the same `calls`.
#[derive(Drop)]
struct Counters<'a> {
    calls: &'a Calls,
}

impl<'a> Maker<Counting<'a>> for Counters<'a> {
    ghost asks = { λ _ _ _. Unit {0} };

    fn make(&mut self, _alloc: Global, _key: ShardRef) -> Result<Counting<'a>, Memory> {
        Ok(Counting { calls: self.calls })
    }
}

/// A gate that checks whether it gets the right worker and the right processor call. In `before`, the gate also checks
/// that this processor call wasn't made yet. In `after`, it checks that the call was made. After a failed check,
/// `is_right` is false.
#[derive(Drop)]
struct Looking<'a> {
    calls: &'a Calls,
    worker: WorkerNo,
    told: u64,
    /// The processor call for which `before` was called but `after` wasn't called yet, if there is such a call.
    open: Option<Due>,
    is_right: bool,
}

impl<'a> Looking<'a> {
    fn look(&mut self, worker: WorkerNo) {
        if self.calls.count.load(Ordering::SeqCst) != self.told || worker != self.worker {
            self.is_right = false;
        }
    }
}

impl<'a> Gate for Looking<'a> {
    fn before(&mut self, worker: WorkerNo, due: Due) {
        self.look(worker);
        if self.open.is_some() {
            self.is_right = false;
        }
        self.open = Some(due);
    }

    fn after(&mut self, worker: WorkerNo, due: Due) {
        self.told = self.told.saturating_add(1);
        self.look(worker);
        if self.open != Some(due) || self.calls.last.load(Ordering::SeqCst) != code(due) {
            self.is_right = false;
        }
        self.open = None;
    }
}

#[test]
fn gate_is_told_before_and_after(rt: HostRuntime) -> Result<(), Fail> {
    let alloc = rt.alloc();
    let Ok((hall, mut passes)) = Hall::new(alloc, World::new(alloc), 2) else {
        return Err("hall".into());
    };
    let mut pass = passes.pop().unwrap();
    let mut root = passes.pop().unwrap();
    assert!(rt; prepare(&rt, alloc, &hall, &mut root)?);
    let calls = Calls {
        count: AtomicU64::new(0),
        last: AtomicU64::new(0),
    };
    let maker = Counters { calls: &calls };
    let mut worker = Worker::new(alloc, WorkerNo(7), Settings::usual(), maker);
    let mut gate = Looking {
        calls: &calls,
        worker: WorkerNo(7),
        told: 0,
        open: None,
        is_right: true,
    };
    assert_eq!(rt;
        run_worker(&rt, &hall, &mut pass, &mut worker, &mut gate, 40, 50),
        Ok(())
    );
    assert!(rt; gate.is_right);
    // The worker reads two shards. For each shard, the processor is called when the worker has taken the lease, then
    // with the shard's record, and then when the stopped worker gives up the lease. The test only requires at least
    // four calls.
    assert!(rt; gate.told >= 4);
    Ok(())
}
