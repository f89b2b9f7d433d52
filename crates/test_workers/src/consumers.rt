//! A test of a consumer whose processor runs out of memory once per call. The same call stays due until it succeeds.
use kcl_consumer::{Ahead, Consumer, Due, Processor};
use kcl_defs::Ask;
use kds_base::{
    Checkpoint, Items, Memory, Moment, Octets, Seq, ShardNo, ShardRef, StreamNo, TenureNo,
};
use kds_defs::{Command, Reply, Stored, Target};
use std::process::Abort;
use std::test::Fail;

/// A processor that runs out of memory at its first, third, fifth call and so on. `granted` is the number of the other
/// calls, which succeed.
#[derive(Drop)]
struct Refusing {
    refused: bool,
    granted: u64,
}

impl Refusing {
    fn grant(&mut self) -> Result<(), Memory> {
        self.refused = !self.refused;
        if self.refused {
            return Err(Memory);
        }
        self.granted = self.granted.saturating_add(1);
        Ok(())
    }
}

impl Processor for Refusing {
    ghost stands_for = { λ p calls. Unit {0} };

    ghost asks = { λ p batch a. Unit {0} };

    fn initialize(&mut self, _key: ShardRef, _start: Checkpoint) -> Result<(), Memory> {
        self.grant()
    }

    fn process_records(&mut self, _batch: &[Stored]) -> Result<Ask, Memory> {
        self.grant()?;
        Ok(Ask::Last)
    }

    fn lease_lost(&mut self) -> Result<(), Memory> {
        self.grant()
    }

    fn shard_ended(&mut self) -> Result<(), Memory> {
        self.grant()
    }
}

/// Makes the processor call `wanted` twice: the first attempt runs out of memory, and the second succeeds. Checks
/// before each attempt that this call is due.
fn refused_and_granted(rt: &impl Abort, c: &mut Consumer<Refusing>, wanted: Due) {
    for granted in [false, true] {
        let due = c.due();
        assert_eq!(rt; due, Some(wanted));
        assert!(rt; c.due().is_some());
        assert_eq!(rt; c.call().is_ok(), granted);
    }
}

/// Returns the consumer's next command. First checks that no processor call is due and that the consumer hasn't ended.
fn asked(rt: &impl Abort, c: &Consumer<Refusing>) -> Command {
    assert!(rt; c.due().is_none());
    assert!(rt; c.over().is_none());
    c.next(1)
}

/// Whether the command sets a checkpoint to the end of the shard.
fn marks_end(what: &Command) -> bool {
    matches!(
        what,
        Command::Mark {
            to: Target::End,
            ..
        }
    )
}

fn record(rt: &HostRuntime) -> Result<Items<Stored>, Fail> {
    let mut batch = Items::new(rt.alloc());
    batch.push(Stored {
        seq: Seq(5),
        arrival: Moment::start(),
        key: Octets::of(rt.alloc(), b"a")?,
        payload: Octets::new(rt.alloc()),
    })?;
    Ok(batch)
}

#[test]
fn a_refused_call_is_due_again(rt: HostRuntime) -> Result<(), Fail> {
    let key = ShardRef {
        stream: StreamNo(1),
        shard: ShardNo(0),
    };
    let processor = Refusing {
        refused: false,
        granted: 0,
    };
    let ahead = Ahead::new(rt.alloc())?;
    let mut c = Consumer::new(
        key,
        TenureNo(1),
        Checkpoint::TrimHorizon,
        10,
        processor,
        ahead,
    );
    c.absorb(Ok(Reply::Done));
    refused_and_granted(&rt, &mut c, Due::Initialize);
    assert!(rt; matches!(asked(&rt, &c), Command::Read { position: 0, .. }));
    c.absorb(Ok(Reply::Read {
        batch: record(&rt)?,
        reach: 6,
        end: true,
    }));
    refused_and_granted(&rt, &mut c, Due::Process);
    assert!(rt; matches!(asked(&rt, &c), Command::Give { .. }));
    c.absorb(Ok(Reply::Given { delivered: 6 }));
    refused_and_granted(&rt, &mut c, Due::ShardEnded);
    assert!(rt; marks_end(&asked(&rt, &c)));
    c.lose();
    refused_and_granted(&rt, &mut c, Due::LeaseLost);
    assert!(rt; c.over().is_some());
    assert_eq!(rt; c.into_processor().granted, 4);
    Ok(())
}
