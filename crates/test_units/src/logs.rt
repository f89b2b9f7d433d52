//! Tests of a shard's log: reading batches, trimming records, and appending a record to reserved memory.
ghost use Rattle.std.specs.Prelude.{◌≡◌, ◌<◌};

use kds_base::{Memory, Moment, Octets, Seq};
use kds_defs::Stored;
use kds_log::ShardLog;
use std::alloc::Global;
use std::test::Fail;

fn moment(ms: u64) -> Moment
    requires { ms < 5000 }
    ensures { result ≡ ms }
{
    match Moment::new(ms) {
        Some(moment) => moment,
        None => unreachable!(),
    }
}

/// Returns a log of two records. The record with the sequence number 1 arrived at 1000 ms, and the record with the
/// number 2 arrived at 1001 ms.
fn two_records(alloc: Global) -> Result<ShardLog, Memory> {
    let mut log = ShardLog::new(alloc, Seq(1));
    log.append(Stored {
        seq: Seq(1),
        arrival: moment(1000),
        key: Octets::of(alloc, b"a")?,
        payload: Octets::of(alloc, b"hi")?,
    })?;
    log.append(Stored {
        seq: Seq(2),
        arrival: moment(1001),
        key: Octets::of(alloc, b"abc")?,
        payload: Octets::new(alloc),
    })?;
    Ok(log)
}

#[test]
fn a_batch_ends_at_its_limit(rt: HostRuntime) -> Result<(), Fail> {
    let log = two_records(rt.alloc())?;
    let cases = [
        (None, 0, 10, 2, Some(1)),
        (None, 0, 1, 1, Some(1)),
        (None, 2, 10, 1, Some(2)),
        (None, 3, 10, 0, None),
        (Some(moment(999)), 0, 10, 2, Some(1)),
        (Some(moment(1000)), 0, 10, 1, Some(2)),
        (Some(moment(1001)), 0, 10, 0, None),
    ];
    for (cut, position, limit, count, first) in cases {
        let batch = log.batch(rt.alloc(), cut, position, limit)?;
        assert_eq!(rt; batch.as_slice().len(), count, "at {position}");
        let seq = batch.as_slice().first().map(|item| item.seq.0);
        assert_eq!(rt; seq, first, "at {position}");
    }
    Ok(())
}

#[test]
fn what_is_trimmed_is_not_found(rt: HostRuntime) -> Result<(), Fail> {
    let mut log = two_records(rt.alloc())?;
    assert_eq!(rt; log.first_left(None, 2), Some(moment(1001)));
    assert_eq!(rt; log.at_time(None, moment(1000)), Some(Seq(1)));
    assert_eq!(rt; log.at_time(None, moment(1001)), Some(Seq(2)));
    assert_eq!(rt; log.at_time(None, moment(2000)), None);
    log.trim(moment(1000));
    assert_eq!(rt; log.first_left(None, 0), Some(moment(1001)));
    log.trim(moment(1001));
    assert_eq!(rt; log.first_left(None, 0), None);
    assert_eq!(rt; log.last(), Some(Seq(2)));
    Ok(())
}

#[test]
fn appends_in_reserved_memory(rt: HostRuntime) -> Result<(), Fail> {
    let mut log = ShardLog::new(rt.alloc(), Seq(1));
    log.reserve_one()?;
    log.append_reserved(Stored {
        seq: Seq(1),
        arrival: moment(1000),
        key: Octets::of(rt.alloc(), b"a")?,
        payload: Octets::new(rt.alloc()),
    });
    assert_eq!(rt; log.last(), Some(Seq(1)));
    Ok(())
}
