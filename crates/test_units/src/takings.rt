//! Tests of the take plan, by which a worker chooses the leases that it takes. The tests are about which lease a worker
//! steals from another worker that has too many leases, and about when a lease counts as expired.
use crate::rows::{key, row};
use kcl_defs::{Held, TakeStep};
use kcl_take::{Observed, plan};
use kds_base::{Moment, WorkerNo};
use std::test::Fail;

fn moment(ms: u64) -> Result<Moment, Fail> {
    Ok(Moment::new(ms).ok_or("a moment")?)
}

/// Returns the take plan of worker 1. `owners[i]` is the worker that owns the lease of shard i, or 0 if there is no
/// such lease. Worker 1 has just seen all leases, and holds those that it owns.
fn taken(rt: &HostRuntime, owners: [u32; 6]) -> Result<Vec<TakeStep>, Fail> {
    let now = moment(3000)?;
    let mut rows = Vec::new(rt.alloc());
    let mut held = Vec::new(rt.alloc());
    let mut shard: u64 = 0;
    for owner in owners {
        let r = row(shard, Some(owner), 1);
        if owner == 1 {
            held.push(Held {
                key: r.key,
                tenure: r.tenure,
                counter: r.counter,
                since: now,
            })?;
        }
        if owner != 0 {
            rows.push(r)?;
        }
        shard = shard.saturating_add(1);
    }
    let mut observed = Observed::new(rt.alloc());
    observed.see(rt.alloc(), rows.as_slice(), now)?;
    let steps = plan(
        rt.alloc(),
        rows.as_slice(),
        &observed,
        WorkerNo(1),
        held.as_slice(),
        now,
        10_000,
    )?;
    Ok(steps.into_vec())
}

#[test]
fn one_row_of_the_busiest_is_stolen(rt: HostRuntime) -> Result<(), Fail> {
    let cases = [
        ([2, 2, 2, 2, 2, 0], Some(0)),
        ([1, 2, 2, 2, 2, 0], Some(1)),
        ([1, 1, 2, 2, 2, 0], None),
        ([3, 3, 3, 2, 2, 2], Some(3)),
    ];
    for (owners, shard) in cases {
        let steps = taken(&rt, owners)?;
        match shard {
            Some(shard) => {
                let wanted = [TakeStep {
                    key: key(shard),
                    counter: 1,
                }];
                assert_eq!(rt; steps.as_slice(), wanted.as_slice(), "of {owners:?}");
            }
            None => assert!(rt; steps.is_empty(), "of {owners:?}"),
        }
    }
    Ok(())
}

#[test]
fn a_row_is_expired_after_the_failover_time(rt: HostRuntime) -> Result<(), Fail> {
    let r = row(0, Some(2), 1);
    let mut observed = Observed::new(rt.alloc());
    observed.see(rt.alloc(), &[r], moment(0)?)?;
    let copy = observed.copy(rt.alloc())?;
    assert!(rt; !copy.expired(&r, moment(10_000)?, 10_000));
    assert!(rt; copy.expired(&r, moment(10_001)?, 10_000));
    Ok(())
}
