//! A test of when a worker must renew a lease.
use crate::rows::key;
use kcl_defs::Held;
use kcl_renew::due;
use kds_base::{Moment, TenureNo};
use std::test::Fail;

#[test]
fn a_third_of_the_failover_time(rt: HostRuntime) -> Result<(), Fail> {
    let mut held = Held {
        key: key(0),
        tenure: TenureNo(1),
        counter: 1,
        since: Moment::new(0).ok_or("a moment")?,
    };
    held.renewed(2, Moment::new(1000).ok_or("a moment")?);
    for (now, is_due) in [(999, false), (4332, false), (4333, true)] {
        let now = Moment::new(now).ok_or("a moment")?;
        assert_eq!(rt; due(&held, now, 10_000), is_due);
    }
    Ok(())
}
