//! A test that a crew (a group of workers on threads) runs each of three workers on a thread of its own. Worker 1 waits
//! for worker 2, worker 2 waits for worker 3, and worker 3 waits for worker 1.
ghost use Rattle.std.specs.Prelude.{◌≡◌};

use crate::crews::request;
use crate::meeting::member;
use kcl_defs::Due;
use kcl_live::run_crew;
use kcl_world::World;
use kds_defs::Machine;
use kds_turn::{Hall, Pass};
use std::alloc::Global;
use std::sync::Wait;
use std::sync::atomic::AtomicU64;
use std::test::Fail;

/// Creates a stream of three shards, and puts a record into each shard. The hash keys of the records are 0, 2^127 and
/// 2^128 - 1. Returns whether all requests were accepted.
fn prepare<M: Machine, R: Wait>(
    rt: &R,
    alloc: Global,
    hall: &Hall<M>,
    pass: &mut Pass<M>,
) -> Result<bool, Fail>
    requires { pass.old.hall ≡ hall.now.id }
{
    let stream = "{\"StreamName\":\"s\",\"ShardCount\":3}";
    let low =
        "{\"StreamName\":\"s\",\"Data\":\"\",\"PartitionKey\":\"a\",\"ExplicitHashKey\":\"0\"}";
    let middle =
        "{\"StreamName\":\"s\",\"Data\":\"\",\"PartitionKey\":\"a\",\"ExplicitHashKey\":\"170141183460469231731687303715884105728\"}";
    let high =
        "{\"StreamName\":\"s\",\"Data\":\"\",\"PartitionKey\":\"a\",\"ExplicitHashKey\":\"340282366920938463463374607431768211455\"}";
    Ok(
        request(rt, alloc, hall, pass, "CreateStream", stream)?
            && request(rt, alloc, hall, pass, "PutRecord", low)?
            && request(rt, alloc, hall, pass, "PutRecord", middle)?
            && request(rt, alloc, hall, pass, "PutRecord", high)?,
    )
}

#[test]
fn three_workers_of_a_crew_meet(rt: HostRuntime) -> Result<(), Fail> {
    let alloc = rt.alloc();
    let Ok((hall, mut passes)) = Hall::new(alloc, World::new(alloc), 4) else {
        return Err("hall".into());
    };
    let third = passes.pop().unwrap();
    let (second, first) = (passes.pop().unwrap(), passes.pop().unwrap());
    let mut root = passes.pop().unwrap();
    assert!(rt; prepare(&rt, alloc, &hall, &mut root)?);
    let (one, two, three) = (AtomicU64::new(0), AtomicU64::new(0), AtomicU64::new(0));
    let mut members = [
        member(alloc, &hall, 1, first, Due::Initialize, &one, &two),
        member(alloc, &hall, 2, second, Due::Initialize, &two, &three),
        member(alloc, &hall, 3, third, Due::Initialize, &three, &one),
    ];
    run_crew(&rt, &hall, members.as_mut_slice(), 400, 50);
    for m in members.iter() {
        assert_eq!(rt; m.outcome, Ok(()));
        assert!(rt; m.gate.has_met);
    }
    Ok(())
}
