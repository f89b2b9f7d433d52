//! A test that the workers of a drill run concurrently. A drill is a self-test, and its threads are called its crowd.

use crate::meeting::member;
use kcl_defs::Due;
use kcl_drill_threads::crowd;
use kcl_world::World;
use kds_turn::Hall;
use std::sync::atomic::AtomicU64;
use std::test::Fail;

#[test]
fn members_of_a_crowd_meet(rt: HostRuntime) -> Result<(), Fail> {
    let alloc = rt.alloc();
    let Ok((hall, mut passes)) = Hall::new(alloc, World::new(alloc), 4) else {
        return Err("hall".into());
    };
    let (fourth, third) = (passes.pop().unwrap(), passes.pop().unwrap());
    let (mut feeder, mut root) = (passes.pop().unwrap(), passes.pop().unwrap());
    let (first_begun, second_begun) = (AtomicU64::new(0), AtomicU64::new(0));
    let mut members = [
        member(
            alloc,
            &hall,
            1,
            third,
            Due::Initialize,
            &first_begun,
            &second_begun,
        ),
        member(
            alloc,
            &hall,
            2,
            fourth,
            Due::Initialize,
            &second_begun,
            &first_begun,
        ),
    ];
    let crew = members.as_mut_slice();
    let fed = crowd(&rt, alloc, &hall, &mut root, &mut feeder, crew, 1, 0);
    assert_eq!(rt; fed, Ok(()));
    for m in members.iter() {
        assert_eq!(rt; m.outcome, Ok(()));
        assert!(rt; m.gate.has_met);
    }
    Ok(())
}
