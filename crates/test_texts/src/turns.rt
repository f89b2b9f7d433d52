//! Tests of the turns that a run of a schedule keeps. A turn is one command with its sender and its time.
ghost use Rattle.std.specs.Prelude.{[]};

use kcl_sim::Sim;
use kcl_world::World;
use kds_base::{Memory, Octets};
use kds_defs::Machine;
use kds_lines::Taker;
use std::alloc::Global;
use std::test::Fail;

/// A schedule in which the worker w2 takes a lease away from the worker w1.
const ROBBED: [&str; 11] = [
    r#"1000 api CreateStream {"StreamName":"s","ShardCount":1}"#,
    r#"1000 api PutRecord {"StreamName":"s","Data":"aGk=","PartitionKey":"a"}"#,
    r#"1001 api PutRecord {"StreamName":"s","Data":"","PartitionKey":"abc"}"#,
    "3000 raw 1 make 1/0",
    "3000 raw 1 take 1/0 0 w1",
    "3000 raw 2 take 1/0 0 w2",
    "3000 raw 1 open 1",
    "3000 raw 1 read 1 0 10",
    "3000 raw 2 take 1/0 1 w2",
    "3000 raw 1 give 1",
    "3000 raw 1 mark 1 1 2",
];

/// A schedule in which a worker's processor gets a batch, and whose last line then hands off this worker's lease. The
/// last line makes three turns.
const HANDED: [&str; 13] = [
    r#"1000 api CreateStream {"StreamName":"s","ShardCount":1}"#,
    r#"1000 api PutRecord {"StreamName":"s","Data":"aGk=","PartitionKey":"a"}"#,
    r#"1001 api PutRecord {"StreamName":"s","Data":"","PartitionKey":"abc"}"#,
    "3000 worker w1 tally",
    "3000 step 1000",
    "3000 step 1000",
    "3000 step 1000",
    "3000 step 1000",
    "3000 step 1000",
    "3000 step 1000",
    "3000 step 1000",
    "3000 step 1000",
    "3000 hand 1000 1/0",
];

/// Runs the lines on the new machine `machine`, up to the first line that isn't a schedule line. Returns the greatest
/// time of the turns, in milliseconds, and the number of turns that the run has kept.
fn run<M: Machine + Drop>(alloc: Global, machine: M, lines: &[&str]) -> Result<(u64, usize), Memory>
    requires { M.stands_for machine [] }
{
    let mut sim = Sim::new(alloc, machine);
    let mut out = Octets::new(alloc);
    for line in lines {
        if !sim.take(alloc, line.as_bytes(), &mut out)? {
            break;
        }
    }
    Ok((sim.clock().ms(), sim.turns().len()))
}

#[test]
fn a_run_keeps_the_turns_of_its_lines(rt: HostRuntime) -> Result<(), Fail> {
    let alloc = rt.alloc();
    let (clock, turns) = run(alloc, World::new(alloc), &ROBBED)?;
    assert!(rt;
        clock == 3000 && turns == ROBBED.len(),
        "{turns} by {clock}"
    );
    let (clock, _) = run(alloc, World::new(alloc), &HANDED)?;
    assert_eq!(rt; clock, 3000);
    let bad = ["1000 raw 1 make", "1000 raw 1 survey"];
    let (clock, turns) = run(alloc, World::new(alloc), &bad)?;
    assert!(rt; clock == 0 && turns == 0, "{turns} by {clock}");
    Ok(())
}
