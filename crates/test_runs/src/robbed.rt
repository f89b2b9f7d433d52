//! Tests in which another actor takes the lease of a worker's shard, after 2 to 10 steps of the worker. An actor is the
//! number of a client or a worker that sends commands. Each test runs a schedule. A schedule is a recorded workload,
//! and its lines are requests, lease commands and instructions to workers. The worker's next step is checked, and the
//! run's journal (its event log) is audited, that is, verified.
use crate::harness::{Left, Run, run_on};
use kds_ends::Status;
use std::alloc::Global;
use std::test::Fail;

/// The first lines of each schedule, and their output. They create a stream of one shard, put two records and start a
/// worker.
const BEGINNING: (&str, &str) = (
    r#"3000 api CreateStream {"StreamName":"s","ShardCount":1}
3000 api PutRecord {"StreamName":"s","Data":"aGk=","PartitionKey":"a"}
3000 api PutRecord {"StreamName":"s","Data":"","PartitionKey":"abc"}
3000 worker w1 tally
"#,
    r#"200
200 {"SequenceNumber":"1","ShardId":"shardId-000000000000"}
200 {"SequenceNumber":"2","ShardId":"shardId-000000000000"}
worker 1000
"#,
);

/// The output of each of the worker's first ten steps, if nobody takes its lease.
const STEPS: [&str; 10] = [
    "survey = ok 1 0\n",
    "make 1/0 = ok\n",
    "survey = ok 1 1\n",
    "take 1/0 0 w1 = ok tenure 1 counter 1 start TRIM_HORIZON\n",
    "open 1 = ok\n",
    "survey = ok 1 1\n",
    "read 1 0 1000 = ok reach 3 more 1 2\n",
    "survey = ok 1 1\n",
    "give 1 = ok delivered 3\n",
    "survey = ok 1 1\n",
];

const STEP: &str = "3000 step 1000\n";

/// The line by which actor 9 takes a lease that nobody holds, and the output of this line.
const TAKE_FREE: (&str, &str) = (
    "3000 raw 9 take 1/0 0 w9\n",
    "ok tenure 1 counter 1 start TRIM_HORIZON\n",
);

/// The line by which actor 9 takes the lease from the worker, and the output of this line.
const ROB: (&str, &str) = (
    "3000 raw 9 take 1/0 1 w9\n",
    "ok tenure 2 counter 2 start TRIM_HORIZON\n",
);

/// For each case: the number of steps that the worker makes before actor 9 takes the lease; the line by which actor 9
/// takes the lease, with its output; and the output of the worker's next step.
const CASES: [(usize, (&str, &str), &str); 9] = [
    (2, TAKE_FREE, "survey = ok 1 1\n"),
    (3, TAKE_FREE, "take 1/0 0 w1 = refused Moved 1\n"),
    (4, ROB, "open 1 = refused Lost 2\n"),
    (5, ROB, "survey = ok 1 1\n"),
    (6, ROB, "read 1 0 1000 = ok reach 3 more 1 2\n"),
    (7, ROB, "survey = ok 1 1\n"),
    (8, ROB, "give 1 = ok delivered 3\n"),
    (9, ROB, "survey = ok 1 1\n"),
    (10, ROB, "mark 1 1 2 = refused Lost 2\n"),
];

/// The last line of each schedule, and its output in the cases in which the worker held the lease before actor 9 took
/// it. The line lists the rows of the lease table. Actor 9, whose worker is w9, still holds the lease. The counter of
/// the row is 2, since only the two commands that took the lease have changed the row.
const ROWS: (&str, &str) = ("3000 raw 9 rows\n", "ok 1 1/0 w9 2 TRIM_HORIZON 1\n");

/// Returns the schedule of a case, and the expected beginning of the schedule's output.
fn robbed(
    alloc: Global,
    steps: usize,
    take: (&str, &str),
    next: &str,
) -> Result<(String, String), Fail> {
    let mut lines = String::from_str(alloc, BEGINNING.0)?;
    let mut out = String::from_str(alloc, BEGINNING.1)?;
    for step in STEPS.iter().take(steps) {
        lines.push_str(STEP)?;
        out.push_str(step)?;
    }
    lines.push_str(take.0)?;
    out.push_str(take.1)?;
    lines.push_str(STEP)?;
    out.push_str(next)?;
    for _ in 0..10u32 {
        lines.push_str(STEP)?;
    }
    lines.push_str(ROWS.0)?;
    Ok((lines, out))
}

/// Writes the journal of the schedule `lines`, and returns the result of an audit of this journal.
fn audited(alloc: Global, lines: &str) -> Result<Left, Fail> {
    let journal = run_on(alloc, Run::Journal, lines.as_bytes(), 4096, &[], &[])?;
    let audit = run_on(alloc, Run::Audit, journal.out.held(), 4096, &[], &[])?;
    Ok(audit)
}

#[test]
fn a_robbed_worker_writes_nothing_more(rt: HostRuntime) -> Result<(), Fail> {
    let alloc = rt.alloc();
    for (steps, take, next) in CASES {
        let (lines, out) = robbed(alloc, steps, take, next)?;
        let left = run_on(alloc, Run::Replay, lines.as_bytes(), 4096, &[], &[])?;
        assert!(rt; left.status == Status::Done, "after {steps}");
        let given = String::from_utf8_lossy(alloc, left.out.held())?;
        let begins = given.as_bytes().starts_with(out.as_bytes());
        assert!(rt; begins, "after {steps}, output\n{given}\nfor\n{out}");
        let is_thiefs = steps < 4 || given.as_bytes().ends_with(ROWS.1.as_bytes());
        assert!(rt;
            is_thiefs,
            "after {steps}, output\n{given}\nfor, at its end,\n{}",
            ROWS.1
        );
        let audit = audited(alloc, lines.as_str())?;
        let found = String::from_utf8_lossy(alloc, audit.out.held())?;
        let is_sound = audit.status == Status::Done
            && found.as_bytes().starts_with(b"sound ".as_slice());
        assert!(rt; is_sound, "after {steps}, the audit: {found}");
    }
    Ok(())
}
