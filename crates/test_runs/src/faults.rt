//! Tests of runs in which one read or one write fails. A run executes a schedule or serves a connection. A schedule is
//! a recorded workload: each line is one request, one lease command, or one instruction to a worker.
use crate::connections::{LIST, LISTED};
use crate::harness::{Case, Run};
use crate::schedules::FIRST;
use std::test::Fail;

/// The schedule `FIRST` and a connection with the request `LIST` are run many times. In each run a different read or
/// write fails. Input and output are transferred byte by byte, or in one piece.
#[test]
fn each_failing_call_leaves_what_came_before(rt: HostRuntime) -> Result<(), Fail> {
    let (input, _, out, _) = FIRST;
    let schedule = Case {
        input,
        out,
        parts: &[(56, 4), (127, 64)],
    };
    let connection = Case {
        input: LIST,
        out: LISTED,
        parts: &[(183, 122)],
    };
    for step in [1usize, 4096] {
        let other = schedule.other(rt.alloc(), Run::Replay, step)?;
        assert!(rt; other.is_empty(), "a schedule by pieces of {step}, {other}");
        let other = connection.other(rt.alloc(), Run::Answer, step)?;
        assert!(rt;
            other.is_empty(),
            "a connection by pieces of {step}, {other}"
        );
    }
    Ok(())
}
