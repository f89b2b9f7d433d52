//! Tests of the journals (event logs) of schedules, and of the audits that verify these journals. A schedule is a
//! recorded workload: each line is one request, one lease command, or one instruction to a worker. A journal has an
//! entry for each change. An actor is the number of a client or a worker that sends commands, and a turn is one
//! command.
use crate::harness::{Named, Run, first_other, run_on};
use std::test::Fail;

/// Actor 1 has read a batch when actor 2 takes the lease away from it. Actor 1 may still report this batch as processed
/// (`give`), but it can't set the checkpoint any more: its `mark` is refused.
const ROBBED: &str = r#"1000 api CreateStream {"StreamName":"s","ShardCount":1}
1000 api PutRecord {"StreamName":"s","Data":"aGk=","PartitionKey":"a"}
1001 api PutRecord {"StreamName":"s","Data":"","PartitionKey":"abc"}
3000 raw 1 make 1/0
3000 raw 1 take 1/0 0 w1
3000 raw 2 take 1/0 0 w2
3000 raw 1 open 1
3000 raw 1 read 1 0 10
3000 raw 2 take 1/0 1 w2
3000 raw 1 give 1
3000 raw 1 mark 1 1 2
3000 raw 2 mark 1 2 2
"#;

/// The journal of `ROBBED`. It has an entry for the stream, for each of the two records, for the new lease, for each of
/// the two times that the lease is taken, and for the accepted `open`, `read` and `give`. Refused turns add no entry.
/// The hash keys are the MD5 hashes of the partition keys (RFC 1321).
const JOURNAL: &str = "journal 2
1000 0 made 1 s 1
1000 0 put 1 0 1 16955237001963240173058271559858726497 2 1
1001 0 put 1 0 2 191415658344158766168031473277922803570 0 3
3000 1 lease 1/0
3000 1 taken 1/0 1 1 w1
3000 1 opened 1
3000 1 read 1 10 more 1 2
3000 2 taken 1/0 2 2 w2
3000 1 given 1
end 3000
";

/// `JOURNAL` in the first version of the journal format. It has no heading, and its `put` entries don't state the
/// length of the partition key.
const FIRST_VERSION: &str = "1000 0 made 1 s 1
1000 0 put 1 0 1 16955237001963240173058271559858726497 2
1001 0 put 1 0 2 191415658344158766168031473277922803570 0
3000 1 lease 1/0
3000 1 taken 1/0 1 1 w1
3000 1 opened 1
3000 1 read 1 10 more 1 2
3000 2 taken 1/0 2 2 w2
3000 1 given 1
end 3000
";

/// `JOURNAL` with one more entry: actor 1 sets a checkpoint after it has lost the lease.
const STALE_MARK: &str = "journal 2
1000 0 made 1 s 1
1000 0 put 1 0 1 16955237001963240173058271559858726497 2 1
1001 0 put 1 0 2 191415658344158766168031473277922803570 0 3
3000 1 lease 1/0
3000 1 taken 1/0 1 1 w1
3000 1 opened 1
3000 1 read 1 10 more 1 2
3000 2 taken 1/0 2 2 w2
3000 1 given 1
3000 1 marked 1 3 2
end 3000
";

/// A worker hands its lease off while its processor has a batch that isn't reported as processed yet. The `hand` line
/// makes three turns: `give`, `mark` and `free`.
const HANDED: &str = r#"1000 api CreateStream {"StreamName":"s","ShardCount":1}
1000 api PutRecord {"StreamName":"s","Data":"aGk=","PartitionKey":"a"}
1001 api PutRecord {"StreamName":"s","Data":"","PartitionKey":"abc"}
3000 worker w1 tally
3000 step 1000
3000 step 1000
3000 step 1000
3000 step 1000
3000 step 1000
3000 step 1000
3000 step 1000
3000 step 1000
3000 hand 1000 1/0
"#;

/// The journal of `HANDED`. It has ten entries, and the last three come from the hand-off.
const HANDED_JOURNAL: &str = "journal 2
1000 0 made 1 s 1
1000 0 put 1 0 1 16955237001963240173058271559858726497 2 1
1001 0 put 1 0 2 191415658344158766168031473277922803570 0 3
3000 1000 lease 1/0
3000 1000 taken 1/0 1 1 w1
3000 1000 opened 1
3000 1000 read 1 1000 more 1 2
3000 1000 given 1
3000 1000 marked 1 2 2
3000 1000 freed 1 3
end 3000
";

/// Schedules with a bad line. The run ends at this line, so the journal doesn't get its last line, `end CLOCK`.
const STOPPED: [Named; 3] = [
    (
        "a bad first line",
        (
            "1000 raw 1 make\n1000 raw 1 survey\n",
            3,
            "journal 2\n",
            "line 1: not a schedule line\n",
        ),
    ),
    (
        "a bad line",
        (
            "1000 api CreateStream {\"StreamName\":\"s\",\"ShardCount\":1}\nx\n",
            3,
            "journal 2\n1000 0 made 1 s 1\n",
            "line 2: not a schedule line\n",
        ),
    ),
    (
        "no line feed",
        (
            "1000 api CreateStream {\"StreamName\":\"s\",\"ShardCount\":1}\n2000 raw 1 make 1/0",
            3,
            "journal 2\n1000 0 made 1 s 1\n",
            "line 2: not a schedule line\n",
        ),
    ),
];

/// The last line of a journal states the clock, which is the greatest time of a turn. Even a turn that changes nothing
/// advances the clock. A schedule line that makes no turn doesn't advance it.
const CLOCKS: [Named; 3] = [
    ("no lines", ("", 0, "journal 2\nend 0\n", "")),
    (
        "a refused turn",
        ("5000 raw 1 renew 1 1\n", 0, "journal 2\nend 5000\n", ""),
    ),
    (
        "lines without a turn",
        (
            "1000 api ListStreams {}\n2000 worker w1 tally\n3000 step 7\n4000 api Nothing \n",
            0,
            "journal 2\nend 1000\n",
            "",
        ),
    ),
];

#[test]
fn a_journal_has_an_entry_for_each_change(rt: HostRuntime) -> Result<(), Fail> {
    let alloc = rt.alloc();
    let rows: [Named; 2] = [
        ("a robbed lease", (ROBBED, 0, JOURNAL, "")),
        ("a hand-off by one line", (HANDED, 0, HANDED_JOURNAL, "")),
    ];
    for rows in [&rows as &[Named], &STOPPED, &CLOCKS] {
        let other = first_other(alloc, Run::Journal, rows, &[1, 4096])?;
        assert!(rt; other.is_empty(), "{other}");
    }
    Ok(())
}

#[test]
fn an_audit_names_the_first_bad_entry(rt: HostRuntime) -> Result<(), Fail> {
    let rows: [Named; 13] = [
        ("the journal", (JOURNAL, 0, "sound 9\n", "")),
        ("the first version", (FIRST_VERSION, 0, "sound 9\n", "")),
        ("a stale mark", (STALE_MARK, 1, "entry 10 Lost\n", "")),
        ("nothing", ("", 1, "entry 1 Form\n", "")),
        ("a heading alone", ("journal 2\n", 1, "entry 1 Form\n", "")),
        ("no entries", ("journal 2\nend 0\n", 0, "sound 0\n", "")),
        (
            "no entries of the first version",
            ("end 0\n", 0, "sound 0\n", ""),
        ),
        (
            "no last line feed",
            ("journal 2\nend 0", 1, "entry 1 Form\n", ""),
        ),
        (
            "two headings",
            ("journal 2\njournal 2\nend 0\n", 1, "entry 1 Form\n", ""),
        ),
        (
            "a heading of the first version",
            ("journal 1\nend 0\n", 1, "entry 1 Form\n", ""),
        ),
        (
            "an earlier end",
            ("1000 0 made 1 s 1\nend 999\n", 1, "entry 2 Clock\n", ""),
        ),
        (
            "two ends",
            (
                "1000 0 made 1 s 1\nend 1000\nend 1000\n",
                1,
                "entry 3 Form\n",
                "",
            ),
        ),
        (
            "a number too great",
            ("1000 0 made 2 s 1\nend 1000\n", 1, "entry 1 Entry\n", ""),
        ),
    ];
    let other = first_other(rt.alloc(), Run::Audit, &rows, &[1, 4096])?;
    assert!(rt; other.is_empty(), "{other}");
    Ok(())
}

/// In each case one read or one write fails. In a run that writes a journal, the failing call is the second read, the
/// write of the first line, the write of the entries, or the write of the last line. In an audit, the failing call is
/// the second read, or the only write.
#[test]
fn what_came_before_a_failing_end_is_written(rt: HostRuntime) -> Result<(), Fail> {
    let (entries, _) = JOURNAL
        .split_at_checked(JOURNAL.len().saturating_sub("end 3000\n".len()))
        .ok_or("entries")?;
    let cases: [(&str, Run, &str, &[u64], &[u64], (u8, &str, &str)); 7] = [
        (
            "the second read",
            Run::Journal,
            ROBBED,
            &[2],
            &[],
            (4, entries, "read fault\n"),
        ),
        (
            "the first write",
            Run::Journal,
            ROBBED,
            &[],
            &[1],
            (5, "", "write fault\n"),
        ),
        (
            "the write of the entries",
            Run::Journal,
            ROBBED,
            &[],
            &[2],
            (5, "journal 2\n", "write fault\n"),
        ),
        (
            "the last write",
            Run::Journal,
            ROBBED,
            &[],
            &[3],
            (5, entries, "write fault\n"),
        ),
        (
            "the read of an audit",
            Run::Audit,
            JOURNAL,
            &[2],
            &[],
            (4, "", "read fault\n"),
        ),
        (
            "the write of an audit",
            Run::Audit,
            JOURNAL,
            &[],
            &[1],
            (5, "", "write fault\n"),
        ),
        (
            "the write of a bad entry",
            Run::Audit,
            STALE_MARK,
            &[],
            &[1],
            (5, "", "write fault\n"),
        ),
    ];
    for (name, run, input, reads, writes, (code, out, err)) in cases {
        let left = run_on(rt.alloc(), run, input.as_bytes(), 4096, reads, writes)?;
        let other = left.other(rt.alloc(), code, out.as_bytes(), err)?;
        assert!(rt; other.is_empty(), "{name}: {other}");
    }
    Ok(())
}
