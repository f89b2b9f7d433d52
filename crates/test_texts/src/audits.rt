//! Tests of audits that get the text of a journal line by line. An audit checks whether a journal, an event log, is
//! valid.
use kcl_audit::AuditTaker;
use kds_base::{Memory, Octets};
use kds_lines::Taker;
use std::alloc::Global;
use std::test::Fail;

/// Returns the output of an audit of the journal with these lines.
fn audit(alloc: Global, lines: &[&str]) -> Result<Octets, Memory> {
    let mut taker = AuditTaker::new(alloc);
    let mut out = Octets::new(alloc);
    for line in lines {
        if !taker.take(alloc, line.as_bytes(), &mut out)? {
            return Ok(out);
        }
    }
    taker.finish(alloc, false, &mut out)?;
    Ok(out)
}

#[test]
fn an_audit_tells_the_first_bad_entry(rt: HostRuntime) -> Result<(), Fail> {
    let cases = [
        (
            "a lease that is robbed",
            &[
                "1000 0 made 1 s 1",
                "1000 0 put 1 0 1 16955237001963240173058271559858726497 2",
                "1000 0 put 1 0 2 195289424170611159128911017612795795343 2",
                "3000 1 lease 1/0",
                "3000 1 taken 1/0 1 1 w1",
                "3000 1 opened 1",
                "3000 1 read 1 10 more 1 2",
                "3000 1 given 1",
                "3000 2 taken 1/0 2 2 w2",
                "end 3000",
            ] as &[&str],
            "sound 9\n",
        ),
        (
            "a stale mark",
            &[
                "journal 2",
                "1000 0 made 1 s 1",
                "1000 0 put 1 0 1 16955237001963240173058271559858726497 2 1",
                "1000 0 put 1 0 2 195289424170611159128911017612795795343 2 3",
                "3000 1 lease 1/0",
                "3000 1 taken 1/0 1 1 w1",
                "3000 1 opened 1",
                "3000 1 read 1 10 more 1 2",
                "3000 1 given 1",
                "3000 2 taken 1/0 2 2 w2",
                "3000 1 marked 1 3 2",
                "end 3000",
            ] as &[&str],
            "entry 10 Lost\n",
        ),
        // In these journals the last line, `end CLOCK`, is missing, has a clock that is too small, or comes twice.
        ("nothing", &[] as &[&str], "entry 1 Form\n"),
        (
            "a heading alone",
            &["journal 2"] as &[&str],
            "entry 1 Form\n",
        ),
        (
            "an earlier end",
            &["1000 0 made 1 s 1", "end 999"] as &[&str],
            "entry 2 Clock\n",
        ),
        (
            "two ends",
            &["1000 0 made 1 s 1", "end 1000", "end 1000"] as &[&str],
            "entry 3 Form\n",
        ),
    ];
    for (name, lines, text) in cases {
        let out = audit(rt.alloc(), lines)?;
        let given = String::from_utf8_lossy(rt.alloc(), out.as_slice())?;
        assert_eq!(rt; given.as_str(), text, "of {name}");
    }
    Ok(())
}
