//! Tests of printing the lines of a schedule. No run of a schedule prints these lines.

use kcl_script::{print_line, read_line};
use kcl_script_fields::print_command;
use kds_base::{Memory, Octets};
use kds_defs::Command;
use std::alloc::Global;
use std::test::Fail;

const LINES: [&str; 20] = [
    "1000 api CreateStream ",
    "1000 raw 999 rows",
    "0 raw 1 survey",
    "1000 raw 1 make 1/0",
    "1000 raw 1 make 1/0 latest",
    "1000 raw 1 make 1/0 time 4611686018427387903",
    "2000 raw 1 take 1/0 18446744073709551615 w4294967295",
    "3000 raw 2 renew 2 5",
    "3000 raw 2 free 2 4",
    "3000 raw 2 open 2",
    "3000 raw 2 read 2 0 10000",
    "3000 raw 2 give 2",
    "3000 raw 2 mark 2 4 end",
    "4611686018427387903 raw 2 cut 1/0 5",
    "3000 worker w1 tally",
    "3000 worker w4294967295 lines latest",
    "3000 worker w2 users time 5",
    "3000 step 4294967295",
    "3000 stop 0",
    "3000 hand 1000 1/0",
];

/// Parses `text` as a line of a schedule, and prints the line again. The result is `Ok(None)` if the text isn't such a
/// line.
fn again(alloc: Global, text: &[u8]) -> Result<Option<Octets>, Memory> {
    kcl_script::one_spelling();
    match read_line(alloc, text)? {
        Some(line) => {
            let mut to = Octets::new(alloc);
            print_line(alloc, &line, &mut to)?;
            Ok(Some(to))
        }
        None => Ok(None),
    }
}

#[test]
fn a_line_is_printed_as_it_was_read(rt: HostRuntime) -> Result<(), Fail> {
    for text in LINES {
        let printed = again(rt.alloc(), text.as_bytes())?;
        let bytes = match &printed {
            Some(to) => to.as_slice(),
            None => b"no line".as_slice(),
        };
        let given = String::from_utf8_lossy(rt.alloc(), bytes)?;
        assert_eq!(rt; given.as_str(), text);
    }
    let mut to = Octets::new(rt.alloc());
    print_command(rt.alloc(), &Command::Survey, &mut to)?;
    assert!(rt; to.as_slice() == b"survey".as_slice());
    Ok(())
}
