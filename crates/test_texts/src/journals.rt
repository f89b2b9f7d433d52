//! Tests of reading and printing the lines of journals, with example lines. A journal is the event log of a schedule.
ghost use Rattle.kcl_journal.specs.Entries.{IsVersion};

use kcl_journal::{
    FIRST_VERSION, VERSION, one_entry, print_end, print_entry, print_heading, read_end, read_entry,
};
use kds_base::{Memory, Octets};
use std::alloc::Global;
use std::test::Fail;

/// The entries of a journal in which a worker's lease is stolen, and more entries, so that every kind of entry occurs.
const LINES: [&str; 23] = [
    "1000 0 made 1 s 1",
    "2000 0 put 1 0 1 16955237001963240173058271559858726497 2 1",
    "2000 0 put 1 0 2 16955237001963240173058271559858726497 2 1",
    "3000 1 lease 1/0",
    "3000 1 taken 1/0 1 1 w1",
    "3000 1 opened 1",
    "3000 1 read 1 10 more 1 2",
    "3000 2 taken 1/0 2 2 w2",
    "3000 1 given 1",
    "1000 0 put 1 0 1 340282366920938463463374607431768211455 10485759 1",
    "2000 0 split 2 0 340282366920938463463374607431768211455 18446744073709551615 1 2",
    "2000 0 merged 2 1 2 3 4",
    "2000 0 kept 2 8760",
    "2000 0 enforced 2 on",
    "2000 0 enforced 2 off",
    "2000 0 gone 2",
    "3000 999 lease 1/0 latest",
    "3000 1000 lease 1/0 time 4611686018427387903",
    "3000 4294967295 renewed 1 18446744073709551615",
    "3000 1 freed 1 5",
    "3000 1 marked 1 3 end",
    "3000 1 read 2 10000 end",
    "4611686018427387903 1 cut 1/0 5",
];

/// Texts that aren't entries in the second version of the journal format.
const OTHERS: [&str; 13] = [
    "journal 2",
    "end 3000",
    "1000 0 put 1 0 1 5 2",
    "1000 0 put 1 0 1 5 2 0",
    "1000 0 put 1 0 1 5 2 1025",
    "1000 0 put 1 0 1 5 10485760 1",
    "1000 0 made 1 s 501",
    "1000 0 kept 1 23",
    "1000 1 renewed 1 0",
    "1000 1 taken 1/0 1 1 w0",
    "1000 1 read 1 10 1 2",
    "01000 0 gone 1",
    "1000 0 gone 1 ",
];

/// Parses `text` as an entry in this version of the journal format, and prints the entry again. The result is
/// `Ok(None)` if the text isn't such an entry.
fn again(alloc: Global, text: &[u8], version: u8) -> Result<Option<Octets>, Memory>
    requires { IsVersion version }
{
    match read_entry(alloc, text, version)? {
        Some(line) => {
            let mut to = Octets::new(alloc);
            print_entry(alloc, &line, &mut to)?;
            Ok(Some(to))
        }
        None => Ok(None),
    }
}

#[test]
fn an_entry_is_printed_as_it_was_read(rt: HostRuntime) -> Result<(), Fail> {
    one_entry();
    for text in LINES {
        let printed = again(rt.alloc(), text.as_bytes(), VERSION)?;
        let bytes = match &printed {
            Some(to) => to.as_slice(),
            None => b"no entry".as_slice(),
        };
        let given = String::from_utf8_lossy(rt.alloc(), bytes)?;
        assert_eq!(rt; given.as_str(), text);
    }
    for text in OTHERS {
        let none = again(rt.alloc(), text.as_bytes(), VERSION)?.is_none();
        assert!(rt; none, "an entry: {text}");
    }
    Ok(())
}

#[test]
fn the_first_version_has_no_key_bytes(rt: HostRuntime) -> Result<(), Fail> {
    let first = b"1000 0 put 1 0 1 5 1048576".as_slice();
    match again(rt.alloc(), first, FIRST_VERSION)? {
        Some(to) => assert!(rt; to.as_slice() == b"1000 0 put 1 0 1 5 1048576 0".as_slice()),
        None => assert!(rt; false),
    }
    let more = again(
        rt.alloc(),
        b"1000 0 put 1 0 1 5 1048577".as_slice(),
        FIRST_VERSION,
    )?;
    assert!(rt; more.is_none());
    let second = again(
        rt.alloc(),
        b"1000 0 put 1 0 1 5 2 1".as_slice(),
        FIRST_VERSION,
    )?;
    assert!(rt; second.is_none());
    Ok(())
}

#[test]
fn the_first_line_and_the_last_are_fixed(rt: HostRuntime) -> Result<(), Fail> {
    let mut to = Octets::new(rt.alloc());
    print_heading(&mut to)?;
    assert!(rt; to.as_slice() == b"journal 2".as_slice());
    match read_end(b"end 3000".as_slice()) {
        Some(clock) => print_end(rt.alloc(), clock, &mut to)?,
        None => assert!(rt; false),
    }
    assert!(rt; to.as_slice() == b"journal 2end 3000".as_slice());
    assert!(rt; read_end(b"end 03000".as_slice()).is_none());
    assert!(rt; read_end(b"journal 2".as_slice()).is_none());
    Ok(())
}
