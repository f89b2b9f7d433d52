//! A test of the generator of a drill. A drill is a self-test, and its generator makes the commands of the test.
use kcl_drill::generate;
use kds_defs::Command;
use std::test::Fail;

/// The generator of a drill with one record returns two commands: one creates the stream, and one puts the record.
#[test]
fn one_record(rt: HostRuntime) -> Result<(), Fail> {
    let mut generator = generate(rt.alloc(), 7, 1);
    let first = generator.next()?;
    assert!(rt; matches!(&first, Some(Command::Create { .. })));
    let second = generator.next()?;
    assert!(rt; matches!(&second, Some(Command::Put { .. })));
    let third = generator.next()?;
    assert!(rt; third.is_none());
    Ok(())
}
