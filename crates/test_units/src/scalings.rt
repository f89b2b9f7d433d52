//! Tests of the merges and splits that scale a stream to three shards with uniform hash-key ranges.
use kds_defs::ScaleStep;
use kds_scale::plan;
use std::test::Fail;

const THIRD: u128 = 113427455640312821154458202477256070485;

#[test]
fn two_ranges_to_three(rt: HostRuntime) -> Result<(), Fail> {
    let middle = 1 << 127;
    let steps = plan(rt.alloc(), &[0, middle], 3)?;
    let wanted = [
        ScaleStep::Join(middle),
        ScaleStep::Cut(THIRD),
        ScaleStep::Cut(2 * THIRD),
    ];
    assert_eq!(rt; steps.as_slice(), wanted.as_slice());
    Ok(())
}

#[test]
fn already_there(rt: HostRuntime) -> Result<(), Fail> {
    let steps = plan(rt.alloc(), &[0, THIRD, 2 * THIRD], 3)?;
    assert!(rt; steps.as_slice().is_empty());
    Ok(())
}
