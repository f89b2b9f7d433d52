//! A test of the sync plan, by which a worker makes and removes rows of the lease table. A shard is listed if
//! ListShards returns it. In the test, one listed shard has no row, and one row is for a shard that isn't listed.
use crate::rows::{key, row};
use kcl_defs::SyncStep;
use kcl_sync::plan;
use kds_base::Items;
use kds_defs::Origin;
use std::test::Fail;

/// Returns the sync plan for the listed shards 0 and 2 and for a lease table with rows for the shards 0 and 1.
fn steps_from(rt: &HostRuntime, from: &Origin) -> Result<Items<SyncStep>, Fail> {
    Ok(plan(
        rt.alloc(),
        &[key(0), key(2)],
        &[row(0, None, 2), row(1, None, 4)],
        *from,
    )?)
}

#[test]
fn makes_come_before_cuts(rt: HostRuntime) -> Result<(), Fail> {
    for from in [Origin::TrimHorizon, Origin::Latest] {
        let steps = steps_from(&rt, &from)?;
        let wanted = [SyncStep::Make(key(2), from), SyncStep::Cut(key(1), 4)];
        assert_eq!(rt; steps.as_slice(), wanted.as_slice(), "from {from:?}");
    }
    Ok(())
}
