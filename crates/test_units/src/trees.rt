//! Tests of the shards of a stream: after a shard was split, and after two shards were merged.
use kds_base::{Moment, Seq, ShardNo};
use kds_defs::Refusal;
use kds_tree::ShardTree;
use std::test::Fail;

const MIDDLE: u128 = 1 << 127;

#[test]
fn a_split(rt: HostRuntime) -> Result<(), Fail> {
    let mut tree = ShardTree::new(rt.alloc(), 1)?;
    let children = tree.split(ShardNo(0), MIDDLE, Seq(1), Moment::start())?;
    assert_eq!(rt; children, Ok((ShardNo(1), ShardNo(2))));
    assert_eq!(rt; (tree.len(), tree.open_count()), (3, 2));
    for (key, home) in [(0, 1), (MIDDLE - 1, 1), (MIDDLE, 2), (u128::MAX, 2)] {
        assert_eq!(rt; tree.home(key), ShardNo(home), "of {key}");
    }
    let refused = [
        (0, MIDDLE, Refusal::ShardClosed),
        (1, 0, Refusal::BadSplit),
        (2, MIDDLE, Refusal::BadSplit),
        (3, MIDDLE, Refusal::NoShard),
    ];
    for (shard, at, refusal) in refused {
        assert_eq!(rt;
            tree.split_refusal(ShardNo(shard), at),
            Some(refusal),
            "of {shard} at {at}"
        );
    }
    Ok(())
}

#[test]
fn a_merge(rt: HostRuntime) -> Result<(), Fail> {
    let now = Moment::start();
    let mut tree = ShardTree::new(rt.alloc(), 3)?;
    for (shard, other) in [(0, 2), (1, 1)] {
        let refusal = tree.merge_refusal(ShardNo(shard), ShardNo(other));
        assert_eq!(rt; refusal, Some(Refusal::NotAdjacent), "of {shard}");
    }
    let child = tree.merge(ShardNo(1), ShardNo(0), Seq(1), now)?;
    assert_eq!(rt; child, Ok(ShardNo(3)));
    let parents = tree.shard(ShardNo(3)).map(|s| (s.parent, s.adjacent));
    assert_eq!(rt; parents, Some((Some(ShardNo(1)), Some(ShardNo(0)))));
    assert_eq!(rt; tree.children(ShardNo(0))?.as_slice().len(), 1);
    assert!(rt; tree.expired(ShardNo(0), Some(now)));
    let (listed, more) = tree.listed(Some(now), None, 1)?;
    assert_eq!(rt; (listed.as_slice().len(), more), (1, true));
    Ok(())
}
