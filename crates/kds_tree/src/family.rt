//! Finds the children of a shard through an index, which has the number of each shard's first child. A shard has at
//! most two children. Two children of the same shard are next to each other in the list of shards (decision 118).
ghost use Rattle.std.specs.Prelude.{◌≡◌, ◌<◌, ◌≤◌, drop, length, map, replicate, slice_get, slice_set, take};
ghost use Rattle.std.specs.Prelude.{vec_capacity, vec_len, IfOk, None, Some};
ghost use Rattle.kds_defs.specs.Shards.{children_among, shown};
ghost use Rattle.kds_tree.specs.Families.{AreFamilies, flat};

use crate::kept::KeptShard;
use kds_base::{Items, Memory, ShardNo};
use kds_defs::Shard;
use std::alloc::Global;

/// Returns the index for `count` shards that have no children. The index has, for each shard, the number of its first
/// child, if any.
pub fn no_children(alloc: Global, count: usize) -> Result<Vec<Option<ShardNo>>, Memory>
    ensures { IfOk result (λ them. them.items ≡ replicate count None) }
{
    Ok(Vec::from_elem(alloc, None, count)?)
}

/// Returns a slice of at most two shards that contains all children of shard `no`. The function finds the slice through
/// `first_children`, which has the number of each shard's first child.
pub fn family_of<'a>(
    shards: &'a [KeptShard],
    first_children: &[Option<ShardNo>],
    no: ShardNo,
) -> &'a [KeptShard]
    ensures all { AreFamilies first_children.now shards.now
        → children_among no result.now ≡ children_among no shards.now }
    ensures few { length result.now ≤ 2 }
{
    match first_child(first_children, no) {
        Some(first) => pair_at(shards, first),
        None => &[],
    }
}

/// Returns the number of the first child of shard `no`, or `None` if shard `no` doesn't exist or has no child.
fn first_child(first_children: &[Option<ShardNo>], no: ShardNo) -> Option<ShardNo>
    ensures { result ≡ flat (slice_get first_children.now no) }
{
    match first_children.get(no.0 as usize) {
        Some(first) => *first,
        None => None,
    }
}

/// Returns a slice of at most two shards: the shard with the number `first` and the shard after it, if they exist.
fn pair_at(shards: &[KeptShard], first: ShardNo) -> &[KeptShard]
    ensures { result.now ≡ take 2 (drop first shards.now) }
{
    let (_, behind) = shards.split_at((first.0 as usize).min(shards.len()));
    let (pair, _) = behind.split_at(behind.len().min(2));
    pair
}

/// Returns those of `shards` whose parent or adjacent parent is shard `no`. The result has the type `Shard`, in which
/// replies to clients describe shards.
pub fn children_in(alloc: Global, shards: &[KeptShard], no: ShardNo) -> Result<Items<Shard>, Memory>
    ensures { IfOk result (λ children. children ≡ map shown (children_among no shards.now)) }
{
    let mut children = Items::new(alloc);
    for kept in shards {
        if kept.is_child_of(no) {
            children.push(*kept.shard())?;
        }
    }
    Ok(children)
}

/// Sets the first child of shard `shard`, and of shard `other`, to `child`.
pub fn set_first_child(
    first_children: &mut Vec<Option<ShardNo>>,
    shard: ShardNo,
    other: ShardNo,
    child: ShardNo,
)
    requires shard { shard < length first_children.old.items }
    requires other { other < length first_children.old.items }
    ensures items { first_children.new.items
        ≡ slice_set (slice_set first_children.old.items shard (Some child)) other (Some child) }
    ensures capacity { vec_capacity first_children.new ≡ vec_capacity first_children.old }
    ensures len { vec_len first_children.new ≡ vec_len first_children.old }
{
    first_children[shard.0 as usize] = Some(child);
    first_children[other.0 as usize] = Some(child);
}
