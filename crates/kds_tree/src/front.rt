//! The expired shards at the beginning of a stream's list of shards, and the shards among them that haven't expired. A
//! shard has expired if it was closed at or before the trim horizon. A listing of the shards skips all of the expired
//! shards at once (decision 119).
ghost use Rattle.std.specs.Prelude.{◌≡◌, ◌+◌, ◌-◌, ◌<◌, ◌≤◌, ℕ, List, OnErr, OnOk, drop, length, slice_get, true};
ghost use Rattle.kds_defs.specs.Shards.{ShardState};
ghost use Rattle.kds_defs.specs.Streams.{floor_of};
ghost use Rattle.kds_tree.specs.Front.{AreLeft};
ghost use Rattle.kds_tree.specs.Tree.{is_expired_at};

use crate::kept::KeptShard;
use kds_base::{Memory, Moment, ShardNo};
use std::alloc::Global;

/// The first `count` shards of a stream. All of them had expired at the trim horizon `cut`, except for the shards
/// `left`. An expired shard stays expired. So a listing at this trim horizon or a later one can skip these shards,
/// except for the shards `left`.
#[derive(Drop)]
pub struct ExpiredFront {
    /// How many shards the front has. Its last shard has expired, unless memory ran out before it was reached.
    pub count: usize,
    /// The numbers of those of the first `count` shards that may not have expired, in rising order. At most as many
    /// shards are in this list as were open together.
    pub left: Vec<ShardNo>,
    pub cut: Option<Moment>,
    /// The index of the first shard with a parent that hasn't expired. Shards expire in the order in which they were
    /// closed, which is the order of their children. So as long as this parent hasn't expired, no further shard has.
    pub child: usize,
}

/// Returns the front of a new stream, which has no shards.
pub fn no_front(alloc: Global) -> ExpiredFront
    ensures { (floor : ℕ) → (xs : List ShardState) → AreLeft floor 0 result.count result.left.items xs }
{
    ExpiredFront {
        count: 0,
        left: Vec::new(alloc),
        cut: None,
        child: 0,
    }
}

/// Whether the trim horizon `cut` is equal to `other` or later than `other`. `None` is earlier than every time.
fn is_no_earlier(cut: &Option<Moment>, other: &Option<Moment>) -> bool
    ensures { result ≡ true → floor_of other.now ≤ floor_of cut.now }
{
    match (cut, other) {
        (_, None) => true,
        (None, Some(_)) => false,
        (Some(cut), Some(other)) => other <= cut,
    }
}

/// Returns the number of shards at the beginning of `shards` that a listing at the trim horizon `cut` skips, and the
/// numbers of the shards among them that it doesn't skip. If `cut` is earlier than the trim horizon of `front`, the
/// listing skips no shards.
pub fn skipped_at<'a>(
    front: &'a ExpiredFront,
    shards: &[KeptShard],
    cut: &Option<Moment>,
) -> (usize, &'a [ShardNo])
    ensures { AreLeft (floor_of front.now.cut) 0 front.now.count front.now.left.items shards.now
        → AreLeft (floor_of cut.now) 0 result.0 result.1.now shards.now }
{
    let _shards = shards;
    if is_no_earlier(cut, &front.cut) {
        (front.count, &front.left)
    } else {
        (0, &[])
    }
}

/// Returns those of `numbers` that are `start` or greater. `numbers` must be in rising order.
pub fn numbers_from(numbers: &[ShardNo], start: usize) -> &[ShardNo]
    ensures { (floor count : ℕ) → (xs : List ShardState) → AreLeft floor 0 count numbers.now xs
        → AreLeft floor start (count - start) result.now (drop start xs) }
{
    let before = numbers.partition_point(|no| (no.0 as usize) < start);
    let (_, from) = numbers.split_at(before);
    from
}

/// Extends `front` to the later trim horizon `cut`, if a shard expired since. If `cut` is earlier than the trim
/// horizon of `front`, `front` is unchanged. If memory runs out, `front` has fewer shards than it could have, and the
/// next call goes on from there.
pub fn move_on(front: &mut ExpiredFront, shards: &[KeptShard], cut: Option<Moment>)
    ensures { AreLeft (floor_of front.old.cut) 0 front.old.count front.old.left.items shards.now
        → AreLeft (floor_of front.new.cut) 0 front.new.count front.new.left.items shards.now }
{
    let (child, end) = first_with_unexpired_parent(shards, front.child, &cut);
    if child == front.child || !is_no_earlier(&cut, &front.cut) {
        return;
    }
    remove_expired(&mut front.left, shards, &cut);
    front.count = skip_until(&mut front.left, shards, &cut, front.count, end);
    front.cut = cut;
    front.child = child_after(front, child, end);
}

/// Returns the index of a shard from which the next call of `move_on` goes on: `child`, or the same as before if memory
/// ran out before the front reached the index `end`.
fn child_after(front: &ExpiredFront, child: usize, end: usize) -> usize {
    if front.count >= end {
        child
    } else {
        front.child
    }
}

/// Returns the index of the first shard, from the index `start` on, with a parent that hasn't expired at the trim
/// horizon `cut`, and the index behind all parents of the shards before it.
fn first_with_unexpired_parent(
    shards: &[KeptShard],
    start: usize,
    cut: &Option<Moment>,
) -> (usize, usize) {
    let mut child = start;
    let mut end = 0;
    while child < shards.len() && has_no_unexpired_parent(shards, &shards[child], cut) {
        end = shards[child].behind_parents().max(end);
        child += 1;
    }
    (child, end)
}

/// Whether the shard `child` has no parent, or its parent has expired at the trim horizon `cut`.
fn has_no_unexpired_parent(shards: &[KeptShard], child: &KeptShard, cut: &Option<Moment>) -> bool {
    match child.shard().parent {
        Some(no) => is_expired_at(shards, no, cut),
        None => true,
    }
}

/// Whether shard `no` has expired at the trim horizon `cut`.
pub fn is_expired_at(shards: &[KeptShard], no: ShardNo, cut: &Option<Moment>) -> bool
    ensures { result ≡ is_expired_at (floor_of cut.now) (slice_get shards.now no) }
{
    match shards.get(no.0 as usize) {
        Some(kept) => kept.is_expired(cut),
        None => false,
    }
}

/// Removes the numbers of those shards from `left` that have expired at the trim horizon `cut`.
fn remove_expired(left: &mut Vec<ShardNo>, shards: &[KeptShard], cut: &Option<Moment>)
    ensures { (count : ℕ) → AreLeft (floor_of cut.now) 0 count left.old.items shards.now
        → AreLeft (floor_of cut.now) 0 count left.new.items shards.now }
{
    left.retain(|no| !is_expired_at(shards, *no, cut));
}

/// Passes the shards from the index `start` on until the index `end`, and adds the numbers of those to `left` that
/// haven't expired at the trim horizon `cut`. Returns the index up to which the shards are passed. It is less than
/// `end` if memory runs out, or if there are fewer shards.
fn skip_until(
    left: &mut Vec<ShardNo>,
    shards: &[KeptShard],
    cut: &Option<Moment>,
    start: usize,
    end: usize,
) -> usize
    ensures { AreLeft (floor_of cut.now) 0 start left.old.items shards.now
        → AreLeft (floor_of cut.now) 0 result left.new.items shards.now }
{
    let mut count = start;
    while count < end && count < shards.len() {
        match skip_one(left, shards, cut, count) {
            Ok(()) => count += 1,
            Err(_) => return count,
        }
    }
    count
}

/// Passes the shard with the index `count`, and adds its number to `left` if it hasn't expired at the trim horizon
/// `cut`. If memory runs out, `left` is unchanged.
fn skip_one(
    left: &mut Vec<ShardNo>,
    shards: &[KeptShard],
    cut: &Option<Moment>,
    count: usize,
) -> Result<(), Memory>
    requires { count < length shards.now }
    ensures ok { OnOk result (AreLeft (floor_of cut.now) 0 count left.old.items shards.now
        → AreLeft (floor_of cut.now) 0 (count + 1) left.new.items shards.now) }
    ensures err { OnErr result (left.new.items ≡ left.old.items) }
{
    if shards[count].is_expired(cut) {
        return Ok(());
    }
    left.push(ShardNo(count as u64))?;
    Ok(())
}
