//! Creates the shards of a stream, finds the open shard for a hash key, and lists, splits and merges shards.
ghost use Rattle.std.specs.Prelude.{◌≡◌, ◌+◌, ◌++◌, ◌∷◌, [], ◌-◌, ◌^◌, ◌<◌, ◌≤◌, ℕ, drop, min, length, map, take};
ghost use Rattle.std.specs.Prelude.{slice_get, Some, IsSome, IfOk, IfSome, OnOk, OnErr, IsOk};
ghost use Rattle.std.specs.List.{AllByRecursion, filter};
ghost use Rattle.std.specs.Option.{option_map};
ghost use Rattle.kds_base.specs.Span.{joined};
ghost use Rattle.kds_defs.specs.declared.limits.TheConstants.{MOST_SHARDS};
ghost use Rattle.kds_defs.specs.Listings.{are_more, is_after_shard, refs_of};
ghost use Rattle.kds_defs.specs.Scaling as scaling;
ghost use Rattle.kds_defs.specs.ScaleCommands.{starts_among};
ghost use Rattle.kds_defs.specs.Shards.{children_among, home_among, is_open, listed_among, made_shards, merged_shards};
ghost use Rattle.kds_defs.specs.Shards.{range_of, shown, split_shards, with_closed};
ghost use Rattle.kds_defs.specs.Streams.{floor_of};
ghost use Rattle.kds_defs.specs.Tiled.{AreNumbered, IsTiled};
ghost use Rattle.kds_tree.specs.Front.{Lists, listing, picked, picked_before};
ghost use Rattle.kds_tree.specs.Starts.{AreStarts, starting_keys};
ghost use Rattle.kds_tree.specs.Tree.{IsHome, IsWithinKeys, after_merge, after_split, answer_by, merge_refusal};
ghost use Rattle.kds_tree.specs.Tree.{split_parts, split_refusal, is_expired_at};

use crate::family::{children_in, family_of, no_children, set_first_child};
use crate::front::{ExpiredFront, is_expired_at, move_on, no_front, numbers_from, skipped_at};
use crate::kept::KeptShard;
use crate::listed_keys::{add_numbers, add_rest};
use crate::start::{OpenStart, home_of, join_starts, sort_starts, split_start};
use kds_base::{Items, Memory, Moment, Range, Seq, ShardNo, ShardRef, StreamNo};
use kds_defs::{Refusal, Shard};
use std::alloc::Global;
use std::marker::Model;

/// All shards of one stream, in the order of their numbers, which begin with 0. The ranges of the open shards always
/// partition the hash keys, so each hash key is in the range of exactly one open shard. In contracts, the value of a
/// `ShardTree` has the fields of each shard, and the number of further shards for which memory is reserved.
#[derive(Drop)]
pub struct ShardTree {
    shards: Vec<KeptShard>,
    /// The starts of the open shards, in rising order. The start of a shard is the hash key at which its range starts.
    starts: Vec<OpenStart>,
    /// For each shard, the number of its first child, if the shard has children. The list is in the order of the
    /// shards' numbers (decision 118).
    first_children: Vec<Option<ShardNo>>,
    /// The expired shards at the beginning of `shards`, which listings skip.
    front: ExpiredFront,
}

impl Model for ShardTree {
    ghost use Rattle.std.specs.Prelude.{min, vec_capacity, vec_len, ◌-◌};
    ghost use Rattle.kds_defs.specs.Streams.{floor_of};
    ghost use Rattle.kds_tree.specs.Tree.{TreeValue};
    ghost use Rattle.kds_tree.specs.Whole.{FitTogether};

    ghost Value = { TreeValue };

    ghost view = { λ t. record {
      shards = t.shards.items;
      spare = min (vec_capacity t.shards - vec_len t.shards)
          (min (vec_capacity t.starts - vec_len t.starts)
          (vec_capacity t.first_children - vec_len t.first_children));
    } };

    ghost invariant = { λ t. FitTogether t.shards.items t.starts.items t.first_children.items (floor_of t.front.cut)
        t.front.count t.front.left.items };
}

impl ShardTree {
    /// Returns the shards of a new stream: `n` open shards with uniform ranges of hash keys.
    pub fn new(alloc: Global, n: u32) -> Result<ShardTree, Memory>
        requires least { 1 ≤ n }
        requires most { n ≤ MOST_SHARDS }
        ensures { IfOk result (λ tree. tree.shards ≡ made_shards n 1) }
    {
        let ranges = Range::uniform(alloc, n)?;
        let mut shards = Vec::new(alloc);
        for (i, range) in ranges.as_slice().iter().enumerate() {
            shards.push(KeptShard::new(ShardNo(i as u64), *range, None, None, Seq(1)))?;
        }
        let starts = open_starts(alloc, &shards)?;
        let first_children = no_children(alloc, n as usize)?;
        Ok(ShardTree {
            shards,
            starts,
            first_children,
            front: no_front(alloc),
        })
    }

    /// Returns the number of shards that the stream has ever had, including closed shards.
    pub fn len(&self) -> u64
        ensures value { result ≡ length self.now.shards }
        ensures numbered { AreNumbered 0 self.now.shards }
        ensures tiled { IsTiled self.now.shards }
        ensures within { AllByRecursion IsWithinKeys self.now.shards }
        ensures small { result < 2 ^ 63 }
    {
        self.shards.len() as u64
    }

    /// Returns the number of open shards, or `u32::MAX` if there are more.
    pub fn open_count(&self) -> u32
        ensures { result ≡ min (length (filter is_open self.now.shards)) (2 ^ 32 - 1) }
    {
        self.starts.len().min(u32::MAX as usize) as u32
    }

    /// Returns the shard with the number `no`, or `None` if the stream never had a shard with this number.
    pub fn shard(&self, no: ShardNo) -> Option<&Shard>
        ensures value { option_map (λ s. s.now) result ≡ option_map shown (slice_get self.now.shards no) }
        ensures numbered { IfSome result (λ s. s.now.no ≡ no) }
    {
        shown_at(&self.shards, no)
    }

    /// Returns the number of the open shard whose range contains the hash key `hash`. There is exactly one such shard.
    pub fn home(&self, hash: u128) -> ShardNo
        ensures value { result ≡ home_among (filter is_open self.now.shards) hash }
        ensures found { IsHome self.now.shards hash result }
        ensures only { (sh : ℕ) → IsHome self.now.shards hash sh → sh ≡ result }
    {
        home_of(&self.starts, hash)
    }

    /// Whether shard `no` has expired, which means that it was closed at or before the trim horizon `cut`.
    pub fn expired(&self, no: ShardNo, cut: Option<Moment>) -> bool
        ensures { result ≡ is_expired_at (floor_of cut) (slice_get self.now.shards no) }
    {
        is_expired_at(&self.shards, no, &cut)
    }

    /// Returns a page of the shards that haven't expired at the trim horizon `cut`, in the order of their numbers
    /// (Kinesis API Reference, ListShards). The page begins after the shard `after`, and has at most `limit` shards.
    /// The returned `bool` says whether more unexpired shards follow the page.
    pub fn listed(
        &self,
        cut: Option<Moment>,
        after: Option<ShardNo>,
        limit: u32,
    ) -> Result<(Items<Shard>, bool), Memory>
        ensures shards { let xs =
            map shown (filter (is_after_shard after) (listed_among (floor_of cut) self.now.shards))
            in IfOk result (λ r. r.0 ≡ take limit xs) }
        ensures more { let xs = map shown (filter (is_after_shard after) (listed_among (floor_of cut) self.now.shards))
            in IfOk result (λ r. r.1 ≡ are_more limit xs) }
    {
        let (skipped, left) = skipped_at(&self.front, &self.shards, &cut);
        let start = start_behind(&self.shards, after);
        let numbers = numbers_from(left, start);
        let (_, rest) = self.shards.split_at(start.max(skipped));
        page_of(
            *self.shards.allocator(),
            &self.shards,
            numbers,
            rest,
            &cut,
            limit,
        )
    }

    /// Appends the keys of the shards that haven't expired at the trim horizon `cut` to `keys`, in the order of the
    /// shards' numbers. `stream` is the number of the stream, the first part of each key.
    pub fn add_listed(
        &self,
        cut: Option<Moment>,
        stream: StreamNo,
        keys: &mut Items<ShardRef>,
    ) -> Result<(), Memory>
        ensures { OnOk result (keys.new ≡ keys.old
            ++ refs_of stream (listed_among (floor_of cut) self.now.shards)) }
    {
        let (skipped, left) = skipped_at(&self.front, &self.shards, &cut);
        add_numbers(keys, stream, &self.shards, left, &cut)?;
        let (_, rest) = self.shards.split_at(skipped);
        add_rest(keys, stream, rest, &cut)
    }

    /// Remembers which shards at the beginning of the list have expired at the trim horizon `cut`, so that listings can
    /// skip these shards. The shards themselves are unchanged.
    pub fn note_expired(&mut self, cut: Option<Moment>)
        ensures { self.new ≡ self.old }
    {
        move_on(&mut self.front, &self.shards, cut);
    }

    /// Returns the children of shard `no`, in the order of their numbers. A child of shard `no` is a shard whose parent
    /// or adjacent parent is shard `no`.
    pub fn children(&self, no: ShardNo) -> Result<Items<Shard>, Memory>
        ensures { IfOk result (λ shards. shards ≡ map shown (children_among no self.now.shards)) }
    {
        let family = family_of(&self.shards, &self.first_children, no);
        children_in(*self.shards.allocator(), family, no)
    }

    /// Returns the hash keys at which the ranges of the open shards start, in rising order.
    pub fn starts(&self) -> Result<Items<u128>, Memory>
        ensures value { IfOk result (λ starts. starts ≡ starts_among (filter is_open self.now.shards)) }
        ensures partition { scaling.AreStarts (starts_among (filter is_open self.now.shards)) }
    {
        keys_of(*self.shards.allocator(), &self.starts)
    }

    /// Reserves memory for `shards` further shards. The existing shards are unchanged, even if memory runs out.
    pub fn reserve(&mut self, shards: u32) -> Result<(), Memory>
        ensures same { self.new.shards ≡ self.old.shards }
        ensures spare { OnOk result (shards ≤ self.new.spare) }
        ensures no_less { self.old.spare ≤ self.new.spare }
    {
        self.shards.reserve(shards as usize)?;
        self.starts.reserve(shards as usize)?;
        self.first_children.reserve(shards as usize)?;
        Ok(())
    }

    /// Returns the ranges that a split of `shard` at the hash key `at` would give to the two children, or the reason
    /// why the split is refused.
    fn split_ranges(&self, shard: ShardNo, at: u128) -> Result<(Range, Range), Refusal>
        ensures { result ≡ answer_by (split_refusal self.now.shards shard at) (split_parts self.now.shards shard at) }
    {
        match self.shards.get(shard.0 as usize) {
            None => Err(Refusal::NoShard),
            Some(kept) if !kept.is_open() => Err(Refusal::ShardClosed),
            Some(kept) => kept.range().split(at).ok_or(Refusal::BadSplit),
        }
    }

    /// Returns the reason why a split of the shard at the hash key `at` would be refused, or `None` if it would be
    /// accepted. The reason is `NoShard` if the stream never had this shard, `ShardClosed` if the shard is closed, and
    /// `BadSplit` if one part of the shard's range would be empty.
    pub fn split_refusal(&self, shard: ShardNo, at: u128) -> Option<Refusal>
        ensures { result ≡ split_refusal self.now.shards shard at }
    {
        self.split_ranges(shard, at).err()
    }

    /// Splits a shard at the hash key `at`, and returns the numbers of its two children (Kinesis API Reference,
    /// SplitShard). The shard is closed at the time `clock`, with the ending sequence number `seq`. The children are
    /// added at the end of the list, the child with the lower range first. The split is refused if `split_refusal`
    /// returns a reason. If the split is refused or memory runs out, the shards are unchanged. Memory can't run out if
    /// memory for two more shards is reserved.
    pub fn split(
        &mut self,
        shard: ShardNo,
        at: u128,
        seq: Seq,
        clock: Moment,
    ) -> Result<Result<(ShardNo, ShardNo), Refusal>, Memory>
        requires { seq + 1 < 2 ^ 64 }
        ensures answer { IfOk result
            (λ a. a ≡ answer_by (split_refusal self.old.shards shard at) (
              length self.old.shards,
              length self.old.shards + 1,
            )) }
        ensures value { OnOk result (self.new.shards ≡ after_split self.old.shards shard at seq clock) }
        ensures refused { IsSome (split_refusal self.old.shards shard at) → IsOk result }
        ensures memory { OnErr result (self.new.shards ≡ self.old.shards) }
        ensures reserved { 2 ≤ self.old.spare → IsOk result }
        ensures spare { self.old.spare ≤ self.new.spare + 2 }
    {
        let (lower, upper) = match self.split_ranges(shard, at) {
            Ok(ranges) => ranges,
            Err(refusal) => return Ok(Err(refusal)),
        };
        let low = ShardNo(self.len());
        let high = ShardNo(self.len() + 1);
        let start = Seq(seq.0 + 1);
        let lower_child = KeptShard::new(low, lower, Some(shard), None, start);
        let upper_child = KeptShard::new(high, upper, Some(shard), None, start);
        self.starts.reserve(2)?;
        self.first_children.reserve(2)?;
        self.shards.extend_from_slice(&[lower_child, upper_child])?;
        self.shards[shard.0 as usize].close(seq, clock);
        split_start(
            &mut self.starts,
            shard,
            lower_child.open_start(),
            upper_child.open_start(),
        );
        set_first_child(&mut self.first_children, shard, shard, low);
        self.first_children.push_reserved(None);
        self.first_children.push_reserved(None);
        Ok(Ok((low, high)))
    }

    /// Returns the range that a merge of `shard` and `other` would give to the child, or the reason why the merge is
    /// refused.
    fn merged_range(&self, shard: ShardNo, other: ShardNo) -> Result<Range, Refusal>
        ensures { result ≡ answer_by (merge_refusal self.now.shards shard other)
            (joined (range_of (slice_get self.now.shards shard)) (range_of (slice_get self.now.shards other))) }
    {
        match (
            self.shards.get(shard.0 as usize),
            self.shards.get(other.0 as usize),
        ) {
            (Some(kept), Some(beside)) => {
                if kept.is_open() && beside.is_open() {
                    kept.range()
                        .join(&beside.range())
                        .ok_or(Refusal::NotAdjacent)
                } else {
                    Err(Refusal::ShardClosed)
                }
            }
            _ => Err(Refusal::NoShard),
        }
    }

    /// Returns the reason why a merge of the shards `shard` and `other` would be refused, or `None` if it would be
    /// accepted. The reason is `NoShard` if the stream never had one of the two shards, `ShardClosed` if one of them is
    /// closed, and `NotAdjacent` if the ranges of the two shards aren't next to each other.
    pub fn merge_refusal(&self, shard: ShardNo, other: ShardNo) -> Option<Refusal>
        ensures { result ≡ merge_refusal self.now.shards shard other }
    {
        self.merged_range(shard, other).err()
    }

    /// Merges two adjacent shards, and returns the number of their child (Kinesis API Reference, MergeShards). Both
    /// shards are closed at the time `clock`, with the ending sequence number `seq`. The child is added at the end of
    /// the list. Its parent is `shard`, and its adjacent parent is `other`. The merge is refused if `merge_refusal`
    /// returns a reason. If the merge is refused or memory runs out, the shards are unchanged. Memory can't run out if
    /// memory for one more shard is reserved.
    pub fn merge(
        &mut self,
        shard: ShardNo,
        other: ShardNo,
        seq: Seq,
        clock: Moment,
    ) -> Result<Result<ShardNo, Refusal>, Memory>
        requires { seq + 1 < 2 ^ 64 }
        ensures answer { IfOk result
            (λ a. a ≡ answer_by (merge_refusal self.old.shards shard other) (length self.old.shards)) }
        ensures value { OnOk result (self.new.shards ≡ after_merge self.old.shards shard other seq clock) }
        ensures refused { IsSome (merge_refusal self.old.shards shard other) → IsOk result }
        ensures memory { OnErr result (self.new.shards ≡ self.old.shards) }
        ensures reserved { 1 ≤ self.old.spare → IsOk result }
        ensures spare { self.old.spare ≤ self.new.spare + 1 }
    {
        let range = match self.merged_range(shard, other) {
            Ok(range) => range,
            Err(refusal) => return Ok(Err(refusal)),
        };
        let child = ShardNo(self.len());
        let start = Seq(seq.0 + 1);
        let born = KeptShard::new(child, range, Some(shard), Some(other), start);
        self.starts.reserve(1)?;
        self.first_children.reserve(1)?;
        self.shards.push(born)?;
        self.shards[shard.0 as usize].close(seq, clock);
        self.shards[other.0 as usize].close(seq, clock);
        join_starts(&mut self.starts, shard, other, born.open_start());
        set_first_child(&mut self.first_children, shard, other, child);
        self.first_children.push_reserved(None);
        Ok(Ok(child))
    }
}

/// Returns the starts of those of `shards` that are open, in rising order of their hash keys.
fn open_starts(alloc: Global, shards: &[KeptShard]) -> Result<Vec<OpenStart>, Memory>
    ensures { AreNumbered 0 shards.now → IfOk result (λ starts. AreStarts starts.items shards.now) }
{
    let mut starts = Vec::new(alloc);
    for kept in shards {
        if kept.is_open() {
            starts.push(kept.open_start())?;
        }
    }
    sort_starts(&mut starts);
    Ok(starts)
}

/// Returns the hash keys of `starts`, in the same order.
fn keys_of(alloc: Global, starts: &[OpenStart]) -> Result<Items<u128>, Memory>
    ensures { IfOk result (λ keys. keys ≡ starting_keys starts.now) }
{
    let mut keys = Items::new(alloc);
    for start in starts {
        keys.push(start.key)?;
    }
    Ok(keys)
}

/// Returns the index of the shard that follows the shard `after`, or 0 if `after` is `None`. The index of each shard is
/// its number. If no shard follows, returns the number of shards.
fn start_behind(shards: &[KeptShard], after: Option<ShardNo>) -> usize
    ensures there { result ≤ length shards.now }
    ensures behind { AreNumbered 0 shards.now → drop result shards.now ≡ filter (is_after_shard after) shards.now }
{
    match after {
        Some(no) if (no.0 as usize) < shards.len() => no.0 as usize + 1,
        Some(_) => shards.len(),
        None => 0,
    }
}

/// Returns those of the shards `numbers` of `shards`, and of the shards `rest`, that haven't expired at the trim
/// horizon `cut`. If there are more than `limit` such shards, only the first `limit` of them are returned. The returned
/// `bool` says whether more unexpired shards follow.
fn page_of(
    alloc: Global,
    shards: &[KeptShard],
    numbers: &[ShardNo],
    rest: &[KeptShard],
    cut: &Option<Moment>,
    limit: u32,
) -> Result<(Items<Shard>, bool), Memory>
    ensures shards { IfOk result (λ r. r.0 ≡ take limit (listing cut.now (picked numbers.now shards.now ++ rest.now))) }
    ensures more { IfOk result
        (λ r. r.1 ≡ are_more limit (listing cut.now (picked numbers.now shards.now ++ rest.now))) }
{
    let mut listed = Items::new(alloc);
    if list_numbers(&mut listed, shards, numbers, cut, limit)? {
        return Ok((listed, true));
    }
    let more = list_rest(&mut listed, rest, cut, limit)?;
    Ok((listed, more))
}

/// Adds those of the shards `numbers` of `shards` to `listed` that haven't expired at the trim horizon `cut`, until
/// `listed` has `limit` shards. Returns whether there are more.
fn list_numbers(
    listed: &mut Items<Shard>,
    shards: &[KeptShard],
    numbers: &[ShardNo],
    cut: &Option<Moment>,
    limit: u32,
) -> Result<bool, Memory>
    requires { length listed.old ≤ limit }
    ensures { IfOk result
        (λ more. Lists limit (listed.old ++ listing cut.now (picked numbers.now shards.now)) listed.new more) }
{
    for no in numbers {
        if list_number(listed, shards, *no, cut, limit)? {
            return Ok(true);
        }
    }
    Ok(false)
}

/// Adds those of the shards `rest` to `listed` that haven't expired at the trim horizon `cut`, until `listed` has
/// `limit` shards. Returns whether there are more.
fn list_rest(
    listed: &mut Items<Shard>,
    rest: &[KeptShard],
    cut: &Option<Moment>,
    limit: u32,
) -> Result<bool, Memory>
    requires { length listed.old ≤ limit }
    ensures { IfOk result (λ more. Lists limit (listed.old ++ listing cut.now rest.now) listed.new more) }
{
    for kept in rest {
        if list_one(listed, kept, cut, limit)? {
            return Ok(true);
        }
    }
    Ok(false)
}

/// Adds shard `no` of `shards` to `listed`, if there is such a shard and it hasn't expired at the trim horizon `cut`.
/// Returns whether it would have been added but for the `limit` shards that `listed` has already.
fn list_number(
    listed: &mut Items<Shard>,
    shards: &[KeptShard],
    no: ShardNo,
    cut: &Option<Moment>,
    limit: u32,
) -> Result<bool, Memory>
    requires { length listed.old ≤ limit }
    ensures { IfOk result
        (λ more. Lists limit (listed.old ++ listing cut.now (picked_before (slice_get shards.now no) []))
        listed.new more) }
{
    match shards.get(no.0 as usize) {
        Some(kept) => list_one(listed, kept, cut, limit),
        None => Ok(false),
    }
}

/// Adds the shard `kept` to `listed`, if it hasn't expired at the trim horizon `cut`. Returns whether it would have
/// been added but for the `limit` shards that `listed` has already.
fn list_one(
    listed: &mut Items<Shard>,
    kept: &KeptShard,
    cut: &Option<Moment>,
    limit: u32,
) -> Result<bool, Memory>
    requires { length listed.old ≤ limit }
    ensures { IfOk result (λ more. Lists limit (listed.old ++ listing cut.now (kept.now ∷ [])) listed.new more) }
{
    if kept.is_expired(cut) {
        return Ok(false);
    }
    if listed.as_slice().len() == limit as usize {
        return Ok(true);
    }
    listed.push(*kept.shard())?;
    Ok(false)
}

/// Returns the shard with the number `no` as a `Shard`, the type in which replies to clients describe shards. The
/// result is `None` if there is no such shard.
fn shown_at(shards: &[KeptShard], no: ShardNo) -> Option<&Shard>
    ensures { option_map (λ s. s.now) result ≡ option_map shown (slice_get shards.now no) }
{
    shards.get(no.0 as usize).map(|kept| kept.shard())
}
