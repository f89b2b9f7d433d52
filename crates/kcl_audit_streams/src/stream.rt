//! A stream in the judge's model of the streams. The judge checks the entries of a journal, which is an event log. An
//! entry records a command and what this command changed. The trim floor is a time that follows from the retention
//! period. Records that arrived before the trim floor are trimmed, and no others.
ghost use Rattle.std.specs.Prelude.{Bool, Ok, ◌≡◌, ◌≢◌, ◌+◌, ◌-◌, ◌*◌, ◌<◌, ◌≤◌, ◌^◌, if◌then◌else◌, slice_get, None};
ghost use Rattle.std.specs.Prelude.{Some, IfOk, OnOk, OnErr};
ghost use Rattle.std.specs.Option.{option_map};
ghost use Rattle.std.specs.List.{AllByRecursion};
ghost use Rattle.kds_defs.specs.declared.limits.TheConstants.{BATCH_BYTES, HOUR, MOST_SHARDS};
ghost use Rattle.kds_defs.specs.Records.{beginning, numbers_of, position_after};
ghost use Rattle.kds_defs.specs.Shards.{shown};
ghost use Rattle.kds_defs.specs.StreamCommands.{last_number};
ghost use Rattle.kds_defs.specs.Streams.{floor_at, floor_of};
ghost use Rattle.kds_tree.specs.Tree.{merge_refusal, split_refusal};
ghost use Rattle.kcl_audit_streams.specs.declared.rule.Rule.TheVariants as rule;
ghost use Rattle.kcl_audit_streams.specs.Verdict.{IsFit};
ghost use Rattle.kcl_audit_streams.specs.Judging.{agrees, entry_verdict, is_end_in, is_spent, left_in, merge_verdict};
ghost use Rattle.kcl_audit_streams.specs.Judging.{new_stream, position_in, put_verdict, refused, split_verdict};
ghost use Rattle.kcl_audit_streams.specs.Judging.{with_entry, with_gone, with_hours, with_limits, with_merge, with_put};
ghost use Rattle.kcl_audit_streams.specs.Judging.{with_split};
ghost use Rattle.kcl_audit_streams.specs.Standing.{floor_in, is_listed_in};

use crate::records::{Sized, batch, first_since, none_left};
use crate::rule::Rule;
use crate::stream_records::Records;
use kds_base::{Items, Memory, Moment, Name, Seq, ShardNo};
use kds_defs::limits::{FIRST_HOURS, HOUR};
use kds_defs::{Entry, Origin, Refusal, Shard, position_after_numbers};
use kds_tree::ShardTree;
use std::alloc::Global;
use std::marker::Model;

/// A stream, as the entries of a journal describe it. The model keeps deleted streams too.
#[derive(Drop)]
pub struct ToldStream {
    pub name: Name,
    pub live: bool,
    /// Whether the stream's throughput limits are on.
    pub enforced: bool,
    /// The retention period in hours.
    pub hours: u32,
    /// The trim floor that the stream had right after the last change of its retention period, or 0 if the period was
    /// never changed. Records that arrived before this floor stay trimmed, even if the period is longer now.
    pub floor: u64,
    /// The sequence number that the next record, split or merge of the stream gets.
    pub next: u64,
    pub tree: ShardTree,
    pub records: Records,
}

impl Model for ToldStream {
    ghost use Rattle.std.specs.Prelude.{◌-◌, ◌<◌, ◌≤◌, ◌^◌};
    ghost use Rattle.std.specs.List.{AllByRecursion};
    ghost use Rattle.kcl_audit_streams.specs.Order.{AreNumbered};
    ghost use Rattle.kcl_audit_streams.specs.Standing.{StreamValue};

    ghost Value = { StreamValue };

    ghost invariant = { λ s. (s.floor ≤ 2 ^ 62)
        × (AllByRecursion (λ r. r.seq < 2 ^ 64 - 1) s.records × AreNumbered s.next s.records) };

    ghost view = { λ s. record {
      name = s.name;
      live = s.live;
      enforced = s.enforced;
      hours = s.hours;
      floor = s.floor;
      next = s.next;
      tree = s.tree.shards;
      records = s.records;
    } };
}

/// Returns the trim floor at the time `clock` for a retention period of `hours` hours. Records that arrived before the
/// floor are trimmed. The floor is `clock` + 1 ms minus the period, or 0 if this difference is negative.
fn floor_at(clock: Moment, hours: u32) -> u64
    ensures value { result ≡ floor_at clock (hours * HOUR) }
    ensures least { result ≤ 2 ^ 62 }
{
    let next = clock.ms() + 1;
    next.saturating_sub(hours as u64 * HOUR)
}

/// Returns the verdict on an entry whose command is accepted. `same` is true if this command leads to exactly the entry
/// that is judged. If `same` is false, the entry breaks the rule `Entry`.
pub fn agrees(same: bool) -> Result<(), Rule>
    ensures { result ≡ agrees same }
{
    if same { Ok(()) } else { Err(Rule::Entry) }
}

/// Returns the verdict on an entry whose command gets the refusal `refusal`: the entry breaks the rule `By`.
pub fn refused(refusal: Refusal) -> Result<(), Rule>
    ensures { result ≡ refused refusal }
{
    Err(Rule::By(refusal))
}

impl ToldStream {
    /// Returns a new stream called `name` with `shards` shards and without records.
    pub fn new(alloc: Global, name: Name, shards: u32) -> Result<ToldStream, Memory>
        requires least { 1 ≤ shards }
        requires most { shards ≤ MOST_SHARDS }
        ensures { IfOk result (λ v. v ≡ new_stream name shards) }
    {
        Ok(ToldStream {
            name,
            live: true,
            enforced: false,
            hours: FIRST_HOURS,
            floor: 0,
            next: 1,
            tree: ShardTree::new(alloc, shards)?,
            records: Records::new(alloc),
        })
    }

    /// Whether the stream is live, which means that it hasn't been deleted.
    pub fn is_live(&self) -> bool
        ensures { result ≡ self.now.live }
    {
        self.live
    }

    /// Notes that the stream's throughput limits were turned on (if `on` is true) or off (if not).
    pub fn note_limits(&mut self, on: bool)
        ensures { self.new ≡ with_limits on self.old }
    {
        self.enforced = on;
    }

    /// Notes that the stream was deleted.
    pub fn add_gone(&mut self)
        ensures { self.new ≡ with_gone self.old }
    {
        self.live = false;
    }

    /// Returns the trim floor at the time `clock`. Records that arrived before the floor are trimmed.
    pub fn floor(&self, clock: Moment) -> u64
        ensures value { result ≡ floor_in self.now clock }
        ensures most { result ≤ 2 ^ 62 }
    {
        self.floor.max(floor_at(clock, self.hours))
    }

    /// Returns the trim horizon at the time `clock`. Records that arrived at or before the trim horizon are trimmed.
    /// Returns `None` if no record can be trimmed yet.
    fn trimmed_up_to(&self, clock: Moment) -> Option<Moment>
        ensures { floor_of result ≡ floor_in self.now clock }
    {
        let above = self.floor(clock);
        if above == 0 {
            None
        } else {
            Moment::new(above - 1)
        }
    }

    /// Whether ListShards returns the shard at the time `clock`. This is the case if the stream has such a shard, the
    /// shard hasn't expired, and the stream hasn't been deleted. A shard expires once it has been closed for the
    /// retention period.
    pub fn is_listed(&self, clock: Moment, shard: ShardNo) -> bool
        ensures { result ≡ is_listed_in (Some self.now) clock shard }
    {
        self.live
            && self.tree.shard(shard).is_some()
            && !self.tree.expired(shard, self.trimmed_up_to(clock))
    }

    /// Returns the shard with the number `shard`, or `None` if there is no such shard or the stream was deleted.
    pub fn shard(&self, shard: ShardNo) -> Option<&Shard>
        ensures { option_map (λ x. x.now) result
            ≡ (if self.now.live then option_map shown (slice_get self.now.tree shard) else None) }
    {
        if self.live {
            self.tree.shard(shard)
        } else {
            None
        }
    }

    /// Judges the entry `put`, which says that a record was put into this live stream. The present time is `clock`.
    /// According to the entry, the record is in `shard` with the sequence number `seq`, its hash key is `hash`, and its
    /// payload and key together have `bytes` bytes.
    pub fn judge_put(
        &self,
        clock: Moment,
        shard: ShardNo,
        seq: Seq,
        hash: u128,
        bytes: u64,
    ) -> Result<(), Rule>
        ensures { result ≡ put_verdict self.now clock shard seq hash bytes }
    {
        let home = self.tree.home(hash);
        if self.enforced && self.records.is_throttled(home, clock, bytes) {
            return refused(Refusal::Throttled(home));
        }
        if self.next == u64::MAX {
            return refused(Refusal::Spent);
        }
        agrees(home == shard && self.next == seq.0)
    }

    /// Whether the stream has no sequence number left, or too few shard numbers left for `more` + 1 new shards.
    fn is_spent(&self, more: u64) -> bool
        ensures { result ≡ is_spent self.now more }
    {
        self.tree.len() > u64::MAX - more || self.next == u64::MAX
    }

    /// Judges the entry `split`, which says that `shard` of this live stream was split at the hash key `at`. The
    /// present time is `clock`. According to the entry, the split has the sequence number `seq`, and the child shards
    /// are `low` and `high`. `full` is true if all streams together already have the maximum number of open shards.
    pub fn judge_split(
        &self,
        clock: Moment,
        shard: ShardNo,
        at: u128,
        full: bool,
        seq: Seq,
        low: ShardNo,
        high: ShardNo,
    ) -> Result<(), Rule>
        ensures { result ≡ split_verdict self.now clock shard at full seq low high }
    {
        if !self.is_listed(clock, shard) {
            return refused(Refusal::NoShard);
        }
        if let Some(refusal) = self.tree.split_refusal(shard, at) {
            return refused(refusal);
        }
        if full {
            return refused(Refusal::Full);
        }
        if self.is_spent(1) {
            return refused(Refusal::Spent);
        }
        let first = self.tree.len();
        agrees(seq.0 == self.next && low.0 == first && high.0 == first + 1)
    }

    /// Judges the entry `merged`, which says that the shards `shard` and `other` of this live stream were merged. The
    /// present time is `clock`. According to the entry, the merge has the sequence number `seq`, and the child shard is
    /// `child`.
    pub fn judge_merge(
        &self,
        clock: Moment,
        shard: ShardNo,
        other: ShardNo,
        seq: Seq,
        child: ShardNo,
    ) -> Result<(), Rule>
        ensures { result ≡ merge_verdict self.now clock shard other seq child }
    {
        if !self.is_listed(clock, shard) || !self.is_listed(clock, other) {
            return refused(Refusal::NoShard);
        }
        if let Some(refusal) = self.tree.merge_refusal(shard, other) {
            return refused(refusal);
        }
        if self.is_spent(0) {
            return refused(Refusal::Spent);
        }
        agrees(seq.0 == self.next && child.0 == self.tree.len())
    }

    /// Returns the sequence numbers of the batch that a read of `shard` at `position` returns, and whether the shard
    /// ends after this batch.
    pub fn read(
        &self,
        alloc: Global,
        clock: Moment,
        shard: ShardNo,
        position: u64,
        limit: u32,
    ) -> Result<(Items<Seq>, bool), Memory>
        ensures numbers { IfOk result
            (λ r. r.0 ≡ numbers_of (beginning limit BATCH_BYTES (left_in self.now clock shard position))) }
        ensures small { IfOk result (λ r. AllByRecursion (λ n. n < 2 ^ 64 - 1) r.0) }
        ensures end { IfOk result (λ r. r.1 ≡ is_end_in self.now clock shard position r.0) }
    {
        let floor = self.floor(clock);
        let ahead = self.records.ahead(shard, floor, position);
        let numbers = batch(alloc, ahead, shard, floor, position, limit)?;
        let reach = position_after_numbers(position, numbers.as_slice());
        let closed = match self.tree.shard(shard) {
            Some(shown) => shown.end.is_some(),
            None => false,
        };
        let end = closed && none_left(self.records.ahead(shard, floor, reach), shard, floor, reach);
        Ok((numbers, end))
    }

    /// Returns the position in `shard` at which a read from the origin `from` begins at the time `clock`. An origin is
    /// TRIM_HORIZON, LATEST or a moment.
    pub fn position(&self, clock: Moment, shard: ShardNo, from: Origin) -> u64
        ensures { result ≡ position_in self.now clock shard from }
    {
        match from {
            Origin::TrimHorizon => 0,
            Origin::Latest => self.next,
            Origin::Time(moment) => {
                let floor = self.floor(clock);
                first_since(
                    self.records.since(shard, floor, moment),
                    shard,
                    floor,
                    moment,
                    self.next,
                )
            }
        }
    }

    /// Adds a record that was put at the time `clock`. Preconditions: `seq` is the stream's next sequence number, and
    /// isn't the greatest `u64`. If memory runs out, the stream is unchanged.
    pub fn add_put(
        &mut self,
        clock: Moment,
        shard: ShardNo,
        seq: Seq,
        bytes: u64,
    ) -> Result<(), Memory>
        requires number { seq ≡ self.old.next }
        requires unspent { self.old.next ≢ last_number }
        ensures ok { OnOk result
            (self.new ≡ with_put (record { shard = shard; seq = seq; arrival = clock; bytes = bytes }) self.old) }
        ensures err { OnErr result (self.new ≡ self.old) }
    {
        self.records.push(Sized {
            shard,
            seq,
            arrival: clock,
            bytes,
        })?;
        self.next += 1;
        Ok(())
    }

    /// Notes that `shard` was split at the time `clock`. The hash key of the split is `at`. Preconditions: the split is
    /// allowed, `seq` is the stream's next sequence number, and `seq` isn't the greatest `u64`. If memory runs out, the
    /// stream is unchanged.
    pub fn add_split(
        &mut self,
        clock: Moment,
        shard: ShardNo,
        at: u128,
        seq: Seq,
    ) -> Result<(), Memory>
        requires number { seq ≡ self.old.next }
        requires unspent { self.old.next ≢ last_number }
        requires allowed { split_refusal self.old.tree shard at ≡ None }
        ensures ok { OnOk result (self.new ≡ with_split clock shard at seq self.old) }
        ensures err { OnErr result (self.new ≡ self.old) }
    {
        match self.tree.split(shard, at, seq, clock)? {
            Ok(_) => {
                self.next += 1;
                Ok(())
            }
            Err(_) => unreachable!(),
        }
    }

    /// Notes that `shard` and `other` were merged at the time `clock`. Preconditions: the merge is allowed, `seq` is
    /// the stream's next sequence number, and `seq` isn't the greatest `u64`. If memory runs out, the stream is
    /// unchanged.
    pub fn add_merge(
        &mut self,
        clock: Moment,
        shard: ShardNo,
        other: ShardNo,
        seq: Seq,
    ) -> Result<(), Memory>
        requires number { seq ≡ self.old.next }
        requires unspent { self.old.next ≢ last_number }
        requires allowed { merge_refusal self.old.tree shard other ≡ None }
        ensures ok { OnOk result (self.new ≡ with_merge clock shard other seq self.old) }
        ensures err { OnErr result (self.new ≡ self.old) }
    {
        match self.tree.merge(shard, other, seq, clock)? {
            Ok(_) => {
                self.next += 1;
                Ok(())
            }
            Err(_) => unreachable!(),
        }
    }

    /// Notes that the retention period was changed to `hours` hours at the time `clock`. All records that are trimmed
    /// at this time, according to the old or the new period, stay trimmed.
    pub fn add_kept(&mut self, clock: Moment, hours: u32)
        ensures { self.new ≡ with_hours clock hours self.old }
    {
        let before = self.floor(clock);
        self.hours = hours;
        self.floor = before.max(floor_at(clock, hours));
    }

    /// Applies an entry that breaks no rule to this live stream. The entry can be any entry about this stream, except
    /// the one that creates it. If memory runs out, the stream is unchanged.
    pub fn add(&mut self, clock: Moment, what: &Entry) -> Result<(), Memory>
        requires fit { IsFit what.now }
        requires good { (full : Bool) × (entry_verdict full clock what.now self.old ≡ Ok tt) }
        ensures ok { OnOk result (self.new ≡ with_entry clock what.now self.old) }
        ensures err { OnErr result (self.new ≡ self.old) }
    {
        match what {
            Entry::Gone { .. } => self.add_gone(),
            Entry::Put {
                shard,
                seq,
                bytes,
                key_bytes,
                ..
            } => self.add_put(clock, *shard, *seq, *bytes + *key_bytes)?,
            Entry::Split { shard, at, seq, .. } => self.add_split(clock, *shard, *at, *seq)?,
            Entry::Merged {
                shard,
                other,
                seq,
                ..
            } => self.add_merge(clock, *shard, *other, *seq)?,
            Entry::Kept { hours, .. } => self.add_kept(clock, *hours),
            Entry::Enforced { on, .. } => self.note_limits(*on),
            _ => (),
        }
        Ok(())
    }
}
