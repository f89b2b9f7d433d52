//! All streams in the judge's model of the streams. The judge checks the entries of a journal, which is an event log.
ghost use Rattle.std.specs.Prelude.{Bool, not, nat_lt, length, ◌≡◌, ◌==◌, ◌+◌, ◌-◌, ◌≤◌, ◌∷◌, ◌++◌, [], if◌then◌else◌};
ghost use Rattle.std.specs.Prelude.{None, Some, Ok, OnErr, OnOk};
ghost use Rattle.std.specs.List.{filter};
ghost use Rattle.std.specs.Option.{option_map};
ghost use Rattle.kds_defs.specs.declared.limits.TheConstants.{MOST_SHARDS, OPEN_SHARDS};
ghost use Rattle.kcl_audit_streams.specs.Standing.{is_listed_in, live_at};
ghost use Rattle.kcl_audit_streams.specs.Judging.{changed_at, entry_verdict, in_live, is_named, exceeds_open_limit};
ghost use Rattle.kcl_audit_streams.specs.Judging.{live_count};
ghost use Rattle.kcl_audit_streams.specs.Judging.{made_refusal, new_stream, with_entry};
ghost use Rattle.kcl_audit_streams.specs.Living.{is_deletion, is_named_among, open_among};
ghost use Rattle.kcl_audit_streams.specs.Verdict.{IsFit};

use crate::stream::ToldStream;
use kcl_leases::Shards;
use kds_base::{Memory, Moment, Name, ShardRef, StreamNo};
use kds_defs::limits::{LIVE_STREAMS, OPEN_SHARDS};
use kds_defs::{Entry, Origin, Refusal, Shard};
use std::alloc::Global;
use std::marker::Model;

/// All streams that were ever created, including deleted streams. The stream with the number n has the index n - 1.
#[derive(Drop)]
pub struct StreamList {
    all: Vec<ToldStream>,
    /// The numbers of the live streams, in rising order.
    live: Vec<StreamNo>,
}

impl Model for StreamList {
    ghost use Rattle.std.specs.Prelude.{◌≡◌, List};
    ghost use Rattle.kcl_audit_streams.specs.Living.{live_numbers};
    ghost use Rattle.kcl_audit_streams.specs.Standing.{StreamValue};

    ghost Value = { List StreamValue };

    ghost invariant = { λ s. s.live.items ≡ live_numbers 1 s.all.items };

    ghost view = { λ s. s.all.items };
}

/// All streams that were ever created, and the clock of the journal. The clock is the time of the newest entry, in
/// milliseconds.
#[derive(Drop)]
pub struct ToldStreams {
    pub clock: Moment,
    pub list: StreamList,
}

impl Model for ToldStreams {
    ghost use Rattle.kcl_audit_streams.specs.Standing.{StreamsValue};

    ghost Value = { StreamsValue };

    ghost view = { λ s. record { clock = s.clock; streams = s.list } };
}

/// Returns the live stream with the number `no`, if there is one.
fn live_in(streams: &[ToldStream], no: StreamNo) -> Option<&ToldStream>
    ensures { option_map (λ x. x.now) result ≡ live_at streams.now no }
{
    let index = no.0.checked_sub(1)?;
    if index < streams.len() as u64 && streams[index as usize].is_live() {
        Some(&streams[index as usize])
    } else {
        None
    }
}

/// Whether one of the live streams with the numbers `numbers` has the name `name`.
fn is_named(streams: &[ToldStream], numbers: &[StreamNo], name: &Name) -> bool
    ensures { result ≡ is_named_among streams.now name.now numbers.now }
{
    for no in numbers {
        if let Some(stream) = live_in(streams, *no) {
            if stream.name == *name {
                return true;
            }
        }
    }
    false
}

/// Whether `more` open shards, beside those of the live streams with the numbers `numbers`, would exceed `OPEN_SHARDS`,
/// the maximum number of open shards over all streams.
fn exceeds_open_limit(streams: &[ToldStream], numbers: &[StreamNo], more: u64) -> bool
    requires { more ≤ OPEN_SHARDS }
    ensures { result ≡ nat_lt OPEN_SHARDS (open_among streams.now numbers.now + more) }
{
    let mut open = more;
    for no in numbers {
        if let Some(stream) = live_in(streams, *no) {
            open += stream.tree.open_count() as u64;
        }
        if open > OPEN_SHARDS {
            return true;
        }
    }
    open > OPEN_SHARDS
}

/// Whether an entry says that a stream was deleted.
fn is_deletion(what: &Entry) -> bool
    ensures { result ≡ is_deletion what.now }
{
    matches!(what, Entry::Gone { .. })
}

/// Takes the number `no` out of `numbers`.
fn take_out(numbers: &mut Vec<StreamNo>, no: StreamNo)
    ensures { numbers.new.items ≡ filter (λ n. not (n == no)) numbers.old.items }
{
    numbers.retain(|number| *number != no);
}

impl StreamList {
    /// Returns the list without streams.
    pub fn new(alloc: Global) -> StreamList
        ensures { result ≡ [] }
    {
        StreamList {
            all: Vec::new(alloc),
            live: Vec::new(alloc),
        }
    }

    /// Returns the live stream with the number `no`, if there is one.
    pub fn live(&self, no: StreamNo) -> Option<&ToldStream>
        ensures { option_map (λ x. x.now) result ≡ live_at self.now no }
    {
        live_in(&self.all, no)
    }

    /// Returns the number of streams that were ever created.
    pub fn len(&self) -> u64
        ensures { result ≡ length self.now }
    {
        self.all.len() as u64
    }

    /// Whether adding `more` open shards would exceed `OPEN_SHARDS`, the maximum number of open shards over all
    /// streams.
    pub fn exceeds_open_limit(&self, more: u64) -> bool
        requires { more ≤ OPEN_SHARDS }
        ensures { result ≡ exceeds_open_limit self.now more }
    {
        exceeds_open_limit(&self.all, &self.live, more)
    }

    /// Whether a live stream has the name `name`.
    fn is_named(&self, name: &Name) -> bool
        ensures { result ≡ is_named self.now name.now }
    {
        is_named(&self.all, &self.live, name)
    }

    /// Returns the number of live streams.
    fn live_count(&self) -> u64
        ensures { result ≡ live_count self.now }
    {
        self.live.len() as u64
    }

    /// Returns why a stream called `name` with `shards` shards can't be created. The reason is `StreamThere` if a live
    /// stream has this name, `Full` if there would be too many live streams or open shards, and `Spent` if no stream
    /// number is left. If the stream can be created, the result is `None`.
    pub fn made_refusal(&self, name: &Name, shards: u32) -> Option<Refusal>
        requires { shards ≤ MOST_SHARDS }
        ensures { result ≡ made_refusal self.now name.now shards }
    {
        if self.is_named(name) {
            return Some(Refusal::StreamThere);
        }
        if self.live_count() >= LIVE_STREAMS || self.exceeds_open_limit(shards as u64) {
            return Some(Refusal::Full);
        }
        if self.len() == u64::MAX {
            return Some(Refusal::Spent);
        }
        None
    }

    /// Adds a new stream, which gets the next stream number. If memory runs out, the streams are unchanged.
    pub fn add_made(&mut self, alloc: Global, name: Name, shards: u32) -> Result<(), Memory>
        requires least { 1 ≤ shards }
        requires most { shards ≤ MOST_SHARDS }
        ensures ok { OnOk result (self.new ≡ self.old ++ new_stream name shards ∷ []) }
        ensures err { OnErr result (self.new ≡ self.old) }
    {
        let stream = ToldStream::new(alloc, name, shards)?;
        self.live.reserve(1)?;
        self.all.push(stream)?;
        match self.live.push(StreamNo(self.all.len() as u64)) {
            Ok(()) => Ok(()),
            Err(_) => unreachable!(),
        }
    }

    /// Applies a good entry to the stream with the number `no`. The entry can be any entry about this stream, except
    /// the one that creates it. If memory runs out, the streams are unchanged.
    pub fn add_later(&mut self, clock: Moment, no: StreamNo, what: &Entry) -> Result<(), Memory>
        requires fit { IsFit what.now }
        requires good { (full : Bool) × (in_live (live_at self.old no) (entry_verdict full clock what.now) ≡ Ok tt) }
        ensures ok { OnOk result (self.new ≡ changed_at (no - 1) (with_entry clock what.now) self.old) }
        ensures err { OnErr result (self.new ≡ self.old) }
    {
        self.all[(no.0 - 1) as usize].add(clock, what)?;
        if is_deletion(what) {
            take_out(&mut self.live, no);
        }
        Ok(())
    }
}

/// Whether ListShards returns the shard `key` at the time `clock`.
fn is_listed(streams: &StreamList, clock: Moment, key: ShardRef) -> bool
    ensures { result ≡ is_listed_in (live_at streams.now key.stream) clock key.shard }
{
    match streams.live(key.stream) {
        Some(stream) => stream.is_listed(clock, key.shard),
        None => false,
    }
}

impl Shards for ToldStreams {
    ghost use Rattle.kcl_audit_streams.specs.Standing.{Shows, lists};

    ghost clock = { λ s. s.clock };

    ghost shows = { Shows };

    ghost lists = { lists };

    fn is_listed(&self, key: ShardRef) -> bool {
        is_listed(&self.list, self.clock, key)
    }

    fn shard(&self, key: ShardRef) -> Option<&Shard> {
        match self.list.live(key.stream) {
            Some(stream) => stream.shard(key.shard),
            None => None,
        }
    }

    fn position(&self, key: ShardRef, from: Origin) -> u64 {
        match self.list.live(key.stream) {
            Some(stream) => stream.position(self.clock, key.shard, from),
            None => unreachable!(),
        }
    }

    fn lease_lines(&self) {}
}
