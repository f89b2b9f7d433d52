//! The stream service and its operations. The clock is the greatest time of all commands so far. A record is trimmed
//! once it is older than its stream's retention period. A shard is listed until it has been closed for the retention
//! period.
ghost use Rattle.std.specs.Prelude.{◌≡◌, ◌≤◌, ◌-◌, ◌^◌, ◌<◌, ℕ, [], map, true, IfOk, OnErr};
ghost use Rattle.std.specs.List.{AllByRecursion};
ghost use Rattle.std.specs.Option.{option_map};
ghost use Rattle.kds_defs.specs.Journal.{Journal};
ghost use Rattle.kds_defs.specs.Keys.{is_listed_key};
ghost use Rattle.kds_defs.specs.Kinds.{is_service};
ghost use Rattle.kds_defs.specs.Lawful.{IsLawfulCommand};
ghost use Rattle.kds_defs.specs.Listings.{listed_in};
ghost use Rattle.kds_defs.specs.Origins.{origin_position};
ghost use Rattle.kds_defs.specs.Records.{batch, stored};
ghost use Rattle.kds_defs.specs.Shards.{shown};
ghost use Rattle.kds_defs.specs.Streams.{live_streams};
ghost use Rattle.kds_stream.specs.ReadEnds.{read_ends};
ghost use Rattle.kds_service.specs.Clocks.{CanRetreat, advanced, retreated_service, settled_next};
ghost use Rattle.kds_service.specs.Keyed.{is_listed_in, live_shard};
ghost use Rattle.kds_service.specs.Shown.{Leads, ShowsAll, service};

use crate::clocks::{advance_all, in_rotation, retreat_all, settle_stream};
use crate::serve::serve;
use crate::streams_by_name::Streams;
use crate::{laws, lease_keys};
use indexmap::IndexMap;
use kds_base::{Items, Memory, Moment, ShardRef, next_of};
use kds_defs::{Answer, Command, Origin, Shard, Stored};
use std::alloc::Global;
use std::marker::Model;

/// The stream service: its clock, the number of streams that were ever created, and the live streams. A stream is live
/// from its creation until its deletion. The live streams can be found by name, and are in the order of their numbers.
/// The clock of each stream always equals the service's clock.
#[derive(Drop)]
pub struct Service {
    clock: Moment,
    clock_before: Moment,
    made_count: u64,
    streams: Streams,
    /// The index of the stream from which `settle` removes trimmed records next.
    next_to_settle: usize,
}

impl Model for Service {
    ghost use Rattle.indexmap.specs.IndexMap.{values};
    ghost use Rattle.kds_service.specs.Indexes.{AreNamedAt};
    ghost use Rattle.kds_service.specs.Shown.{ServiceValue};

    ghost Value = { ServiceValue };

    ghost view = { λ s. record {
      clock = s.clock;
      clock_before = s.clock_before;
      made_count = s.made_count;
      streams = values s.streams;
      next_to_settle = s.next_to_settle;
    } };

    ghost invariant = { λ s. AreNamedAt s.clock s.streams.entries };
}

impl Service {
    /// Returns a service with the clock 0 and without streams. The service allocates its memory from `alloc`.
    pub fn new(alloc: Global) -> Service
        ensures value { result ≡ service 0 0 0 [] }
        ensures shows { ShowsAll result [] }
    {
        laws::others();
        Service {
            clock: Moment::start(),
            clock_before: Moment::start(),
            made_count: 0,
            streams: IndexMap::new(alloc),
            next_to_settle: 0,
        }
    }

    /// Raises the clock of the service and of every stream to `clock`. The newly trimmed records aren't removed yet.
    pub fn advance(&mut self, clock: Moment)
        requires { self.old.clock ≤ clock }
        ensures value { self.new ≡ record self.old {
          clock = clock;
          clock_before = self.old.clock;
          streams = map (advanced clock) self.old.streams;
        } }
        ensures shows { (log : Journal) → ShowsAll self.old log → ShowsAll self.new log }
        ensures can_retreat { CanRetreat self.new }
        ensures shows_retreated { (log : Journal) → ShowsAll self.old log → ShowsAll (retreated_service self.new) log }
    {
        advance_all(&mut self.streams, self.clock, clock);
        self.clock_before = self.clock;
        self.clock = clock;
    }

    /// Sets the clock of the service, and the clock and the trim horizon of every stream, back to their values before
    /// the last `advance`. Precondition: since that `advance`, nothing was changed and `settle` wasn't called.
    pub fn retreat(&mut self)
        requires { CanRetreat self.old }
        ensures { self.new ≡ retreated_service self.old }
    {
        retreat_all(&mut self.streams);
        self.clock = self.clock_before;
    }

    /// Removes the trimmed records of one shard: the next shard of the next stream, both in rotation. No reply to a
    /// client depends on whether trimmed records are removed. A call handles only one shard, so its cost doesn't grow
    /// with the number of streams or shards.
    pub fn settle(&mut self)
        ensures clock { self.new.clock ≡ self.old.clock }
        ensures dropped { self.new ≡ settled_next self.old }
        ensures shows { (log : Journal) → ShowsAll self.old log → ShowsAll self.new log }
    {
        let count = self.streams.len();
        let index = in_rotation(count, self.next_to_settle);
        settle_stream(&mut self.streams, index);
        self.next_to_settle = next_of(count, index);
        self.clock_before = self.clock;
    }

    /// Serves a command for the stream service at the service's clock (Kinesis API Reference, the operations of the
    /// commands). If memory runs out, the service is unchanged.
    pub fn serve(&mut self, what: Command) -> Result<Answer, Memory>
        requires lawful { IsLawfulCommand what }
        requires own { is_service what ≡ true }
        ensures leads { IfOk result (Leads self.old self.new what) }
        ensures clock { self.new.clock ≡ self.old.clock }
        ensures next_to_settle { self.new.next_to_settle ≡ self.old.next_to_settle }
        ensures kept { OnErr result (self.new ≡ self.old) }
    {
        let alloc = *self.streams.allocator();
        serve(
            alloc,
            &mut self.streams,
            &mut self.made_count,
            self.clock,
            what,
        )
    }

    /// Whether the shard with this key is listed: its stream is live, and the shard was made and hasn't expired.
    pub fn is_listed(&self, key: ShardRef) -> bool
        ensures value { result ≡ is_listed_in self.now.streams key }
        ensures shown { (log : Journal) → ShowsAll self.now log → result ≡ is_listed_key log self.now.clock key }
    {
        lease_keys::is_listed(&self.streams, &key)
    }

    /// Returns the shard with this key, or `None` if and only if its stream isn't live or the shard was never made.
    pub fn shard(&self, key: ShardRef) -> Option<&Shard>
        ensures { (log : Journal) → ShowsAll self.now log
            → option_map (λ x. x.now) result ≡ option_map shown (live_shard log key) }
    {
        lease_keys::shard(&self.streams, &key)
    }

    /// Returns the keys of the listed (unexpired) shards of all streams, sorted by stream number, and within a stream
    /// by shard number.
    pub fn listed(&self) -> Result<Items<ShardRef>, Memory>
        ensures { (log : Journal) → ShowsAll self.now log
            → IfOk result (λ keys. keys ≡ listed_in log self.now.clock (live_streams log)) }
    {
        lease_keys::listed(*self.streams.allocator(), &self.streams)
    }

    /// Returns the position at which the reading of a listed (unexpired) shard begins, as a sequence number (Kinesis
    /// API Reference, GetShardIterator, ShardIteratorType). If `from` is TRIM_HORIZON, the position is 0. If `from` is
    /// LATEST, the position is the next sequence number of the shard's stream. If `from` is a time, the position is the
    /// sequence number of the first untrimmed record that arrived at or after this time, or the stream's next sequence
    /// number if there is no such record.
    pub fn position(&self, key: ShardRef, from: Origin) -> u64
        requires { is_listed_in self.now.streams key ≡ true }
        ensures { (log : Journal) → ShowsAll self.now log → result ≡ origin_position log self.now.clock key from }
    {
        lease_keys::position(&self.streams, &key, from)
    }

    /// Reads a listed (unexpired) shard at `position`, and returns the batch of at most `limit` records. The returned
    /// `bool` says whether the shard ends after this batch: the shard is closed, and it has no untrimmed record after
    /// the batch.
    pub fn read(
        &self,
        key: ShardRef,
        position: u64,
        limit: u32,
    ) -> Result<(Items<Stored>, bool), Memory>
        requires { is_listed_in self.now.streams key ≡ true }
        ensures batch { (log : Journal) → ShowsAll self.now log
            → IfOk result (λ r. r.0 ≡ map stored (batch log self.now.clock key.stream key.shard position limit)) }
        ensures numbers { IfOk result (λ r. AllByRecursion (λ x. x.seq < 2 ^ 64 - 1) r.0) }
        ensures end { (log : Journal) → ShowsAll self.now log
            → IfOk result (λ r. r.1 ≡ read_ends log self.now.clock key.stream key.shard position limit) }
    {
        lease_keys::read(
            *self.streams.allocator(),
            &self.streams,
            &key,
            position,
            limit,
        )
    }
}
