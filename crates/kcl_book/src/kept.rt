//! A tenure as the book, the list of all tenures, stores it. A tenure is one worker's hold on a lease. An actor is a
//! client or a process. A read of a tenure counts as delivered once the record processor has processed the batch of the
//! read. Until then, the read is pending.
ghost use Rattle.std.specs.Prelude.{◌≡◌, ◌≢◌, ◌<◌, length, true, false, ℕ};
ghost use Rattle.kds_base.specs.declared.lease_key.Checkpoint.TheVariants.{At, ShardEnd};
ghost use Rattle.kds_defs.specs.declared.limits.TheConstants.{PENDING_READS};
ghost use Rattle.kds_defs.specs.Leases.{start_position};
ghost use Rattle.kds_defs.specs.Listings.{are_none};
ghost use Rattle.kcl_book.specs.Tenures.{begun, shown, with_given, with_read};

use crate::tenure::{PendingRead, Tenure};
use arrayvec::ArrayVec;
use kds_base::{Checkpoint, ShardRef};
use kds_defs::limits::PENDING_READS;
use std::marker::Model;

/// The greatest number of pending reads that a tenure may have.
const ROOM: usize = PENDING_READS as usize;

/// A tenure with its pending reads, the oldest first. A read is pending until its batch counts as delivered.
#[derive(Drop)]
pub struct KeptTenure {
    by: u32,
    key: ShardRef,
    start: Checkpoint,
    opened: bool,
    reach: u64,
    delivered: u64,
    pending: ArrayVec<PendingRead, ROOM>,
    at_end: bool,
}

impl Model for KeptTenure {
    ghost use Rattle.kcl_book.specs.Tenures.{TenureValue};

    ghost Value = { TenureValue };

    ghost view = { λ t. record {
      by = t.by;
      key = t.key;
      start = t.start;
      opened = t.opened;
      reach = t.reach;
      delivered = t.delivered;
      pending = t.pending.items;
      at_end = t.at_end;
    } };
}

/// Returns the position at which a tenure begins to read if its first checkpoint is `start`.
fn start_position(start: &Checkpoint) -> u64
    requires { (q : ℕ) → start.now ≡ At q → q < u64.MAX }
    ensures { result ≡ start_position start.now }
{
    match start {
        Checkpoint::At(q) => q.0 + 1,
        Checkpoint::TrimHorizon | Checkpoint::ShardEnd => 0,
    }
}

impl KeptTenure {
    /// Returns a new tenure of the lease `key`. The tenure begins at the checkpoint `start`. The actor `by` has taken
    /// the lease.
    pub fn begin(by: u32, key: ShardRef, start: Checkpoint) -> KeptTenure
        requires { start ≢ At u64.MAX }
        ensures { result ≡ begun by key start }
    {
        let position = start_position(&start);
        KeptTenure {
            by,
            key,
            start,
            opened: false,
            reach: position,
            delivered: position,
            pending: ArrayVec::new(),
            at_end: false,
        }
    }

    /// Returns the tenure as a `Tenure`, the form in which other crates see it.
    pub fn shown(&self) -> Tenure
        ensures { result ≡ shown self.now }
    {
        Tenure {
            by: self.by,
            key: self.key,
            start: self.start,
            opened: self.opened,
            reach: self.reach,
            delivered: self.delivered,
            pending: self.pending.len() as u32,
            at_end: self.at_end,
        }
    }

    /// Returns the position up to which the tenure's records were delivered to its record processor.
    pub fn delivered(&self) -> u64
        ensures { result ≡ self.now.delivered }
    {
        self.delivered
    }

    /// Whether the tenure's last delivered read reached the shard's end.
    pub fn at_end(&self) -> bool
        ensures { result ≡ self.now.at_end }
    {
        self.at_end
    }

    /// Whether the tenure was opened, so that it may read its shard.
    pub fn is_opened(&self) -> bool
        ensures { result ≡ self.now.opened }
    {
        self.opened
    }

    /// Opens the tenure, which may read its shard from then on.
    pub fn open(&mut self)
        ensures { self.new ≡ record self.old { opened = true } }
    {
        self.opened = true;
    }

    /// Adds a pending read to the tenure. `reach` is the position after the records of the read, and `end` says whether
    /// the read reached the shard's end.
    pub fn read(&mut self, reach: u64, end: bool)
        requires { length self.old.pending < PENDING_READS }
        ensures { self.new ≡ with_read reach end self.old }
    {
        self.reach = reach;
        self.pending.push(PendingRead { reach, end });
    }

    /// Whether the tenure has no pending read.
    pub fn has_nothing_pending(&self) -> bool
        ensures { result ≡ are_none self.now.pending }
    {
        self.pending.is_empty()
    }

    /// Counts the tenure's oldest pending read as delivered, and returns the position after that read.
    pub fn give(&mut self) -> u64
        requires { are_none self.old.pending ≡ false }
        ensures delivered { result ≡ self.new.delivered }
        ensures given { self.new ≡ with_given self.old }
    {
        let oldest = self.pending.remove(0);
        self.delivered = oldest.reach;
        self.at_end = oldest.end;
        oldest.reach
    }
}
