//! One shard of a stream, as `ShardTree` keeps it.
ghost use Rattle.std.specs.Prelude.{◌≡◌, ◌≤◌, not, length, Some, None};
ghost use Rattle.kds_base.specs.Span.{covers};
ghost use Rattle.kds_defs.specs.Shards.{is_open, is_child, is_closed_below, new_shard, shown, with_closed};
ghost use Rattle.kds_defs.specs.Streams.{floor_of};
ghost use Rattle.kds_tree.specs.Starts.{open_start_of};

use crate::start::OpenStart;
use kds_base::{Moment, Range, Seq, ShardNo};
use kds_defs::Shard;
use std::marker::Model;

/// A shard, and the time at which it was closed, if it is closed. In contracts, the value of a `KeptShard` has the
/// fields of the shard and this time.
#[derive(Clone, Copy)]
pub struct KeptShard {
    shard: Shard,
    closed: Option<Moment>,
}

impl Model for KeptShard {
    ghost use Rattle.kds_defs.specs.Shards.{ShardState};

    ghost Value = { ShardState };

    ghost use Rattle.kds_tree.specs.Keeping.{AreBothOrNeither, state_of, fields_of, fields_back};

    ghost view = { state_of };

    ghost invariant = { λ k. AreBothOrNeither k.shard.end k.closed };

    ghost inverse = { fields_of };

    ghost inverse_ok = { fields_back };
}

impl KeptShard {
    /// Returns a new open shard, whose starting sequence number is `start`.
    pub fn new(
        no: ShardNo,
        range: Range,
        parent: Option<ShardNo>,
        adjacent: Option<ShardNo>,
        start: Seq,
    ) -> KeptShard
        ensures { result ≡ new_shard no range parent adjacent start }
    {
        KeptShard {
            shard: Shard {
                no,
                range,
                parent,
                adjacent,
                start,
                end: None,
            },
            closed: None,
        }
    }

    /// Returns the shard as a `Shard`, the type in which replies to clients describe shards.
    pub fn shard(&self) -> &Shard
        ensures { result.now ≡ shown self.now }
    {
        &self.shard
    }

    /// Returns the shard's range of hash keys.
    pub fn range(&self) -> Range
        ensures { result ≡ self.now.range }
    {
        self.shard.range
    }

    /// Returns the number of the shard, and the hash key at which its range starts.
    pub fn open_start(&self) -> OpenStart
        ensures { result ≡ open_start_of self.now self.now.no }
    {
        OpenStart {
            key: self.shard.range.start,
            shard: self.shard.no,
        }
    }

    /// Whether the shard is open. An open shard hasn't been split or merged, so it accepts records.
    pub fn is_open(&self) -> bool
        ensures { result ≡ is_open self.now }
    {
        self.closed.is_none()
    }

    /// Whether shard `no` is the parent or the adjacent parent of this shard.
    pub fn is_child_of(&self, no: ShardNo) -> bool
        ensures { result ≡ is_child no self.now }
    {
        self.shard.parent == Some(no) || self.shard.adjacent == Some(no)
    }

    /// Returns the first number that is greater than the numbers of the shard's parents, or 0 if it has no parents.
    pub fn behind_parents(&self) -> usize {
        behind(&self.shard.parent).max(behind(&self.shard.adjacent))
    }

    /// Whether the shard has expired, which means that it was closed at or before the trim horizon `cut`.
    pub fn is_expired(&self, cut: &Option<Moment>) -> bool
        ensures { result ≡ is_closed_below (floor_of cut.now) self.now }
    {
        match (&self.closed, cut) {
            (Some(closed), Some(cut)) => closed <= cut,
            _ => false,
        }
    }

    /// Closes the shard at the time `clock`, with the ending sequence number `seq`.
    pub fn close(&mut self, seq: Seq, clock: Moment)
        ensures { self.new ≡ record self.old { closing = Some (record { number = seq; clock = clock }) } }
    {
        self.shard.end = Some(seq);
        self.closed = Some(clock);
    }
}

/// Returns the number after `no`, or 0 if `no` is `None`.
fn behind(no: &Option<ShardNo>) -> usize {
    match no {
        Some(no) => (no.0 as usize).saturating_add(1),
        None => 0,
    }
}
