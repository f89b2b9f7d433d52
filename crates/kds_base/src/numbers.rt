//! A type for each kind of number: sequence numbers, and the numbers of streams, shards, tenures and workers. In
//! contracts, a value of such a type is the number itself.

use std::marker::Model;

/// The sequence number of a record, a split or a merge. The records, splits and merges of a stream are numbered
/// together, from 1 on (Kinesis API Reference, SequenceNumber).
#[derive(Clone, Copy, Debug, PartialEq, Eq, PartialOrd, Ord)]
pub struct Seq(pub u64);

impl Model for Seq {
    ghost use Rattle.std.specs.Prelude.{ℕ};

    ghost Value = { ℕ };

    ghost view = { λ s. s.0 };

    ghost inverse = { λ n. record { 0 = n } };
}

/// The number of a stream. Streams are numbered from 1, in the order of creation.
#[derive(Clone, Copy, Debug, PartialEq, Eq, PartialOrd, Ord)]
pub struct StreamNo(pub u64);

impl Model for StreamNo {
    ghost use Rattle.std.specs.Prelude.{ℕ};

    ghost Value = { ℕ };

    ghost view = { λ s. s.0 };

    ghost inverse = { λ n. record { 0 = n } };
}

/// The number of a shard within its stream, counted from 0 (Kinesis API Reference, ShardId).
#[derive(Clone, Copy, Debug, PartialEq, Eq, PartialOrd, Ord)]
pub struct ShardNo(pub u64);

impl Model for ShardNo {
    ghost use Rattle.std.specs.Prelude.{ℕ};

    ghost Value = { ℕ };

    ghost view = { λ s. s.0 };

    ghost inverse = { λ n. record { 0 = n } };
}

/// The number of a tenure. A tenure is one worker's hold on a lease, from the moment at which the worker takes the
/// lease until the lease is freed or taken again. The tenures of all leases are numbered together, from 1, in the order
/// in which they begin.
#[derive(Clone, Copy, Debug, PartialEq, Eq, PartialOrd, Ord)]
pub struct TenureNo(pub u64);

impl Model for TenureNo {
    ghost use Rattle.std.specs.Prelude.{ℕ};

    ghost Value = { ℕ };

    ghost view = { λ s. s.0 };

    ghost inverse = { λ n. record { 0 = n } };
}

/// The number that names a worker (Kinesis Client Library, worker identifier). It is at least 1.
#[derive(Clone, Copy, Debug, PartialEq, Eq, PartialOrd, Ord)]
pub struct WorkerNo(pub u32);

impl Model for WorkerNo {
    ghost use Rattle.std.specs.Prelude.{ℕ};

    ghost Value = { ℕ };

    ghost view = { λ s. s.0 };

    ghost inverse = { λ n. record { 0 = n } };
}
