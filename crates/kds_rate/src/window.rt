//! Counts the records and bytes that one shard accepts within a second.
ghost use Rattle.std.specs.Prelude.{◌≡◌, ◌≤◌, ◌∷◌, [], not, List, length};
ghost use Rattle.kds_defs.specs.Rates.{SizedPut, bytes_of, is_same_second, is_throttled, is_too_much, window};
ghost use Rattle.kds_rate.specs.Windows.{StandsFor, stopped};

use kds_base::Moment;
use kds_defs::limits::{SECOND, SECOND_BYTES, SECOND_RECORDS};
use std::marker::Model;

/// How many records and bytes a shard accepted in the same second (of time) as its latest put. Both numbers saturate at
/// `u64::MAX`. In contracts, the value of a window has the same fields, and `StandsFor` says which lists of puts it
/// represents.
#[derive(Clone, Copy)]
pub struct Window {
    latest: Moment,
    records: u64,
    bytes: u64,
}

impl Model for Window {
    ghost use Rattle.kds_rate.specs.Windows.{WindowValue};

    ghost Value = { WindowValue };

    ghost view = { λ w. record { latest = w.latest; records = w.records; bytes = w.bytes } };

    ghost inverse = { λ v. record { latest = v.latest; records = v.records; bytes = v.bytes } };
}

impl Window {
    /// Returns the window of a shard without puts.
    pub fn new() -> Window
        ensures puts { StandsFor result [] }
        ensures latest { result.latest ≡ 0 }
    {
        Window {
            latest: Moment::start(),
            records: 0,
            bytes: 0,
        }
    }

    /// Whether, at the time `clock`, the shard accepts a record whose payload and partition key together have `bytes`
    /// bytes (Kinesis API Reference, ProvisionedThroughputExceededException). The first record in each second is always
    /// accepted. `clock` must not be before the latest put.
    pub fn admits(&self, clock: Moment, bytes: u64) -> bool
        requires { self.now.latest ≤ clock }
        ensures { (puts : List SizedPut) → StandsFor self.now puts → result ≡ not (is_throttled puts clock bytes) }
    {
        let taken = self.taken(clock);
        !is_too_much(&taken, bytes)
    }

    /// Counts the put of a record at the time `clock`. The record's payload and partition key together have `bytes`
    /// bytes. `clock` must not be before the latest put.
    pub fn count(&mut self, clock: Moment, bytes: u64)
        requires { self.old.latest ≤ clock }
        ensures puts { (puts : List SizedPut) → StandsFor self.old puts
            → StandsFor self.new (record { clock = clock; bytes = bytes } ∷ puts) }
        ensures latest { self.new.latest ≡ clock }
    {
        let taken = self.taken(clock);
        self.latest = clock;
        self.records = taken.records.saturating_add(1);
        self.bytes = taken.bytes.saturating_add(bytes);
    }

    /// Returns how many records and bytes the shard accepted in the same second (of time) as `clock`. `clock` must not
    /// be before the latest put.
    fn taken(&self, clock: Moment) -> Taken
        requires { self.now.latest ≤ clock }
        ensures records { (puts : List SizedPut) → StandsFor self.now puts
            → result.records ≡ stopped (length (window clock puts)) }
        ensures bytes { (puts : List SizedPut) → StandsFor self.now puts
            → result.bytes ≡ stopped (bytes_of (window clock puts)) }
    {
        if is_same_second(self.latest, clock) {
            Taken {
                records: self.records,
                bytes: self.bytes,
            }
        } else {
            Taken {
                records: 0,
                bytes: 0,
            }
        }
    }
}

/// A number of records, and the number of bytes that their payloads and partition keys have together.
#[derive(Clone, Copy)]
struct Taken {
    records: u64,
    bytes: u64,
}

/// Whether both moments lie in the same second of the clock.
fn is_same_second(one: Moment, other: Moment) -> bool
    ensures { result ≡ is_same_second one other }
{
    one.ms() / SECOND == other.ms() / SECOND
}

/// Whether a record of `bytes` bytes exceeds what a shard accepts in the present second. `taken` is what the shard has
/// already accepted within this second.
fn is_too_much(taken: &Taken, bytes: u64) -> bool
    ensures { result ≡ is_too_much taken.now.records taken.now.bytes bytes }
{
    taken.records >= SECOND_RECORDS
        || (taken.records > 0 && taken.bytes.saturating_add(bytes) > SECOND_BYTES)
}
