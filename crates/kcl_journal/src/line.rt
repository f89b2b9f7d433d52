//! The lines of a journal, which is an event log, and the versions and limits of a journal's text.
use kds_base::Moment;
use kds_defs::Entry;

/// The number of the first version of a journal's text. This version has no heading, and its `put` entries don't give
/// the size of the partition key.
pub const FIRST_VERSION: u8 = 1;

/// The number of the second version of a journal's text. Journals are written in this version, and begin with the
/// heading `journal 2`.
pub const VERSION: u8 = 2;

/// The heading: the first line of a journal in version 2, without its line feed.
pub const HEADING: &[u8; 9] = b"journal 2";

/// The heading of version 2 with its line feed.
pub const HEADING_LINE: &[u8; 10] = b"journal 2\n";

/// The most bytes of a record's payload in the first version of a journal's text (Kinesis API Reference, PutRecord,
/// Data: 1 MiB).
pub const FIRST_RECORD_BYTES: u64 = 1_048_576;

/// The most bytes of a partition key: 256 characters of at most four bytes each (Kinesis API Reference, PutRecord,
/// PartitionKey).
pub const KEY_BYTES: u64 = 1_024;

/// A line of a journal: the clock in milliseconds, the actor that sent the command, and the entry, which says what the
/// command changed. The clock is the greatest time of all commands up to and including this one. The actor is the
/// number of a client or of a worker.
#[derive(Drop)]
pub struct EntryLine {
    pub clock: Moment,
    pub by: u32,
    pub what: Entry,
}
