//! The state of one stream, its creation, and access to its fields.
ghost use Rattle.std.specs.Prelude.{◌≡◌, ◌∷◌, ℕ, length, IfOk};
ghost use Rattle.std.specs.List.{filter};
ghost use Rattle.kds_defs.specs.declared.entry.Entry.TheVariants as entry;
ghost use Rattle.kds_defs.specs.declared.limits.TheConstants.{FIRST_HOURS};
ghost use Rattle.kds_defs.specs.Journal.{Journal, plain_line};
ghost use Rattle.kds_defs.specs.Lawful.{IsShardCount};
ghost use Rattle.kds_defs.specs.Shards.{is_open};
ghost use Rattle.kds_defs.specs.Subjects.{IsFresh};
ghost use Rattle.kds_stream.specs.Showing.{Shows};

mod about;
mod clock;
mod limits;
mod merges;
mod puts;
mod reads;
mod retention;
mod scales;
mod serve;
mod splits;

use crate::stream::clock::cut_at;
use kds_base::{Memory, Moment, Name, Seq, StreamNo};
use kds_defs::limits::FIRST_HOURS;
use kds_log::ShardLog;
use kds_rate::Window;
use kds_stream_logs::{new_logs, new_windows};
use kds_tree::ShardTree;
use std::alloc::Global;
use std::marker::Model;

/// One stream: its shards, a log and a throughput window for each shard, its next sequence number, its clock and its
/// trim horizon (`cut`). Contracts can refer to these values. Contracts also state which journals (event logs) the
/// stream shows (represents): the journals whose lines lead to this state of the stream.
#[derive(Drop)]
pub struct Stream {
    no: StreamNo,
    name: Name,
    made_at: Moment,
    hours: u32,
    tree: ShardTree,
    logs: Vec<ShardLog>,
    /// For each shard, the number of records and bytes that it accepted in the same second (of time) as its latest put.
    windows: Vec<Window>,
    /// Whether the limits on the throughput of the stream's shards are on.
    enforced: bool,
    next: Seq,
    clock: Moment,
    cut: Option<Moment>,
    /// The clock to which `retreat` goes back. Each function that changes the stream sets `clock_before` and
    /// `cut_before` to the present clock and trim horizon, because the clock can't go back behind an accepted command.
    clock_before: Moment,
    /// The trim horizon to which `retreat` goes back.
    cut_before: Option<Moment>,
    /// The index of the log from which `settle` removes the trimmed (expired) records next.
    next_to_settle: usize,
}

impl Model for Stream {
    ghost use Rattle.kds_stream.specs.Fields.{value_of};
    ghost use Rattle.kds_stream.specs.Value.{StreamValue, IsStream};

    ghost Value = { StreamValue };

    ghost view = { value_of };

    ghost invariant = { λ s. IsStream (value_of s) };
}

impl Stream {
    /// Returns a new stream, created at the time `made_at`, with `shards` open shards (Kinesis API Reference,
    /// CreateStream).
    pub fn new(
        alloc: Global,
        no: StreamNo,
        name: Name,
        made_at: Moment,
        shards: u32,
    ) -> Result<Stream, Memory>
        requires { IsShardCount shards }
        ensures shows { (log : Journal) (actor : ℕ) → IsFresh log no
            → IfOk result (λ v. Shows v (plain_line made_at actor (entry.Made no name shards) ∷ log)) }
        ensures fields { IfOk result (λ v. (v.no ≡ no) × (v.name ≡ name) × (v.clock ≡ made_at)) }
        ensures made_at { IfOk result (λ v. v.made_at ≡ made_at) }
        ensures hours { IfOk result (λ v. v.hours ≡ FIRST_HOURS) }
    {
        let tree = ShardTree::new(alloc, shards)?;
        let logs = new_logs(alloc, shards)?;
        let windows = new_windows(alloc, shards)?;
        Ok(Stream {
            no,
            name,
            made_at,
            hours: FIRST_HOURS,
            tree,
            logs,
            windows,
            enforced: false,
            next: Seq(1),
            clock: made_at,
            cut: cut_at(made_at, FIRST_HOURS),
            clock_before: made_at,
            cut_before: cut_at(made_at, FIRST_HOURS),
            next_to_settle: 0,
        })
    }

    /// Returns the number of the stream.
    pub fn no(&self) -> StreamNo
        ensures { result ≡ self.now.no }
    {
        self.no
    }

    /// Returns the name of the stream.
    pub fn name(&self) -> &Name
        ensures { result.now ≡ self.now.name }
    {
        &self.name
    }

    /// Returns the shards of the stream.
    pub fn tree(&self) -> &ShardTree
        ensures { result.now.shards ≡ self.now.tree }
    {
        &self.tree
    }

    /// Returns the trim horizon as a time. Each record that arrived at or before this time is trimmed. Returns `None`
    /// if the trim horizon would lie before time 0.
    pub fn cut(&self) -> Option<Moment>
        ensures { result ≡ self.now.cut }
    {
        self.cut
    }

    /// Returns the number of open shards of the stream.
    pub fn open_count(&self) -> u32
        ensures { result ≡ length (filter is_open self.now.tree) }
    {
        self.tree.open_count()
    }
}
