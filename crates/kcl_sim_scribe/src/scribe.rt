//! The scribe: the writer of the journal, which is the event log of the turns. A turn is a command with its sender and
//! its time.
ghost use Rattle.std.specs.Prelude.{◌≡◌, ◌+◌, ◌≤◌, ◌==◌, ◌∷◌, [], false, List, map, IfOk, OnErr, OnOk, option_map};
ghost use Rattle.kds_defs.specs.declared.command.Turn.{Turn};
ghost use Rattle.kds_defs.specs.declared.entry.Entry.TheVariants as entry;
ghost use Rattle.kds_defs.specs.Histories.{answer as answer_after};
ghost use Rattle.kds_defs.specs.Lawful.{IsLawful};
ghost use Rattle.kds_defs.specs.StreamCommands.{last_number};
ghost use Rattle.kcl_sim_scribe.specs.Added.{added_entries};
ghost use Rattle.kcl_sim_scribe.specs.Known.{StandsFor, changed_by, with_made};
ghost use Rattle.kcl_sim_scribe.specs.Telling.{CanTell, MayNumber, told_after, told_lines};
ghost use Rattle.kcl_sim_scribe.specs.Telling.{changed_name as name_changed, entries_of, line_by, lines_by};

use crate::entries::on_stream;
use crate::known::{Known, change, find};
use crate::leases::on_leases;
use kcl_journal::EntryLine;
use kds_base::{Items, Memory, Moment, Name, StreamNo};
use kds_defs::{Answer, Command, Entry, Reply, Turn};
use std::alloc::Global;
use std::marker::Model;

/// Computes the lines that each turn adds to the journal, from the turns and their answers alone. A scribe represents
/// the history of the turns that it has noted. `StandsFor` relates a scribe to this history.
#[derive(Drop)]
pub struct Scribe {
    clock: Moment,
    made: u64,
    /// The live streams, in the order of their numbers.
    streams: Vec<Known>,
}

impl Model for Scribe {
    ghost use Rattle.kcl_sim_scribe.specs.Known.{ScribeValue};

    ghost Value = { ScribeValue };

    ghost view = { λ s. record { clock = s.clock; made = s.made; streams = s.streams.items } };
}

/// Returns the name of the stream that a command changes. `None` if the command changes no stream, or creates one.
fn changed_name(what: &Command) -> Option<&Name>
    ensures { option_map (λ n. n.now) result ≡ name_changed what.now }
{
    if what.is_change() {
        what.stream_name()
    } else {
        None
    }
}

/// Returns the entries of the accepted command `what`, which doesn't create a stream. `reply` is the reply to this
/// command. Precondition: if the command is a split or a merge, the sequence number and the shard numbers that it
/// assigns are available.
fn entries_of(
    alloc: Global,
    streams: &[Known],
    what: &Command,
    reply: &Reply,
) -> Result<Items<Entry>, Memory>
    requires { MayNumber (name_changed what.now) streams.now what.now }
    ensures { IfOk result (λ es. es ≡ entries_of streams.now what.now reply.now) }
{
    match changed_name(what) {
        Some(name) => match find(streams, name) {
            Some(stream) => on_stream(alloc, stream, what, reply),
            None => Ok(Items::new(alloc)),
        },
        None => on_leases(alloc, what, reply),
    }
}

/// Returns the journal lines of `entries`. Each line has the time `clock` and the actor `by`.
fn lines_of(
    alloc: Global,
    clock: Moment,
    by: u32,
    entries: Items<Entry>,
) -> Result<Items<EntryLine>, Memory>
    ensures { IfOk result (λ ls. ls ≡ lines_by clock by entries) }
{
    let mut lines = Items::new(alloc);
    for what in entries.into_vec() {
        lines.push(EntryLine { clock, by, what })?;
    }
    Ok(lines)
}

/// Updates the live streams after the entries of `lines`, one after another.
fn change_all(streams: &mut Vec<Known>, lines: &[EntryLine])
    ensures { streams.new.items ≡ changed_by (map (λ l. l.what) lines.now) streams.old.items }
{
    for line in lines {
        change(streams, &line.what);
    }
}

impl Scribe {
    /// Returns a scribe that has noted no turn.
    pub fn new(alloc: Global) -> Scribe
        ensures { StandsFor result [] }
    {
        Scribe {
            clock: Moment::start(),
            made: 0,
            streams: Vec::new(alloc),
        }
    }

    /// Notes that the actor `by` created a stream. Returns a list with the journal line of this creation. If memory
    /// runs out, the scribe is unchanged.
    fn note_created(
        &mut self,
        alloc: Global,
        clock: Moment,
        by: u32,
        name: &Name,
        shards: u32,
    ) -> Result<Items<EntryLine>, Memory>
        requires made { (self.old.made == last_number) ≡ false }
        requires shards { 1 ≤ shards }
        ensures lines { IfOk result (λ ls. ls ≡ line_by clock by (entry.Made (self.old.made + 1) name.now shards)
            ∷ []) }
        ensures ok { OnOk result (self.new ≡ with_made name.now shards self.old) }
        ensures err { OnErr result (self.new ≡ self.old) }
    {
        let no = StreamNo(self.made + 1);
        let what = Entry::Made {
            stream: no,
            name: name.copy(alloc)?,
            shards,
        };
        let mut lines = Items::new(alloc);
        lines.push(EntryLine { clock, by, what })?;
        let name = name.copy(alloc)?;
        let shard = shards as u64 - 1;
        self.streams.push(Known {
            no,
            name,
            drawn: 0,
            shard,
        })?;
        self.made += 1;
        Ok(lines)
    }

    /// Notes that the command `what` of the actor `by` was accepted with the reply `reply`. Returns the lines that the
    /// command adds to the journal. If memory runs out, the scribe is unchanged.
    fn note_accepted(
        &mut self,
        alloc: Global,
        clock: Moment,
        by: u32,
        what: &Command,
        reply: &Reply,
    ) -> Result<Items<EntryLine>, Memory>
        requires { CanTell self.old what.now }
        ensures lines { IfOk result (λ ls. ls ≡ told_lines self.old clock by what.now reply.now) }
        ensures ok { OnOk result (self.new ≡ told_after self.old what.now reply.now) }
        ensures err { OnErr result (self.new ≡ self.old) }
    {
        if let Command::Create { name, shards } = what {
            return self.note_created(alloc, clock, by, name, *shards);
        }
        let entries = entries_of(alloc, &self.streams, what, reply)?;
        let lines = lines_of(alloc, clock, by, entries)?;
        change_all(&mut self.streams, lines.as_slice());
        Ok(lines)
    }

    /// Notes a turn, and returns the lines that it adds to the journal. Every turn must be noted, even if it was
    /// refused. Preconditions: the turn is lawful (its values are in the ranges of the API), and `answer` is the answer
    /// that the definitions give to this turn after the turns noted so far. If memory runs out, the scribe is
    /// unchanged.
    pub fn note(
        &mut self,
        alloc: Global,
        turn: &Turn,
        answer: &Answer,
    ) -> Result<Items<EntryLine>, Memory>
        requires lawful { IsLawful turn.now }
        requires answered { (h : List Turn) × (StandsFor self.old h × (answer.now ≡ answer_after h turn.now)) }
        ensures lines { (h : List Turn) → StandsFor self.old h → answer.now ≡ answer_after h turn.now
            → IfOk result (λ ls. ls ≡ added_entries h turn.now) }
        ensures stands { (h : List Turn) → StandsFor self.old h → answer.now ≡ answer_after h turn.now
            → OnOk result (StandsFor self.new (turn.now ∷ h)) }
        ensures kept { OnErr result (self.new ≡ self.old) }
    {
        let clock = self.clock.later(turn.at);
        let lines = match answer {
            Ok(reply) => self.note_accepted(alloc, clock, turn.by, &turn.what, reply)?,
            Err(_) => Items::new(alloc),
        };
        self.clock = clock;
        Ok(lines)
    }
}
