//! A worker's notes on the lease rows that it has seen. The notes show whether a lease has expired. A row is the item
//! of a lease in the lease table. Each write of a row raises its counter.
ghost use Rattle.std.specs.Prelude.{◌≡◌, ◌≤◌, [], length, slice_get, IfOk, OnOk, OnErr};
ghost use Rattle.kds_base.specs.declared.lease_key.ShardRef.{ShardRef};
ghost use Rattle.kcl_defs.specs.Plans.{after_rows, is_expired_since, seen_at};
ghost use Rattle.kcl_take.specs.Notes.{AreInOrder, first_note, if_key, noted, noted_all, index_of};

use kcl_defs::Seen;
use kds_base::{Memory, Moment, ShardRef};
use kds_defs::{Row, is_before};
use std::alloc::Global;
use std::marker::Model;

/// A worker's notes on all lease rows that it has seen (Kinesis Client Library, LeaseTaker). The note on a row has the
/// row's last seen counter, and the moment at which this counter was first seen. A row that is no longer in the lease
/// table keeps its note. The notes are in the order of the rows' keys, so the note on a row is found by binary search.
#[derive(Drop)]
pub struct Observed {
    seen: Vec<Seen>,
}

impl Model for Observed {
    ghost use Rattle.std.specs.Prelude.{List};
    ghost use Rattle.kcl_defs.specs.declared.plans.Seen.{Seen};
    ghost use Rattle.kcl_take.specs.Notes.{AreInOrder};

    ghost Value = { List Seen };

    ghost view = { λ o. o.seen.items };

    ghost invariant = { λ o. AreInOrder o.seen.items };
}

/// Returns a new note on the row `r`, whose present counter is first seen at the moment `now`.
fn first_note(r: &Row, now: Moment) -> Seen
    ensures { result ≡ first_note r.now now }
{
    Seen {
        key: r.key,
        counter: r.counter,
        since: now,
    }
}

/// Returns the number of notes on rows whose keys come before `key`. This is the index at which the note on the row
/// with the key `key` belongs.
fn index_of(seen: &[Seen], key: &ShardRef) -> usize
    requires { AreInOrder seen.now }
    ensures value { result ≡ index_of key.now seen.now }
    ensures within { result ≤ length seen.now }
{
    seen.partition_point(|s| is_before(&s.key, key))
}

/// Returns the note at the index `index` if it is a note on the row with the key `key`, and otherwise `None`.
fn note_at(seen: &[Seen], index: usize, key: &ShardRef) -> Option<Seen>
    ensures { result ≡ if_key key.now (slice_get seen.now index) }
{
    let s = seen.get(index)?;
    if s.key == *key { Some(*s) } else { None }
}

/// Adds the note `first` to `seen`, in the order of the keys. If `seen` has a note on the same row with another
/// counter, `first` replaces that note. If `seen` has a note on the same row with the same counter, nothing changes.
fn note(seen: &mut Vec<Seen>, first: Seen) -> Result<(), Memory>
    requires { AreInOrder seen.old.items }
    ensures value { OnOk result (seen.new.items ≡ noted first seen.old.items) }
    ensures order { OnOk result (AreInOrder seen.new.items) }
{
    let index = index_of(seen.as_slice(), &first.key);
    match note_at(seen.as_slice(), index, &first.key) {
        Some(s) => {
            if s.counter != first.counter {
                seen[index] = first;
            }
        }
        None => seen.insert(index, first)?,
    }
    Ok(())
}

/// Returns the note on the row with the key `key`, or `None` if there is no such note.
#[tactic(auto, using(crate::proofs::Sights::seen_there))]
fn find_seen(seen: &[Seen], key: &ShardRef) -> Option<Seen>
    requires { AreInOrder seen.now }
    ensures { result ≡ seen_at seen.now key.now }
{
    note_at(seen, index_of(seen, key), key)
}

/// Updates the notes `seen` with each of `rows`, which the worker sees at the moment `now`.
fn note_all(seen: &mut Vec<Seen>, rows: &[Row], now: Moment) -> Result<(), Memory>
    requires { AreInOrder seen.old.items }
    ensures value { OnOk result (seen.new.items ≡ noted_all rows.now now seen.old.items) }
    ensures order { OnOk result (AreInOrder seen.new.items) }
{
    for r in rows {
        note(seen, first_note(r, now))?;
    }
    Ok(())
}

impl Observed {
    /// Returns an `Observed` without notes.
    pub fn new(alloc: Global) -> Observed
        ensures { result ≡ [] }
    {
        Observed {
            seen: Vec::new(alloc),
        }
    }

    /// Returns a copy of the notes. The error means out of memory.
    pub fn copy(&self, alloc: Global) -> Result<Observed, Memory>
        ensures { IfOk result (λ o. o ≡ self.now) }
    {
        match Vec::from_slice(alloc, self.seen.as_slice()) {
            Ok(seen) => Ok(Observed { seen }),
            Err(_) => Err(Memory),
        }
    }

    /// Returns the notes updated with `rows`, which the worker sees at the moment `now`. Each row that has no note, or
    /// a note with another counter, gets a new note with the row's counter and `now`. The error means out of memory.
    pub fn with_rows(&self, alloc: Global, rows: &[Row], now: Moment) -> Result<Observed, Memory>
        ensures { IfOk result (λ o. (key : ShardRef) → seen_at o key ≡ after_rows rows.now now (seen_at self.now) key) }
    {
        let mut seen = match Vec::from_slice(alloc, self.seen.as_slice()) {
            Ok(seen) => seen,
            Err(_) => return Err(Memory),
        };
        note_all(&mut seen, rows, now)?;
        Ok(Observed { seen })
    }

    /// Updates the notes with `rows`, which the worker sees at the moment `now`. Each row that has no note, or a note
    /// with another counter, gets a new note with the row's counter and `now`. The error means out of memory; the notes
    /// are then unchanged.
    pub fn see(&mut self, alloc: Global, rows: &[Row], now: Moment) -> Result<(), Memory>
        ensures ok { OnOk result ((key : ShardRef)
            → seen_at self.new key ≡ after_rows rows.now now (seen_at self.old) key) }
        ensures err { OnErr result (self.new ≡ self.old) }
    {
        *self = self.with_rows(alloc, rows, now)?;
        Ok(())
    }

    /// Whether the lease of the row has expired: the row still has the counter in its note, and this counter was first
    /// seen more than `failover` milliseconds before `now`. A row isn't expired if it has no note, or if its counter
    /// was first seen later than `now`.
    pub fn expired(&self, row: &Row, now: Moment, failover: u64) -> bool
        ensures { result ≡ is_expired_since (seen_at self.now row.now.key) row.now now failover }
    {
        match find_seen(self.seen.as_slice(), &row.key) {
            None => false,
            Some(s) => {
                let since = s.since.ms();
                s.counter == row.counter && now.ms() > since && now.ms() - since > failover
            }
        }
    }
}
