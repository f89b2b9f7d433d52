//! Prints the lines of a journal, which is an event log, in version 2. Each line is first built in a separate buffer.
//! The complete line is then appended to the output. A tenure is one worker's hold on a lease.
ghost use Rattle.std.specs.Prelude.{◌≡◌, ◌∷◌, ◌++◌, decimal, true, OnOk, OnErr};
ghost use Rattle.kcl_journal.specs.Entries.{end_spelling, ended_text, entry_spelling, entry_text, heading};
ghost use Rattle.kcl_journal.specs.Entries.{numbers_text, switch_text};
ghost use Rattle.kcl_journal.specs.Ranges.{is_lease_entry, is_resharding, is_tenure_entry};

use crate::line::{EntryLine, HEADING};
use kcl_script_fields::{
    number_field, origin_field, owner_field, target_field, with_key, with_number, with_numbers,
};
use kds_base::{Memory, Moment, Octets, Seq, write_u64, write_u128};
use kds_defs::Entry;
use std::alloc::Global;

/// Adds a space and a hash key in decimal.
fn hash_field(alloc: Global, hash: u128, to: &mut Octets) -> Result<(), Memory>
    ensures { OnOk result (to.new ≡ to.old ++ 32 ∷ decimal hash) }
{
    to.extend(b" ".as_slice())?;
    write_u128(alloc, hash, to)
}

/// Adds the numbers `n`, `m` and `l` in decimal, each after a space.
fn three_numbers(alloc: Global, n: u64, m: u64, l: u64, to: &mut Octets) -> Result<(), Memory>
    ensures { OnOk result (to.new ≡ to.old ++ 32 ∷ (decimal n ++ 32 ∷ (decimal m ++ 32 ∷ decimal l))) }
{
    number_field(alloc, n, to)?;
    number_field(alloc, m, to)?;
    number_field(alloc, l, to)
}

/// Adds a space and a word. The word is `on` if the throughput limits of a stream are on, and otherwise `off`.
fn switch_field(on: bool, to: &mut Octets) -> Result<(), Memory>
    ensures { OnOk result (to.new ≡ to.old ++ 32 ∷ switch_text on) }
{
    if on {
        to.extend(b" on".as_slice())
    } else {
        to.extend(b" off".as_slice())
    }
}

/// Adds a space and a word. The word is `end` if a read reached the end of its shard, and otherwise `more`.
fn ended_field(end: bool, to: &mut Octets) -> Result<(), Memory>
    ensures { OnOk result (to.new ≡ to.old ++ 32 ∷ ended_text end) }
{
    if end {
        to.extend(b" end".as_slice())
    } else {
        to.extend(b" more".as_slice())
    }
}

/// Adds the sequence numbers in decimal, each after a space.
fn number_fields(alloc: Global, numbers: &[Seq], to: &mut Octets) -> Result<(), Memory>
    ensures { OnOk result (to.new ≡ to.old ++ numbers_text numbers.now) }
{
    for number in numbers {
        number_field(alloc, number.0, to)?;
    }
    Ok(())
}

/// Adds the text of an entry about a tenure: `renewed`, `freed`, `opened`, `read`, `given` or `marked`.
fn fill_tenure(alloc: Global, what: &Entry, to: &mut Octets) -> Result<(), Memory>
    requires { is_tenure_entry what.now ≡ true }
    ensures { OnOk result (to.new ≡ to.old ++ entry_text 2 what.now) }
{
    match what {
        Entry::Renewed { tenure, counter } => {
            with_numbers(alloc, b"renewed".as_slice(), tenure.0, *counter, to)
        }
        Entry::Freed { tenure, counter } => {
            with_numbers(alloc, b"freed".as_slice(), tenure.0, *counter, to)
        }
        Entry::Opened { tenure } => with_number(alloc, b"opened".as_slice(), tenure.0, to),
        Entry::Read {
            tenure,
            limit,
            end,
            numbers,
        } => {
            with_numbers(alloc, b"read".as_slice(), tenure.0, *limit as u64, to)?;
            ended_field(*end, to)?;
            number_fields(alloc, numbers.as_slice(), to)
        }
        Entry::Given { tenure } => with_number(alloc, b"given".as_slice(), tenure.0, to),
        Entry::Marked {
            tenure,
            counter,
            to: target,
        } => {
            with_numbers(alloc, b"marked".as_slice(), tenure.0, *counter, to)?;
            target_field(alloc, *target, to)
        }
        _ => unreachable!(),
    }
}

/// Adds the text of an entry about a lease: `lease`, `taken`, `cut`, or an entry about a tenure.
fn fill_lease(alloc: Global, what: &Entry, to: &mut Octets) -> Result<(), Memory>
    requires { is_lease_entry what.now ≡ true }
    ensures { OnOk result (to.new ≡ to.old ++ entry_text 2 what.now) }
{
    match what {
        Entry::LeaseMade { key, from } => {
            with_key(alloc, b"lease".as_slice(), *key, to)?;
            origin_field(alloc, *from, to)
        }
        Entry::Taken {
            key,
            tenure,
            counter,
            owner,
        } => {
            with_key(alloc, b"taken".as_slice(), *key, to)?;
            number_field(alloc, tenure.0, to)?;
            number_field(alloc, *counter, to)?;
            owner_field(alloc, *owner, to)
        }
        Entry::LeaseCut { key, counter } => {
            with_key(alloc, b"cut".as_slice(), *key, to)?;
            number_field(alloc, *counter, to)
        }
        _ => fill_tenure(alloc, what, to),
    }
}

/// Adds the text of an entry about a split or a merge of shards.
fn fill_resharding(alloc: Global, what: &Entry, to: &mut Octets) -> Result<(), Memory>
    requires { is_resharding what.now ≡ true }
    ensures { OnOk result (to.new ≡ to.old ++ entry_text 2 what.now) }
{
    match what {
        Entry::Split {
            stream,
            shard,
            at,
            seq,
            low,
            high,
        } => {
            with_numbers(alloc, b"split".as_slice(), stream.0, shard.0, to)?;
            hash_field(alloc, *at, to)?;
            three_numbers(alloc, seq.0, low.0, high.0, to)
        }
        Entry::Merged {
            stream,
            shard,
            other,
            seq,
            child,
        } => {
            with_numbers(alloc, b"merged".as_slice(), stream.0, shard.0, to)?;
            three_numbers(alloc, other.0, seq.0, child.0, to)
        }
        _ => unreachable!(),
    }
}

/// Adds the text of an entry.
fn fill_entry(alloc: Global, what: &Entry, to: &mut Octets) -> Result<(), Memory>
    ensures { OnOk result (to.new ≡ to.old ++ entry_text 2 what.now) }
{
    match what {
        Entry::Made {
            stream,
            name,
            shards,
        } => {
            with_number(alloc, b"made".as_slice(), stream.0, to)?;
            to.extend(b" ".as_slice())?;
            to.extend(name.bytes())?;
            number_field(alloc, *shards as u64, to)
        }
        Entry::Gone { stream } => with_number(alloc, b"gone".as_slice(), stream.0, to),
        Entry::Put {
            stream,
            shard,
            seq,
            hash,
            bytes,
            key_bytes,
        } => {
            to.extend(b"put".as_slice())?;
            three_numbers(alloc, stream.0, shard.0, seq.0, to)?;
            hash_field(alloc, *hash, to)?;
            number_field(alloc, *bytes, to)?;
            number_field(alloc, *key_bytes, to)
        }
        Entry::Split { .. } | Entry::Merged { .. } => fill_resharding(alloc, what, to),
        Entry::Kept { stream, hours } => {
            with_numbers(alloc, b"kept".as_slice(), stream.0, *hours as u64, to)
        }
        Entry::Enforced { stream, on } => {
            with_number(alloc, b"enforced".as_slice(), stream.0, to)?;
            switch_field(*on, to)
        }
        _ => fill_lease(alloc, what, to),
    }
}

/// Adds the text of a line: the clock, the actor and the entry. If memory runs out, a prefix of the text may have been
/// added.
fn fill_line(alloc: Global, line: &EntryLine, to: &mut Octets) -> Result<(), Memory>
    ensures { OnOk result (to.new ≡ to.old ++ entry_spelling 2 line.now) }
{
    write_u64(alloc, line.clock.ms(), to)?;
    number_field(alloc, line.by as u64, to)?;
    to.extend(b" ".as_slice())?;
    fill_entry(alloc, &line.what, to)
}

/// Adds the heading `journal 2`, without a line feed. If memory runs out, nothing is added.
pub fn print_heading(to: &mut Octets) -> Result<(), Memory>
    ensures ok { OnOk result (to.new ≡ to.old ++ heading) }
    ensures err { OnErr result (to.new ≡ to.old) }
{
    to.extend(HEADING.as_slice())
}

/// Adds the text of a journal's line in version 2, without a line feed. This text is the only one that is read as this
/// line in version 2. If memory runs out, nothing is added.
pub fn print_entry(alloc: Global, line: &EntryLine, to: &mut Octets) -> Result<(), Memory>
    ensures ok { OnOk result (to.new ≡ to.old ++ entry_spelling 2 line.now) }
    ensures err { OnErr result (to.new ≡ to.old) }
{
    let mut text = Octets::new(alloc);
    fill_line(alloc, line, &mut text)?;
    to.extend(text.as_slice())
}

/// Adds the last line of a journal, `end CLOCK`, without a line feed. If memory runs out, nothing is added.
pub fn print_end(alloc: Global, clock: Moment, to: &mut Octets) -> Result<(), Memory>
    ensures ok { OnOk result (to.new ≡ to.old ++ end_spelling clock) }
    ensures err { OnErr result (to.new ≡ to.old) }
{
    let mut text = Octets::new(alloc);
    with_number(alloc, b"end".as_slice(), clock.ms(), &mut text)?;
    to.extend(text.as_slice())
}
