//! The text of answers to commands on leases. An answer is a reply or a refusal.
ghost use Rattle.std.specs.Prelude.{◌≡◌, ◌∷◌, ◌++◌, flat_map, codes, length, true, OnOk, OnErr};
ghost use Rattle.kds_defs.specs.Kinds.{is_lease_answer, is_lease_reply};
ghost use Rattle.kcl_script_fields.specs.Fields.{key_text};
ghost use Rattle.kcl_script_fields.specs.Answers.{checkpoint_text, owner_text, row_text, rows_text, number_text};
ghost use Rattle.kcl_script_fields.specs.Answers.{end_text, survey_text, reply_text, refusal_name as name_of};
ghost use Rattle.kcl_script_fields.specs.Answers.{refusal_value, refusal_text, answer_text};

use crate::words::{number_field, with_key, with_number, with_numbers};
use kds_base::{Checkpoint, Memory, Octets, ShardRef, WorkerNo, write_u64};
use kds_defs::{Answer, Refusal, Reply, Row, Stored};
use std::alloc::Global;

fn checkpoint(alloc: Global, at: Checkpoint, to: &mut Octets) -> Result<(), Memory>
    ensures { OnOk result (to.new ≡ to.old ++ checkpoint_text at) }
{
    match at {
        Checkpoint::TrimHorizon => to.extend(b"TRIM_HORIZON".as_slice()),
        Checkpoint::At(q) => write_u64(alloc, q.0, to),
        Checkpoint::ShardEnd => to.extend(b"SHARD_END".as_slice()),
    }
}

fn owner(alloc: Global, owner: Option<WorkerNo>, to: &mut Octets) -> Result<(), Memory>
    ensures { OnOk result (to.new ≡ to.old ++ owner_text owner) }
{
    match owner {
        Some(worker) => {
            to.extend(b"w".as_slice())?;
            write_u64(alloc, worker.0 as u64, to)
        }
        None => to.extend(b"-".as_slice()),
    }
}

fn owned_key(
    alloc: Global,
    key: ShardRef,
    worker: Option<WorkerNo>,
    to: &mut Octets,
) -> Result<(), Memory>
    ensures { OnOk result (to.new ≡ to.old ++ 32 ∷ (key_text key ++ 32 ∷ owner_text worker)) }
{
    with_key(alloc, b"".as_slice(), key, to)?;
    to.extend(b" ".as_slice())?;
    owner(alloc, worker, to)
}

/// Appends a space and the text of a row of the lease table.
fn row(alloc: Global, row: &Row, to: &mut Octets) -> Result<(), Memory>
    ensures { OnOk result (to.new ≡ to.old ++ row_text row.now) }
{
    owned_key(alloc, row.key, row.owner, to)?;
    number_field(alloc, row.counter, to)?;
    to.extend(b" ".as_slice())?;
    checkpoint(alloc, row.checkpoint, to)?;
    number_field(alloc, row.switches, to)
}

fn later_row(alloc: Global, next: &Row, to: &mut Octets) -> Result<(), Memory>
    ensures { OnOk result (to.new ≡ to.old ++ (codes ";" ++ row_text next.now)) }
{
    to.extend(b";".as_slice())?;
    row(alloc, next, to)
}

fn later_rows(alloc: Global, rows: &[Row], to: &mut Octets) -> Result<(), Memory>
    ensures { OnOk result (to.new ≡ to.old ++ flat_map (λ r. codes ";" ++ row_text r) rows.now) }
{
    for next in rows {
        later_row(alloc, next, to)?;
    }
    Ok(())
}

fn all_rows(alloc: Global, rows: &[Row], to: &mut Octets) -> Result<(), Memory>
    ensures { OnOk result (to.new ≡ to.old ++ rows_text rows.now) }
{
    match rows.split_first() {
        Some((first, others)) => {
            row(alloc, first, to)?;
            later_rows(alloc, others, to)
        }
        None => Ok(()),
    }
}

fn survey(
    alloc: Global,
    long: bool,
    shards: usize,
    rows: &[Row],
    to: &mut Octets,
) -> Result<(), Memory>
    ensures { OnOk result (to.new ≡ to.old ++ survey_text long shards rows.now) }
{
    if long {
        with_number(alloc, b"ok".as_slice(), rows.len() as u64, to)?;
        all_rows(alloc, rows, to)
    } else {
        with_numbers(
            alloc,
            b"ok".as_slice(),
            shards as u64,
            rows.len() as u64,
            to,
        )
    }
}

fn numbers(alloc: Global, batch: &[Stored], to: &mut Octets) -> Result<(), Memory>
    ensures { OnOk result (to.new ≡ to.old ++ flat_map number_text batch.now) }
{
    for stored in batch {
        number_field(alloc, stored.seq.0, to)?;
    }
    Ok(())
}

fn end_word(end: bool, to: &mut Octets) -> Result<(), Memory>
    ensures { OnOk result (to.new ≡ to.old ++ end_text end) }
{
    if end {
        to.extend(b" end".as_slice())
    } else {
        to.extend(b" more".as_slice())
    }
}

fn fill_reply(alloc: Global, reply: &Reply, long: bool, to: &mut Octets) -> Result<(), Memory>
    requires { is_lease_reply reply.now ≡ true }
    ensures { OnOk result (to.new ≡ to.old ++ reply_text long reply.now) }
{
    match reply {
        Reply::Done => to.extend(b"ok".as_slice()),
        Reply::Leased(_) => to.extend(b"ok".as_slice()),
        Reply::Survey { shards, rows } => {
            survey(alloc, long, shards.as_slice().len(), rows.as_slice(), to)
        }
        Reply::Taken {
            tenure,
            counter,
            start,
        } => {
            with_number(alloc, b"ok tenure".as_slice(), tenure.0, to)?;
            with_number(alloc, b" counter".as_slice(), *counter, to)?;
            to.extend(b" start ".as_slice())?;
            checkpoint(alloc, *start, to)
        }
        Reply::Counter(counter) => with_number(alloc, b"ok counter".as_slice(), *counter, to),
        Reply::Read { batch, reach, end } => {
            with_number(alloc, b"ok reach".as_slice(), *reach, to)?;
            end_word(*end, to)?;
            numbers(alloc, batch.as_slice(), to)
        }
        Reply::Given { delivered } => {
            with_number(alloc, b"ok delivered".as_slice(), *delivered, to)
        }
        _ => unreachable!(),
    }
}

/// Returns the name of a refusal, without the refusal's value. Replays of schedules and audits of journals print this
/// name.
pub fn refusal_name(refusal: &Refusal) -> &'static str
    ensures { result.now ≡ name_of refusal.now }
{
    match refusal {
        Refusal::NoStream => "NoStream",
        Refusal::StreamThere => "StreamThere",
        Refusal::NoShard => "NoShard",
        Refusal::ShardClosed => "ShardClosed",
        Refusal::NotAdjacent => "NotAdjacent",
        Refusal::BadSplit => "BadSplit",
        Refusal::BadNumber => "BadNumber",
        Refusal::BadRetention => "BadRetention",
        Refusal::Expired => "Expired",
        Refusal::PageExpired => "PageExpired",
        Refusal::Full => "Full",
        Refusal::Spent => "Spent",
        Refusal::Throttled(_) => "Throttled",
        Refusal::NoLease => "NoLease",
        Refusal::NoTenure => "NoTenure",
        Refusal::NotYours => "NotYours",
        Refusal::Lost(_) => "Lost",
        Refusal::Moved(_) => "Moved",
        Refusal::Ended => "Ended",
        Refusal::Beyond(_) => "Beyond",
        Refusal::Below(_) => "Below",
        Refusal::NotAtEnd => "NotAtEnd",
        Refusal::ParentsOpen(_) => "ParentsOpen",
        Refusal::NotOpened => "NotOpened",
        Refusal::OpenedBefore => "OpenedBefore",
        Refusal::NothingPending => "NothingPending",
        Refusal::TooManyPending => "TooManyPending",
        Refusal::OutOfPlace(_) => "OutOfPlace",
        Refusal::ShardGone => "ShardGone",
        Refusal::LeaseThere => "LeaseThere",
        Refusal::ShardListed => "ShardListed",
    }
}

/// Appends a space and the value that a refusal has, such as the row's counter in `Moved`. Appends nothing if the
/// refusal has no value.
fn value(alloc: Global, refusal: &Refusal, to: &mut Octets) -> Result<(), Memory>
    ensures { OnOk result (to.new ≡ to.old ++ refusal_value refusal.now) }
{
    match refusal {
        Refusal::Throttled(shard) => number_field(alloc, shard.0, to),
        Refusal::Lost(tenure) => number_field(alloc, tenure.0, to),
        Refusal::Moved(counter) => number_field(alloc, *counter, to),
        Refusal::Beyond(delivered) => number_field(alloc, *delivered, to),
        Refusal::Below(least) => number_field(alloc, least.0, to),
        Refusal::ParentsOpen(key) => with_key(alloc, b"".as_slice(), *key, to),
        Refusal::OutOfPlace(reach) => number_field(alloc, *reach, to),
        _ => Ok(()),
    }
}

fn fill_refusal(alloc: Global, refusal: &Refusal, to: &mut Octets) -> Result<(), Memory>
    ensures { OnOk result (to.new ≡ to.old ++ refusal_text refusal.now) }
{
    to.extend(b"refused ".as_slice())?;
    to.extend(refusal_name(refusal).as_bytes())?;
    value(alloc, refusal, to)
}

/// Appends the text of an answer as `print_answer` does, but without first building the text in a buffer of its own. If
/// memory runs out, a prefix of the text may have been appended.
pub fn fill_answer(
    alloc: Global,
    answer: &Answer,
    long: bool,
    to: &mut Octets,
) -> Result<(), Memory>
    requires { is_lease_answer answer.now ≡ true }
    ensures { OnOk result (to.new ≡ to.old ++ answer_text long answer.now) }
{
    match answer {
        Ok(reply) => fill_reply(alloc, reply, long, to),
        Err(refusal) => fill_refusal(alloc, refusal, to),
    }
}

/// Appends the text of an answer to a command on leases. `long` matters only for a survey, the command that lists the
/// shards and the rows of the lease table. If `long` is true, the text has each row, and otherwise only the numbers of
/// shards and rows. Precondition: the answer belongs to a command on leases. If memory runs out, nothing is appended.
/// This function exists for users of the library; the program calls `fill_answer`.
pub fn print_answer(
    alloc: Global,
    answer: &Answer,
    long: bool,
    to: &mut Octets,
) -> Result<(), Memory>
    requires { is_lease_answer answer.now ≡ true }
    ensures ok { OnOk result (to.new ≡ to.old ++ answer_text long answer.now) }
    ensures err { OnErr result (to.new ≡ to.old) }
{
    let mut text = Octets::new(alloc);
    fill_answer(alloc, answer, long, &mut text)?;
    to.extend(text.as_slice())
}
