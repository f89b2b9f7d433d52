//! Judges the entries about leases in a journal, which is an event log, and applies the good entries to the lease table
//! and to the tenures. An entry records a command and what this command changed. An entry is good if it breaks no rule.
//! A row is a lease in the lease table. A tenure is one worker's hold on a lease. The origin of a row is the initial
//! position in the stream.
ghost use Rattle.std.specs.Prelude.{◌≡◌, ◌+◌, ◌≤◌, ◌==◌, length, None, IfOk, OnErr};
ghost use Rattle.kds_defs.specs.declared.entry.Entry.TheVariants as entry;
ghost use Rattle.kds_defs.specs.Journal.{Journal};
ghost use Rattle.kcl_leases.specs.Conditions.{counting_from};
ghost use Rattle.kds_defs.specs.Subjects.{stream_of};
ghost use Rattle.kcl_book.specs.Tenures.{tenure_at};
ghost use Rattle.kcl_audit_judge.specs.Judging.{answer_verdict, reach_of};
ghost use Rattle.kcl_audit_streams.specs.Standing.{Shows};
ghost use Rattle.kcl_audit_judge.specs.Standing.{HoldBeside, JudgesBeside, Keeps};
ghost use Rattle.kcl_audit_streams.specs.Verdict.{IsFit, same_flag, same_list, same_origin};

use kcl_audit_streams::{Rule, ToldStreams};
use kcl_book::Book;
use kcl_leases::{
    Shards, cut, effective_origin, free, give, make, mark, open, reader, renew, take, take_start,
};
use kcl_table::Table;
use kds_base::{Items, Memory, Seq, ShardRef, StreamNo, TenureNo, WorkerNo};
use kds_defs::{Answer, Entry, Origin, Refusal, Shard, Target, position_after_numbers};
use std::alloc::Global;

/// Returns the verdict on an entry whose command can lead only to this entry. `answer` is the answer to this command.
/// If the answer is a refusal, the entry breaks the rule `By`. Otherwise the entry is good.
fn by_answer(answer: &Answer) -> Result<(), Rule>
    ensures { result ≡ answer_verdict answer.now }
{
    match answer {
        Ok(_) => Ok(()),
        Err(refusal) => Err(Rule::By(*refusal)),
    }
}

/// Whether `no` is the number that the next tenure gets.
fn is_next(book: &Book, no: TenureNo) -> bool
    ensures { result ≡ (no == length book.now.tenures + 1) }
{
    let Some(before) = no.0.checked_sub(1) else {
        return false;
    };
    book.tenure(no).is_none() && (before == 0 || book.tenure(TenureNo(before)).is_some())
}

/// Judges the entry `taken`: a worker took a lease. Applies the entry if it breaks no rule. The tenure number in the
/// entry must be the next unused tenure number.
fn on_take(
    shards: &ToldStreams,
    table: &mut Table,
    book: &mut Book,
    by: u32,
    key: &ShardRef,
    no: TenureNo,
    counter: u64,
    owner: WorkerNo,
) -> Result<Result<(), Rule>, Memory>
    requires written { 1 ≤ counter }
    requires stands { (log : Journal) × HoldBeside shards.now table.old book.old.tenures log }
    ensures judged { IfOk result
        (JudgesBeside shards.now table.old book.old.tenures table.new book.new.tenures by
        (entry.Taken key.now no counter owner)) }
    ensures kept { OnErr result (Keeps shards.now table.old book.old.tenures table.new book.new.tenures) }
{
    if let Err(refusal) = take_start(table, key, counter - 1, book.spent()) {
        return Ok(Err(Rule::By(refusal)));
    }
    if !is_next(book, no) {
        return Ok(Err(Rule::Entry));
    }
    let answer = take(shards, table, book, by, key, counter - 1, owner)?;
    Ok(by_answer(&answer))
}

/// Returns the position at which the tenure `no` reads next, or 0 if there is no such tenure.
fn reach(book: &Book, no: TenureNo) -> u64
    ensures { result ≡ reach_of (tenure_at book.now.tenures no) }
{
    match book.tenure(no) {
        Some(tenure) => tenure.reach,
        None => 0,
    }
}

/// Whether both lists contain the same sequence numbers in the same order.
fn same_numbers(a: &[Seq], b: &[Seq]) -> bool
    ensures { result ≡ same_list a.now b.now }
{
    a == b
}

/// Whether `a` and `b` are equal. Each of the two values says whether a read reached the end of its shard.
fn same_end(a: bool, b: bool) -> bool
    ensures { result ≡ same_flag a b }
{
    a == b
}

/// Judges the entry `read`: a worker has read records in a tenure. Applies the entry if it breaks no rule. The entry
/// must list exactly the sequence numbers of the batch at the tenure's read position, and must state correctly whether
/// the shard ends after this batch.
fn on_read(
    alloc: Global,
    shards: &ToldStreams,
    table: &Table,
    book: &mut Book,
    by: u32,
    no: TenureNo,
    limit: u32,
    end: bool,
    numbers: &Items<Seq>,
) -> Result<Result<(), Rule>, Memory>
    requires stands { (log : Journal) × HoldBeside shards.now table.now book.old.tenures log }
    ensures judged { IfOk result
        (JudgesBeside shards.now table.now book.old.tenures table.now book.new.tenures by
        (entry.Read no limit end numbers.now)) }
    ensures kept { OnErr result (Keeps shards.now table.now book.old.tenures table.now book.new.tenures) }
{
    let _ = table;
    let position = reach(book, no);
    let tenure = match reader(shards, book, by, no, position) {
        Ok(tenure) => tenure,
        Err(refusal) => return Ok(Err(Rule::By(refusal))),
    };
    // The key is borrowed because it is used more than once.
    let key = &tenure.key;
    let Some(stream) = shards.list.live(key.stream) else {
        unreachable!()
    };
    let (batch, ends) = stream.read(alloc, shards.clock, key.shard, position, limit)?;
    if !same_end(ends, end) {
        return Ok(Err(Rule::Entry));
    }
    if !same_numbers(batch.as_slice(), numbers.as_slice()) {
        return Ok(Err(Rule::Entry));
    }
    book.read(no, position_after_numbers(position, batch.as_slice()), ends);
    Ok(Ok(()))
}

/// Whether `a` and `b` are the same origin: both TRIM_HORIZON, both LATEST, or both the same moment.
fn same_start(a: Origin, b: Origin) -> bool
    ensures { result ≡ same_origin a b }
{
    match a {
        Origin::TrimHorizon => matches!(b, Origin::TrimHorizon),
        Origin::Latest => matches!(b, Origin::Latest),
        Origin::Time(m) => match b {
            Origin::Time(n) => m == n,
            _ => false,
        },
    }
}

/// Whether a new row of `shard` really gets the origin `from` if it is made with this origin. Usually it does. There is
/// one exception: if a parent of the shard has a row that begins at or below the parent's ending sequence number, the
/// new row gets TRIM_HORIZON. In this case, the result is true only if `from` is TRIM_HORIZON too.
fn counts(
    shards: &ToldStreams,
    table: &Table,
    stream: StreamNo,
    shard: &Shard,
    from: Origin,
) -> bool
    ensures { (log : Journal) → Shows shards.now log
        → result ≡ same_origin (counting_from log table.now stream shard.now from) from }
{
    // The origin is borrowed because it is used more than once.
    let from = &from;
    same_start(effective_origin(shards, table, stream, shard, *from), *from)
}

/// Judges the entry `lease`: a row of the lease table was made. Applies the entry if it breaks no rule. The entry must
/// state the origin that the row really gets.
fn on_make(
    shards: &ToldStreams,
    table: &mut Table,
    book: &Book,
    by: u32,
    key: &ShardRef,
    from: &Origin,
) -> Result<Result<(), Rule>, Memory>
    ensures judged { IfOk result
        (JudgesBeside shards.now table.old book.now.tenures table.new book.now.tenures by
        (entry.LeaseMade key.now from.now)) }
    ensures kept { OnErr result (table.new ≡ table.old) }
{
    let _ = book;
    let Some(shard) = shards.shard(*key) else {
        return Ok(Err(Rule::By(Refusal::ShardGone)));
    };
    if !shards.is_listed(*key) {
        return Ok(Err(Rule::By(Refusal::ShardGone)));
    }
    if table.row(*key).is_some() {
        return Ok(Err(Rule::By(Refusal::LeaseThere)));
    }
    if !counts(shards, table, key.stream, shard, *from) {
        return Ok(Err(Rule::Entry));
    }
    let answer = make(shards, table, key, *from)?;
    Ok(by_answer(&answer))
}

/// Judges the entry `renewed`: the row of a tenure was renewed. Applies the entry if it breaks no rule.
fn on_renew(
    shards: &ToldStreams,
    table: &mut Table,
    book: &Book,
    by: u32,
    tenure: TenureNo,
    counter: u64,
) -> Result<(), Rule>
    requires { 1 ≤ counter }
    ensures { JudgesBeside shards.now table.old book.now.tenures table.new book.now.tenures by
        (entry.Renewed tenure counter) result }
{
    by_answer(&renew(shards, table, book, by, tenure, counter - 1))
}

/// Judges the entry `freed`: the row of a tenure was freed. Applies the entry if it breaks no rule.
fn on_free(
    shards: &ToldStreams,
    table: &mut Table,
    book: &Book,
    by: u32,
    tenure: TenureNo,
    counter: u64,
) -> Result<(), Rule>
    requires { 1 ≤ counter }
    ensures { JudgesBeside shards.now table.old book.now.tenures table.new book.now.tenures by
        (entry.Freed tenure counter) result }
{
    by_answer(&free(shards, table, book, by, tenure, counter - 1))
}

/// Judges the entry `opened`: from then on, a tenure may read its shard. Applies the entry if it breaks no rule.
fn on_open(
    shards: &ToldStreams,
    table: &Table,
    book: &mut Book,
    by: u32,
    tenure: TenureNo,
) -> Result<(), Rule>
    ensures { JudgesBeside shards.now table.now book.old.tenures table.now book.new.tenures by (entry.Opened tenure)
        result }
{
    by_answer(&open(shards, table, book, by, tenure))
}

/// Judges the entry `given`: the oldest undelivered read of a tenure was delivered to the processor. Applies the entry
/// if it breaks no rule.
fn on_give(
    shards: &ToldStreams,
    table: &Table,
    book: &mut Book,
    by: u32,
    tenure: TenureNo,
) -> Result<(), Rule>
    ensures { JudgesBeside shards.now table.now book.old.tenures table.now book.new.tenures by (entry.Given tenure)
        result }
{
    let _ = table;
    by_answer(&give(shards, book, by, tenure))
}

/// Judges the entry `marked`: the checkpoint of a tenure's row was set. Applies the entry if it breaks no rule.
fn on_mark(
    shards: &ToldStreams,
    table: &mut Table,
    book: &Book,
    by: u32,
    tenure: TenureNo,
    counter: u64,
    to: Target,
) -> Result<(), Rule>
    requires { 1 ≤ counter }
    ensures { JudgesBeside shards.now table.old book.now.tenures table.new book.now.tenures by
        (entry.Marked tenure counter to) result }
{
    by_answer(&mark(shards, table, book, by, tenure, counter - 1, to))
}

/// Judges the entry `cut`: a row was removed from the lease table. Applies the entry if it breaks no rule.
fn on_cut(
    shards: &ToldStreams,
    table: &mut Table,
    book: &Book,
    by: u32,
    key: &ShardRef,
    counter: u64,
) -> Result<(), Rule>
    ensures { JudgesBeside shards.now table.old book.now.tenures table.new book.now.tenures by
        (entry.LeaseCut key.now counter) result }
{
    let _ = book;
    by_answer(&cut(shards, table, key, counter))
}

/// Judges an entry about a lease. The present time is `shards.clock`. If the entry breaks no rule, it is applied to the
/// rows and tenures. If the entry breaks a rule, or memory runs out, the rows and the tenures are unchanged.
pub fn entry(
    alloc: Global,
    shards: &ToldStreams,
    table: &mut Table,
    book: &mut Book,
    by: u32,
    what: &Entry,
) -> Result<Result<(), Rule>, Memory>
    requires fit { IsFit what.now }
    requires lease { stream_of what.now ≡ None }
    requires stands { (log : Journal) × HoldBeside shards.now table.old book.old.tenures log }
    ensures judged { IfOk result
        (JudgesBeside shards.now table.old book.old.tenures table.new book.new.tenures by what.now) }
    ensures kept { OnErr result (Keeps shards.now table.old book.old.tenures table.new book.new.tenures) }
{
    match what {
        Entry::LeaseMade { key, from } => on_make(shards, table, book, by, key, from),
        Entry::Taken {
            key,
            tenure,
            counter,
            owner,
        } => on_take(shards, table, book, by, key, *tenure, *counter, *owner),
        Entry::Renewed { tenure, counter } => {
            Ok(on_renew(shards, table, book, by, *tenure, *counter))
        }
        Entry::Freed { tenure, counter } => Ok(on_free(shards, table, book, by, *tenure, *counter)),
        Entry::Opened { tenure } => Ok(on_open(shards, table, book, by, *tenure)),
        Entry::Read {
            tenure: no,
            limit,
            end,
            numbers,
        } => on_read(alloc, shards, table, book, by, *no, *limit, *end, numbers),
        Entry::Given { tenure } => Ok(on_give(shards, table, book, by, *tenure)),
        Entry::Marked {
            tenure,
            counter,
            to,
        } => Ok(on_mark(shards, table, book, by, *tenure, *counter, *to)),
        Entry::LeaseCut { key, counter } => Ok(on_cut(shards, table, book, by, key, *counter)),
        _ => unreachable!(),
    }
}
