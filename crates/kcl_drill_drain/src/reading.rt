//! Reads one shard to its end, batch by batch. A tenure is one worker's hold on the shard's lease.
ghost use Rattle.std.specs.Prelude.{ℕ, ◌≡◌, ◌<◌, Bool, List, Some, Ok, IfOk, IfSome};
ghost use Rattle.kds_defs.specs.declared.reply.Reply.TheVariants as reply;
ghost use Rattle.kds_defs.specs.declared.reply.Stored.{Stored};
ghost use Rattle.kcl_defs.specs.Consumers.{last_number_in};
ghost use Rattle.kcl_drill_drain.specs.Leased.{KeepsLeased};
ghost use Rattle.kcl_drill_drain.specs.Steps.{Delivers, MarksLast, ReadsToEnd, Settles, StepsOn};

use crate::held::DrainTenure;
use crate::laws;
use crate::turns::{give, mark, read};
use kcl_consumer::{Ask, Processor, last_in};
use kcl_proc::Tally;
use kds_base::{Memory, Moment, Seq};
use kds_defs::{Answer, Machine, Reply, Stored, Target};

/// The result of one read: the sequence number of the last record, if the read returned a record; the position of the
/// next read; and whether the shard ends at that position.
#[derive(Clone, Copy)]
pub struct Fetch {
    pub last: Option<Seq>,
    pub reach: u64,
    pub ended: bool,
}

/// Passes the batch to the processor, unless the batch is empty. Returns the sequence number of the batch's last
/// record, at which the processor asks for a checkpoint. Returns `None` if the batch is empty.
fn process(tally: &mut Tally, batch: &[Stored]) -> Result<Option<Seq>, Memory>
    ensures { IfOk result (λ last. last ≡ last_number_in batch.now) }
{
    if batch.is_empty() {
        return Ok(last_in(batch));
    }
    match tally.process_records(batch)? {
        Ask::Last => Ok(last_in(batch)),
        _ => Ok(None),
    }
}

/// Passes the batch in `answer`, the answer to a read, to the processor. Returns the result of the read, or `None` if
/// `answer` isn't the reply to a read.
fn process_answer(tally: &mut Tally, answer: &Answer) -> Result<Option<Fetch>, Memory>
    ensures { (batch : List Stored) (position : ℕ) (ended : Bool) → answer.now ≡ Ok (reply.Read batch position ended)
        → IfOk result (λ f. f ≡ Some (record { last = last_number_in batch; reach = position; ended = ended })) }
{
    match answer {
        Ok(Reply::Read { batch, reach, end }) => {
            let last = process(tally, batch.as_slice())?;
            Ok(Some(Fetch {
                last,
                reach: *reach,
                ended: *end,
            }))
        }
        _ => Ok(None),
    }
}

/// Sets the checkpoint of the tenure's lease to `last`, the sequence number of the last record in a batch. If the batch
/// was empty, `last` is `None`, and nothing is done. Returns the lease's present counter.
fn mark_last<M: Machine>(
    machine: &mut M,
    by: u32,
    at: Moment,
    held: &DrainTenure,
    last: Option<Seq>,
) -> Result<u64, Memory>
    ensures ok { MarksLast (M.stands_for machine.old) (M.stands_for machine.new) by at held.now last result }
    ensures kept { KeepsLeased (M.stands_for machine.old) (M.stands_for machine.new) by at }
{
    laws::drain_laws();
    match last {
        Some(q) => mark(machine, by, at, held, Target::At(q)),
        None => Ok(held.counter),
    }
}

/// Decides whether another read follows the read at the position `position`. If the read reached the shard's end
/// (`ended`), sets the checkpoint to that end, and returns `None`. Otherwise, if the read position of `held` is above
/// `position`, returns `held`, the tenure for the next read. If that position isn't above `position`, returns `None`.
/// So the position rises with each read, and reading terminates on any machine.
fn finish_or_continue<M: Machine>(
    machine: &mut M,
    by: u32,
    at: Moment,
    position: u64,
    held: DrainTenure,
    ended: bool,
) -> Result<Option<DrainTenure>, Memory>
    ensures ok { Settles (M.stands_for machine.old) (M.stands_for machine.new) by at position held ended result }
    ensures kept { KeepsLeased (M.stands_for machine.old) (M.stands_for machine.new) by at }
    ensures rises { IfOk result (λ o. IfSome o (λ next. position < next.position)) }
{
    laws::drain_laws();
    if ended {
        mark(machine, by, at, &held, Target::End)?;
        Ok(None)
    } else if held.position > position {
        Ok(Some(held))
    } else {
        Ok(None)
    }
}

/// Reports the records of a read as processed (the command Give). Sets the checkpoint to the last of these records, and
/// then to the shard's end if the read reached that end. Returns the tenure for the next read, if a read follows.
fn deliver<M: Machine>(
    machine: &mut M,
    by: u32,
    at: Moment,
    held: &DrainTenure,
    fetch: &Fetch,
) -> Result<Option<DrainTenure>, Memory>
    ensures ok { Delivers (M.stands_for machine.old) (M.stands_for machine.new) by at held.now fetch.now result }
    ensures kept { KeepsLeased (M.stands_for machine.old) (M.stands_for machine.new) by at }
    ensures rises { IfOk result (λ o. IfSome o (λ next. held.now.position < next.position)) }
{
    laws::drain_laws();
    give(machine, by, at, held)?;
    let counter = mark_last(machine, by, at, held, fetch.last)?;
    let next = DrainTenure {
        tenure: held.tenure,
        position: fetch.reach,
        counter,
    };
    finish_or_continue(machine, by, at, held.position, next, fetch.ended)
}

/// Makes one read, processes its records, reports them as processed, and sets the checkpoint. Returns the tenure for
/// the next read, or `None` if no read follows.
fn read_batch<M: Machine>(
    machine: &mut M,
    by: u32,
    at: Moment,
    held: &DrainTenure,
    tally: &mut Tally,
) -> Result<Option<DrainTenure>, Memory>
    ensures ok { StepsOn (M.stands_for machine.old) (M.stands_for machine.new) by at held.now result }
    ensures kept { KeepsLeased (M.stands_for machine.old) (M.stands_for machine.new) by at }
    ensures rises { IfOk result (λ o. IfSome o (λ next. held.now.position < next.position)) }
{
    let answer = read(machine, by, at, held)?;
    match process_answer(tally, &answer)? {
        Some(fetch) => deliver(machine, by, at, held, &fetch),
        None => Ok(None),
    }
}

/// Reads the shard of the tenure `from` to the end, beginning at the tenure's read position.
pub fn read_on<M: Machine>(
    machine: &mut M,
    by: u32,
    at: Moment,
    from: DrainTenure,
) -> Result<(), Memory>
    ensures ok { ReadsToEnd (M.stands_for machine.old) (M.stands_for machine.new) by at from result }
    ensures kept { KeepsLeased (M.stands_for machine.old) (M.stands_for machine.new) by at }
{
    let mut tally = Tally::new();
    let mut held = from;
    loop {
        match read_batch(machine, by, at, &held, &mut tally)? {
            Some(next) => held = next,
            None => return Ok(()),
        }
    }
}
