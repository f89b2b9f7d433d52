//! The list of a worker's consumers. A consumer processes the shard of one lease (Kinesis Client Library,
//! ShardConsumer). A tenure is one worker's hold on a lease. The list is ordered by the keys and then by the tenure
//! numbers of the consumers' leases. A processor call is due if the consumer has to make this call next. A consumer is
//! over once it has nothing more to do.
ghost use Rattle.std.specs.Prelude.{◌≡◌, ◌+◌, ◌<◌, ◌≤◌, length, if◌then◌else◌, true, IfNone, IfSome, IsSome, None};
ghost use Rattle.std.specs.Prelude.{OnErr, OnOk, Result};
ghost use Rattle.kds_defs.specs.declared.reply.Refusal.{Refusal};
ghost use Rattle.kds_defs.specs.declared.reply.Reply.{Reply};
ghost use Rattle.std.specs.List.{insert, list_any};
ghost use Rattle.std.specs.Vec.{vec_capacity, vec_len};
ghost use Rattle.kcl_defs.specs.declared.consumer.Ask.{Ask};
ghost use Rattle.std.specs.Option.{option_map};
ghost use Rattle.kcl_worker_lists.specs.Planning.{is_among};
ghost use Rattle.kcl_worker_lists.specs.Lists.{giving_in, id_in, past_in};
ghost use Rattle.kcl_defs.specs.Workers.{is_giving_stage, opens_or_marks, same_id};
ghost use Rattle.kcl_worker_lists.specs.Changes.{FirstCalled, FirstUncalled, IsFirstDue, IsFirstOf, answered_among};
ghost use Rattle.kcl_worker_lists.specs.Changes.{is_over_at, lost_among, lost_in, first_of, stage_or_opening};
ghost use Rattle.kcl_worker_lists.specs.Changes.{with_consumer};
ghost use Rattle.kcl_worker_lists.specs.Lists.{due_in, is_due};

use crate::leases::{is_before_id, is_past, same_id};
use crate::planning::is_among;
use kcl_consumer::{Consumer, Processor};
use kcl_defs::{Held, TenancyId};
use kds_base::Memory;
use kds_defs::{Answer, let_go};

/// Returns the key and the tenure number of the consumer's lease.
pub fn id_of<P: Processor>(c: &Consumer<P>) -> TenancyId
    ensures { result ≡ id_in c.now }
{
    TenancyId {
        key: c.key(),
        tenure: c.tenure(),
    }
}

/// Returns the first consumer whose lease comes after the lease `last` in the list's order. If `last` is `None`,
/// returns the first consumer in the list.
pub fn first_past<'a, P: Processor>(
    consumers: &'a [Consumer<P>],
    last: &Option<TenancyId>,
) -> Option<&'a Consumer<P>>
    ensures { option_map (λ c. c.now) result ≡ past_in last.now consumers.now }
{
    for c in consumers {
        if is_past(last, &id_of(c)) {
            return Some(c);
        }
    }
    None
}

/// Returns the first consumer whose next command is a Give, which reports a batch as processed.
pub fn first_giving<P: Processor>(consumers: &[Consumer<P>]) -> Option<&Consumer<P>>
    ensures { option_map (λ c. c.now) result ≡ giving_in consumers.now }
{
    for c in consumers {
        if c.is_giving() {
            return Some(c);
        }
    }
    None
}

/// Whether at least one of the consumers has a processor call due.
pub fn any_due<P: Processor>(consumers: &[Consumer<P>]) -> bool
    ensures { result ≡ list_any is_due consumers.now }
{
    for c in consumers {
        if c.due().is_some() {
            return true;
        }
    }
    false
}

/// Whether the next command of at least one consumer is a Give, which reports a batch as processed.
pub fn any_giving<P: Processor>(consumers: &[Consumer<P>]) -> bool
    ensures { result ≡ list_any (λ c. is_giving_stage c.stage) consumers.now }
{
    for c in consumers {
        if c.is_giving() {
            return true;
        }
    }
    false
}

/// If `same` is true, tells the consumer `c` that its lease is lost.
fn lose_if<P: Processor>(c: &mut Consumer<P>, same: bool)
    ensures { c.new ≡ (if same then lost_in c.old else c.old) }
{
    if same {
        c.lose();
    }
}

/// Tells every consumer in the list that its lease is lost.
#[tactic(auto, using(crate::proofs::Calls::map_over))]
pub fn lose_all<P: Processor>(consumers: &mut Vec<Consumer<P>>)
    ensures { consumers.new.items ≡ lost_among (λ id. true) consumers.old.items }
{
    for c in consumers.iter_mut() {
        lose_if(c, true);
    }
}

/// Tells the consumers of the lease `id` that this lease is lost.
#[tactic(auto, using(crate::proofs::Calls::map_over))]
pub fn lose_one<P: Processor>(consumers: &mut Vec<Consumer<P>>, id: &TenancyId)
    ensures { consumers.new.items ≡ lost_among (λ i. same_id i id.now) consumers.old.items }
{
    for c in consumers.iter_mut() {
        let same = same_id(&id_of(c), id);
        lose_if(c, same);
    }
}

/// Tells the consumers of each lease in `lost` that the lease is lost.
#[tactic(auto, using(crate::proofs::Calls::map_over))]
pub fn lose_these<P: Processor>(consumers: &mut Vec<Consumer<P>>, lost: &[Held])
    ensures { consumers.new.items ≡ lost_among (is_among lost.now) consumers.old.items }
{
    for c in consumers.iter_mut() {
        let same = is_among(lost, &id_of(c));
        lose_if(c, same);
    }
}

/// Returns the index of the first consumer that has a processor call due, or `None` if no call is due.
fn first_due<P: Processor>(consumers: &[Consumer<P>]) -> Option<usize>
    ensures some { IfSome result (λ i. IsFirstDue i consumers.now) }
    ensures none { IfNone result (due_in consumers.now ≡ None) }
{
    for i in 0..consumers.len() {
        if consumers[i].due().is_some() {
            return Some(i);
        }
    }
    None
}

/// Makes the due processor call of the first consumer for which a call is due. Precondition: there is such a consumer.
/// The error means that the processor ran out of memory; the same call is then still due.
pub fn call_first<P: Processor>(consumers: &mut Vec<Consumer<P>>) -> Result<(), Memory>
    requires { IsSome (due_in consumers.old.items) }
    ensures ok { OnOk result ((asked : Ask)
        × FirstCalled P.stands_for P.asks asked consumers.old.items consumers.new.items) }
    ensures err { OnErr result (FirstUncalled P.stands_for P.asks consumers.old.items consumers.new.items) }
    ensures len { vec_len consumers.new ≡ vec_len consumers.old }
{
    match first_due(consumers.as_slice()) {
        Some(i) => consumers[i].call(),
        None => Ok(()),
    }
}

/// Returns the first consumer of the lease `id`, or `None` if the lease has no consumer.
fn first_of<'a, P: Processor>(
    consumers: &'a [Consumer<P>],
    id: &TenancyId,
) -> Option<&'a Consumer<P>>
    ensures { option_map (λ c. c.now) result ≡ first_of id.now consumers.now }
{
    for c in consumers {
        if same_id(&id_of(c), id) {
            return Some(c);
        }
    }
    None
}

/// Whether the next command of the first consumer of the lease `id` is an OpenShard (it opens the shard) or a Mark (it
/// sets the checkpoint). If the lease has no consumer, the result is `true`.
pub fn opens_or_marks_at<P: Processor>(consumers: &[Consumer<P>], id: &TenancyId) -> bool
    ensures { result ≡ opens_or_marks (stage_or_opening (first_of id.now consumers.now)) }
{
    match first_of(consumers, id) {
        Some(c) => c.opens_or_marks(),
        None => true,
    }
}

/// Whether the first consumer of the lease `id` is over. If the lease has no consumer, the result is `false`.
pub fn is_over_at<P: Processor>(consumers: &[Consumer<P>], id: &TenancyId) -> bool
    ensures { result ≡ is_over_at (first_of id.now consumers.now) }
{
    match first_of(consumers, id) {
        Some(c) => c.over().is_some(),
        None => false,
    }
}

/// Returns the index of the first consumer of the lease `id`, or `None` if the lease has no consumer.
fn index_of<P: Processor>(consumers: &[Consumer<P>], id: &TenancyId) -> Option<usize>
    ensures some { IfSome result (λ i. IsFirstOf id.now i consumers.now) }
    ensures none { IfNone result ((answer : Result Reply Refusal)
        → answered_among id.now answer consumers.now ≡ consumers.now) }
{
    for i in 0..consumers.len() {
        if same_id(&id_of(&consumers[i]), id) {
            return Some(i);
        }
    }
    None
}

/// Updates the first consumer of the lease `id` with the answer to this consumer's last command. If the lease has no
/// consumer, the answer is dropped.
pub fn absorb_one<P: Processor>(consumers: &mut Vec<Consumer<P>>, id: &TenancyId, answer: Answer)
    ensures absorbed { consumers.new.items ≡ answered_among id.now answer consumers.old.items }
    ensures len { vec_len consumers.new ≡ vec_len consumers.old }
{
    match index_of(consumers.as_slice(), id) {
        Some(i) => {
            consumers[i].absorb(answer);
        }
        None => let_go(answer),
    }
}

/// Returns the index at which the consumer `c` has to be inserted to keep the order of the list.
fn insertion_index<P: Processor>(consumers: &[Consumer<P>], c: &Consumer<P>) -> usize
    ensures index { insert consumers.now result c.now ≡ with_consumer c.now consumers.now }
    ensures within { result ≤ length consumers.now }
{
    for i in 0..consumers.len() {
        if is_before_id(&id_of(c), &id_of(&consumers[i])) {
            return i;
        }
    }
    consumers.len()
}

/// Inserts the consumer `c` at its index in the order of the list. Precondition: memory was reserved for the consumer.
pub fn add_consumer<P: Processor + Drop>(consumers: &mut Vec<Consumer<P>>, c: Consumer<P>)
    requires { vec_len consumers.old < vec_capacity consumers.old }
    ensures added { consumers.new.items ≡ with_consumer c consumers.old.items }
    ensures len { vec_len consumers.new ≡ vec_len consumers.old + 1 }
{
    let index = insertion_index(consumers.as_slice(), &c);
    match consumers.insert(index, c) {
        Ok(()) => {}
        Err(_) => {}
    }
}
