//! The tenures of all leases. A tenure is one worker's hold on a lease. An actor is a client or a process. Each read of
//! a tenure fetches a batch of records. A read counts as delivered once the record processor has processed its batch.
//! Until then, the read is pending.
ghost use Rattle.std.specs.Prelude.{◌≡◌, ◌≢◌, ◌+◌, ◌-◌, ◌<◌, ◌≤◌, ◌++◌, ◌∷◌, ◌==◌, [], length, true, false, IfErr};
ghost use Rattle.std.specs.Prelude.{IfNone, IfOk, IfSome, IsSome, None, OnErr, OnOk, Some};
ghost use Rattle.std.specs.Option.{option_map};
ghost use Rattle.kds_base.specs.declared.lease_key.Checkpoint.TheVariants.{At, ShardEnd};
ghost use Rattle.kds_defs.specs.declared.limits.TheConstants.{PENDING_READS};
ghost use Rattle.kds_defs.specs.declared.reply.Refusal.TheVariants as refusal;
ghost use Rattle.kds_defs.specs.Listings.{are_none};
ghost use Rattle.kds_defs.specs.StreamCommands.{last_number};
ghost use Rattle.kcl_book.specs.Tenures.{HasGiven, begun, shown, tenure_at, with_read, with_tenure};

use crate::kept::KeptTenure;
use crate::tenure::Tenure;
use kds_base::{Checkpoint, Memory, ShardRef, TenureNo};
use kds_defs::Refusal;
use std::alloc::Global;
use std::marker::Model;

/// The book: the tenures of all leases, numbered from 1 in the order in which they began. No tenure is ever removed. In
/// contracts, `tenures` is the list of the tenures in this order, and `spare` is the number of further tenures for
/// which memory is reserved.
#[derive(Drop)]
pub struct Book {
    tenures: Vec<KeptTenure>,
}

impl Model for Book {
    ghost use Rattle.std.specs.Prelude.{◌-◌};
    ghost use Rattle.std.specs.Vec.{vec_capacity, vec_len};
    ghost use Rattle.kcl_book.specs.Tenures.{BookValue};

    ghost Value = { BookValue };

    ghost view = { λ b. record { tenures = b.tenures.items; spare = vec_capacity b.tenures - vec_len b.tenures } };
}

/// Returns the index of the tenure with the number `no`, or `None` if there is no such tenure.
fn index_of(tenures: &[KeptTenure], no: TenureNo) -> Option<usize>
    ensures none { IfNone result (tenure_at tenures.now no ≡ None) }
    ensures some { IfSome result (λ i. (i + 1 ≡ no) × (i < length tenures.now)) }
{
    let i = no.0.checked_sub(1)?;
    if i < tenures.len() as u64 {
        Some(i as usize)
    } else {
        None
    }
}

impl Book {
    /// Returns a book without tenures.
    pub fn new(alloc: Global) -> Book
        ensures { result.tenures ≡ [] }
    {
        Book {
            tenures: Vec::new(alloc),
        }
    }

    /// Reserves memory for at least one further tenure. The error means that memory ran out. The tenures are unchanged
    /// in either case.
    pub fn reserve(&mut self) -> Result<(), Memory>
        ensures tenures { self.new.tenures ≡ self.old.tenures }
        ensures spare { OnOk result (1 ≤ self.new.spare) }
    {
        self.tenures.reserve(1)?;
        Ok(())
    }

    /// Whether the number of the last tenure is the greatest `u64`, so that no further tenure can begin.
    pub fn spent(&self) -> bool
        ensures { result ≡ (length self.now.tenures == last_number) }
    {
        self.tenures.len() as u64 == u64::MAX
    }

    /// Begins a tenure of the lease `key` at the checkpoint `start`. The actor `by` has taken the lease. Returns the
    /// tenure's number. Precondition: memory for a further tenure is reserved, fewer than 2^64 - 1 tenures have begun,
    /// and `start` is neither the shard's end nor the greatest sequence number. Allocates no memory.
    pub fn begin(&mut self, by: u32, key: ShardRef, start: Checkpoint) -> TenureNo
        requires spare { 1 ≤ self.old.spare }
        requires unspent { length self.old.tenures < last_number }
        requires not_ended { start ≢ ShardEnd }
        requires not_last { start ≢ At u64.MAX }
        ensures number { result ≡ length self.old.tenures + 1 }
        ensures begun { self.new.tenures ≡ self.old.tenures ++ begun by key start ∷ [] }
    {
        self.tenures
            .push_reserved(KeptTenure::begin(by, key, start));
        TenureNo(self.tenures.len() as u64)
    }

    /// Returns the tenure with the number `no`, or `None` if and only if there is no such tenure.
    pub fn tenure(&self, no: TenureNo) -> Option<Tenure>
        ensures { result ≡ option_map shown (tenure_at self.now.tenures no) }
    {
        let index = index_of(&self.tenures, no)?;
        Some(self.tenures[index].shown())
    }

    /// Returns the position up to which the records of the tenure `no` were delivered to the tenure's record processor.
    /// Returns `None` if and only if there is no such tenure.
    pub fn delivered(&self, no: TenureNo) -> Option<u64>
        ensures { result ≡ option_map (λ t. t.delivered) (tenure_at self.now.tenures no) }
    {
        let index = index_of(&self.tenures, no)?;
        Some(self.tenures[index].delivered())
    }

    /// Whether the last delivered read of the tenure `no` reached the shard's end. Returns `None` if and only if there
    /// is no such tenure.
    pub fn at_end(&self, no: TenureNo) -> Option<bool>
        ensures { result ≡ option_map (λ t. t.at_end) (tenure_at self.now.tenures no) }
    {
        let index = index_of(&self.tenures, no)?;
        Some(self.tenures[index].at_end())
    }

    /// Opens the existing tenure `no`, which may read its shard from then on. The refusal is `OpenedBefore` if and only
    /// if the tenure is already open. Allocates no memory.
    pub fn open_tenure(&mut self, no: TenureNo) -> Result<(), Refusal>
        requires { IsSome (tenure_at self.old.tenures no) }
        ensures before { IfErr result (λ r. (r ≡ refusal.OpenedBefore) × (self.new ≡ self.old)
            × IfSome (tenure_at self.old.tenures no) (λ t. t.opened ≡ true)) }
        ensures opened { OnOk result (IfSome (tenure_at self.old.tenures no) (λ t. (t.opened ≡ false)
            × (self.new ≡ with_tenure no (record t { opened = true }) self.old))) }
    {
        let index = (no.0 - 1) as usize;
        if self.tenures[index].is_opened() {
            return Err(Refusal::OpenedBefore);
        }
        self.tenures[index].open();
        Ok(())
    }

    /// Adds a pending read to the existing tenure `no`. `reach` is the position after the records of the read, and
    /// `end` says whether the read reached the shard's end. Precondition: the tenure is open, it has fewer than
    /// `PENDING_READS` pending reads, and the position after its last read isn't beyond `reach`. Allocates no memory.
    pub fn read(&mut self, no: TenureNo, reach: u64, end: bool)
        requires there { IsSome (tenure_at self.old.tenures no) }
        requires opened { IfSome (tenure_at self.old.tenures no) (λ t. t.opened ≡ true) }
        requires few { IfSome (tenure_at self.old.tenures no) (λ t. length t.pending < PENDING_READS) }
        requires onward { IfSome (tenure_at self.old.tenures no) (λ t. t.reach ≤ reach) }
        ensures { IfSome (tenure_at self.old.tenures no)
            (λ t. self.new ≡ with_tenure no (with_read reach end t) self.old) }
    {
        self.tenures[(no.0 - 1) as usize].read(reach, end);
    }

    /// Counts the oldest pending read of the existing tenure `no` as delivered, and returns the position after that
    /// read. The refusal is `NothingPending` if and only if the tenure has no pending read. Allocates no memory.
    pub fn give(&mut self, no: TenureNo) -> Result<u64, Refusal>
        requires { IsSome (tenure_at self.old.tenures no) }
        ensures nothing { IfErr result (λ r. (r ≡ refusal.NothingPending) × (self.new ≡ self.old)
            × IfSome (tenure_at self.old.tenures no) (λ t. are_none t.pending ≡ true)) }
        ensures given { IfOk result (λ delivered. HasGiven no delivered self.old self.new) }
    {
        let index = (no.0 - 1) as usize;
        if self.tenures[index].has_nothing_pending() {
            return Err(Refusal::NothingPending);
        }
        Ok(self.tenures[index].give())
    }
}
