//! The hall: a lock around one machine, which several threads share. A turn is one command, applied to the machine as a
//! whole. A pass is the right of one thread to make turns. A note tells one pass which turns another pass has seen.
ghost use Rattle.std.specs.Prelude.{◌≡◌, ◌≢◌, ℕ, ◌+◌, ◌-◌, ◌<◌, ◌≤◌, ◌^◌, List, [], ◌∷◌, ◌++◌, length, map, IfOk};
ghost use Rattle.std.specs.Prelude.{IfErr, OnOk, OnErr, Err, IsOk, ◌↔◌, vec_capacity, Some, true, false};
ghost use Rattle.std.specs.List.{range_with_len};
ghost use Rattle.kds_defs.specs.Histories.{journal, clock};
ghost use Rattle.kds_defs.specs.Kinds.{is_lease_answer, is_service, is_service_answer};
ghost use Rattle.kds_defs.specs.Lawful.{IsLawful, IsHistory};
ghost use Rattle.kds_defs.specs.Machines.{NeedsNoMemory};
ghost use Rattle.kds_defs.specs.Safe.{IsSafe};
ghost use Rattle.kds_turn.specs.declared.pass.TurnErr.TheVariants as failed;
ghost use Rattle.kds_turn.specs.Known.{Continues, first_view};
ghost use Rattle.kds_turn.specs.Passes.{AreAllBy, HasAll, IsAnswered, IsSamePass, IsSplitInto, accounts_of, new_pass};

use crate::pass::{Note, Pass, Past, TurnErr};
use crate::rule::InOrder;
use crate::steps::{
    Seat, count_turn, join_seats, load_turns, lock, note_seat, put_machine, split_seat,
    take_machine, unlock,
};
use crate::view::View;
use atomic_table::{Refused, Table};
use kds_base::{Memory, Moment};
use kds_defs::{Answer, Command, Machine, Turn};
use std::alloc::Global;
use std::marker::{Brand, Model};
use std::snapshot::Snapshot;
use std::sync::Wait;
use std::sync::atomic::AtomicU64;

/// A machine that several threads share, with a lock around it. Each thread uses a pass to apply commands to the
/// machine, and one command is applied at a time. In contracts, a hall is represented by its identity and its number of
/// passes.
#[derive(Drop)]
pub struct Hall<M: Machine> {
    table: Table<Option<M>, View, u32, InOrder<M>, Global>,
    /// The number of threads that sleep, or are about to sleep, until the lock is released.
    sleepers: AtomicU64,
}

impl<M: Machine> Model for Hall<M> {
    ghost use Rattle.std.specs.Prelude.{◌≡◌};
    ghost use Rattle.kds_turn.specs.Passes.{HallValue};

    ghost Value = { HallValue };

    ghost view = { λ h. record { id = h.table.shared.table_id; passes = h.table.shared.key } };

    ghost invariant = { λ h. (h.table.shared.table_id.words ≡ 3) × (h.table.shared.table_id.slots ≡ 1) };
}

impl<M: Machine> Hall<M> {
    /// Makes a hall for the machine. Returns the hall and its passes, which have the numbers from 1 to `passes`, in
    /// this order. If memory runs out, the machine is returned. Preconditions: there is at least one pass, and the
    /// machine has made no turn yet.
    pub fn new(
        alloc: Global,
        machine: M,
        passes: u32,
    ) -> Result<(Hall<M>, Vec<Pass<M>>), (M, Memory)>
        requires some { 1 ≤ passes }
        requires machine { M.stands_for machine [] }
        ensures ok { IfOk result (λ made. (made.0.passes ≡ passes)
            × (made.1.items ≡ map (new_pass made.0.id) (range_with_len 1 passes))) }
        ensures err { IfErr result (λ back. back.0 ≡ machine) }
    {
        let Ok(mut slots) = Vec::with_capacity(alloc, 1) else {
            return Err((machine, Memory));
        };
        let Ok(made) = Vec::with_capacity(alloc, passes as usize) else {
            slots.destroy_empty();
            return Err((machine, Memory));
        };
        slots.push_reserved(Some(machine));
        let (table, seat) = match Table::new(alloc, &[0, passes as u64, 0], slots, &passes) {
            Ok(made) => made,
            Err(Refused { slots }) => return Err((only(slots), Memory)),
        };
        let hall = Hall {
            table,
            sleepers: AtomicU64::new(0),
        };
        let made = hall.make_passes(made, seat, passes);
        Ok((hall, made))
    }

    /// Returns the passes with the numbers from 1 to `passes`, in order. `made` is an empty vector with enough capacity
    /// for the passes. `first` is the seat (handle of the hall's table) from which the seats of all passes are split
    /// off.
    fn make_passes(&self, mut made: Vec<Pass<M>>, mut first: Seat<M>, passes: u32) -> Vec<Pass<M>>
        requires some { 1 ≤ passes }
        requires room { (made.items ≡ []) × (passes ≤ vec_capacity made) }
        requires seat { (first.table_id ≡ self.now.id) × (first.me ≡ (first_view passes, [])) }
        ensures { result.items ≡ map (new_pass self.now.id) (range_with_len 1 passes) }
    {
        for by in 1..passes {
            let seat = split_seat(&self.table.shared, &mut first);
            made.push_reserved(Pass { by: by + 1, seat });
        }
        made.push_reserved(Pass { by: 1, seat: first });
        made.as_mut_slice().rotate_right(1);
        made
    }

    /// Waits for the lock, and then applies the command to the machine, as a turn under the pass's number. If an error
    /// is returned, the turn wasn't made.
    pub fn turn<R: Wait>(
        &self,
        rt: &R,
        pass: &mut Pass<M>,
        now: Moment,
        what: Command,
    ) -> Result<Answer, TurnErr>
        requires hall { pass.old.hall ≡ self.now.id }
        requires lawful { IsLawful record { by = pass.old.by; at = now; what = what } }
        ensures kept { IsSamePass pass.new pass.old }
        ensures seen { Continues pass.new.seen pass.old.seen }
        ensures answered { IfOk result (λ a. IsAnswered record {
          by = pass.old.by;
          at = now;
          what = what;
        } a pass.old pass.new) }
        ensures safe { OnOk result (IsSafe (journal pass.new.seen) (clock pass.new.seen)) }
        ensures failed { OnErr result (pass.new.own ≡ pass.old.own) }
        ensures spent { IfErr result (λ e. (e ≡ failed.Spent) ↔ (length pass.new.seen + 1 ≡ 2 ^ 64)) }
        ensures counted { OnOk result (length pass.new.seen < 2 ^ 64) }
        ensures at_once { NeedsNoMemory what → result ≢ Err failed.Memory }
        ensures own { is_service what ≡ true → IfOk result (λ a. is_service_answer a ≡ true) }
        ensures leased { is_service what ≡ false → IfOk result (λ a. is_lease_answer a ≡ true) }
    {
        kcl_laws::step();
        let (by, shared) = (pass.by, &self.table.shared);
        lock(rt, shared, &self.sleepers, &mut pass.seat, by);
        if load_turns(shared, &mut pass.seat) == u64::MAX {
            unlock(shared, &self.sleepers, &mut pass.seat);
            return Err(TurnErr::Spent);
        }
        let mut machine = take_machine(shared, &mut pass.seat);
        let turn = Turn { by, at: now, what };
        let asked = Snapshot::of(&turn);
        match machine.apply(turn) {
            Ok(answer) => {
                put_machine(shared, &mut pass.seat, machine);
                count_turn::<M, Brand>(shared, &mut pass.seat, &asked);
                unlock(shared, &self.sleepers, &mut pass.seat);
                Ok(answer)
            }
            Err(Memory) => {
                put_machine(shared, &mut pass.seat, machine);
                unlock(shared, &self.sleepers, &mut pass.seat);
                Err(TurnErr::Memory)
            }
        }
    }

    /// Merges the pass `other` into `pass`. Afterwards `pass` has seen all turns that either of the two passes had
    /// seen.
    pub fn join(&self, pass: &mut Pass<M>, other: Pass<M>)
        requires hall { (pass.old.hall ≡ self.now.id) × (other.hall ≡ self.now.id) }
        ensures kept { (pass.new.hall ≡ pass.old.hall) × (pass.new.by ≡ pass.old.by) × (pass.new.own ≡ pass.old.own) }
        ensures joined { pass.new.joined ≡ pass.old.joined ++ accounts_of other }
        ensures seen { Continues pass.new.seen pass.old.seen × Continues pass.new.seen other.seen }
    {
        let Pass { by: _, seat } = other;
        join_seats(&self.table.shared, &mut pass.seat, seat);
        load_turns(&self.table.shared, &mut pass.seat);
    }

    /// Returns a note of the turns that the pass has seen, for another pass to learn. The result is always `Ok`.
    pub fn tell(&self, pass: &mut Pass<M>) -> Result<Note<M>, Memory>
        requires hall { pass.old.hall ≡ self.now.id }
        ensures same { pass.new ≡ pass.old }
        ensures note { IfOk result (λ n. (n.hall ≡ pass.new.hall) × (n.seen ≡ pass.new.seen)) }
        ensures at_once { IsOk result }
    {
        let seat = note_seat(&self.table.shared, &mut pass.seat);
        Ok(Note { seat })
    }

    /// Adds the turns of a note to the turns that the pass has seen.
    pub fn learn(&self, pass: &mut Pass<M>, note: Note<M>)
        requires hall { (pass.old.hall ≡ self.now.id) × (note.hall ≡ self.now.id) }
        ensures kept { (pass.new.hall ≡ pass.old.hall) × (pass.new.by ≡ pass.old.by) × (pass.new.own ≡ pass.old.own)
            × (pass.new.joined ≡ pass.old.joined) }
        ensures seen { Continues pass.new.seen pass.old.seen × Continues pass.new.seen note.seen }
    {
        let Note { seat } = note;
        join_seats(&self.table.shared, &mut pass.seat, seat);
        load_turns(&self.table.shared, &mut pass.seat);
    }

    /// Closes the hall. Precondition: all other passes were joined into `pass`. Returns the machine, and the history of
    /// all turns that the machine has made.
    pub fn close(self, pass: Pass<M>) -> (M, Past<M>)
        requires hall { pass.hall ≡ self.id }
        requires all { HasAll self.passes pass }
        ensures machine { M.stands_for result.0 result.1 }
        ensures history { IsHistory result.1 }
        ensures seen { Continues result.1 pass.seen }
        ensures all { AreAllBy (accounts_of pass) result.1 }
        ensures own { IsSplitInto (accounts_of pass) result.1 }
    {
        let Pass { by: _, mut seat } = pass;
        let turns = load_turns(&self.table.shared, &mut seat);
        let note = note_seat(&self.table.shared, &mut seat);
        let Hall { table, sleepers: _ } = self;
        let mut closed = table.close_with(seat);
        let machine = closed.take(0).unwrap();
        closed.free();
        (machine, Past { turns, seat: note })
    }
}

/// Returns the machine in the only slot of `slots`.
fn only<M>(mut slots: Vec<Option<M>>) -> M
    requires { (machine : M) × (slots.items ≡ Some machine ∷ []) }
    ensures { slots.items ≡ Some result ∷ [] }
{
    let first = slots.pop().unwrap();
    slots.destroy_empty();
    first.unwrap()
}
