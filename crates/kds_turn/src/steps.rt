//! A hall is a lock around one machine. A turn is one command, applied to the machine. A pass is the right of one
//! thread to make turns. A seat is a handle of the hall's table. This file has the atomic steps that are made on the
//! table through a seat. In proofs, a seat has accounts. Each account is the number of a pass, together with the turns
//! that were made under this number.
ghost use Rattle.std.specs.Prelude.{◌≡◌, ◌≢◌, ℕ, ◌+◌, ◌<◌, ◌^◌, [], ◌∷◌, length, true, false, Some, None};
ghost use Rattle.kds_defs.specs.Lawful.{IsLawful};
ghost use Rattle.kds_turn.specs.Known.{first_number, keeps_rest, gets_second, note_of, both};
ghost use Rattle.kds_turn.specs.Plays.{IsIdle, HasEmpty, HasMachine, Locked, Loaded, Appended, Unlocked};

use crate::rule::{Append, InOrder, Load, Lock, Merge, NewPass, Next, Tell, Unlock};
use crate::view::View;
use atomic_table::Shared;
use kds_defs::{Machine, Turn};
use std::hint::spin_loop;
use std::snapshot::Snapshot;
use std::sync::Wait;
use std::sync::atomic::{AtomicU64, Ordering};

/// A seat at a hall's table: the handle through which steps are made. Each pass and each note has a seat.
pub type Seat<M> = atomic_table::Seat<Option<M>, View>;

/// The table of a hall: three atomic words, the slot that contains the machine, and, in proofs, what each seat knows.
pub type Board<M> = Shared<Option<M>, View, u32, InOrder<M>>;

/// The index of the table's word that contains the number of turns in the history. Word 1 contains the number of
/// passes.
const TURNS: usize = 0;

/// The index of the table's word that contains the number of the pass with the lock, or 0 while the lock is free.
const HOLDER: usize = 2;

/// How many times a waiting thread checks whether the lock was released, before the thread sleeps.
const LOOKS: u32 = 100;

/// Waits until the lock is free, and acquires it for the pass with the number `by`.
pub fn lock<M: Machine, R: Wait>(
    rt: &R,
    board: &Board<M>,
    sleepers: &AtomicU64,
    seat: &mut Seat<M>,
    by: u32,
)
    requires board { (seat.old.table_id ≡ board.now.table_id) × (board.now.table_id.words ≡ 3)
        × (board.now.table_id.slots ≡ 1) }
    requires seat { IsIdle seat.old.me × (first_number seat.old.me.0.accounts ≡ by) × (0 < by) }
    ensures seat { (seat.new.table_id ≡ seat.old.table_id) × (seat.new.id ≡ seat.old.id) }
    ensures locked { Locked M.stands_for seat.old.me seat.new.me }
{
    for _ in rt.forever() {
        let found = board.compare_exchange::<Lock<M>>(seat, HOLDER, 0, by as u64);
        if found == 0 {
            return;
        }
        wait(rt, board, sleepers, found);
    }
    unreachable!()
}

/// Waits for the pass with the number `holder` to release the lock: spins first, and then sleeps. May return while that
/// pass still has the lock. `unlock` overlooks no sleeping thread: a thread is counted in `sleepers` before it reads
/// the lock's word for the last time, and `unlock` reads this count after it has written the word.
fn wait<M: Machine, R: Wait>(rt: &R, board: &Board<M>, sleepers: &AtomicU64, holder: u64)
    requires { board.now.table_id.words ≡ 3 }
{
    for _ in 0..LOOKS {
        if board.peek(HOLDER) != holder {
            return;
        }
        spin_loop();
    }
    sleepers.fetch_add(1, Ordering::SeqCst);
    board.park(rt, HOLDER, (holder % (1 << 32)) as u32);
    sleepers.fetch_sub(1, Ordering::SeqCst);
}

/// Returns the number of turns in the history. The seat has then seen all these turns.
pub fn load_turns<M: Machine>(board: &Board<M>, seat: &mut Seat<M>) -> u64
    requires { (seat.old.table_id ≡ board.now.table_id) × (board.now.table_id.words ≡ 3)
        × (board.now.table_id.slots ≡ 1) }
    ensures seat { (seat.new.table_id ≡ seat.old.table_id) × (seat.new.id ≡ seat.old.id) }
    ensures loaded { Loaded seat.old.me result seat.new.me }
{
    board.load::<Load>(seat, TURNS)
}

/// Takes the machine out of the slot. Precondition: the seat has the lock.
pub fn take_machine<M: Machine>(board: &Board<M>, seat: &mut Seat<M>) -> M
    requires { (seat.old.table_id ≡ board.now.table_id) × HasMachine M.stands_for seat.old.me }
    ensures seat { (seat.new.table_id ≡ seat.old.table_id) × (seat.new.id ≡ seat.old.id) }
    ensures view { (seat.new.me.0 ≡ seat.old.me.0) × HasEmpty seat.new.me }
    ensures stands { M.stands_for result seat.old.me.0.seen }
{
    board.exchange(seat, 0, None).unwrap()
}

/// Puts the machine back into the slot. Precondition: the seat has the lock, and the slot is empty.
pub fn put_machine<M: Machine>(board: &Board<M>, seat: &mut Seat<M>, machine: M)
    requires { (seat.old.table_id ≡ board.now.table_id) × HasEmpty seat.old.me }
    ensures seat { (seat.new.table_id ≡ seat.old.table_id) × (seat.new.id ≡ seat.old.id) }
    ensures view { (seat.new.me.0 ≡ seat.old.me.0) × (seat.new.me.1 ≡ (0, Some machine) ∷ []) }
{
    let empty = board.exchange(seat, 0, Some(machine));
    let None = empty else { unreachable!() };
}

/// Adds the turn to the history. At run time, this increases the number of turns by one.
pub fn count_turn<M: Machine, N: Next>(board: &Board<M>, seat: &mut Seat<M>, _turn: &Snapshot<Turn>)
    requires board { (seat.old.table_id ≡ board.now.table_id) × (board.now.table_id.words ≡ 3)
        × (board.now.table_id.slots ≡ 1) }
    requires seat { (seat.old.me.0.busy ≡ true) × (seat.old.me.0.unloaded ≡ []) }
    requires unspent { length seat.old.me.0.seen + 1 < 2 ^ 64 }
    requires turn { (_turn.now.value ≡ N.turn) × IsLawful N.turn × (N.turn.by ≡ first_number seat.old.me.0.accounts)
        × (0 < N.turn.by) }
    ensures seat { (seat.new.table_id ≡ seat.old.table_id) × (seat.new.id ≡ seat.old.id) }
    ensures appended { Appended _turn.now.value seat.old.me seat.new.me }
{
    board.fetch_add::<Append<N>>(seat, TURNS, 1);
}

/// Releases the lock, and wakes one sleeping thread, if any.
pub fn unlock<M: Machine>(board: &Board<M>, sleepers: &AtomicU64, seat: &mut Seat<M>)
    requires board { (seat.old.table_id ≡ board.now.table_id) × (board.now.table_id.words ≡ 3)
        × (board.now.table_id.slots ≡ 1) }
    requires seat { HasMachine M.stands_for seat.old.me }
    ensures seat { (seat.new.table_id ≡ seat.old.table_id) × (seat.new.id ≡ seat.old.id) }
    ensures unlocked { Unlocked seat.old.me seat.new.me }
{
    board.store::<Unlock>(seat, HOLDER, 0);
    if sleepers.load(Ordering::SeqCst) != 0 {
        board.wake_one(HOLDER);
    }
}

/// Splits a new seat off `seat`, and moves the second account of `seat` to the new seat. This account has the number of
/// another pass.
pub fn split_seat<M: Machine>(board: &Board<M>, seat: &mut Seat<M>) -> Seat<M>
    requires board { (seat.old.table_id ≡ board.now.table_id) × (board.now.table_id.words ≡ 3) }
    requires seat { IsIdle seat.old.me }
    ensures seat { (seat.new.table_id ≡ seat.old.table_id) × (result.table_id ≡ seat.old.table_id) }
    ensures view { (seat.new.me ≡ (keeps_rest seat.old.me.0, [])) × (result.me ≡ (gets_second seat.old.me.0, [])) }
{
    board.split_seat::<NewPass>(seat)
}

/// Makes a new seat that has seen the same turns as `seat` and has no accounts.
pub fn note_seat<M: Machine>(board: &Board<M>, seat: &mut Seat<M>) -> Seat<M>
    requires board { (seat.old.table_id ≡ board.now.table_id) × (board.now.table_id.words ≡ 3) }
    requires seat { IsIdle seat.old.me }
    ensures seat { (seat.new.table_id ≡ seat.old.table_id) × (seat.new.id ≡ seat.old.id)
        × (result.table_id ≡ seat.old.table_id) }
    ensures view { (seat.new.me ≡ seat.old.me) × (result.me ≡ (note_of seat.old.me.0, [])) }
{
    board.split_seat::<Tell>(seat)
}

/// Joins the seat `other` into `seat`. Then `seat` also has the accounts of `other`, and knows the turns that `other`
/// had seen.
pub fn join_seats<M: Machine>(board: &Board<M>, seat: &mut Seat<M>, other: Seat<M>)
    requires board { (seat.old.table_id ≡ board.now.table_id) × (other.table_id ≡ board.now.table_id)
        × (board.now.table_id.words ≡ 3) }
    requires seats { IsIdle seat.old.me × IsIdle other.me }
    ensures seat { (seat.new.table_id ≡ seat.old.table_id) × (seat.new.id ≡ seat.old.id) }
    ensures view { seat.new.me ≡ (both seat.old.me.0 other.me.0, []) }
{
    board.join_seat::<Merge>(seat, other);
}
