//! A hall is a lock around one machine. A turn is one command, applied to the machine. A pass is the right of one
//! thread to make turns. A hall has a table with three atomic words and one slot for the machine. A seat is a handle of
//! the table. This file has the rules of the table. In proofs, a seat has a view: what the seat knows of the history of
//! turns. The view has accounts. An account is the number of a pass, together with the turns that were made under this
//! number. Each type of step states how the step changes the view.
ghost use Rattle.kds_turn.specs.Known.{first_view, note_of, keeps_rest, gets_second, both, nobody};
ghost use Rattle.kds_turn.specs.Rule.{Orderly};
ghost use Rattle.kds_turn.specs.Plays.{Locks, Loaded, Appended, Unlocked};

use crate::view::View;
use atomic_table::{Join, Play, Split, TableRule};
use kds_defs::Machine;
use std::marker::{Brand, PhantomData};

/// The invariant that every step on a hall's table preserves. The invariant depends on the key of the table. This key
/// is the number of passes.
pub struct InOrder<M> {
    marker: PhantomData<M>,
}

impl<M: Machine> TableRule<Option<M>, View, u32> for InOrder<M> {
    ghost holds = { λ count. Orderly M.stands_for count };

    ghost first = { first_view };
}

/// The step that tries to acquire the lock, and with it the slot that contains the machine.
pub struct Lock<M> {
    marker: PhantomData<M>,
}

impl<M: Machine> Play<Option<M>, View> for Lock<M> {
    ghost then = { Locks M.stands_for };
}

/// The step that loads the number of turns in the history. The seat that makes this step has then seen all these turns.
pub struct Load;

impl<M> Play<Option<M>, View> for Load {
    ghost then = { λ st m found n. Loaded m found n };
}

/// States, for proofs, the turn that an `Append` step adds to the history. The caller of the step chooses this turn.
pub trait Next {
    ghost use Rattle.kds_defs.specs.declared.command.Turn.{Turn};

    ghost turn: { Turn };
}

impl Next for Brand {
    ghost use Rattle.kds_defs.specs.declared.command.Command.TheVariants.{Survey};

    ghost turn = { record { by = 0; at = 0; what = Survey } };
}

/// The step that adds one turn to the history.
pub struct Append<N> {
    marker: PhantomData<N>,
}

impl<M, N: Next> Play<Option<M>, View> for Append<N> {
    ghost then = { λ st m found n. Appended N.turn m n };
}

/// The step that releases the lock, and with it the slot that contains the machine.
pub struct Unlock;

impl<M> Play<Option<M>, View> for Unlock {
    ghost then = { λ st m found n. Unlocked m n };
}

/// The step that makes the seat of a new pass. The second account of the old seat moves to the new seat.
pub struct NewPass;

impl Split<View> for NewPass {
    ghost left = { keeps_rest };

    ghost right = { gets_second };
}

/// The step that makes the seat of a note. The new seat has seen the same turns as the seat of the pass.
pub struct Tell;

impl Split<View> for Tell {
    ghost left = { λ v. v };

    ghost right = { note_of };
}

/// The step that joins another seat into the seat of a pass. The pass's seat then has the accounts of both seats, and
/// knows the turns that either seat had seen.
pub struct Merge;

impl Join<View> for Merge {
    ghost both = { both };

    ghost spent = { nobody };
}
