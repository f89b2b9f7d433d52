//! Passes and notes. A pass is the right of one thread to make turns, which apply commands to the machine of a hall. A
//! hall is a lock around one machine. A note tells one pass which turns another pass has seen.
ghost use Rattle.std.specs.Prelude.{◌≡◌, length};

use crate::steps::Seat;
use std::marker::Model;
use thiserror::Error;

/// The right of one thread to make turns. The number of the pass is the sender's number in these turns. In contracts, a
/// pass is represented by its hall, its number, the turns that it has seen (its causal past), its own turns, and the
/// numbers and turns of the passes that were joined into it.
#[derive(Drop)]
pub struct Pass<M> {
    pub(crate) by: u32,
    pub(crate) seat: Seat<M>,
}

impl<M> Model for Pass<M> {
    ghost use Rattle.std.specs.Prelude.{◌≡◌, ◌<◌, ◌∷◌};
    ghost use Rattle.kds_turn.specs.Known.{account, first_turns, after_first};
    ghost use Rattle.kds_turn.specs.Plays.{IsIdle};
    ghost use Rattle.kds_turn.specs.Passes.{PassValue};

    ghost Value = { PassValue };

    ghost view = { λ p. record {
      hall = p.seat.table_id;
      by = p.by;
      seen = p.seat.me.0.seen;
      own = first_turns p.seat.me.0.accounts;
      joined = after_first p.seat.me.0.accounts;
    } };

    ghost invariant = { λ p. IsIdle p.seat.me
        × (p.seat.me.0.accounts ≡ account p.by (first_turns p.seat.me.0.accounts) ∷ after_first p.seat.me.0.accounts)
        × (0 < p.by) };
}

impl<M> Pass<M> {
    /// Returns the number of the pass.
    pub fn by(&self) -> u32
        ensures { result ≡ self.now.by }
    {
        self.by
    }
}

/// The turns that a pass had seen when it made this note. A pass that learns the note has then seen these turns too.
#[derive(Drop)]
pub struct Note<M> {
    pub(crate) seat: Seat<M>,
}

impl<M> Model for Note<M> {
    ghost use Rattle.std.specs.Prelude.{◌≡◌, []};
    ghost use Rattle.kds_turn.specs.Plays.{IsIdle};
    ghost use Rattle.kds_turn.specs.Passes.{NoteValue};

    ghost Value = { NoteValue };

    ghost view = { λ n. record { hall = n.seat.table_id; seen = n.seat.me.0.seen } };

    ghost invariant = { λ n. IsIdle n.seat.me × (n.seat.me.0.accounts ≡ []) };
}

/// The history of a closed hall. In contracts, it is the list of all turns, the newest first. At run time, only the
/// number of turns is kept.
#[derive(Drop)]
pub struct Past<M> {
    pub(crate) turns: u64,
    pub(crate) seat: Seat<M>,
}

impl<M> Model for Past<M> {
    ghost use Rattle.std.specs.Prelude.{◌≡◌, List, length};
    ghost use Rattle.kds_defs.specs.declared.command.Turn.{Turn};

    ghost Value = { List Turn };

    ghost view = { λ p. p.seat.me.0.seen };

    ghost invariant = { λ p. p.turns ≡ length p.seat.me.0.seen };
}

impl<M> Past<M> {
    /// Returns the number of turns in the history.
    pub fn turns(&self) -> u64
        ensures { result ≡ length self.now }
    {
        self.turns
    }
}

/// The reason why a turn wasn't made.
#[derive(Clone, Copy, Debug, PartialEq, Eq, Drop, Error)]
pub enum TurnErr {
    /// Memory ran out.
    #[error("out of memory")]
    Memory,
    /// The history already has 2^64 - 1 turns, the most that can be counted.
    #[error("the history is full")]
    Spent,
}
