//! The turns that a run has applied, as a value that only contracts use (decision 103). A turn is a command with its
//! sender and its time.
ghost use Rattle.std.specs.Prelude.{◌≡◌, List, [], ◌∷◌};
ghost use Rattle.std.specs.Borrow.{ftrue};
ghost use Rattle.kds_defs.specs.declared.command.Turn.{Turn};

use kds_defs::Turn;
use std::marker::Model;

/// The turns that were applied, the newest first. A value of this type takes no bytes, and its functions do nothing at
/// run time. The type itself doesn't guarantee that these turns were really applied. The guarantee is an invariant of
/// the struct that has a field of this type. For example, the invariant of `Sim` relates the turns to the machine of
/// the `Sim`.
#[derive(Drop)]
pub struct History {
    pub ghost turns: { List Turn },
}

impl Model for History {
    ghost also_owns = { λ _. ftrue };
}

impl History {
    /// Returns the history without turns.
    pub fn new() -> History
        ensures { result.turns ≡ [] }
    {
        History {}
    }

    /// Returns a copy with the same turns.
    pub fn copy(&self) -> History
        ensures { result.turns ≡ self.now.turns }
    {
        History {}
    }

    /// Returns this history with the turn `_turn` added.
    pub fn then(&self, _turn: &Turn) -> History
        ensures { result.turns ≡ _turn.now ∷ self.now.turns }
    {
        History {}
    }
}
