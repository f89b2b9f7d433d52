//! A schedule is a recorded workload. A turn is a command with its sender and its time, and a history is a list of
//! turns. The run of a schedule keeps all its turns, none of them, or a text that it gathers from them (decision 103).
//! Such a text is, for example, a journal (an event log).
ghost use Rattle.std.specs.Prelude.{◌≡◌, ℕ, Bool, [], ◌∷◌, List, refl, reverse, true, false, IfOk, OnOk, OnErr};
ghost use Rattle.kds_defs.specs.declared.command.Turn.{Turn};
ghost use Rattle.kds_defs.specs.Histories.{answer};
ghost use Rattle.kds_defs.specs.Kinds.{is_lease_answer, is_service, is_service_answer};
ghost use Rattle.kds_defs.specs.Lawful.{IsLawful};
ghost use Rattle.kds_lines.specs.Taking.{GoesOn};
ghost use Rattle.kcl_sim.specs.Keeping.{AddsText};

use kds_base::{Memory, Octets};
use kds_defs::{Answer, Machine, Turn};
use std::alloc::Global;

/// Decides what the run of a schedule keeps of its turns. An implementation may gather a text from the turns, such as a
/// journal. A run outputs either this text, or the texts of the answers to its turns.
pub trait Keep {
    /// `keeps k cleared_at h` means that `k` holds what is to be kept of the turns of the history `h` (newest turn
    /// first), and that the gathered text was last emptied when the history was `cleared_at`.
    ghost keeps: { Self → List Turn → List Turn → Type 0 };

    /// Whether the run outputs the texts of answers.
    ghost wanted: { Bool };

    /// The text that is gathered from the turns of a history. A run outputs this text if `wanted` is false.
    ghost text: { List Turn → List ℕ };

    ghost nothing: { text [] ≡ [] };

    /// Whether the run outputs the texts of the answers to its turns. If not, the run makes no text of an answer.
    fn wants_answers() -> bool
        ensures { result ≡ wanted };

    /// States that adding a turn to a history only appends to the text that is gathered from this history.
    fn grows()
        ensures { (h : List Turn) (turn : Turn) → GoesOn (text h) (text (turn ∷ h)) };

    /// Applies a turn to the machine, and keeps what is to be kept of the turn and of its answer. Preconditions: the
    /// values of the turn are in the ranges of the API, the machine has answered exactly the turns of some history
    /// (`stands_for`), and `self` holds what is to be kept of these turns. If memory runs out, the turn isn't applied,
    /// and nothing is kept of it.
    fn apply<M: Machine>(
        &mut self,
        alloc: Global,
        machine: &mut M,
        turn: Turn,
    ) -> Result<Answer, Memory>
        requires lawful { IsLawful turn }
        requires stands { (cleared_at : List Turn)
            × ((h : List Turn) × (M.stands_for machine.old h × keeps self.old cleared_at h)) }
        ensures answered { (h : List Turn) → M.stands_for machine.old h
            → IfOk result (λ a. (a ≡ answer h turn) × M.stands_for machine.new (turn ∷ h)) }
        ensures added { (cleared_at h : List Turn) → M.stands_for machine.old h → keeps self.old cleared_at h
            → OnOk result (keeps self.new cleared_at (turn ∷ h)) }
        ensures err { (h : List Turn) → M.stands_for machine.old h → OnErr result (M.stands_for machine.new h) }
        ensures kept { (cleared_at h : List Turn) → keeps self.old cleared_at h
            → OnErr result (keeps self.new cleared_at h) }
        ensures own { is_service turn.what ≡ true → IfOk result (λ a. is_service_answer a ≡ true) }
        ensures leased { is_service turn.what ≡ false → IfOk result (λ a. is_lease_answer a ≡ true) };

    /// Empties the text that was gathered from the turns.
    fn clear_text(&mut self)
        ensures { (cleared_at h : List Turn) → keeps self.old cleared_at h → keeps self.new h h };

    /// Appends to `to` the text that was gathered from the turns since the text was last emptied. If memory runs out,
    /// nothing is appended. The error is also returned if memory for this text ran out in an earlier turn.
    fn append_text(&self, to: &mut Octets) -> Result<(), Memory>
        ensures ok { (cleared_at h : List Turn) → keeps self.now cleared_at h
            → OnOk result (AddsText (text cleared_at) (text h) to.old to.new) }
        ensures err { OnErr result (to.new ≡ to.old) };
}

/// Keeps all turns, in the order in which they were applied.
#[derive(Drop)]
pub struct AllTurns {
    turns: Vec<Turn>,
}

impl AllTurns {
    pub(crate) fn new(alloc: Global) -> AllTurns
        ensures { result.turns.items ≡ [] }
    {
        AllTurns {
            turns: Vec::new(alloc),
        }
    }

    pub(crate) fn as_slice(&self) -> &[Turn]
        ensures { result.now ≡ self.now.turns.items }
    {
        self.turns.as_slice()
    }
}

impl Keep for AllTurns {
    ghost keeps = { λ k cleared_at h. k.turns.items ≡ reverse h };

    ghost wanted = { true };

    ghost text = { λ h. [] };

    ghost nothing = { refl };

    fn wants_answers() -> bool {
        true
    }

    fn grows() {}

    fn apply<M: Machine>(
        &mut self,
        alloc: Global,
        machine: &mut M,
        turn: Turn,
    ) -> Result<Answer, Memory> {
        self.turns.reserve(1)?;
        let copy = turn.copy(alloc)?;
        let answer = machine.apply(turn)?;
        self.turns.push_reserved(copy);
        Ok(answer)
    }

    fn clear_text(&mut self) {}

    fn append_text(&self, to: &mut Octets) -> Result<(), Memory> {
        let _ = to;
        Ok(())
    }
}

/// Keeps no turn and copies none, so its memory doesn't grow with the number of turns.
#[derive(Drop)]
pub struct NoTurns;

impl Keep for NoTurns {
    ghost keeps = { λ k cleared_at h. Unit {0} };

    ghost wanted = { true };

    ghost text = { λ h. [] };

    ghost nothing = { refl };

    fn wants_answers() -> bool {
        true
    }

    fn grows() {}

    fn apply<M: Machine>(
        &mut self,
        alloc: Global,
        machine: &mut M,
        turn: Turn,
    ) -> Result<Answer, Memory> {
        let _ = alloc;
        machine.apply(turn)
    }

    fn clear_text(&mut self) {}

    fn append_text(&self, to: &mut Octets) -> Result<(), Memory> {
        let _ = to;
        Ok(())
    }
}
