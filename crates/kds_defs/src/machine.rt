//! The contract of a machine: a deterministic state machine that answers turns. A turn is a command with its sender and
//! its time.
ghost use Rattle.std.specs.Prelude.{◌≡◌, List, ◌∷◌, true, false, IfOk, IsOk, OnErr};
ghost use Rattle.kds_defs.specs.declared.command.Turn.{Turn};
ghost use Rattle.kds_defs.specs.Histories.{answer};
ghost use Rattle.kds_defs.specs.Kinds.{is_lease_answer, is_service, is_service_answer};
ghost use Rattle.kds_defs.specs.Lawful.{IsLawful};
ghost use Rattle.kds_defs.specs.Machines.{NeedsNoMemory};

use crate::command::Turn;
use crate::reply::{Refusal, Reply};
use kds_base::Memory;

/// The answer to a turn: a reply or a refusal.
pub type Answer = Result<Reply, Refusal>;

/// Drops an answer that isn't needed any more. A function that drops an answer by this call has a shorter proof.
pub fn let_go(_answer: Answer) {}

/// A machine that answers turns, one after another.
pub trait Machine {
    /// Whether the machine represents ("stands for") a history, which is a list of turns with the newest first. The
    /// machine does so if it has answered exactly these turns.
    ghost stands_for: { Self → List Turn → Type 0 };

    /// Applies `turn` atomically, and returns its answer. The error `Memory` means that memory ran out.
    fn apply(&mut self, turn: Turn) -> Result<Answer, Memory>
        requires { IsLawful turn }

        // If the machine represented a history before the call, the answer is the one that the definition `answer`
        // gives for the turn after this history. The machine then represents the history with the turn added.
        ensures answered { (h : List Turn) → stands_for self.old h
            → IfOk result (λ a. (a ≡ answer h turn) × stands_for self.new (turn ∷ h)) }

        // If memory runs out, the machine represents the same history as before.
        ensures kept { (h : List Turn) → stands_for self.old h → OnErr result (stands_for self.new h) }

        // Whatever the history, a command for the stream service gets one of the service's replies or refusals.
        ensures own { is_service turn.what ≡ true → IfOk result (λ a. is_service_answer a ≡ true) }

        // Whatever the history, a command for the lease table gets one of the lease table's replies or refusals.
        ensures leased { is_service turn.what ≡ false → IfOk result (λ a. is_lease_answer a ≡ true) }

        // The commands Renew, Free, OpenShard, Give, Mark and CutLease never return `Memory`. They allocate no memory,
        // because they only change or remove an existing row of the lease table, or an existing tenure (a worker's hold
        // on a row).
        ensures sure { NeedsNoMemory turn.what → IsOk result };
}
