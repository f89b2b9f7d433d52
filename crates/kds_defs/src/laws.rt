//! Laws on the answers to commands. A law is a theorem, stated as the contract of a function without parameters.
ghost use Rattle.std.specs.Prelude.{◌≡◌, Bool, List, true, false};
ghost use Rattle.kds_defs.specs.declared.command.Turn.{Turn};
ghost use Rattle.kds_defs.specs.declared.reply.Refusal.{Refusal};
ghost use Rattle.kds_defs.specs.declared.reply.Reply.{Reply};
ghost use Rattle.kds_defs.specs.Decision.{Accepted, Decision, Refused, refuse◌if◌else◌};
ghost use Rattle.kds_defs.specs.Histories.{answer};
ghost use Rattle.kds_defs.specs.Journal.{Line};
ghost use Rattle.kds_defs.specs.Kinds.{is_lease_answer, is_service, is_service_answer};

/// Every answer to a command for the stream service is one of the service's replies or refusals.
pub fn service_answers()
    ensures { (h : List Turn) (turn : Turn) → is_service turn.what ≡ true → is_service_answer (answer h turn) ≡ true }
{}

/// Every answer to a command for the lease table is one of the lease table's replies or refusals.
pub fn lease_answers()
    ensures { (h : List Turn) (turn : Turn) → is_service turn.what ≡ false → is_lease_answer (answer h turn) ≡ true }
{}

/// States how a chain of conditions decides on a command. Each link of the chain has the form `refuse r if b else d`.
/// If the condition `b` holds, the link refuses the command with `r`. Otherwise the rest of the chain, `d`, decides. If
/// the link accepts the command, `b` is false, and `d` accepts the command too, with the same lines of the journal (the
/// event log) and the same reply. If two acceptances are equal, their lists of lines are equal.
pub fn refusal_chain()
    ensures refused { (r : Refusal) (b : Bool) (d : Decision) → b ≡ true → (refuse r if b else d) ≡ Refused r }
    ensures passed { (r : Refusal) (b : Bool) (d : Decision) → b ≡ false → (refuse r if b else d) ≡ d }
    ensures fails { (r : Refusal) (b : Bool) (d : Decision) (lines : List Line) (reply : Reply)
        → (refuse r if b else d) ≡ Accepted lines reply → b ≡ false }
    ensures rest { (r : Refusal) (b : Bool) (d : Decision) (lines : List Line) (reply : Reply)
        → (refuse r if b else d) ≡ Accepted lines reply → d ≡ Accepted lines reply }
    ensures lines { (xs ys : List Line) (reply other : Reply) → Accepted xs reply ≡ Accepted ys other → xs ≡ ys }
{}
