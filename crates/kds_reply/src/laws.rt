//! The law that the partition keys in replies are printed unchanged. A law is a theorem that proofs can use.
ghost use Rattle.std.specs.Prelude.{◌∷◌, List};
ghost use Rattle.kds_defs.specs.declared.command.Turn.{Turn};
ghost use Rattle.kds_defs.specs.Histories.{answer};
ghost use Rattle.kds_defs.specs.Lawful.{IsHistory};
ghost use Rattle.kds_reply.specs.Keys.{ArePrintedWhole};

/// States that every partition key in an answer is valid UTF-8, whatever history of commands led to the answer. So
/// `reply` prints the key unchanged. The keys in the answers to commands on leases are valid UTF-8 too, although
/// `reply` never prints these answers.
pub fn keys_are_text()
    ensures { (h : List Turn) (turn : Turn) → IsHistory (turn ∷ h) → ArePrintedWhole (answer h turn) }
{}
