//! The law that connects the judge's verdict on a line with the lines that the machine can write. A law is a theorem,
//! stated as the contract of an empty function.
ghost use Rattle.std.specs.Prelude.{ℕ, ◌≡◌, Ok};
ghost use Rattle.kcl_laws.specs.ShownLines.{entry_line};
ghost use Rattle.kds_defs.specs.declared.entry.Entry.{Entry};
ghost use Rattle.kds_defs.specs.Journal.{Journal, Line};
ghost use Rattle.kds_defs.specs.Legal.{IsGood};
ghost use Rattle.kcl_audit_streams.specs.Verdict.{IsFit, verdict};

/// A line is good (`IsGood`) if its command would be accepted after the preceding lines, and would lead to exactly this
/// line. A good line breaks no rule. Conversely, a line that breaks no rule is good, provided that its numbers are
/// within their ranges (`IsFit`).
pub fn exact()
    ensures good { (log : Journal) (line : Line) → IsGood log line → verdict log line ≡ Ok tt }
    ensures ok { (log : Journal) (c actor : ℕ) (entry : Entry) → IsFit entry
        → verdict log (entry_line c actor entry) ≡ Ok tt
        → IsGood log (entry_line c actor entry) }
{}
