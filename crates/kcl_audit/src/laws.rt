//! Laws about every verdict on a line of a journal (event log), and about every audit of a text. A law is a theorem,
//! stated as the contract of a function that does nothing. A verdict says which rule a line breaks, if any.
ghost use Rattle.std.specs.Prelude.{ℕ, List, ◌≡◌, ◌≢◌, Ok};
ghost use Rattle.kds_defs.specs.Journal.{Journal, Line};
ghost use Rattle.kds_defs.specs.Legal.{IsGood};
ghost use Rattle.kcl_journal.specs.declared.line.EntryLine.{EntryLine};
ghost use Rattle.kcl_journal.specs.Ranges.{IsTellable};
ghost use Rattle.kcl_audit_streams.specs.Verdict.{verdict};
ghost use Rattle.kds_lines.specs.Lines.{lined, too_long};
ghost use Rattle.kcl_audit.specs.Progress.{audit_of, line_of, over, sound};
ghost use Rattle.kcl_audit.specs.Text.{IsJournal};

use kcl_audit_judge::exact as exact_verdicts;

/// A line is good (`IsGood`) if its command is accepted after the preceding lines, and leads to exactly this line. A
/// good line breaks no rule. Conversely, a line that breaks no rule is good, provided that the text of a journal can
/// state the line's entry (`IsTellable`).
pub fn exact()
    ensures good { (log : Journal) (line : Line) → IsGood log line → verdict log line ≡ Ok tt }
    ensures ok { (log : Journal) (v : ℕ) (e : EntryLine) → IsTellable v e.what → verdict log (line_of e) ≡ Ok tt
        → IsGood log (line_of e) }
{
    exact_verdicts();
}

/// A journal is legal if each line is good after the preceding lines. If an audit of some bytes ends with the result
/// `sound n`, the bytes are the text of a legal journal with `n` entries, followed by the journal's last line.
pub fn legal()
    ensures { (bytes : List ℕ) (n : ℕ) → audit_of bytes ≡ sound n → IsJournal bytes n }
{
    exact_verdicts();
    kcl_journal::one_entry();
}

/// Consider the text of a legal journal, including the last line. An audit finds this text sound (valid), unless a line
/// or the input is longer than the limits.
pub fn complete()
    ensures sounds { (bytes : List ℕ) (n : ℕ) → IsJournal bytes n → audit_of bytes ≢ over → audit_of bytes ≡ sound n }
    ensures lengths { (bytes : List ℕ) → audit_of bytes ≡ over → (lined bytes).end ≡ too_long }
{
    exact_verdicts();
    kcl_journal::one_entry();
}
