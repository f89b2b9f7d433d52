//! Audits single entries of a journal, which is an event log, one after another.
ghost use Rattle.std.specs.Prelude.{ℕ, ◌≡◌, ◌∷◌, [], IfOk, OnErr, OnOk};
ghost use Rattle.kds_defs.specs.Journal.{Journal};
ghost use Rattle.kcl_journal.specs.Ranges.{IsTellable};
ghost use Rattle.kcl_audit_judge.specs.Standing.{Stands};
ghost use Rattle.kcl_audit_streams.specs.Verdict.{end_verdict, verdict};
ghost use Rattle.kcl_audit.specs.Progress.{line_of};

use kcl_audit_judge::Judge;
use kcl_audit_streams::Rule;
use kcl_journal::EntryLine;
use kds_base::{Memory, Moment};
use std::alloc::Global;
use std::marker::Model;

/// An audit of single entries. It holds the state after the good entries so far. A good entry breaks no rule. In
/// contracts, an audit is represented by its judge.
#[derive(Drop)]
pub struct Audit {
    judge: Judge,
}

impl Model for Audit {
    ghost use Rattle.kcl_audit_judge.specs.Standing.{JudgeValue};

    ghost Value = { JudgeValue };

    ghost view = { λ a. a.judge };
}

impl Audit {
    /// Returns an audit that has seen no entry.
    pub fn new(alloc: Global) -> Audit
        ensures { Stands result [] }
    {
        Audit {
            judge: Judge::new(alloc),
        }
    }

    /// Judges the next entry of a journal, and applies the entry to the state if the entry breaks no rule. The entry
    /// breaks the rule `Clock` if its clock is below the clock of the previous entry. The entry breaks `By` if its
    /// command is refused, and `Entry` if its command leads to a different entry. If the entry breaks a rule, or memory
    /// runs out, the state is unchanged. Precondition: the text of a journal can state the entry (`IsTellable`).
    pub fn entry(&mut self, alloc: Global, line: EntryLine) -> Result<Result<(), Rule>, Memory>
        requires told { (version : ℕ) × IsTellable version line.what }
        requires stands { (log : Journal) × Stands self.old log }
        ensures value { (log : Journal) → Stands self.old log → IfOk result (λ r. r ≡ verdict log (line_of line)) }
        ensures good { (log : Journal) → Stands self.old log
            → IfOk result (λ r. OnOk r (Stands self.new (line_of line ∷ log))) }
        ensures bad { (log : Journal) → Stands self.old log → IfOk result (λ r. OnErr r (Stands self.new log)) }
        ensures kept { (log : Journal) → Stands self.old log → OnErr result (Stands self.new log) }
    {
        let EntryLine { clock, by, what } = line;
        self.judge.entry(alloc, clock, by, what)
    }

    /// Judges the clock of the journal's last line. Returns the rule `Clock` if `clock` is below the clock of the last
    /// entry, and `Ok` otherwise.
    pub fn finish(&self, clock: Moment) -> Result<(), Rule>
        ensures { (log : Journal) → Stands self.now log → result ≡ end_verdict log clock }
    {
        self.judge.finish(clock)
    }
}
