//! Judges the entries of a journal, which is an event log, one after another. An entry records a command and what this
//! command changed. An entry is good if it breaks no rule. A row is a lease in the lease table. A tenure is one
//! worker's hold on a lease.
ghost use Rattle.std.specs.Prelude.{◌≡◌, ◌∷◌, [], IfOk, OnErr, OnOk};
ghost use Rattle.kcl_laws.specs.ShownLines.{entry_line};
ghost use Rattle.kds_defs.specs.Journal.{Journal};
ghost use Rattle.kds_defs.specs.Legal.{told};
ghost use Rattle.kcl_audit_judge.specs.Standing.{Holds, Stands};
ghost use Rattle.kcl_audit_streams.specs.Verdict.{IsFit, end_verdict, judged, verdict};
ghost use Rattle.kcl_audit_streams.specs.Judging.{stream_verdict, streams_after};

use crate::lease_entries;
use kcl_audit_streams::{Rule, StreamList, ToldStreams, add, judge};
use kcl_book::Book;
use kcl_table::Table;
use kds_base::{Memory, Moment};
use kds_defs::Entry;
use std::alloc::Global;
use std::marker::Model;

/// The state after the good entries that the journal had so far. It consists of the clock of the last good entry, the
/// streams, the rows of the lease table, and the tenures.
#[derive(Drop)]
pub struct Judge {
    streams: ToldStreams,
    table: Table,
    book: Book,
}

/// Judges an entry about a stream. The present time is `streams.clock`. If the entry breaks no rule, it is applied to
/// the streams. If the entry breaks a rule, or memory runs out, the streams are unchanged.
fn stream_entry(
    alloc: Global,
    streams: &mut ToldStreams,
    what: Entry,
) -> Result<Result<(), Rule>, Memory>
    requires fit { IsFit what }
    ensures clock { streams.new.clock ≡ streams.old.clock }
    ensures value { IfOk result (λ r. r ≡ stream_verdict streams.old.streams streams.old.clock what) }
    ensures good { IfOk result
        (λ r. OnOk r (streams.new.streams ≡ streams_after streams.old.clock what streams.old.streams)) }
    ensures bad { IfOk result (λ r. OnErr r (streams.new.streams ≡ streams.old.streams)) }
    ensures kept { OnErr result (streams.new.streams ≡ streams.old.streams) }
{
    if let Err(rule) = judge(&streams.list, streams.clock, &what) {
        return Ok(Err(rule));
    }
    add(alloc, &mut streams.list, streams.clock, what)?;
    Ok(Ok(()))
}

impl Model for Judge {
    ghost use Rattle.kcl_audit_judge.specs.Standing.{JudgeValue, judge};

    ghost Value = { JudgeValue };

    ghost view = { λ a. judge a.streams a.table a.book.tenures };
}

impl Judge {
    /// Returns a judge that has judged no entry yet.
    pub fn new(alloc: Global) -> Judge
        ensures { Stands result [] }
    {
        Judge {
            streams: ToldStreams {
                clock: Moment::start(),
                list: StreamList::new(alloc),
            },
            table: Table::new(alloc),
            book: Book::new(alloc),
        }
    }

    /// Judges an entry. The present time is `self.streams.clock`, and `by` is the actor that sent the entry's command.
    /// If the entry breaks no rule, it is applied to the state. If the entry breaks a rule, or memory runs out, the
    /// state is unchanged.
    fn judge(&mut self, alloc: Global, by: u32, what: Entry) -> Result<Result<(), Rule>, Memory>
        requires fit { IsFit what }
        requires holds { (log : Journal) × Holds self.old log }
        ensures clock { self.new.streams.clock ≡ self.old.streams.clock }
        ensures value { (log : Journal) → Holds self.old log
            → IfOk result (λ r. r ≡ judged (told log (entry_line self.old.streams.clock by what) what) what) }
        ensures good { (log : Journal) → Holds self.old log
            → IfOk result (λ r. OnOk r (Holds self.new (entry_line self.old.streams.clock by what ∷ log))) }
        ensures bad { (log : Journal) → Holds self.old log → IfOk result (λ r. OnErr r (Holds self.new log)) }
        ensures kept { (log : Journal) → Holds self.old log → OnErr result (Holds self.new log) }
    {
        if what.stream().is_some() {
            stream_entry(alloc, &mut self.streams, what)
        } else {
            lease_entries::entry(
                alloc,
                &self.streams,
                &mut self.table,
                &mut self.book,
                by,
                &what,
            )
        }
    }

    /// Judges the next entry of a journal. `clock` is the entry's clock, and `by` is the actor that sent the entry's
    /// command. If the entry breaks no rule, it is applied to the state. The entry breaks the rule `Clock` if its clock
    /// is below the clock of the previous entry. It breaks the rule `By` if its command would be refused, and the rule
    /// `Entry` if its command would lead to a different entry. If the entry breaks a rule, or memory runs out, the
    /// state is unchanged.
    pub fn entry(
        &mut self,
        alloc: Global,
        clock: Moment,
        by: u32,
        what: Entry,
    ) -> Result<Result<(), Rule>, Memory>
        requires fit { IsFit what }
        requires stands { (log : Journal) × Stands self.old log }
        ensures value { (log : Journal) → Stands self.old log
            → IfOk result (λ r. r ≡ verdict log (entry_line clock by what)) }
        ensures good { (log : Journal) → Stands self.old log
            → IfOk result (λ r. OnOk r (Stands self.new (entry_line clock by what ∷ log))) }
        ensures bad { (log : Journal) → Stands self.old log → IfOk result (λ r. OnErr r (Stands self.new log)) }
        ensures kept { (log : Journal) → Stands self.old log → OnErr result (Stands self.new log) }
    {
        let before = self.streams.clock;
        if clock < before {
            return Ok(Err(Rule::Clock));
        }
        self.streams.clock = clock;
        let judged = self.judge(alloc, by, what);
        if !matches!(judged, Ok(Ok(()))) {
            self.streams.clock = before;
        }
        judged
    }

    /// Judges the clock of the journal's last line. Returns the rule `Clock` if `clock` is below the clock of the last
    /// entry, and `Ok` otherwise.
    pub fn finish(&self, clock: Moment) -> Result<(), Rule>
        ensures { (log : Journal) → Stands self.now log → result ≡ end_verdict log clock }
    {
        if clock < self.streams.clock {
            Err(Rule::Clock)
        } else {
            Ok(())
        }
    }
}
