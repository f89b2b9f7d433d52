//! The rules for the entries of a journal, which is an event log. An entry records a command and what this command
//! changed.
use kds_defs::Refusal;

/// Why an entry of a journal is bad: the rule that it breaks.
#[derive(Clone, Copy, Debug, PartialEq, Eq)]
pub enum Rule {
    /// The line isn't a line of a journal, the text ends without a journal's last line (`end CLOCK`), or a line follows
    /// this last line. Only the audit of a whole text finds such a fault. The judge, which checks single entries, never
    /// returns this rule.
    Form,
    /// The entry's clock is below the clock of the entry before it.
    Clock,
    /// At this point of the journal, the machine would accept the command that the entry records, but the command would
    /// lead to a different entry.
    Entry,
    /// At this point of the journal, the machine would refuse the command that the entry records, with this refusal.
    By(Refusal),
}
