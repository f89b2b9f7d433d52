//! Audits the text of a journal, which is an event log: decides whether a machine can write this journal. If not, finds
//! the first bad entry and the rule that this entry breaks. An audit gets its input in one of three forms: as single
//! entries (`Audit`), as lines (`AuditTaker`), or as a whole text that is read from a source (`run_audit`).
#![tactic(auto)]

mod laws;
mod lines;
mod names;
mod run;
mod stage;
mod verdict;

pub use kcl_audit_streams::Rule;
pub use laws::{complete, exact, legal};
pub use lines::AuditTaker;
pub use names::{print_sound, print_unsound, rule_name};
pub use run::run_audit;
pub use verdict::Audit;
