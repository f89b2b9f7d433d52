//! Judges the entries of a journal, which is an event log, one after another. The judge decides whether the command
//! that an entry records would be accepted, and would lead to exactly this entry. The judge keeps plain lists of
//! streams, rows of the lease table, and tenures. A tenure is one worker's hold on a lease.
#![tactic(auto)]

mod judge;
mod laws;
mod lease_entries;

pub use judge::Judge;
pub use laws::exact;
