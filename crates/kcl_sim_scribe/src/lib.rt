//! Computes the lines of a journal, which is an event log, from commands and the machine's answers to these commands. A
//! command with its sender and its time is called a turn.
#![tactic(auto)]

mod entries;
mod known;
mod laws;
mod leases;
mod scribe;

pub use laws::turn_by_turn;
pub use scribe::Scribe;
