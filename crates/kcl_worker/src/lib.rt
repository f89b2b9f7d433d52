//! A worker, which chooses its next command, and updates its state with the answer (see Kinesis Client Library,
//! Scheduler).
#![tactic(auto)]

mod answers;
mod laws;
mod next_command;
mod round;
mod worker;

pub use kcl_defs::Settings;
pub use kcl_worker_lists::Retired;
pub use laws::{served, service};
pub use worker::{NoRoom, Worker};
