//! The laws of a drill: theorems, each stated as the contract of a function without parameters. A drill is a self-test
//! in which workers and a generator of commands share one machine. `answers` states how commands on leases are
//! answered, and what they leave unchanged. `histories` states what is known of the list of all commands of a drill.
#![tactic(auto)]

mod answers;
mod histories;

pub use answers::{
    closed_parents, held_answers, held_states, lease_counts, lease_floors, lease_turns,
    record_counts,
};
pub use histories::{closed, drained, horizon, stopped, summed};
