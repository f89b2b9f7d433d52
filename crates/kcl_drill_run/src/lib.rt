//! Runs a drill, which is a self-test: workers and a generator of commands share one machine, on several threads. Then
//! each shard is read to its end, and the records of the stream are counted in a summary.
#![tactic(auto)]

mod closing;
mod participants;
mod run;
mod text;
mod threads;

pub use run::run_drill;
