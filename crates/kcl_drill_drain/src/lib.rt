//! Reads every listed shard (each shard that ListShards returns) to its end and sets the shard's checkpoint there, on
//! any `Machine`.
#![tactic(auto)]

mod asking;
mod drain;
mod held;
mod laws;
mod making;
mod reading;
mod rows;
mod turns;

pub use drain::lone_drain;
