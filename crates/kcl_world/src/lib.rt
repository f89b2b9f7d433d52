//! The state machine of this program: the streams, the lease table, and the tenures. A tenure is one worker's hold on a
//! lease.
#![tactic(auto)]

mod answer;
mod reads;
mod shards;
mod world;

pub use world::World;
