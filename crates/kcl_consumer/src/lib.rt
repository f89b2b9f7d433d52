//! The consumer of a lease, which reads batches, hands them to a processor, and sets checkpoints (Kinesis Client
//! Library, ShardConsumer).
#![tactic(auto)]

mod ahead;
pub mod consumer;
mod laws;
mod positions;
pub mod processor;
mod stage;

pub use ahead::Ahead;
pub use consumer::{Consumer, life};
pub use kcl_defs::{Ask, Call, Due, Progress, Why};
pub use laws::never_full;
pub use positions::{first_position, last_in};
pub use processor::{Maker, Processor};
