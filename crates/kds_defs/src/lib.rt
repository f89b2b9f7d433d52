//! The commands, replies and refusals of the machine, the entries of its journal (event log), and the contract of a
//! machine. The machine is the deterministic state machine that answers all commands. The definitions that contracts
//! cite are in `specs/`.
#![tactic(auto)]

pub mod command;
mod copy;
pub mod entry;
mod key_order;
mod laws;
mod limit_laws;
pub mod limits;
pub mod machine;
mod positions;
pub mod reply;
pub mod scale;
mod shard_laws;

pub use command::{Command, NewItem, Origin, Start, Target, Turn};
pub use entry::Entry;
pub use key_order::is_before;
pub use laws::{lease_answers, refusal_chain, service_answers};
pub use limit_laws::{lease_limits, rate_limits, request_limits, schedule_limits, service_limits};
pub use machine::{Answer, Machine, let_go};
pub use positions::{position_after, position_after_numbers};
pub use reply::{About, Iter, Outcome, Page, Place, Refusal, Reply, Row, Shard, Stored};
pub use scale::ScaleStep;
pub use shard_laws::{numbered_shards, tiled_shards};
