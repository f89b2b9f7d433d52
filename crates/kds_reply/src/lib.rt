//! Turns answers and faults into HTTP responses: a status and a body in JSON. `kds_reply_texts` writes the frequent
//! replies (PutRecord, PutRecords, GetRecords, GetShardIterator) and the refusals directly as text, because a tree of
//! JSON values would cost time and memory for each record. All other replies are built here as a `serde_json::Value`,
//! which takes less code (decision 35; Kinesis API Reference, Actions and Common Errors).
#![tactic(auto)]

mod answers;
mod faults;
mod laws;
mod shards;
mod streams;

pub use answers::{add_reply, reply};
pub use faults::fault;
pub use laws::keys_are_text;
