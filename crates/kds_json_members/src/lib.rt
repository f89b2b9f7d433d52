//! Reads the members of the JSON object in a request's body. A member is required, optional or forbidden, and its value
//! has a kind, such as a number or a stream name. Each function returns the member's value or its fault (Kinesis API
//! Reference, Request Parameters of each action, and Common Errors).
#![tactic(auto)]

mod member;
mod numbers;
mod problem;
mod texts;
mod tokens;

pub use member::{absent_member, has_member, object_members, required_member, stop_at, value_at};
pub use numbers::{
    hash_member, moment_member, number_member, optional_id, optional_limit, record_hash,
    sequence_member, shard_member,
};
pub use problem::{Fault, FaultKind, Stop};
pub use texts::{
    blob_member, key_member, mode_member, name_member, optional_name, scaling_member, text_member,
    truth_member,
};
pub use tokens::{iterator_member, page_member};
