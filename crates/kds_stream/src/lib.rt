//! One stream: its shards, their records, its sequence numbers, its clock, and the trimming of its records.
#![tactic(auto)]

mod laws;
mod stream;

pub use laws::other_lines;
pub use stream::Stream;
