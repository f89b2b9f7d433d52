//! A model of the streams for the judge, which checks the entries of a journal (an event log) one after another. The
//! model is a plain list of streams, each with a plain list of records for each shard. The judge checks an entry about
//! a stream against the model. If the entry breaks no rule, the judge applies it to the model.
#![tactic(auto)]

mod puts;
mod records;
mod rule;
mod shard_records;
mod stream;
mod stream_entries;
mod stream_records;
mod streams;

pub use records::Sized;
pub use rule::Rule;
pub use stream::ToldStream;
pub use stream_entries::{add, judge};
pub use stream_records::Records;
pub use streams::{StreamList, ToldStreams};
