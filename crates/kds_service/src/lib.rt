//! The stream service: all live streams by name, and the limits that apply to all streams together. A stream is live
//! from its creation until its deletion.
#![tactic(auto)]

mod clocks;
mod creation;
mod laws;
mod lease_keys;
mod listing;
mod lookup;
mod serve;
mod service;
mod streams_by_name;

pub use laws::lease_lines;
pub use service::Service;
