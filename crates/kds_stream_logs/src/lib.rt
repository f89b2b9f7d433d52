//! The logs and the throughput windows of a stream's shards. A log has the records of one shard. A window counts the
//! records and bytes that one shard accepted within a second. The crate also has functions that read from one shard,
//! route records to the logs, and carry out the splits and merges of a scaling (UpdateShardCount).
#![tactic(auto)]

mod logs;
mod reading;
mod routes;
mod steps;
mod windows;

pub use logs::{new_logs, put_at, settle_at};
pub use reading::{batch_at, is_end, last_no, millis_behind, origin_position, position};
pub use routes::{Routed, Routes, item_bytes, put_all, route_all};
pub use steps::{add_shards, is_spent, made_by, reserve_shards, take_steps};
pub use windows::{SavedWindow, admits_at, count_at, new_windows, restore_windows};
