//! The lease table. Each row is the lease of one shard, and says how far the shard has been processed.
#![tactic(auto)]

mod search;
mod table;
mod writes;

pub use table::Table;
pub use writes::Change;
