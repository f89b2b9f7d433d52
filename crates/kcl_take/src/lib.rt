//! The lease taker of a worker: its notes on the lease rows that it has seen, and the choice of the leases that it
//! takes. A row is the item of a lease in the lease table.
#![tactic(auto)]

mod observed;
mod taking;

pub use kcl_defs::{Held, TakeStep};
pub use observed::Observed;
pub use taking::plan;
