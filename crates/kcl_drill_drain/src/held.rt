//! The state of a tenure, one worker's hold on a lease, while the lease's shard is read to the end.
use kds_base::TenureNo;

/// The most records that one read returns.
pub const READ: u32 = 1_000;

/// The state of a tenure: its number, the position of its next read, and the counter of its row in the lease table.
#[derive(Clone, Copy)]
pub struct DrainTenure {
    pub tenure: TenureNo,
    pub position: u64,
    pub counter: u64,
}
