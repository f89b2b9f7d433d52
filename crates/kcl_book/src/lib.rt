//! The tenures of leases. A tenure is one worker's hold on a lease, from the moment the lease is taken until it is
//! freed or taken again. For each tenure, the book (`Book`) says who took the lease, what was read, and which of the
//! reads were delivered to the record processor.
#![tactic(auto)]

mod book;
mod kept;
mod tenure;

pub use book::Book;
pub use tenure::Tenure;
