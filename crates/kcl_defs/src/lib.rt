//! The types of plans, consumers and workers. The contracts on plans, consumers and workers cite definitions, which are
//! in `specs/`.
#![tactic(auto)]

pub mod consumer;
pub mod keyed;
pub mod limits;
pub mod plans;

pub use consumer::{Ask, Call, Due, Fetched, Progress, Settings, Tenancy, Why, WorkerMade};
pub use keyed::{Keyed, are_rising, index_of, insertion_index};
pub use limits::usual_numbers;
pub use plans::{Held, Seen, SyncStep, TakeStep, TenancyId};
