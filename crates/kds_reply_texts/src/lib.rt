//! Writes the bodies of the frequent replies and of refusals directly as JSON text (decision 35): records, child
//! shards, results of puts, shard iterators and refusals. Building a tree of JSON values for them would cost time and
//! memory for each record. `kds_reply` builds the bodies of all other replies as such a tree (see Kinesis API
//! Reference, Response Elements and Errors of each action).
#![tactic(auto)]

mod batches;
mod children;
mod errors;
mod moments;
mod overwriting;
mod pieces;
mod put_results;
mod records;
mod refusals;
mod tokens;
mod writing;

pub use batches::add_batch;
pub use errors::{BAD_REQUEST, error_body};
pub use moments::seconds;
pub use pieces::push_piece;
pub use put_results::{add_outcomes, add_place};
pub use refusals::refusal_body;
pub use tokens::{iterator_body, listing_token};
